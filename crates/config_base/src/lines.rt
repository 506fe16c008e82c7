//! What the lines of a configuration make of a neighbour's route.
ghost use Rattle.std.specs.Prelude.{◌≡◌, ◌&&◌, ◌||◌, ◌==◌, map, if◌then◌else◌, unwrap_or};
ghost use Rattle.std.specs.List.{find, list_any, AllByRecursion};
ghost use Rattle.net_base.specs.Numbers.{no_tag};
ghost use Rattle.net_base.specs.Prefixes.{same_prefix};
ghost use Rattle.net_base.specs.Network.{asn_of, is_peer};
ghost use Rattle.config_base.specs.Configs.{Ascend, HasTag, tag_key};
ghost use Rattle.config_base.specs.Lines.{same_tag, is_looped as looped, export_by as exported_by, export_of as exported, import_by as imported_by, import_of as imported, own_tag as tag_of_own};

use crate::blocks::{class_of, router_block, session_block};
use crate::config::{Config, Import, Origination, Session};
use crate::route::{NO_TAG, Route};
use crate::search::{has_export, import_line};
use net_base::{Loc, Net, Prefix, Tag};

// The tag that a route has in the session of a neighbour: none where the neighbour is a peer.
fn session_tag(net: &Net, neighbour: Loc, tag: Tag) -> Tag
    ensures { result ≡ (if is_peer net.now neighbour then no_tag else tag) }
{
    if net.is_peer(neighbour) { NO_TAG } else { tag }
}

/// The tag that goes with a route over an export line of a block, or None where no line permits it. It is removed
/// towards peers.
pub fn export_by(net: &Net, block: &Session, class: u32, to: Loc, tag: Tag) -> Option<Tag>
    requires { Ascend (map (λ e. tag_key e.class e.tag) block.now.exports) }
    ensures { result ≡ exported_by net.now class to tag block.now }
{
    if !has_export(block.exports.as_slice(), class, tag) {
        return None;
    }
    Some(session_tag(net, to, tag))
}

/// The tag that goes with a router's route over a session, or None where no line permits it.
pub fn export_of(
    net: &Net,
    config: &Config,
    class: u32,
    from: Loc,
    to: Loc,
    route: &Route,
) -> Option<Tag>
    ensures { result ≡ exported net.now config.now class from to route.now.tag }
{
    let block = session_block(net, config.routers(), from, to)?;
    export_by(net, block, class, to, route.tag)
}

// The AS number of a location, 0 where the net has no such location.
fn as_number(net: &Net, at: Loc) -> u32
    ensures { result ≡ asn_of net.now at }
{
    if net.is_router(at) || net.is_peer(at) {
        net.site(at).asn
    } else {
        0
    }
}

// Whether some router of the net has this AS number.
fn is_router_number(net: &Net, asn: u32) -> bool
    ensures { result ≡ list_any (λ r. r.asn == asn) net.now.routers }
{
    net.routers().iter().any(|router| router.asn == asn)
}

// Whether some location's AS number is that of a router.
fn has_router_number(net: &Net, path: &[Loc]) -> bool
    ensures { result ≡ list_any (λ l. list_any (λ r. r.asn == asn_of net.now l) net.now.routers) path.now }
{
    path.iter()
        .any(|l| is_router_number(net, as_number(net, *l)))
}

// Whether some location has this AS number.
fn has_number(net: &Net, path: &[Loc], asn: u32) -> bool
    ensures { result ≡ list_any (λ l. asn_of net.now l == asn) path.now }
{
    path.iter().any(|l| as_number(net, *l) == asn)
}

// Whether the AS_PATH of a neighbour's route holds the importer's number or, where the neighbour is a peer,
// the number of any router.
fn is_looped(net: &Net, at: Loc, from: Loc, path: &[Loc]) -> bool
    ensures { result ≡ looped net.now at from path.now }
{
    if net.is_peer(from) {
        has_router_number(net, path)
    } else {
        has_number(net, path, as_number(net, at))
    }
}

// The line that a block has for a class and the tag of a neighbour's route. A peer's communities are ignored.
fn line_for(net: &Net, block: &Session, class: u32, from: Loc, tag: Tag) -> Option<Import>
    requires order { Ascend (map (λ r. tag_key r.class r.tag) block.now.imports) }
    requires tags { AllByRecursion (λ r. HasTag block.now r.tag) block.now.imports }
    requires kind { block.now.peer ≡ is_peer net.now from }
    ensures { result ≡ find (λ r. r.class == class && (is_peer net.now from || same_tag r.tag tag)) block.now.imports }
{
    import_line(block.imports.as_slice(), class, session_tag(net, from, tag))
}

/// The tag and the preference that an import line of a block gives a neighbour's route, whose path begins with the
/// neighbour, or None where no line permits it. A route is refused where its AS_PATH holds the importer's
/// number (RFC 4271, 9.1.2) or, where it comes from a peer, the number of any router.
pub fn import_by(
    net: &Net,
    block: &Session,
    class: u32,
    at: Loc,
    from: Loc,
    path: &[Loc],
    tag: Tag,
) -> Option<(Tag, u32)>
    requires order { Ascend (map (λ r. tag_key r.class r.tag) block.now.imports) }
    requires tags { AllByRecursion (λ r. HasTag block.now r.tag) block.now.imports }
    requires kind { block.now.peer ≡ is_peer net.now from }
    ensures { result ≡ imported_by net.now class at from path.now tag block.now }
{
    if is_looped(net, at, from, path) {
        return None;
    }
    let rule = line_for(net, block, class, from, tag)?;
    Some((rule.set, rule.pref))
}

/// The tag and the preference that a router gives what a neighbour sends over a session, or None where no line
/// permits it.
pub fn import_of(
    net: &Net,
    config: &Config,
    class: u32,
    at: Loc,
    from: Loc,
    path: &[Loc],
    tag: Tag,
) -> Option<(Tag, u32)>
    ensures { result ≡ imported net.now config.now class at from path.now tag }
{
    let block = session_block(net, config.routers(), at, from)?;
    import_by(net, block, class, at, from, path, tag)
}

// The `originate` line of a class and a prefix.
fn own_line(lines: &[Origination], class: u32, prefix: Prefix) -> Option<Origination>
    ensures { result ≡ find (λ o. o.class == class && same_prefix o.prefix prefix) lines.now }
{
    for line in lines {
        if line.class == class && line.prefix == prefix {
            return Some(*line);
        }
    }
    None
}

// The tag of a router's `originate` line with the prefix's class and the prefix.
fn originated_tag(net: &Net, config: &Config, prefix: Prefix, router: Loc) -> Option<Tag>
    ensures { tag_of_own net.now config.now prefix router ≡ unwrap_or result no_tag }
{
    let block = router_block(net, config.routers(), router)?;
    let class = class_of(config, prefix)?;
    let own = own_line(block.own.as_slice(), class, prefix)?;
    Some(own.tag)
}

/// The tag of an origin's own route: that of its `originate` line with the prefix's class and the prefix,
/// or none.
pub fn own_tag(net: &Net, config: &Config, prefix: Prefix, router: Loc) -> Tag
    ensures { result ≡ tag_of_own net.now config.now prefix router }
{
    originated_tag(net, config, prefix, router).unwrap_or(NO_TAG)
}
