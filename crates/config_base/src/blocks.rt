//! The class of a prefix, and the blocks of routers and of their neighbours.
ghost use Rattle.std.specs.Prelude.{◌≡◌, ℕ, ◌&&◌, not, if◌then◌else◌, Some, [], IfSome, map, option_map};
ghost use Rattle.std.specs.List.{find, AllByRecursion, IsDistinct};
ghost use Rattle.std.specs.Str.{bytes_eq};
ghost use Rattle.net_base.specs.Network.{is_named as named, is_peer};
ghost use Rattle.policy_base.specs.Governing.{some_contains};
ghost use Rattle.config_base.specs.Configs.{IsRouter, IsSession};
ghost use Rattle.config_base.specs.Lines.{class_of as class, router_at, block_at};

use crate::config::{Config, RouterConfig, Session};
use net_base::{Loc, Name, Net, Pattern, Prefix};

// Whether some pattern contains the prefix.
fn is_in_some(patterns: &[Pattern], prefix: Prefix) -> bool
    ensures { result ≡ some_contains patterns.now prefix }
{
    patterns.iter().any(|pattern| pattern.contains(prefix))
}

/// The class of a prefix, from 1: the first one with a pattern that contains it.
pub fn class_of(config: &Config, prefix: Prefix) -> Option<u32>
    ensures { result ≡ class config.now prefix }
{
    let classes = config.classes();
    for i in 0..classes.len() {
        if is_in_some(classes[i].as_slice(), prefix) {
            return Some(i as u32 + 1);
        }
    }
    None
}

// Whether the name is that of the location.
fn is_named(net: &Net, name: Name, at: Loc) -> bool
    ensures { result ≡ named net.now name at }
{
    (net.is_router(at) || net.is_peer(at)) && net.name_of(at) == name
}

// The block in the router's own place, where it has its name: blocks of a compiled configuration stand as the routers do.
fn block_in_place<'a>(
    net: &Net,
    routers: &'a [RouterConfig],
    router: Loc,
) -> Option<&'a RouterConfig>
    requires { IsDistinct bytes_eq (map (λ c. c.name) routers.now) }
    ensures { IfSome result (λ c. find (λ b. named net.now b.name router) routers.now ≡ Some c.now) }
{
    let block = routers.get(router.number() as usize)?;
    if is_named(net, block.name, router) {
        Some(block)
    } else {
        None
    }
}

// The first block with the router's name.
fn named_block<'a>(net: &Net, routers: &'a [RouterConfig], router: Loc) -> Option<&'a RouterConfig>
    ensures { option_map (λ c. c.now) result ≡ find (λ b. named net.now b.name router) routers.now }
{
    for block in routers {
        if is_named(net, block.name, router) {
            return Some(block);
        }
    }
    None
}

/// The block of a router among those of a configuration or of maps, found by its name.
pub fn router_block<'a>(
    net: &Net,
    routers: &'a [RouterConfig],
    router: Loc,
) -> Option<&'a RouterConfig>
    requires { IsDistinct bytes_eq (map (λ c. c.name) routers.now) }
    ensures block { option_map (λ c. c.now) result ≡ router_at net.now (record { classes = []; routers = routers.now }) router }
    ensures rules { (count : ℕ) → AllByRecursion (IsRouter count) routers.now → IfSome result (λ c. IsRouter count c.now) }
{
    if !net.is_router(router) {
        return None;
    }
    match block_in_place(net, routers, router) {
        Some(block) => Some(block),
        None => named_block(net, routers, router),
    }
}

// Whether two names are the same.
fn is_same(name: Name, other: Name) -> bool
    ensures { result ≡ bytes_eq name other }
{
    name == other
}

// Whether the block has this name and is a peer's or a router's, as is asked for.
fn is_wanted(block: &Session, name: Name, peer: bool) -> bool
    ensures { result ≡ (bytes_eq name block.now.name && (if block.now.peer then peer else not peer)) }
{
    is_same(name, block.name) && block.peer == peer
}

// The block with this name that is a peer's or a router's, as is asked for.
fn block_named(sessions: &[Session], name: Name, peer: bool) -> Option<&Session>
    ensures { option_map (λ b. b.now) result ≡ find (λ b. bytes_eq name b.name && (if b.peer then peer else not peer)) sessions.now }
{
    for session in sessions {
        if is_wanted(session, name, peer) {
            return Some(session);
        }
    }
    None
}

/// The block that a router has of a neighbour, found by its name. A `peer` block is for a peer alone.
pub fn session_block<'a>(
    net: &Net,
    routers: &'a [RouterConfig],
    router: Loc,
    neighbour: Loc,
) -> Option<&'a Session>
    requires { IsDistinct bytes_eq (map (λ c. c.name) routers.now) }
    ensures block { option_map (λ b. b.now) result ≡ block_at net.now (record { classes = []; routers = routers.now }) router neighbour }
    ensures rules { (count : ℕ) → AllByRecursion (IsRouter count) routers.now → IfSome result (λ b. IsSession count b.now) }
    ensures kind { IfSome result (λ b. b.now.peer ≡ is_peer net.now neighbour) }
{
    let block = router_block(net, routers, router)?;
    let peer = net.is_peer(neighbour);
    if !peer && !net.is_router(neighbour) {
        return None;
    }
    block_named(block.sessions.as_slice(), net.name_of(neighbour), peer)
}
