//! The lines of a block, found in their order.
ghost use Rattle.std.specs.Prelude.{◌≡◌, ◌&&◌, ◌||◌, ◌==◌, nat_lt, map, Some, None, if◌then◌else◌};
ghost use Rattle.std.specs.List.{find, list_any};
ghost use Rattle.config_base.specs.Configs.{Ascend, tag_key};
ghost use Rattle.config_base.specs.Lines.{same_tag};

use crate::config::{Export, Import};
use net_base::Tag;

// Whether a line of the first class and tag stands above a line of the second ones: by class, and then by
// the tag.
fn stands_above(class: u32, tag: Tag, other_class: u32, other_tag: Tag) -> bool
    ensures { result ≡ (nat_lt class other_class || (class == other_class && (nat_lt tag.asn other_tag.asn || (tag.asn == other_tag.asn && nat_lt tag.value other_tag.value)))) }
{
    (class, tag) < (other_class, other_tag)
}

// The line, where it has this class and this tag.
fn import_if(rule: Import, class: u32, tag: Tag) -> Option<Import>
    ensures { result ≡ (if rule.class == class && same_tag rule.tag tag then Some rule else None) }
{
    if rule.class == class && rule.tag == tag {
        Some(rule)
    } else {
        None
    }
}

/// The import line of a class and a tag, among lines that ascend.
pub(crate) fn import_line(imports: &[Import], class: u32, tag: Tag) -> Option<Import>
    requires { Ascend (map (λ r. tag_key r.class r.tag) imports.now) }
    ensures { result ≡ find (λ r. r.class == class && same_tag r.tag tag) imports.now }
{
    let place = imports.partition_point(|rule| stands_above(rule.class, rule.tag, class, tag));
    let rule = *imports.get(place)?;
    import_if(rule, class, tag)
}

// Whether the line sends routes of the class with the tag.
fn is_export(line: &Export, class: u32, tag: Tag) -> bool
    ensures { result ≡ (line.now.class == class && same_tag line.now.tag tag) }
{
    line.class == class && line.tag == tag
}

/// Whether there is an export line of a class and a tag, among lines that ascend.
pub(crate) fn has_export(exports: &[Export], class: u32, tag: Tag) -> bool
    requires { Ascend (map (λ e. tag_key e.class e.tag) exports.now) }
    ensures { result ≡ list_any (λ e. e.class == class && same_tag e.tag tag) exports.now }
{
    let place = exports.partition_point(|line| stands_above(line.class, line.tag, class, tag));
    match exports.get(place) {
        None => false,
        Some(line) => is_export(line, class, tag),
    }
}
