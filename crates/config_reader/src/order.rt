//! The order of a configuration's lines.
ghost use Rattle.std.specs.Prelude.{◌≡◌};
ghost use Rattle.config_base.specs.Configs.{origination_key as key_of_origination, tag_key as key_of_tag};
ghost use Rattle.config_reader.specs.Order.{is_below as below, ascends, import_key as key_of_import, export_key as key_of_export};
ghost use Rattle.config_reader.specs.Views.{key};

use config_base::{Export, Import, Origination};
use net_base::Tag;

/// The three numbers by which a line stands in its list, the first one first.
#[derive(Clone, Copy, Debug, PartialEq, Eq)]
pub struct Numbers {
    first: u32,
    second: u32,
    third: u32,
}

// Whether a line stands below another.
fn is_below(a: Numbers, b: Numbers) -> bool
    ensures { result ≡ below (key a) (key b) }
{
    a.first < b.first
        || (a.first == b.first
            && (a.second < b.second || (a.second == b.second && a.third < b.third)))
}

// The numbers of a class and a tag.
fn tag_numbers(class: u32, tag: Tag) -> Numbers
    ensures { key result ≡ key_of_tag class tag }
{
    Numbers {
        first: class,
        second: tag.asn,
        third: tag.value,
    }
}

// The numbers of an originate line.
fn own_numbers(own: &Origination) -> Numbers
    ensures { key result ≡ key_of_origination own.now }
{
    Numbers {
        first: own.class,
        second: own.prefix.bits(),
        third: u32::from(own.prefix.len()),
    }
}

/// Whether an originate line may stand behind these.
pub fn origination_ascends(owns: &[Origination], next: &Origination) -> bool
    ensures { result ≡ ascends key_of_origination owns.now (key_of_origination next.now) }
{
    match owns.last() {
        None => true,
        Some(last) => is_below(own_numbers(last), own_numbers(next)),
    }
}

/// Whether an import line may stand behind these.
pub fn import_ascends(rules: &[Import], next: &Import) -> bool
    ensures { result ≡ ascends key_of_import rules.now (key_of_import next.now) }
{
    match rules.last() {
        None => true,
        Some(last) => is_below(
            tag_numbers(last.class, last.tag),
            tag_numbers(next.class, next.tag),
        ),
    }
}

/// Whether an export line may stand behind these.
pub fn export_ascends(exports: &[Export], next: &Export) -> bool
    ensures { result ≡ ascends key_of_export exports.now (key_of_export next.now) }
{
    match exports.last() {
        None => true,
        Some(last) => is_below(
            tag_numbers(last.class, last.tag),
            tag_numbers(next.class, next.tag),
        ),
    }
}
