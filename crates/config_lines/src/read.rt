//! Lines are read.
ghost use Rattle.std.specs.Prelude.{◌≡◌, map, option_map};
ghost use Rattle.net_base.specs.Gives.{GivesUnless};
ghost use Rattle.config_lines.specs.Fitting.{fitting_router as router_fitting, fitting_origination as origination_fitting, fitting_import as import_fitting};
ghost use Rattle.config_lines.specs.Lines.{
  class_line,
  router_line,
  own_line,
  neighbour,
  session_line,
  peer_line,
  setting,
  tagged_line,
  untagged_line,
  import_line,
  export_line,
  end_line,
  form_line,
  words_line,
  line_of,
};
ghost use Rattle.config_lines.specs.Parts.{parts_left};

use crate::cut::first_part;
use crate::edition::Edition;
use crate::line::{Line, LineFault};
use crate::number::{
    Figure, RawTag, Setting, class_number, fitting_tag, in_range, read_class, read_number,
};
use crate::parts::{expect, is_word, prefix, read_identifier, read_name, read_tag};
use crate::pattern::{read_pattern, read_patterns};
use crate::words::Words;
use config_base::{Export, Import, NO_TAG, Origination};
use net_base::{Name, Prefix};
use std::alloc::Global;

// A `class` line, by what follows its first word up to the first comma, and what stands behind that.
#[tactic(auto, unfolding(crate::specs::Lines::class_line))]
fn read_class_line(alloc: Global, words: &[&[u8]], pieces: Option<&[u8]>) -> Result<Line, LineFault>
    ensures { GivesUnless LineFault.NoMemory (λ l. l) result (class_line (map (λ w. w.now) words.now) (parts_left 44 (option_map (λ p. p.now) pieces.entry))) }
{
    let [number, pattern @ ..] = words else {
        return Err(LineFault::Form);
    };
    let number = read_number(number)?;
    let first = read_pattern(pattern)?;
    let patterns = read_patterns(alloc, first, pieces)?;
    Ok(Line::Class(class_number(number)?, patterns))
}

// The line of a router of this name, the range of whose AS number is judged.
fn fitting_router(edition: Edition, name: Name, asn: Figure, id: u32) -> Result<Line, LineFault>
    ensures { result ≡ router_fitting edition name asn id }
{
    let asn = in_range(asn)?;
    if !edition.router_as(asn) {
        return Err(LineFault::Number);
    }
    Ok(Line::Router(name, asn, id))
}

/// A `router` line, by what follows its first word.
#[tactic(auto, unfolding(crate::specs::Lines::router_line))]
pub fn read_router_line(edition: Edition, words: &[&[u8]]) -> Result<Line, LineFault>
    ensures { result ≡ router_line edition (map (λ w. w.now) words.now) }
{
    let [name, asn_word, asn, id_word, id] = words else {
        return Err(LineFault::Form);
    };
    expect("asn", asn_word)?;
    expect("id", id_word)?;
    let asn = read_number(asn)?;
    let id = read_identifier(id)?;
    let name = read_name(name)?;
    fitting_router(edition, name, asn, id)
}

// The line of a route of a router's own, the ranges of whose numbers are judged.
fn fitting_origination(
    edition: Edition,
    classes: u32,
    class: Figure,
    prefix: Prefix,
    tag: RawTag,
) -> Result<Line, LineFault>
    ensures { result ≡ origination_fitting edition classes class prefix tag }
{
    let class = read_class(classes, class)?;
    let tag = fitting_tag(edition, tag)?;
    Ok(Line::Origination(Origination { class, prefix, tag }))
}

// An `originate` line, by what follows its first word.
#[tactic(auto, unfolding(crate::specs::Lines::own_line))]
fn read_originate_line(edition: Edition, classes: u32, words: &[&[u8]]) -> Result<Line, LineFault>
    ensures { result ≡ own_line edition classes (map (λ w. w.now) words.now) }
{
    let [class, base, tag_word, tag] = words else {
        return Err(LineFault::Form);
    };
    let class = read_number(class)?;
    let prefix = prefix(base)?;
    expect("tag", tag_word)?;
    let tag = read_tag(edition, tag)?;
    fitting_origination(edition, classes, class, prefix, tag)
}

// The name and the AS number of a neighbour, by what follows the first word of its line.
#[tactic(auto, unfolding(crate::specs::Lines::neighbour))]
fn read_neighbour(words: &[&[u8]]) -> Result<(Name, u32), LineFault>
    ensures { result ≡ neighbour (map (λ w. w.now) words.now) }
{
    let [name, asn_word, asn] = words else {
        return Err(LineFault::Form);
    };
    expect("asn", asn_word)?;
    let name = read_name(name)?;
    let asn = read_number(asn)?;
    let asn = in_range(asn)?;
    Ok((name, asn))
}

/// A `session` line, by what follows its first word.
#[tactic(auto, unfolding(crate::specs::Lines::session_line))]
pub fn read_session_line(edition: Edition, words: &[&[u8]]) -> Result<Line, LineFault>
    ensures { result ≡ session_line edition (map (λ w. w.now) words.now) }
{
    let (name, asn) = read_neighbour(words)?;
    if !edition.router_as(asn) {
        return Err(LineFault::Number);
    }
    Ok(Line::Session(name, asn))
}

/// A `peer` line, by what follows its first word.
#[tactic(auto, unfolding(crate::specs::Lines::peer_line))]
pub fn read_peer_line(edition: Edition, words: &[&[u8]]) -> Result<Line, LineFault>
    ensures { result ≡ peer_line edition (map (λ w. w.now) words.now) }
{
    let (name, asn) = read_neighbour(words)?;
    if !edition.peer_as(asn) {
        return Err(LineFault::Number);
    }
    Ok(Line::Peer(name, asn))
}

/// The tag and the preference of an import are named: the words behind its class and its own tag.
#[tactic(auto, unfolding(crate::specs::Lines::setting))]
pub fn read_setting(edition: Edition, words: &[&[u8]]) -> Result<Setting, LineFault>
    ensures { result ≡ setting edition (map (λ w. w.now) words.now) }
{
    let [set_word, set, pref_word, pref] = words else {
        return Err(LineFault::Form);
    };
    expect("set", set_word)?;
    let set = read_tag(edition, set)?;
    expect("pref", pref_word)?;
    let pref = read_number(pref)?;
    Ok(Setting { set, pref })
}

// The line of an import of a router, the ranges of whose numbers are judged.
fn fitting_import(
    edition: Edition,
    classes: u32,
    class: Figure,
    tag: RawTag,
    setting: Setting,
) -> Result<Line, LineFault>
    ensures { result ≡ import_fitting edition classes class tag setting }
{
    Ok(Line::Import(Import {
        class: read_class(classes, class)?,
        tag: fitting_tag(edition, tag)?,
        set: fitting_tag(edition, setting.set)?,
        pref: in_range(setting.pref)?,
    }))
}

// An `import` line in the block of a router, by what follows its first word.
#[tactic(auto, unfolding(crate::specs::Lines::tagged_line))]
fn read_tagged_line(edition: Edition, classes: u32, words: &[&[u8]]) -> Result<Line, LineFault>
    ensures { result ≡ tagged_line edition classes (map (λ w. w.now) words.now) }
{
    let [class, tag_word, tag, setting @ ..] = words else {
        return Err(LineFault::Form);
    };
    let class = read_number(class)?;
    expect("tag", tag_word)?;
    let tag = read_tag(edition, tag)?;
    let setting = read_setting(edition, setting)?;
    fitting_import(edition, classes, class, tag, setting)
}

// An `import` line in the block of a peer, by what follows its first word.
#[tactic(auto, unfolding(crate::specs::Lines::untagged_line))]
fn read_untagged_line(edition: Edition, classes: u32, words: &[&[u8]]) -> Result<Line, LineFault>
    ensures { result ≡ untagged_line edition classes (map (λ w. w.now) words.now) }
{
    let [class, setting @ ..] = words else {
        return Err(LineFault::Form);
    };
    let class = read_number(class)?;
    let setting = read_setting(edition, setting)?;
    Ok(Line::PeerImport(Import {
        class: read_class(classes, class)?,
        tag: NO_TAG,
        set: fitting_tag(edition, setting.set)?,
        pref: in_range(setting.pref)?,
    }))
}

// An `import` line, by what follows its first word.
#[tactic(auto, unfolding(crate::specs::Lines::import_line))]
fn read_import_line(edition: Edition, classes: u32, words: &[&[u8]]) -> Result<Line, LineFault>
    ensures { result ≡ import_line edition classes (map (λ w. w.now) words.now) }
{
    if words.len() == 7 {
        read_tagged_line(edition, classes, words)
    } else {
        read_untagged_line(edition, classes, words)
    }
}

// An `export` line, by what follows its first word.
#[tactic(auto, unfolding(crate::specs::Lines::export_line))]
fn read_export_line(edition: Edition, classes: u32, words: &[&[u8]]) -> Result<Line, LineFault>
    ensures { result ≡ export_line edition classes (map (λ w. w.now) words.now) }
{
    let [class, tag_word, tag] = words else {
        return Err(LineFault::Form);
    };
    let class = read_number(class)?;
    expect("tag", tag_word)?;
    let tag = read_tag(edition, tag)?;
    let class = read_class(classes, class)?;
    let tag = fitting_tag(edition, tag)?;
    Ok(Line::Export(Export { class, tag }))
}

/// The `end` line, behind whose word nothing stands.
#[tactic(auto, unfolding(crate::specs::Lines::end_line))]
pub fn read_end_line(words: &[&[u8]]) -> Result<Line, LineFault>
    ensures { result ≡ end_line (map (λ w. w.now) words.now) }
{
    match words {
        [] => Ok(Line::End),
        _ => Err(LineFault::Form),
    }
}

// A line other than that of a class, by its first word and what follows it.
#[tactic(auto, unfolding(crate::specs::Lines::form_line))]
fn read_form_line(
    edition: Edition,
    classes: u32,
    word: &[u8],
    words: &[&[u8]],
) -> Result<Line, LineFault>
    ensures { result ≡ form_line edition classes word.now (map (λ w. w.now) words.now) }
{
    if is_word("router", word) {
        read_router_line(edition, words)
    } else if is_word("originate", word) {
        read_originate_line(edition, classes, words)
    } else if is_word("session", word) {
        read_session_line(edition, words)
    } else if is_word("peer", word) {
        read_peer_line(edition, words)
    } else if is_word("import", word) {
        read_import_line(edition, classes, words)
    } else if is_word("export", word) {
        read_export_line(edition, classes, words)
    } else if is_word("end", word) {
        read_end_line(words)
    } else {
        Err(LineFault::Form)
    }
}

// A line, by the words of its first piece and what stands behind the first comma.
#[tactic(auto, unfolding(crate::specs::Lines::words_line))]
fn read_words_line(
    alloc: Global,
    edition: Edition,
    classes: u32,
    words: &[&[u8]],
    pieces: Option<&[u8]>,
) -> Result<Line, LineFault>
    ensures { GivesUnless LineFault.NoMemory (λ l. l) result (words_line edition classes (map (λ w. w.now) words.now) (parts_left 44 (option_map (λ p. p.now) pieces.entry))) }
{
    let [word, words @ ..] = words else {
        return Err(LineFault::Form);
    };
    if is_word("class", word) {
        return read_class_line(alloc, words, pieces);
    }
    match pieces {
        Some(_) => Err(LineFault::Form),
        None => read_form_line(edition, classes, word, words),
    }
}

/// The line of this edition that the bytes spell, where there are so many classes above it, or why they spell none:
/// its form is judged before its numbers. The numbers of classes are from 1 to `classes`, but for that of a `class`
/// line, which has no range. It takes memory for the patterns of a `class` line alone.
#[tactic(auto, unfolding(crate::specs::Lines::line_of))]
pub fn read_line(
    alloc: Global,
    edition: Edition,
    bytes: &[u8],
    classes: u32,
) -> Result<Line, LineFault>
    ensures { GivesUnless LineFault.NoMemory (λ l. l) result (line_of edition bytes.now classes) }
{
    let (piece, pieces) = first_part(b',', bytes);
    match Words::of(piece) {
        Some(words) => read_words_line(alloc, edition, classes, words.as_slice(), pieces),
        None => Err(LineFault::Form),
    }
}
