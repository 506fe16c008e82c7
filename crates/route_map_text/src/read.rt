//! Lines of maps texts are read.
ghost use Rattle.std.specs.Prelude.{◌≡◌, ◌==◌, if◌then◌else◌, length, map};
ghost use Rattle.route_map_text.specs.MapLines.{kind_of, list_line, network_line, matched, unmatched, in_line, exported, out_line, as_block, form_line, words_line, map_line_of};

use crate::line::MapLine;
use config_base::{Export, Import, NO_TAG, Origination};
use config_lines::{
    Edition, Figure, Line, LineFault, Words, class_number, expect, fitting_tag, in_range, is_word,
    prefix, read_class, read_end_line, read_number, read_pattern, read_peer_line, read_router_line,
    read_session_line, read_setting, read_tag,
};
use route_maps::ListLine;

// Whether a word says that a line permits.
#[tactic(auto, unfolding(crate::specs::MapLines::kind_of))]
fn read_kind(word: &[u8]) -> Result<bool, LineFault>
    ensures { result ≡ kind_of word.now }
{
    if is_word("permit", word) {
        Ok(true)
    } else if is_word("deny", word) {
        Ok(false)
    } else {
        Err(LineFault::Form)
    }
}

// A `list` line, by what follows its first word.
#[tactic(auto, unfolding(crate::specs::MapLines::list_line))]
fn read_list_line(words: &[&[u8]]) -> Result<MapLine, LineFault>
    ensures { result ≡ list_line (map (λ w. w.now) words.now) }
{
    let [number, kind, pattern @ ..] = words else {
        return Err(LineFault::Form);
    };
    let number = read_number(number)?;
    let permit = read_kind(kind)?;
    let pattern = read_pattern(pattern)?;
    let number = class_number(number)?;
    Ok(MapLine::List(number, ListLine { permit, pattern }))
}

// A `network` line, by what follows its first word.
#[tactic(auto, unfolding(crate::specs::MapLines::network_line))]
fn read_network_line(lists: u32, words: &[&[u8]]) -> Result<Line, LineFault>
    ensures { result ≡ network_line lists (map (λ w. w.now) words.now) }
{
    let [base, list_word, list, set_word, tag] = words else {
        return Err(LineFault::Form);
    };
    let prefix = prefix(base)?;
    expect("list", list_word)?;
    let list = read_number(list)?;
    expect("set", set_word)?;
    let tag = read_tag(Edition::Second, tag)?;
    let class = read_class(lists, list)?;
    let tag = fitting_tag(Edition::Second, tag)?;
    Ok(Line::Origination(Origination { class, prefix, tag }))
}

// What an `in` line says in the block of a router, by what follows its list.
#[tactic(auto, unfolding(crate::specs::MapLines::matched))]
fn read_matched(lists: u32, list: Figure, words: &[&[u8]]) -> Result<Line, LineFault>
    ensures { result ≡ matched lists list (map (λ w. w.now) words.now) }
{
    let [match_word, tag, setting @ ..] = words else {
        return Err(LineFault::Form);
    };
    expect("match", match_word)?;
    let tag = read_tag(Edition::Second, tag)?;
    let setting = read_setting(Edition::Second, setting)?;
    Ok(Line::Import(Import {
        class: read_class(lists, list)?,
        tag: fitting_tag(Edition::Second, tag)?,
        set: fitting_tag(Edition::Second, setting.set)?,
        pref: in_range(setting.pref)?,
    }))
}

// What an `in` line says in the block of a peer, by what follows its list.
#[tactic(auto, unfolding(crate::specs::MapLines::unmatched))]
fn read_unmatched(lists: u32, list: Figure, words: &[&[u8]]) -> Result<Line, LineFault>
    ensures { result ≡ unmatched lists list (map (λ w. w.now) words.now) }
{
    let setting = read_setting(Edition::Second, words)?;
    Ok(Line::PeerImport(Import {
        class: read_class(lists, list)?,
        tag: NO_TAG,
        set: fitting_tag(Edition::Second, setting.set)?,
        pref: in_range(setting.pref)?,
    }))
}

// What an `in` line says, by what follows its list.
fn read_setting_line(lists: u32, list: Figure, words: &[&[u8]]) -> Result<Line, LineFault>
    ensures { result ≡ (if length words.now == 6 then matched lists list (map (λ w. w.now) words.now) else unmatched lists list (map (λ w. w.now) words.now)) }
{
    if words.len() == 6 {
        read_matched(lists, list, words)
    } else {
        read_unmatched(lists, list, words)
    }
}

// An `in` line, by what follows its first word.
#[tactic(auto, unfolding(crate::specs::MapLines::in_line))]
fn read_in_line(lists: u32, words: &[&[u8]]) -> Result<MapLine, LineFault>
    ensures { result ≡ in_line lists (map (λ w. w.now) words.now) }
{
    let [number, list_word, list, rest @ ..] = words else {
        return Err(LineFault::Form);
    };
    let number = read_number(number)?;
    expect("list", list_word)?;
    let list = read_number(list)?;
    let line = read_setting_line(lists, list, rest)?;
    let number = class_number(number)?;
    Ok(MapLine::Entry(number, line))
}

// What an `out` line says, by what follows its list.
#[tactic(auto, unfolding(crate::specs::MapLines::exported))]
fn read_exported(lists: u32, list: Figure, words: &[&[u8]]) -> Result<Line, LineFault>
    ensures { result ≡ exported lists list (map (λ w. w.now) words.now) }
{
    let [match_word, tag] = words else {
        return Err(LineFault::Form);
    };
    expect("match", match_word)?;
    let tag = read_tag(Edition::Second, tag)?;
    let class = read_class(lists, list)?;
    let tag = fitting_tag(Edition::Second, tag)?;
    Ok(Line::Export(Export { class, tag }))
}

// An `out` line, by what follows its first word.
#[tactic(auto, unfolding(crate::specs::MapLines::out_line))]
fn read_out_line(lists: u32, words: &[&[u8]]) -> Result<MapLine, LineFault>
    ensures { result ≡ out_line lists (map (λ w. w.now) words.now) }
{
    let [number, list_word, list, rest @ ..] = words else {
        return Err(LineFault::Form);
    };
    let number = read_number(number)?;
    expect("list", list_word)?;
    let list = read_number(list)?;
    let line = read_exported(lists, list, rest)?;
    let number = class_number(number)?;
    Ok(MapLine::Entry(number, line))
}

// The line of a configuration, as one of a maps text.
fn block(line: Result<Line, LineFault>) -> Result<MapLine, LineFault>
    ensures { result ≡ as_block line }
{
    match line {
        Ok(line) => Ok(MapLine::Block(line)),
        Err(fault) => Err(fault),
    }
}

// A line, by its first word and what follows it.
#[tactic(auto, unfolding(crate::specs::MapLines::form_line))]
fn read_form_line(lists: u32, word: &[u8], words: &[&[u8]]) -> Result<MapLine, LineFault>
    ensures { result ≡ form_line lists word.now (map (λ w. w.now) words.now) }
{
    if is_word("list", word) {
        read_list_line(words)
    } else if is_word("router", word) {
        block(read_router_line(Edition::Second, words))
    } else if is_word("network", word) {
        block(read_network_line(lists, words))
    } else if is_word("neighbor", word) {
        block(read_session_line(Edition::Second, words))
    } else if is_word("peer", word) {
        block(read_peer_line(Edition::Second, words))
    } else if is_word("in", word) {
        read_in_line(lists, words)
    } else if is_word("out", word) {
        read_out_line(lists, words)
    } else if is_word("end", word) {
        block(read_end_line(words))
    } else {
        Err(LineFault::Form)
    }
}

// A line, by its words.
fn read_words(lists: u32, words: &[&[u8]]) -> Result<MapLine, LineFault>
    ensures { result ≡ words_line lists (map (λ w. w.now) words.now) }
{
    let [word, words @ ..] = words else {
        return Err(LineFault::Form);
    };
    read_form_line(lists, word, words)
}

/// The line of a maps text that the bytes spell, where there are so many lists above it, or why they spell none: its
/// form is judged before its numbers. The numbers of lists are from 1 to `lists`, but for that of a `list` line, which
/// has no range, as that of an entry has none. It takes no memory.
pub fn read_map_line(bytes: &[u8], lists: u32) -> Result<MapLine, LineFault>
    ensures { result ≡ map_line_of bytes.now lists }
{
    match Words::of(bytes) {
        Some(words) => read_words(lists, words.as_slice()),
        None => Err(LineFault::Form),
    }
}
