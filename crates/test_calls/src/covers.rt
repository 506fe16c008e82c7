//! Patterns that others cover.
use input_output::NoMemory;
use lint_cover::covered_by;
use net_base::{Pattern, read_prefix};
use std::alloc::Global;

// A pattern: a prefix, and how long the prefixes inside it are at most.
type Text = (&'static str, u8);

// Some patterns, another one, and whether they cover it.
type Row = (&'static [Text], Text, bool);

const ROWS: [Row; 5] = [
    (&[("10.0.0.0/8", 32)], ("10.1.0.0/16", 24), true),
    (&[("10.0.0.0/8", 16)], ("10.1.0.0/16", 24), false),
    (
        &[("10.0.0.0/9", 32), ("10.128.0.0/9", 32)],
        ("10.0.0.0/8", 32),
        false,
    ),
    (
        &[("10.0.0.0/9", 32), ("10.128.0.0/9", 32), ("10.0.0.0/8", 8)],
        ("10.0.0.0/8", 32),
        true,
    ),
    (&[], ("10.0.0.0/8", 8), false),
];

// The pattern of a text, where it is one.
fn pattern(text: &Text) -> Option<Pattern> {
    let prefix = read_prefix(text.0.as_bytes()).ok()?;
    if prefix.len() > text.1 || text.1 > 32 {
        return None;
    }
    Some(Pattern::new(prefix, text.1))
}

// The patterns of some texts, those that are ones.
fn patterns(alloc: Global, texts: &[Text]) -> Result<Vec<Pattern>, NoMemory> {
    let mut patterns = Vec::new(alloc);
    for text in texts {
        if let Some(pattern) = pattern(text) {
            patterns.push(pattern)?;
        }
    }
    Ok(patterns)
}

fn is_right(alloc: Global, row: &Row) -> Result<bool, NoMemory> {
    let patterns = patterns(alloc, row.0)?;
    let is_covered = pattern(&row.1).map(|pattern| covered_by(&patterns, pattern));
    Ok(patterns.len() == row.0.len() && is_covered == Some(row.2))
}

/// The first row whose pattern is covered where it isn't to be, or isn't where it is.
pub fn wrong_cover(alloc: Global) -> Result<Option<usize>, NoMemory> {
    for number in 0..ROWS.len() {
        if !is_right(alloc, &ROWS[number])? {
            return Ok(Some(number));
        }
    }
    Ok(None)
}
