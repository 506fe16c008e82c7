//! Lines of prefixes. Each `push_` function adds a text to the end of another.
ghost use Rattle.std.specs.Prelude.{◌≡◌, ◌++◌, OnOk};
ghost use Rattle.std.specs.List.{flat_map};
ghost use Rattle.compare_lines.specs.Prefixes.{common_line, follows as follows_on, last_text, least_text, run_line, run_lines, run_lines_from};

use compare_base::CommonPattern;
use input_output::NoMemory;
use net_base::Prefix;
use text_parts::{push_bytes, push_pattern, push_prefix};

// Adds the last of the prefixes of a line, where it isn't the first.
#[tactic(auto, unfolding(crate::specs::Prefixes::last_text))]
fn push_last(text: &mut Vec<u8>, first: Prefix, last: Prefix) -> Result<(), NoMemory>
    ensures { OnOk result (text.new.items ≡ text.old.items ++ last_text first last) }
{
    if first == last {
        return Ok(());
    }
    push_bytes(text, b" to ")?;
    push_prefix(text, last)
}

// Adds a line for the prefixes from one to another.
#[tactic(auto, unfolding(crate::specs::Prefixes::run_line))]
fn push_run(text: &mut Vec<u8>, word: &[u8], first: Prefix, last: Prefix) -> Result<(), NoMemory>
    ensures { OnOk result (text.new.items ≡ text.old.items ++ run_line word.now first last) }
{
    push_bytes(text, word)?;
    push_prefix(text, first)?;
    push_last(text, first, last)?;
    push_bytes(text, b"\n")
}

// Whether a prefix follows another one without a gap, at the same length.
fn follows(prefix: Prefix, next: Prefix) -> bool
    ensures { result ≡ follows_on prefix next }
{
    let bits = next.bits();
    let cut = 32 - prefix.len();
    prefix.len() == next.len()
        && (bits > 0 && u64::from(bits - 1) >> cut == u64::from(prefix.bits()) >> cut)
}

// Adds the lines of prefixes, of which this is the first.
fn push_runs_from(
    text: &mut Vec<u8>,
    word: &[u8],
    first: Prefix,
    rest: &[Prefix],
) -> Result<(), NoMemory>
    ensures { OnOk result (text.new.items ≡ text.old.items ++ run_lines_from word.now first first rest.now) }
{
    let mut begin = first;
    let mut last = first;
    for prefix in rest {
        if !follows(last, *prefix) {
            push_run(text, word, begin, last)?;
            begin = *prefix;
        }
        last = *prefix;
    }
    push_run(text, word, begin, last)
}

/// Adds the lines of prefixes: those that follow one another without a gap are on one line.
pub fn push_runs(text: &mut Vec<u8>, word: &[u8], prefixes: &[Prefix]) -> Result<(), NoMemory>
    ensures { OnOk result (text.new.items ≡ text.old.items ++ run_lines word.now prefixes.now) }
{
    match prefixes {
        [] => Ok(()),
        [first, rest @ ..] => push_runs_from(text, word, *first, rest),
    }
}

// Adds the least prefix of two first patterns, where it isn't the base of what both contain.
#[tactic(auto, unfolding(crate::specs::Prefixes::least_text))]
fn push_least(text: &mut Vec<u8>, common: &CommonPattern) -> Result<(), NoMemory>
    ensures { OnOk result (text.new.items ≡ text.old.items ++ least_text common.now) }
{
    if common.least == common.pattern.base() {
        return Ok(());
    }
    push_bytes(text, b" as ")?;
    push_prefix(text, common.least)
}

// Adds the line of what two first patterns both contain.
#[tactic(auto, unfolding(crate::specs::Prefixes::common_line))]
fn push_common(text: &mut Vec<u8>, common: &CommonPattern) -> Result<(), NoMemory>
    ensures { OnOk result (text.new.items ≡ text.old.items ++ common_line common.now) }
{
    push_bytes(text, b"prefix ")?;
    push_pattern(text, common.pattern)?;
    push_least(text, common)?;
    push_bytes(text, b"\n")
}

/// Adds the lines of what first patterns both contain.
pub fn push_patterns(text: &mut Vec<u8>, patterns: &[CommonPattern]) -> Result<(), NoMemory>
    ensures { OnOk result (text.new.items ≡ text.old.items ++ flat_map common_line patterns.now) }
{
    for common in patterns {
        push_common(text, common)?;
    }
    Ok(())
}
