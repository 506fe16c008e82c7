//! Two lists of lines of one class, put together by their tags.
ghost use Rattle.std.specs.Prelude.{◌≡◌, ◌≤◌, [], ◌∷◌, ◌++◌, IfOk, map, length, take};
ghost use Rattle.config_base.specs.Lines.{same_tag};
ghost use Rattle.stage_blocks.specs.Merging.{count_below as counted, back, is_below as below, merged, without as without_tag};

use crate::line::TagLine;
use net_base::{List, Tag};
use std::alloc::AllocError;

// Whether the first tag is the smaller one, in the order of lines.
fn is_below(tag: Tag, other: Tag) -> bool
    ensures { result ≡ below tag other }
{
    tag < other
}

// Whether the line is about this tag.
fn has_tag<L: TagLine>(line: &L, tag: Tag) -> bool
    ensures { result ≡ same_tag (L.tag_of line.now) tag }
{
    line.tag() == tag
}

// Puts lines behind the others, in this class.
fn push_all<L: TagLine>(lines: &mut List<L>, class: u32, more: &[L]) -> Result<(), AllocError>
    ensures { IfOk result (λ _. lines.new ≡ lines.old ++ map (L.put class) more.now) }
{
    for line in more {
        lines.push(line.in_class(class))?;
    }
    Ok(())
}

// How many lines in front are of smaller tags.
fn count_below<L: TagLine>(lines: &[L], tag: Tag) -> usize
    ensures is { result ≡ counted L.tag_of tag lines.now }
    ensures within { result ≤ length lines.now }
{
    for i in 0..lines.len() {
        if !is_below(lines[i].tag(), tag) {
            return i;
        }
    }
    lines.len()
}

// The lines, but for the first one if it is about this tag.
fn without<L: TagLine>(lines: &[L], tag: Tag) -> &[L]
    ensures { result.now ≡ without_tag L.tag_of tag lines.now }
{
    match lines {
        [line, more @ ..] => { if has_tag(line, tag) { more } else { lines } }
        [] => lines,
    }
}

// Puts a line behind the others, in this class, and those in front of smaller tags before it. It gives the rest of these.
fn push_before<'a, L: TagLine>(
    lines: &mut List<L>,
    class: u32,
    line: &L,
    others: &'a [L],
) -> Result<&'a [L], AllocError>
    ensures lines { IfOk result (λ _. lines.new
        ≡ lines.old ++ map (L.put class) (take (counted L.tag_of (L.tag_of line.now) others.now) others.now ++ line.now ∷ [])) }
    ensures rest { IfOk result (λ rest. rest.now ≡ back L.tag_of (L.tag_of line.now) others.now) }
{
    let tag = line.tag();
    let count = count_below(others, tag);
    push_all(lines, class, &others[..count])?;
    lines.push(line.in_class(class))?;
    Ok(without(&others[count..], tag))
}

/// Puts the lines of two lists behind the others, in this class and in order of their tags. Of one tag that of the first list stands
/// alone.
pub fn push_merged<L: TagLine>(
    lines: &mut List<L>,
    class: u32,
    old: &[L],
    new: &[L],
) -> Result<(), AllocError>
    ensures { IfOk result (λ _. lines.new ≡ lines.old ++ map (L.put class) (merged L.tag_of old.now new.now)) }
{
    let mut others = new;
    for line in old {
        others = push_before(lines, class, line, others)?;
    }
    push_all(lines, class, others)
}
