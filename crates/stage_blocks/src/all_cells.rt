//! The lines of a block in all cells.
ghost use Rattle.std.specs.Prelude.{◌≡◌, ◌<◌, ◌≤◌, ◌-◌, ◌==◌, ◌^◌, ◌++◌, IfOk, map, length, take, drop};
ghost use Rattle.std.specs.List.{filter};
ghost use Rattle.config_base.specs.Configs.{Ascend, tag_key};
ghost use Rattle.stage_blocks.specs.Merging.{in_cell, spread as spread_lines};

use crate::line::TagLine;
use crate::merge::push_merged;
use net_base::List;
use stage_classes::Cell;
use std::alloc::{AllocError, Global};

// The lines from one place on and before another.
fn between<L: TagLine>(lines: &[L], start: usize, end: usize) -> &[L]
    requires order { start ≤ end }
    requires within { end ≤ length lines.now }
    ensures { result.now ≡ take (end - start) (drop start lines.now) }
{
    &lines[start..end]
}

// The lines of a class, among lines that ascend.
fn of_class<L: TagLine>(lines: &[L], class: usize) -> &[L]
    requires { Ascend (map (λ l. tag_key (L.class_of l) (L.tag_of l)) lines.now) }
    ensures { result.now ≡ filter (λ l. L.class_of l == class) lines.now }
{
    let start = lines.partition_point(|line| (line.class() as usize) < class);
    let end = lines.partition_point(|line| (line.class() as usize) <= class);
    between(lines, start, end)
}

// Puts the lines of a cell behind the others, where it has this class.
fn push_cell<L: TagLine>(
    lines: &mut List<L>,
    class: u32,
    cell: &Cell,
    old: &[L],
    new: &[L],
) -> Result<(), AllocError>
    requires old { Ascend (map (λ l. tag_key (L.class_of l) (L.tag_of l)) old.now) }
    requires new { Ascend (map (λ l. tag_key (L.class_of l) (L.tag_of l)) new.now) }
    ensures { IfOk result (λ _. lines.new ≡ lines.old ++ in_cell L.tag_of L.class_of L.put class cell.now old.now new.now) }
{
    push_merged(
        lines,
        class,
        of_class(old, cell.first),
        of_class(new, cell.second),
    )
}

/// The lines of a block in all cells, where it has these in the old configuration and these in the new one.
pub fn spread<L: TagLine>(
    alloc: Global,
    cells: &[Cell],
    old: &[L],
    new: &[L],
) -> Result<List<L>, AllocError>
    requires few { length cells.now < 2 ^ 32 }
    requires old { Ascend (map (λ l. tag_key (L.class_of l) (L.tag_of l)) old.now) }
    requires new { Ascend (map (λ l. tag_key (L.class_of l) (L.tag_of l)) new.now) }
    ensures { IfOk result (λ l. l ≡ spread_lines L.tag_of L.class_of L.put 1 cells.now old.now new.now) }
{
    let mut lines = List::new(alloc);
    for k in 0..cells.len() {
        push_cell(&mut lines, k as u32 + 1, &cells[k], old, new)?;
    }
    Ok(lines)
}
