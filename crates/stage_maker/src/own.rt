//! The `originate` lines of a router in the cells of a stage.
ghost use Rattle.std.specs.Prelude.{◌≡◌, ◌<◌, ◌^◌, [], ◌∷◌, ◌++◌, IfOk, length, map, if◌then◌else◌};
ghost use Rattle.std.specs.List.{filter};
ghost use Rattle.policy_base.specs.Governing.{some_contains};
ghost use Rattle.config_base.specs.Lines.{class_from};
ghost use Rattle.stage_maker.specs.Joined.{belongs as belongs_to, classes_of, is_of_class as of_class, own_from, put_own};

use config_base::Origination;
use net_base::{List, Pattern, Prefix};
use stage_classes::Cell;
use std::alloc::{AllocError, Global};

// Whether some pattern contains the prefix.
fn is_in_some(patterns: &[Pattern], prefix: Prefix) -> bool
    ensures { result ≡ some_contains patterns.now prefix }
{
    patterns.iter().any(|pattern| pattern.contains(prefix))
}

// The class of a prefix in the stage.
fn class_in(cells: &[Cell], prefix: Prefix) -> Option<usize>
    ensures { result ≡ class_from (classes_of cells.now) prefix 1 }
{
    for k in 0..cells.len() {
        if is_in_some(cells[k].patterns.as_slice(), prefix) {
            return Some(k + 1);
        }
    }
    None
}

// Whether the prefix is of this class in the stage.
fn is_of_class(cells: &[Cell], class: usize, prefix: Prefix) -> bool
    ensures { result ≡ of_class cells.now class prefix }
{
    match class_in(cells, prefix) {
        Some(number) => number == class,
        None => false,
    }
}

// Whether the line is of the first class of the cell, and its prefix of the cell.
fn belongs(cells: &[Cell], class: usize, cell: &Cell, line: Origination) -> bool
    ensures { result ≡ belongs_to cells.now class cell.now line }
{
    line.class as usize == cell.first
        && is_in_some(cell.patterns.as_slice(), line.prefix)
        && is_of_class(cells, class, line.prefix)
}

// Puts a line behind the others, in this class, if it belongs there.
fn push_if(
    own: &mut List<Origination>,
    class: u32,
    line: Origination,
    belongs: bool,
) -> Result<(), AllocError>
    ensures { IfOk result (λ _. own.new ≡ own.old ++ (if belongs then put_own class line ∷ [] else [])) }
{
    if !belongs {
        return Ok(());
    }
    own.push(Origination {
        class,
        prefix: line.prefix,
        tag: line.tag,
    })
}

// Puts the lines of a cell behind the others.
fn push_cell(
    own: &mut List<Origination>,
    cells: &[Cell],
    class: u32,
    cell: &Cell,
    lines: &[Origination],
) -> Result<(), AllocError>
    ensures { IfOk result (λ _. own.new ≡ own.old ++ map (put_own class) (filter (belongs_to cells.now class cell.now) lines.now)) }
{
    for line in lines {
        push_if(
            own,
            class,
            *line,
            belongs(cells, class as usize, cell, *line),
        )?;
    }
    Ok(())
}

/// The lines in all cells.
pub fn own_lines(
    alloc: Global,
    cells: &[Cell],
    lines: &[Origination],
) -> Result<List<Origination>, AllocError>
    requires few { length cells.now < 2 ^ 32 }
    ensures { IfOk result (λ own. own ≡ own_from cells.now 1 cells.now lines.now) }
{
    let mut own = List::new(alloc);
    for k in 0..cells.len() {
        push_cell(&mut own, cells, k as u32 + 1, &cells[k], lines)?;
    }
    Ok(own)
}
