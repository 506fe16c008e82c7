//! The cells, in order.
ghost use Rattle.std.specs.Prelude.{◌≡◌, ◌++◌, [], IfOk};
ghost use Rattle.stage_classes.specs.Cells.{cell_if, cells, row, rows, turned as all_turned, with_classes};

use crate::patterns::{common, everything};
use net_base::{List, Pattern};
use std::alloc::{AllocError, Global};

/// A class of a stage: the number, from 1, of the class of the old configuration and of that of the new one from which it comes, and
/// the patterns that they share. The number after the last class stands for none.
#[derive(Drop)]
pub struct Cell {
    /// The class of the old configuration, from 1; the number after the last one stands for none.
    pub first: usize,
    /// The class of the new configuration, from 1; the number after the last one stands for none.
    pub second: usize,
    /// The patterns that both share, without those that an earlier class covers.
    pub patterns: List<Pattern>,
}

// Puts a cell behind the others, if it has a pattern.
fn push_cell(
    cells: &mut List<Cell>,
    first: usize,
    second: usize,
    patterns: List<Pattern>,
) -> Result<(), AllocError>
    ensures { IfOk result (λ _. cells.new ≡ cells.old ++ cell_if first second patterns) }
{
    if patterns.as_slice().is_empty() {
        return Ok(());
    }
    cells.push(Cell {
        first,
        second,
        patterns,
    })
}

// Puts the cells of a class of the old configuration with each class of the new one behind the others.
fn push_classes(
    alloc: Global,
    cells: &mut List<Cell>,
    first: usize,
    class: &[Pattern],
    before: &[List<Pattern>],
    new: &[List<Pattern>],
) -> Result<(), AllocError>
    ensures { IfOk result (λ _. cells.new ≡ cells.old ++ with_classes first class.now before.now [] new.now) }
{
    for j in 0..new.len() {
        let patterns = common(alloc, before, &new[..j], class, new[j].as_slice())?;
        push_cell(cells, first, j + 1, patterns)?;
    }
    Ok(())
}

// Puts all cells of a class of the old configuration behind the others.
fn push_row(
    alloc: Global,
    cells: &mut List<Cell>,
    first: usize,
    class: &[Pattern],
    before: &[List<Pattern>],
    new: &[List<Pattern>],
) -> Result<(), AllocError>
    ensures { IfOk result (λ _. cells.new ≡ cells.old ++ row first class.now before.now new.now) }
{
    push_classes(alloc, cells, first, class, before, new)?;
    let patterns = common(alloc, before, new, class, &[everything()])?;
    push_cell(cells, first, new.len() + 1, patterns)
}

// Puts the cells of the classes of the old configuration behind the others.
fn push_rows(
    alloc: Global,
    cells: &mut List<Cell>,
    old: &[List<Pattern>],
    new: &[List<Pattern>],
) -> Result<(), AllocError>
    ensures { IfOk result (λ _. cells.new ≡ cells.old ++ rows [] new.now old.now) }
{
    for i in 0..old.len() {
        push_row(alloc, cells, i + 1, old[i].as_slice(), &old[..i], new)?;
    }
    Ok(())
}

/// The cells of two lists of classes, in order. Each has a pattern.
pub fn cells_of(
    alloc: Global,
    old: &[List<Pattern>],
    new: &[List<Pattern>],
) -> Result<List<Cell>, AllocError>
    ensures { IfOk result (λ l. l ≡ cells old.now new.now) }
{
    let mut cells = List::new(alloc);
    push_rows(alloc, &mut cells, old, new)?;
    push_classes(alloc, &mut cells, old.len() + 1, &[everything()], old, new)?;
    Ok(cells)
}

/// The same cells, in the same order, where the two lists of classes change places.
pub fn turned(alloc: Global, cells: &[Cell]) -> Result<List<Cell>, AllocError>
    ensures { IfOk result (λ l. l ≡ all_turned cells.now) }
{
    let mut turned = List::new(alloc);
    for cell in cells {
        turned.push(Cell {
            first: cell.second,
            second: cell.first,
            patterns: cell.patterns.copy(alloc)?,
        })?;
    }
    Ok(turned)
}
