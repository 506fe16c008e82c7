//! What stands in the way of stages, if anything does.
ghost use Rattle.std.specs.Prelude.{◌≡◌, ◌++◌, min, sum_by, IfOk, OnOk};
ghost use Rattle.std.specs.List.{flat_map};
ghost use Rattle.class_lines.specs.Marks.{least_of_prefs};
ghost use Rattle.class_lines.specs.Tables.{by_class, class_in};
ghost use Rattle.stage_classes.specs.Cells.{cells as cells_between};
ghost use Rattle.stage_check.specs.Verdicts.{
  lines_of_cell,
  of_cells,
  of_pref,
  prefs_of_cell,
  stays as does_stay,
  tag_or_pref,
  tags_of_cell,
  top,
  verdict as verdict_of,
};

use crate::unlike::first_unlike;
use class_lines::{
    ClassTable, are_same, least_pref, least_tag, lines_about, push_low_prefs, push_shared_tags,
};
use config_base::Config;
use input_output::NoMemory;
use net_base::Tag;
use stage_classes::Cell;
use std::alloc::{AllocError, Global};

/// A stage may have this many lines of its classes and about them, where what two classes have in common is counted once.
pub const MAX_LINES: u64 = 1_000_000;

/// Whether there are stages between two configurations, or what stands in the way.
#[derive(Clone, Copy, Debug, PartialEq, Eq)]
pub enum Verdict {
    /// There are stages.
    MayMix,
    /// The router with this number, from 1, isn't the same in both, or one of them doesn't have it.
    Unlike(usize),
    /// A stage would have so many lines; 18446744073709551615 stands for more, too.
    TooManyLines(u64),
    /// This tag stands in lines of two classes that share prefixes and don't have the same lines about these. It's the least one.
    SharedTag(Tag),
    /// This preference of the new configuration isn't above each of the old one in such classes. It's the least one.
    LowPref(u32),
}

// The lines of two configurations by class.
#[derive(Drop)]
struct Tables {
    old: ClassTable,
    new: ClassTable,
}

// Whether the classes of a cell have the same lines, as far as they are about the prefixes of the cell.
fn stays(alloc: Global, tables: &Tables, cell: &Cell) -> Result<bool, AllocError>
    ensures { IfOk result (λ b. b ≡ does_stay (class_in tables.now.old) (class_in tables.now.new) cell.now) }
{
    let patterns = cell.patterns.as_slice();
    let old = lines_about(alloc, patterns, tables.old.of_class(cell.first))?;
    let new = lines_about(alloc, patterns, tables.new.of_class(cell.second))?;
    Ok(are_same(&old, &new))
}

// How many lines a stage has of a cell at most, at most 18446744073709551615.
fn cell_lines(alloc: Global, tables: &Tables, cell: &Cell) -> Result<u64, AllocError>
    ensures { IfOk result (λ n. n ≡ min (lines_of_cell (class_in tables.now.old) (class_in tables.now.new) cell.now) top) }
{
    let old = tables.old.of_class(cell.first).len() as u64;
    let new = tables.new.of_class(cell.second).len() as u64;
    if stays(alloc, tables, cell)? {
        Ok(old.saturating_add(1))
    } else {
        Ok(old.saturating_add(new).saturating_add(1))
    }
}

// How many lines a stage has of all cells at most, at most 18446744073709551615.
fn count_lines(alloc: Global, tables: &Tables, cells: &[Cell]) -> Result<u64, AllocError>
    ensures { IfOk result (λ n. n ≡ min (sum_by (lines_of_cell (class_in tables.now.old) (class_in tables.now.new)) cells.now) top) }
{
    let mut total = 0u64;
    for cell in cells {
        total = total.saturating_add(cell_lines(alloc, tables, cell)?);
    }
    Ok(total)
}

// Puts the tags that stand in both classes of a cell behind the others, where these don't have the same lines.
fn push_tags(
    alloc: Global,
    tags: &mut Vec<Tag>,
    tables: &Tables,
    cell: &Cell,
) -> Result<(), NoMemory>
    ensures { OnOk result (tags.new.items ≡ tags.old.items ++ tags_of_cell (class_in tables.now.old) (class_in tables.now.new) cell.now) }
{
    if stays(alloc, tables, cell)? {
        return Ok(());
    }
    push_shared_tags(
        alloc,
        tags,
        tables.old.of_class(cell.first),
        tables.new.of_class(cell.second),
    )
}

// The tags that are in the way.
fn tags_in_the_way(alloc: Global, tables: &Tables, cells: &[Cell]) -> Result<Vec<Tag>, NoMemory>
    ensures { IfOk result (λ v. v.items ≡ flat_map (tags_of_cell (class_in tables.now.old) (class_in tables.now.new)) cells.now) }
{
    let mut tags = Vec::new(alloc);
    for cell in cells {
        push_tags(alloc, &mut tags, tables, cell)?;
    }
    Ok(tags)
}

// Puts the preferences of a cell that are too low behind the others, where its classes don't have the same lines.
fn push_prefs(
    alloc: Global,
    prefs: &mut Vec<u32>,
    tables: &Tables,
    cell: &Cell,
) -> Result<(), NoMemory>
    ensures { OnOk result (prefs.new.items ≡ prefs.old.items ++ prefs_of_cell (class_in tables.now.old) (class_in tables.now.new) cell.now) }
{
    if stays(alloc, tables, cell)? {
        return Ok(());
    }
    push_low_prefs(
        prefs,
        tables.old.of_class(cell.first),
        tables.new.of_class(cell.second),
    )
}

// The preferences that are in the way.
fn prefs_in_the_way(alloc: Global, tables: &Tables, cells: &[Cell]) -> Result<Vec<u32>, NoMemory>
    ensures { IfOk result (λ v. v.items ≡ flat_map (prefs_of_cell (class_in tables.now.old) (class_in tables.now.new)) cells.now) }
{
    let mut prefs = Vec::new(alloc);
    for cell in cells {
        push_prefs(alloc, &mut prefs, tables, cell)?;
    }
    Ok(prefs)
}

// Which preference is in the way.
fn pref_verdict(alloc: Global, tables: &Tables, cells: &[Cell]) -> Result<Verdict, NoMemory>
    ensures { IfOk result (λ v. v ≡ of_pref (least_of_prefs (flat_map (prefs_of_cell (class_in tables.now.old) (class_in tables.now.new)) cells.now))) }
{
    let prefs = prefs_in_the_way(alloc, tables, cells)?;
    Ok(match least_pref(&prefs) {
        Some(pref) => Verdict::LowPref(pref),
        None => Verdict::MayMix,
    })
}

// Which tag is in the way, or else which preference.
fn tag_verdict(alloc: Global, tables: &Tables, cells: &[Cell]) -> Result<Verdict, NoMemory>
    ensures { IfOk result (λ v. v ≡ tag_or_pref (class_in tables.now.old) (class_in tables.now.new) cells.now) }
{
    let tags = tags_in_the_way(alloc, tables, cells)?;
    match least_tag(&tags) {
        Some(tag) => Ok(Verdict::SharedTag(tag)),
        None => pref_verdict(alloc, tables, cells),
    }
}

// Whether there are too many lines, or what else is in the way.
fn cells_verdict(alloc: Global, tables: &Tables, cells: &[Cell]) -> Result<Verdict, NoMemory>
    ensures { IfOk result (λ v. v ≡ of_cells (class_in tables.now.old) (class_in tables.now.new) cells.now) }
{
    let count = count_lines(alloc, tables, cells)?;
    if count > MAX_LINES {
        return Ok(Verdict::TooManyLines(count));
    }
    tag_verdict(alloc, tables, cells)
}

// What is in the way of the cells of two configurations of the same routers.
fn tables_verdict(
    alloc: Global,
    cells: &[Cell],
    old: &Config,
    new: &Config,
) -> Result<Verdict, NoMemory>
    ensures { IfOk result (λ v. v ≡ of_cells (by_class old.now) (by_class new.now) cells.now) }
{
    let tables = Tables {
        old: ClassTable::new(alloc, old)?,
        new: ClassTable::new(alloc, new)?,
    };
    cells_verdict(alloc, &tables, cells)
}

/// Whether there are stages between an old configuration and a new one, whose classes have these cells, or what stands in the way.
#[tactic(auto, using(crate::proofs::Judged::unlike_is, crate::proofs::Judged::cells_are))]
pub fn verdict_on(
    alloc: Global,
    cells: &[Cell],
    old: &Config,
    new: &Config,
) -> Result<Verdict, NoMemory>
    requires { cells.now ≡ cells_between old.now.classes new.now.classes }
    ensures { IfOk result (λ v. v ≡ verdict_of old.now new.now) }
{
    let unlike = first_unlike(old.routers(), new.routers());
    match unlike {
        Some(number) => Ok(Verdict::Unlike(number)),
        None => {
            let verdict = tables_verdict(alloc, cells, old, new)?;
            Ok(verdict)
        }
    }
}
