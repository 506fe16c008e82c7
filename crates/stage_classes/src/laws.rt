//! What the cells say of prefixes.
ghost use Rattle.stage_classes.specs.Laws.{CellsArePairs, CellsHavePatterns};

/// The first cell with a prefix is that of the prefix's class in the old configuration and its class in the new one. A prefix with
/// neither is in no cell. Each cell has a pattern.
pub fn cells_are_pairs()
    ensures pairs { CellsArePairs }
    ensures patterns { CellsHavePatterns }
{}
