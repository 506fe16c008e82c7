//! What is found among the lines of a block in a stage, and which order and rules they keep.
ghost use Rattle.stage_blocks.specs.Laws.{ExportsKeep, ExportsSpreadRight, ImportsKeep, ImportsSpreadRight};

/// In a cell the line about a tag is that of the old configuration's class, or else that of the new one's. Where only one of them has
/// lines in the block, what a test finds is what it finds among those of its class. The lines ascend.
pub fn cells_find_lines()
    ensures imports { ImportsSpreadRight }
    ensures exports { ExportsSpreadRight }
{}

/// The lines keep the rules of lines that those of both configurations keep.
pub fn spread_lines_are_lawful()
    ensures imports { ImportsKeep }
    ensures exports { ExportsKeep }
{}
