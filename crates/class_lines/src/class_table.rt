//! Lines in order of their classes.
ghost use Rattle.std.specs.List.Sorted.{IsNonDecreasingBy};
ghost use Rattle.class_lines.specs.declared.class_line.ClassLine.{ClassLine as PlainLine};

use crate::class_line::ClassLine;

/// The lines of a configuration in order of their classes, and those of a class in the order of the text.
#[derive(Drop)]
pub struct ClassTable {
    pub(crate) lines: Vec<ClassLine>,
    ghost order: { IsNonDecreasingBy (λ (l : PlainLine). l.class) lines.items },
}
