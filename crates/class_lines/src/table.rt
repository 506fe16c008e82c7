//! The lines of a configuration by class.
ghost use Rattle.std.specs.Prelude.{◌≡◌, ◌==◌, ◌-◌, ◌≤◌, length, take, drop, filter, IfOk};
ghost use Rattle.std.specs.List.Sorted.{IsNonDecreasingBy};
ghost use Rattle.class_lines.specs.ClassLines.{of_class as lines_of_class, same_line as is_same_line, same_lines as are_same_lines};
ghost use Rattle.class_lines.specs.Tables.{IsTableOf, class_in};
ghost use Rattle.class_lines.specs.declared.class_line.ClassLine.{ClassLine as PlainLine};

use crate::class_line::{ClassLine, lines_of_config, same_says};
use crate::class_table::ClassTable;
use config_base::Config;
use std::alloc::{AllocError, Global};

// Whether two lines stand at the same place and say the same.
fn is_same(a: &ClassLine, b: &ClassLine) -> bool
    ensures { result ≡ is_same_line a.now b.now }
{
    a.router == b.router && a.neighbour == b.neighbour && same_says(&a.says, &b.says)
}

/// Whether the lines of two classes are the same, one by one, but for the number of the class.
pub fn are_same(old: &[ClassLine], new: &[ClassLine]) -> bool
    ensures { result ≡ are_same_lines old.now new.now }
{
    if old.len() != new.len() {
        return false;
    }
    for i in 0..old.len() {
        if !is_same(&old[i], &new[i]) {
            return false;
        }
    }
    true
}

// The lines from one place on and before another.
fn between(lines: &[ClassLine], start: usize, end: usize) -> &[ClassLine]
    requires order { start ≤ end }
    requires within { end ≤ length lines.now }
    ensures { result.now ≡ take (end - start) (drop start lines.now) }
{
    &lines[start..end]
}

// The lines of a class, among lines in order of their classes.
fn run(lines: &[ClassLine], class: usize) -> &[ClassLine]
    requires { IsNonDecreasingBy (λ (l : PlainLine). l.class) lines.now }
    ensures { result.now ≡ lines_of_class class lines.now }
{
    let start = lines.partition_point(|line| (line.class as usize) < class);
    let end = lines.partition_point(|line| (line.class as usize) <= class);
    between(lines, start, end)
}

impl ClassTable {
    /// The table of a configuration's lines.
    pub fn new(alloc: Global, config: &Config) -> Result<ClassTable, AllocError>
        ensures { IfOk result (IsTableOf config.now) }
    {
        let mut lines = lines_of_config(alloc, config)?;
        lines.sort_by_key(|line| line.class)?;
        Ok(ClassTable { lines })
    }

    /// The lines of a class.
    pub fn of_class(&self, class: usize) -> &[ClassLine]
        ensures { result.now ≡ class_in self.now class }
    {
        run(&self.lines, class)
    }
}
