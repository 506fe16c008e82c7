//! Expressions by numbers, which share their parts.
ghost use Rattle.std.specs.Prelude.{◌≡◌, true};
ghost use Rattle.path_exprs.specs.Parts.{are_earlier};

use crate::expr::Expr;
use std::alloc::{AllocError, Global};

/// An expression of its own, or one that is made of others, which are named by their numbers.
#[derive(Drop)]
pub enum Part {
    /// An expression of its own.
    Own(Expr),
    /// Both of two.
    Both(usize, usize),
    /// One of them.
    Either(Vec<usize>),
    /// Each list that it doesn't hold.
    Not(usize),
}

/// Expressions, each with a number of its own from 0 on. What one is made of stands before it, and many may be made of it.
#[derive(Drop)]
pub struct Parts {
    all: Vec<Part>,
    ghost earlier: { are_earlier 0 all.items ≡ true },
}

impl Parts {
    ghost use Rattle.std.specs.Prelude.{◌++◌, ◌∷◌, [], length, IfOk};
    ghost use Rattle.path_exprs.specs.Parts.{expression_of, expressions_of_parts, is_earlier};
    ghost use Rattle.path_exprs.specs.Shared.{values};

    /// No expression.
    pub fn new(alloc: Global) -> Parts
        ensures { values result ≡ [] }
    {
        Parts {
            all: Vec::new(alloc),
        }
    }

    /// Puts an expression behind the others, and gives its number.
    pub fn add(&mut self, part: Part) -> Result<usize, AllocError>
        requires earlier { is_earlier (length (values self.old)) part ≡ true }
        ensures added { IfOk result (λ _. values self.new ≡ values self.old ++ expression_of (values self.old) part ∷ []) }
        ensures number { IfOk result (λ n. n ≡ length (values self.old)) }
    {
        let number = self.all.len();
        self.all.push(part)?;
        Ok(number)
    }

    /// The parts, in order of their numbers.
    pub fn as_slice(&self) -> &[Part]
        ensures expressions { expressions_of_parts result.now ≡ values self.now }
        ensures earlier { are_earlier 0 result.now ≡ true }
    {
        &self.all
    }
}
