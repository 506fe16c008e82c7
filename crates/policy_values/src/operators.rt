//! The operators with two sides.
ghost use Rattle.std.specs.Prelude.{◌≡◌, reverse, Ok};
ghost use Rattle.net_base.specs.Gives.{GivesUnless};
ghost use Rattle.policy_base.specs.Policies.{ranking_of};
ghost use Rattle.policy_grammar.specs.Ranked.{operator_of};
ghost use Rattle.policy_rules.specs.Ranks.{marks_behind};
ghost use Rattle.policy_tokens.specs.declared.fault.PolicyFault.TheVariants.{NoMemory};
ghost use Rattle.policy_values.specs.Operators.{level_of, step_at, join_of};

use net_base::Place;
use policy_base::Ranked;
use policy_grammar::Symbol;
use policy_rules::{Mark, mark_above, mark_and, mark_or};
use policy_tokens::PolicyFault;
use std::alloc::Global;

/// An operator with two sides; the first one binds most loosely.
#[derive(Clone, Copy)]
pub(crate) enum Operator {
    /// `>>`: first the alternatives of the left side.
    Above,
    /// `or`: either side.
    Or,
    /// `and`: both sides.
    And,
}

impl Operator {
    /// How it is written.
    pub fn symbol(self) -> Symbol
        ensures { result ≡ operator_of (level_of self) }
    {
        match self {
            Operator::Above => Symbol::Above,
            Operator::Or => Symbol::Or,
            Operator::And => Symbol::And,
        }
    }

    /// Its mark in the place of those of its sides, where it stands at this place.
    pub fn mark(self, marks: &mut Vec<Mark>, place: Place) -> Result<(), PolicyFault>
        ensures { GivesUnless NoMemory (λ _. reverse marks.new.items) result (Ok (marks_behind (step_at (level_of self) place) (reverse marks.old.items))) }
    {
        match self {
            Operator::Above => mark_above(marks, place),
            Operator::Or => mark_or(marks),
            Operator::And => mark_and(marks),
        }
    }

    /// What it makes of its sides.
    pub fn join(self, alloc: Global, a: Ranked, b: Ranked) -> Result<Ranked, PolicyFault>
        ensures { GivesUnless NoMemory ranking_of result (Ok (join_of (level_of self) (ranking_of a) (ranking_of b))) }
    {
        let a = Box::new(alloc, a)?;
        let b = Box::new(alloc, b)?;
        Ok(match self {
            Operator::Above => Ranked::Prefer(a, b),
            Operator::Or => Ranked::Or(a, b),
            Operator::And => Ranked::And(a, b),
        })
    }
}
