//! Expressions in the order of their ranks.
ghost use Rattle.std.specs.Prelude.{◌≡◌, ◌≤◌, length, map, true};
ghost use Rattle.policy_base.specs.declared.limits.TheConstants.{ALTERNATIVES};
ghost use Rattle.path_exprs.specs.Parts.{are_earlier, are_known, at, expressions_of_parts};
ghost use Rattle.path_exprs.specs.Shared.{values};

use crate::parts::{Part, Parts};
use std::marker::Model;

/// The expressions of the alternatives of a ranked expression, the best one first. At most 64, which share their parts.
#[derive(Drop)]
pub struct RankedExpr {
    parts: Parts,
    /// The numbers of the alternatives among the parts.
    alternatives: Vec<usize>,
}

impl Model for RankedExpr {
    ghost use Rattle.std.specs.Prelude.{List as Items, ◌≡◌, ◌≤◌, length, map, true};
    ghost use Rattle.std.specs.Coded.{coded_list};
    ghost use Rattle.policy_base.specs.declared.limits.TheConstants.{ALTERNATIVES};
    ghost use Rattle.path_exprs.specs.Expression.{Expression};
    ghost use Rattle.path_exprs.specs.Total.{coded_expression};
    ghost use Rattle.path_exprs.specs.Parts.{are_known, at};
    ghost use Rattle.path_exprs.specs.Shared.{values};

    ghost Value = { Items Expression };

    ghost coded = { coded_list coded_expression };

    ghost view = { λ r. map (at (values r.parts)) r.alternatives.items };

    ghost invariant = { λ r. (are_known (length (values r.parts)) r.alternatives.items ≡ true) × (length r.alternatives.items ≤ ALTERNATIVES) };
}

impl RankedExpr {
    /// The expressions of these alternatives, which are named by their numbers among the parts.
    pub fn new(parts: Parts, alternatives: Vec<usize>) -> RankedExpr
        requires known { are_known (length (values parts)) alternatives.items ≡ true }
        requires few { length alternatives.items ≤ ALTERNATIVES }
        ensures { result ≡ map (at (values parts)) alternatives.items }
    {
        RankedExpr {
            parts,
            alternatives,
        }
    }

    /// The parts, and which of them are the alternatives, in order of rank.
    pub fn parts(&self) -> (&[Part], &[usize])
        ensures alternatives { map (at (expressions_of_parts result.0.now)) result.1.now ≡ self.now }
        ensures earlier { are_earlier 0 result.0.now ≡ true }
        ensures known { are_known (length (expressions_of_parts result.0.now)) result.1.now ≡ true }
        ensures few { length self.now ≤ ALTERNATIVES }
    {
        (self.parts.as_slice(), &self.alternatives)
    }
}
