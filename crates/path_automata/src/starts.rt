//! Where walks begin: the normal forms of reversed ranked expressions.
ghost use Rattle.std.specs.Prelude.{◌≡◌, ◌≤◌, ◌<◌, List as Items, get_or, length, map, true, vec_len, IfOk};
ghost use Rattle.policy_base.specs.declared.limits.TheConstants.{ALTERNATIVES};
ghost use Rattle.path_exprs.specs.Expression.{Expression};
ghost use Rattle.path_exprs.specs.Normal.{normal, reversed};
ghost use Rattle.path_exprs.specs.Parts.{are_earlier, are_known, expression_of, expressions_of_parts, is_earlier, Extends};
ghost use Rattle.path_exprs.specs.Runs.{start_of};
ghost use Rattle.path_terms.specs.Values.{values, value};

use crate::reversal::reversal_of;
use input_output::NoMemory;
use net_base::LocSet;
use path_exprs::{Part, RankedExpr};
use path_terms::{Terms, both_of, complement_of, either_of};
use std::alloc::Global;

// The terms at these places.
fn picked(alloc: Global, terms: &[u32], places: &[usize]) -> Result<Vec<u32>, NoMemory>
    requires known { are_known (length terms.now) places.now ≡ true }
    ensures { IfOk result (λ r. r.items ≡ map (λ n. get_or terms.now n 0) places.now) }
{
    let mut all = Vec::new(alloc);
    for i in 0..places.len() {
        all.push(terms[places[i]])?;
    }
    Ok(all)
}

// The normal form of the reversed expression of a part, where those of the parts before it have these terms.
fn start_of_part(
    terms: &mut Terms,
    alloc: Global,
    full: &LocSet,
    part: &Part,
    before: &[u32],
) -> Result<u32, NoMemory>
    requires known { are_known (length (values terms.old)) before.now ≡ true }
    requires earlier { is_earlier (length before.now) part.now ≡ true }
    ensures made { IfOk result (λ n. (es : Items Expression) → map (value terms.old) before.now ≡ start_of full.now es
        → value terms.new n ≡ normal full.now (reversed (expression_of es part.now))) }
    ensures known { IfOk result (λ n. n < length (values terms.new)) }
    ensures extends { Extends (values terms.old) (values terms.new) }
{
    match part {
        Part::Own(e) => reversal_of(terms, alloc, full, e),
        Part::Both(a, b) => both_of(terms, alloc, &[before[*a], before[*b]]),
        Part::Either(members) => {
            let members = picked(alloc, before, members)?;
            either_of(terms, alloc, &members)
        }
        Part::Not(a) => complement_of(terms, before[*a]),
    }
}

// The normal form of the reversed expression of each part. What several share is turned once.
fn starts_of_parts(
    terms: &mut Terms,
    alloc: Global,
    full: &LocSet,
    parts: &[Part],
) -> Result<Vec<u32>, NoMemory>
    requires earlier { are_earlier 0 parts.now ≡ true }
    ensures made { IfOk result (λ r. map (value terms.new) r.items ≡ start_of full.now (expressions_of_parts parts.now)) }
    ensures known { IfOk result (λ r. are_known (length (values terms.new)) r.items ≡ true) }
{
    let mut all = Vec::new(alloc);
    for i in 0..parts.len() {
        let next = start_of_part(terms, alloc, full, &parts[i], &all)?;
        all.push(next)?;
    }
    Ok(all)
}

/// The normal form of each reversed expression: where walks begin.
pub fn starts_of(
    terms: &mut Terms,
    alloc: Global,
    full: &LocSet,
    ranked: &RankedExpr,
) -> Result<Vec<u32>, NoMemory>
    ensures made { IfOk result (λ r. map (value terms.new) r.items ≡ start_of full.now ranked.now) }
    ensures known { IfOk result (λ r. are_known (length (values terms.new)) r.items ≡ true) }
    ensures few { IfOk result (λ r. vec_len r ≤ ALTERNATIVES) }
{
    let (parts, alternatives) = ranked.parts();
    let all = starts_of_parts(terms, alloc, full, parts)?;
    picked(alloc, &all, alternatives)
}
