//! The normal form of a reversed expression.
ghost use Rattle.std.specs.Prelude.{◌≡◌, ◌<◌, length, map, true, vec_len, IfOk};
ghost use Rattle.path_exprs.specs.Normal.{normal, reversed, seq_of as seq_spec};
ghost use Rattle.path_exprs.specs.Runs.{start_of};
ghost use Rattle.path_exprs.specs.View.{view, views};
ghost use Rattle.path_terms.specs.Terms.{are_known, Extends};
ghost use Rattle.path_terms.specs.Values.{values, value};

use input_output::NoMemory;
use net_base::LocSet;
use path_exprs::Expr;
use path_terms::{Term, Terms, both_of, complement_of, either_of, set_of, star_of};
use std::alloc::Global;

/// The normal form of the reversed expression.
#[cycle(reversal)]
pub fn reversal_of(
    terms: &mut Terms,
    alloc: Global,
    full: &LocSet,
    e: &Expr,
) -> Result<u32, NoMemory>
    ensures made { IfOk result (λ n. value terms.new n ≡ normal full.now (reversed (view e.now))) }
    ensures known { IfOk result (λ n. n < length (values terms.new)) }
    ensures extends { Extends (values terms.old) (values terms.new) }
{
    match e {
        Expr::Never => terms.intern(Term::Never),
        Expr::Empty => terms.intern(Term::Empty),
        Expr::Set(set) => set_of(terms, set),
        Expr::Seq(a, b) => {
            let rest = reversal_of(terms, alloc, full, a)?;
            reversed_onto(terms, alloc, full, b, rest)
        }
        Expr::Either(es) => {
            let members = reversals(terms, alloc, full, es)?;
            either_of(terms, alloc, &members)
        }
        Expr::Both(es) => {
            let members = reversals(terms, alloc, full, es)?;
            both_of(terms, alloc, &members)
        }
        Expr::Not(a) => {
            let inner = reversal_of(terms, alloc, full, a)?;
            complement_of(terms, inner)
        }
        Expr::Star(a) => {
            let inner = reversal_of(terms, alloc, full, a)?;
            star_of(terms, full, inner)
        }
    }
}

// The normal form of the reversed expression and then the tail. Reversing a chain so puts each place before the later
// ones once.
#[cycle(reversal)]
fn reversed_onto(
    terms: &mut Terms,
    alloc: Global,
    full: &LocSet,
    e: &Expr,
    tail: u32,
) -> Result<u32, NoMemory>
    requires tail { tail < length (values terms.old) }
    ensures made { IfOk result (λ n. value terms.new n ≡ seq_spec (normal full.now (reversed (view e.now))) (value terms.old tail)) }
    ensures known { IfOk result (λ n. n < length (values terms.new)) }
    ensures extends { Extends (values terms.old) (values terms.new) }
{
    if let Expr::Seq(a, b) = e {
        let rest = reversed_onto(terms, alloc, full, a, tail)?;
        return reversed_onto(terms, alloc, full, b, rest);
    }
    let first = reversal_of(terms, alloc, full, e)?;
    terms.seq_of(first, tail)
}

// The normal form of each reversed expression.
#[cycle(reversal)]
fn reversals(
    terms: &mut Terms,
    alloc: Global,
    full: &LocSet,
    es: &[Expr],
) -> Result<Vec<u32>, NoMemory>
    ensures made { IfOk result (λ r. map (value terms.new) r.items ≡ start_of full.now (views es.now)) }
    ensures known { IfOk result (λ r. are_known (length (values terms.new)) r.items ≡ true) }
    ensures len { IfOk result (λ r. vec_len r ≡ length es.now) }
    ensures extends { Extends (values terms.old) (values terms.new) }
{
    let mut all = Vec::new(alloc);
    for i in 0..es.len() {
        all.push(reversal_of(terms, alloc, full, &es[i])?)?;
    }
    Ok(all)
}
