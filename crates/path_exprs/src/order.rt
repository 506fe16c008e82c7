//! The order of expressions.
ghost use Rattle.std.specs.Prelude.{◌≡◌};
ghost use Rattle.path_exprs.specs.Expression.{expressions_of};
ghost use Rattle.path_exprs.specs.Order.{compare as compare_of, compare_lists, variant as variant_of};
ghost use Rattle.path_exprs.specs.View.{view, views};

use crate::expr::Expr;
use std::cmp::Ordering;

// The place of the variant.
fn variant(e: &Expr) -> u8
    ensures { result ≡ variant_of (view e.now) }
{
    match e {
        Expr::Never => 0,
        Expr::Empty => 1,
        Expr::Set(_) => 2,
        Expr::Seq(_, _) => 3,
        Expr::Either(_) => 4,
        Expr::Both(_) => 5,
        Expr::Not(_) => 6,
        Expr::Star(_) => 7,
    }
}

/// Which of the two comes first.
#[cycle(compare)]
pub fn compare(e: &Expr, f: &Expr) -> Ordering
    ensures { result ≡ compare_of (view e.now) (view f.now) }
{
    match (e, f) {
        (Expr::Set(v), Expr::Set(w)) => v.cmp(w),
        (Expr::Seq(a, b), Expr::Seq(c, d)) => match compare(a, c) {
            Ordering::Equal => compare(b, d),
            other => other,
        },
        (Expr::Either(es), Expr::Either(fs)) => compare_all(es, fs),
        (Expr::Both(es), Expr::Both(fs)) => compare_all(es, fs),
        (Expr::Not(a), Expr::Not(b)) => compare(a, b),
        (Expr::Star(a), Expr::Star(b)) => compare(a, b),
        _ => variant(e).cmp(&variant(f)),
    }
}

/// Which of two lists of expressions comes first: the first place where they differ tells, and else the shorter one comes first.
#[cycle(compare)]
pub fn compare_all(es: &[Expr], fs: &[Expr]) -> Ordering
    ensures { result ≡ compare_lists (expressions_of (views es.now)) (expressions_of (views fs.now)) }
{
    for i in 0..es.len() {
        if i >= fs.len() {
            return Ordering::Greater;
        }
        match compare(&es[i], &fs[i]) {
            Ordering::Equal => {}
            other => return other,
        }
    }
    if es.len() < fs.len() {
        Ordering::Less
    } else {
        Ordering::Equal
    }
}
