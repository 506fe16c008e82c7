//! Equality, order and hashes of expressions.
ghost use Rattle.std.specs.Prelude.{◌≡◌, fold, refl};
ghost use Rattle.std.specs.List.{flat_map};
ghost use Rattle.std.specs.Hash as fed;
ghost use Rattle.std.specs.Cmp as laws_of_cmp;
ghost use Rattle.std.specs.Ordering.{is_eq, on, as_partial_cmp};
ghost use Rattle.path_exprs.specs.Order.{compare as compare_of};
ghost use Rattle.path_exprs.specs.View.{view, views};
ghost use Rattle.path_exprs.specs.Expression.{expressions_of};
ghost use Rattle.path_exprs.specs.Writes.{writes, writes_each};
ghost use Rattle.path_exprs.specs.Alike.{value_total, value_equivalence, equal_writes};

use crate::expr::Expr;
use crate::order::compare;
use std::cmp::Ordering;
use std::hash::{Hash, Hasher};

impl PartialEq for Expr {
    ghost eq = { λ a b. is_eq (compare_of (view a) (view b)) };

    ghost laws = { laws_of_cmp.partial_equiv_from_equiv value_equivalence };

    fn eq(&self, other: &Expr) -> bool {
        compare(self, other).is_eq()
    }
}

impl Eq for Expr {
    ghost laws = { value_equivalence };
}

impl Hash for Expr {
    ghost hash_input = { λ a. writes (view a) };

    ghost respects_eq = { equal_writes };

    fn hash<H: Hasher>(&self, state: &mut H) {
        feed(self, state);
    }
}

// Feeds an expression to a hasher: the place of its variant, then what it is made of.
#[cycle(feed)]
fn feed<H: Hasher>(e: &Expr, state: &mut H)
    ensures { state.new ≡ fold H.write state.old (writes (view e.now)) }
{
    match e {
        Expr::Never => state.write_u8(0),
        Expr::Empty => state.write_u8(1),
        Expr::Set(set) => {
            state.write_u8(2);
            feed_words(&set.words, state);
        }
        Expr::Seq(a, b) => {
            state.write_u8(3);
            feed(a, state);
            feed(b, state);
        }
        Expr::Either(es) => {
            state.write_u8(4);
            feed_each(es, state);
        }
        Expr::Both(es) => {
            state.write_u8(5);
            feed_each(es, state);
        }
        Expr::Not(a) => {
            state.write_u8(6);
            feed(a, state);
        }
        Expr::Star(a) => {
            state.write_u8(7);
            feed(a, state);
        }
    }
}

// Feeds each of these expressions.
#[cycle(feed)]
fn feed_each<H: Hasher>(es: &[Expr], state: &mut H)
    ensures { state.new ≡ fold H.write state.old (writes_each (expressions_of (views es.now))) }
{
    for i in 0..es.len() {
        feed(&es[i], state);
    }
}

// Feeds the words of a set.
fn feed_words<H: Hasher>(words: &[u64], state: &mut H)
    ensures { state.new ≡ fold H.write state.old (flat_map fed.u64 words.now) }
{
    for word in words {
        state.write_u64(*word);
    }
}

impl PartialOrd for Expr {
    ghost partial_cmp = { as_partial_cmp (on view compare_of) };

    ghost laws = { laws_of_cmp.partial_order_from_total value_total };

    fn partial_cmp(&self, other: &Expr) -> Option<Ordering> {
        Some(compare(self, other))
    }
}

impl Ord for Expr {
    ghost cmp = { on view compare_of };

    ghost total = { value_total };

    ghost matches_partial_cmp = { λ x y. refl };

    ghost matches_eq = { λ x y. refl };

    fn cmp(&self, other: &Expr) -> Ordering {
        compare(self, other)
    }
}
