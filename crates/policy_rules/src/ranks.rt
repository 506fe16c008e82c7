//! Where ranks may stand: the marks of the expressions on a stack.
ghost use Rattle.std.specs.Prelude.{◌≡◌, ◌∷◌, reverse, None, Ok};
ghost use Rattle.net_base.specs.Gives.{GivesUnless};
ghost use Rattle.policy_tokens.specs.declared.fault.PolicyFault.TheVariants.{NoMemory};
ghost use Rattle.policy_rules.specs.Ranks.{earlier as first_of_two, top, under_top, marks_behind, or_broken};
ghost use Rattle.policy_grammar.specs.Raw.{Step as step};

use net_base::Place;
use policy_tokens::PolicyFault;

/// What matters of an expression: where its first `>>` stands, and the first one that stands under an `or` or
/// a `not` of the expression.
#[derive(Clone, Copy)]
pub struct Mark {
    /// Where its first `>>` stands.
    pub first: Option<Place>,
    /// Where the first `>>` stands that an `or` or a `not` is over.
    pub broken: Option<Place>,
}

// The first of two places, the second one where there is no first.
fn earlier(a: Option<Place>, b: Option<Place>) -> Option<Place>
    ensures { result ≡ first_of_two a b }
{
    match a {
        Some(place) => Some(place),
        None => b,
    }
}

// The mark on top of the stack, which leaves it.
fn pop(marks: &mut Vec<Mark>) -> Mark
    ensures value { result ≡ top (reverse marks.old.items) }
    ensures rest { reverse marks.new.items ≡ under_top (reverse marks.old.items) }
{
    match marks.pop() {
        Some(mark) => mark,
        None => Mark {
            first: None,
            broken: None,
        },
    }
}

// Puts a mark on top of the stack.
fn push(marks: &mut Vec<Mark>, mark: Mark) -> Result<(), PolicyFault>
    ensures { GivesUnless NoMemory (λ _. reverse marks.new.items) result (Ok (mark ∷ reverse marks.old.items)) }
{
    marks.push(mark)?;
    Ok(())
}

/// The mark of a call whose first `>>` stands at this place.
pub fn mark_call(marks: &mut Vec<Mark>, above: Option<Place>) -> Result<(), PolicyFault>
    ensures { GivesUnless NoMemory (λ _. reverse marks.new.items) result (Ok (record { first = above; broken = None } ∷ reverse marks.old.items)) }
{
    push(
        marks,
        Mark {
            first: above,
            broken: None,
        },
    )
}

/// The mark of `a >> b` in the place of those of its sides.
pub fn mark_above(marks: &mut Vec<Mark>, place: Place) -> Result<(), PolicyFault>
    ensures { GivesUnless NoMemory (λ _. reverse marks.new.items) result (Ok (marks_behind (step.Above place) (reverse marks.old.items))) }
{
    let b = pop(marks);
    let a = pop(marks);
    push(
        marks,
        Mark {
            first: earlier(a.first, Some(place)),
            broken: earlier(a.broken, b.broken),
        },
    )
}

/// The mark of `a or b` in the place of those of its sides.
pub fn mark_or(marks: &mut Vec<Mark>) -> Result<(), PolicyFault>
    ensures { GivesUnless NoMemory (λ _. reverse marks.new.items) result (Ok (marks_behind step.Or (reverse marks.old.items))) }
{
    let b = pop(marks);
    let a = pop(marks);
    let first = earlier(a.first, b.first);
    push(
        marks,
        Mark {
            first,
            broken: first,
        },
    )
}

/// The mark of `a and b` in the place of those of its sides.
pub fn mark_and(marks: &mut Vec<Mark>) -> Result<(), PolicyFault>
    ensures { GivesUnless NoMemory (λ _. reverse marks.new.items) result (Ok (marks_behind step.And (reverse marks.old.items))) }
{
    let b = pop(marks);
    let a = pop(marks);
    push(
        marks,
        Mark {
            first: earlier(a.first, b.first),
            broken: earlier(a.broken, b.broken),
        },
    )
}

/// The mark of `not a` in the place of that of its side.
pub fn mark_not(marks: &mut Vec<Mark>) -> Result<(), PolicyFault>
    ensures { GivesUnless NoMemory (λ _. reverse marks.new.items) result (Ok (marks_behind step.Not (reverse marks.old.items))) }
{
    let a = pop(marks);
    push(
        marks,
        Mark {
            first: a.first,
            broken: a.first,
        },
    )
}

/// Whether a `>>` stands under an `or` or a `not` in the expression on top of the stack, by its mark.
pub fn ranks_fine(marks: &[Mark]) -> Result<(), PolicyFault>
    ensures { result ≡ or_broken (top (reverse marks.now)).broken }
{
    match marks.last() {
        Some(mark) => match mark.broken {
            Some(place) => Err(PolicyFault::RankUnder(place)),
            None => Ok(()),
        },
        None => Ok(()),
    }
}
