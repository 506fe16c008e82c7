//! What the parts of an expression come to.
ghost use Rattle.std.specs.Prelude.{◌≡◌, ◌∷◌, None, Ok};
ghost use Rattle.net_base.specs.Gives.{GivesUnless};
ghost use Rattle.policy_tokens.specs.declared.fault.PolicyFault.TheVariants.{NoMemory};
ghost use Rattle.policy_base.specs.Policies.{call as call_of, ranking_of};
ghost use Rattle.policy_rules.specs.Ranks.{top as top_mark, or_broken};
ghost use Rattle.policy_values.specs.Built.{top, under_top};
ghost use Rattle.policy_values.specs.Operators.{level_of, step_at, join_of};
ghost use Rattle.policy_values.specs.Views.{rankings};
ghost use Rattle.policy_values.specs.CallReaders.{lone_call, placeless};
ghost use Rattle.policy_values.specs.CallValues.{plain_call, plain_value};
ghost use Rattle.policy_values.specs.Parts.{parts_value, no_parts, first_fault, names_of as names_in, is_kept as are_kept, settled, value_onto};
ghost use Rattle.policy_values.specs.Parts.{joined_on_top, negated_on_top, call_onto, sides_onto, not_onto};

use crate::call_values::{CallRead, LoneCall};
use crate::operators::Operator;
use net_base::Place;
use policy_base::{Call, FromSet, Ranked};
use policy_rules::{Mark, mark_call, mark_not, ranks_fine};
use policy_tokens::PolicyFault;
use policy_tokens::limits::CALLS;
use std::alloc::Global;

/// What the parts of an expression come to that were read so far.
#[derive(Drop)]
pub struct Parts {
    /// The first name that is unknown.
    pub names: Result<(), PolicyFault>,
    /// How many calls there are, kept at the greatest number.
    pub calls: u64,
    /// The first `path` with too many places.
    pub places: Result<(), PolicyFault>,
    /// The marks of the expressions on the stack, the last one on top.
    pub marks: Vec<Mark>,
    /// The expressions on the stack, the last one on top; none once a rule is broken.
    pub stack: Vec<Ranked>,
}

// A verdict behind another one: the first fault stays.
fn behind(
    first: Result<(), PolicyFault>,
    second: Result<(), PolicyFault>,
) -> Result<(), PolicyFault>
    ensures { result ≡ first_fault first second }
{
    match first {
        Ok(()) => second,
        Err(fault) => Err(fault),
    }
}

// Whether the names of a call are known.
fn known(value: &Result<Ranked, PolicyFault>) -> Result<(), PolicyFault>
    ensures { result ≡ names_in (plain_value value.now) }
{
    match value {
        Ok(_) => Ok(()),
        Err(fault) => Err(*fault),
    }
}

// The expression on top of the stack, which leaves it.
fn pop(stack: &mut Vec<Ranked>) -> Ranked
    ensures value { ranking_of result ≡ top (rankings stack.old.items) }
    ensures rest { rankings stack.new.items ≡ under_top (rankings stack.old.items) }
{
    match stack.pop() {
        Some(ranked) => ranked,
        None => Ranked::Call(Call::Drop),
    }
}

// Puts an expression on top of the stack.
fn push(stack: &mut Vec<Ranked>, ranked: Ranked) -> Result<(), PolicyFault>
    ensures { GivesUnless NoMemory (λ _. rankings stack.new.items) result (Ok (ranking_of ranked ∷ rankings stack.old.items)) }
{
    stack.push(ranked)?;
    Ok(())
}

// The value of a call on top of the stack; there is none if a name is unknown.
fn push_value(
    stack: &mut Vec<Ranked>,
    value: Result<Ranked, PolicyFault>,
) -> Result<(), PolicyFault>
    ensures { GivesUnless NoMemory (λ _. rankings stack.new.items) result (Ok (value_onto (plain_value value) (rankings stack.old.items))) }
{
    match value {
        Ok(ranked) => push(stack, ranked),
        Err(_) => Ok(()),
    }
}

// A call that is a word alone on top of the stack.
fn push_lone(stack: &mut Vec<Ranked>, lone: LoneCall) -> Result<(), PolicyFault>
    ensures { GivesUnless NoMemory (λ _. rankings stack.new.items) result (Ok (call_of (lone_call lone) ∷ rankings stack.old.items)) }
{
    push(stack, Ranked::Call(lone.call()))
}

// What an operator makes of the two on top of the stack.
fn join_top(alloc: Global, operator: Operator, stack: &mut Vec<Ranked>) -> Result<(), PolicyFault>
    ensures { GivesUnless NoMemory (λ _. rankings stack.new.items) result (Ok (joined_on_top (join_of (level_of operator)) (rankings stack.old.items))) }
{
    let b = pop(stack);
    let a = pop(stack);
    push(stack, operator.join(alloc, a, b)?)
}

// `not a` of the one on top of the stack.
fn negate_top(alloc: Global, stack: &mut Vec<Ranked>) -> Result<(), PolicyFault>
    ensures { GivesUnless NoMemory (λ _. rankings stack.new.items) result (Ok (negated_on_top (rankings stack.old.items))) }
{
    let a = Box::new(alloc, pop(stack))?;
    push(stack, Ranked::Not(a))
}

impl Parts {
    /// No part.
    pub(crate) fn of(alloc: Global) -> Parts
        ensures { parts_value result ≡ no_parts }
    {
        Parts {
            names: Ok(()),
            calls: 0,
            places: Ok(()),
            marks: Vec::new(alloc),
            stack: Vec::new(alloc),
        }
    }

    // Whether no rule is broken that forbids to keep the expressions.
    fn is_kept(&self) -> bool
        ensures { result ≡ are_kept (parts_value self.now) }
    {
        self.names.is_ok() && self.places.is_ok() && self.calls <= CALLS
    }

    // Whether the expressions are kept. Once a rule is broken they go.
    fn settle(&mut self) -> bool
        ensures kept { result ≡ are_kept (parts_value self.old) }
        ensures settled { parts_value self.new ≡ settled (parts_value self.old) }
    {
        let kept = self.is_kept();
        if !kept {
            self.stack.clear();
        }
        kept
    }

    /// One call more that is a word alone. A value is made of it only where it is kept.
    pub(crate) fn take_lone(&mut self, lone: LoneCall) -> Result<(), PolicyFault>
        ensures { GivesUnless NoMemory (λ _. parts_value self.new) result (Ok (call_onto (placeless None (Ok (call_of (lone_call lone)))) (parts_value self.old))) }
    {
        self.calls = self.calls.saturating_add(1);
        mark_call(&mut self.marks, None)?;
        if !self.settle() {
            return Ok(());
        }
        push_lone(&mut self.stack, lone)
    }

    /// One call more.
    pub(crate) fn take_call(&mut self, call: CallRead) -> Result<(), PolicyFault>
        ensures { GivesUnless NoMemory (λ _. parts_value self.new) result (Ok (call_onto (plain_call call) (parts_value self.old))) }
    {
        self.calls = self.calls.saturating_add(1);
        self.places = behind(self.places, call.places);
        self.names = behind(self.names, known(&call.value));
        push_value(&mut self.stack, call.value)?;
        mark_call(&mut self.marks, call.above)?;
        self.settle();
        Ok(())
    }

    /// What an operator that stands at this place makes of the two on top.
    pub(crate) fn take_sides(
        &mut self,
        alloc: Global,
        operator: Operator,
        place: Place,
    ) -> Result<(), PolicyFault>
        ensures { GivesUnless NoMemory (λ _. parts_value self.new) result (Ok (sides_onto (step_at (level_of operator) place) (join_of (level_of operator)) (parts_value self.old))) }
    {
        operator.mark(&mut self.marks, place)?;
        if !self.settle() {
            return Ok(());
        }
        join_top(alloc, operator, &mut self.stack)
    }

    /// `not a` of the one on top.
    pub(crate) fn take_not(&mut self, alloc: Global) -> Result<(), PolicyFault>
        ensures { GivesUnless NoMemory (λ _. parts_value self.new) result (Ok (not_onto (parts_value self.old))) }
    {
        mark_not(&mut self.marks)?;
        if !self.settle() {
            return Ok(());
        }
        negate_top(alloc, &mut self.stack)
    }

    /// The first unknown name of the expression, or else that of a value behind it.
    pub fn names_and(&self, from: &Result<FromSet, PolicyFault>) -> Result<(), PolicyFault>
        ensures { result ≡ first_fault (parts_value self.now).names (names_in from.now) }
    {
        self.names?;
        match from {
            Ok(_) => Ok(()),
            Err(fault) => Err(*fault),
        }
    }

    /// Whether a `>>` stands under an `or` or a `not` of the expression.
    pub fn ranks(&self) -> Result<(), PolicyFault>
        ensures { result ≡ or_broken (top_mark (parts_value self.now).marks).broken }
    {
        ranks_fine(&self.marks)
    }

    /// The expression, which leaves the stack.
    pub fn ranked(&mut self) -> Ranked
        ensures { ranking_of result ≡ top (parts_value self.old).stack }
    {
        pop(&mut self.stack)
    }
}
