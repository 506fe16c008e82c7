//! Calls.
ghost use Rattle.std.specs.Prelude.{◌≡◌, ◌++◌, OnOk, map};
ghost use Rattle.std.specs.List.{AllByRecursion, flat_map};
ghost use Rattle.policy_base.specs.declared.call.Call.TheVariants.{Of};
ghost use Rattle.policy_text.specs.PolicyText.{has_sets as call_has_sets, sets_text, call_text, next_set, calls_text};
ghost use Rattle.policy_text.specs.Values.{HaveLocSets, IsLocSet, sets_in};

use crate::names::{push_places, push_set};
use input_output::NoMemory;
use net_base::{LocSet, Net};
use policy_base::Call;
use policy_words::SetCall;
use std::alloc::Global;
use text_parts::push_bytes;

// Whether the call has sets.
fn has_sets(call: &Call) -> bool
    ensures { result ≡ call_has_sets call.now }
{
    !matches!(call, Call::Any | Call::Drop | Call::Internal)
}

// Adds the sets of a call.
fn push_sets(alloc: Global, text: &mut Vec<u8>, net: &Net, call: &Call) -> Result<(), NoMemory>
    ensures text { OnOk result (text.new.items ≡ text.old.items ++ sets_text net.now call.now) }
    ensures rules { OnOk result (AllByRecursion IsLocSet (sets_in call.now)) }
{
    match call {
        Call::Any | Call::Drop | Call::Internal => Ok(()),
        Call::Link(a, b) => push_places(alloc, text, net, &[*a, *b]),
        Call::Path(places) => push_places(alloc, text, net, places.as_slice()),
        Call::Of(_, set) => push_set(alloc, text, net, set),
    }
}

/// Adds a call: its word, and its sets in brackets.
#[tactic(auto, unfolding(crate::specs::PolicyText::call_text))]
pub(crate) fn push_call(
    alloc: Global,
    text: &mut Vec<u8>,
    net: &Net,
    call: &Call,
) -> Result<(), NoMemory>
    ensures text { OnOk result (text.new.items ≡ text.old.items ++ call_text net.now call.now) }
    ensures rules { OnOk result (AllByRecursion IsLocSet (sets_in call.now)) }
{
    push_bytes(text, call.word().text())?;
    if !has_sets(call) {
        return Ok(());
    }
    push_bytes(text, b"(")?;
    push_sets(alloc, text, net, call)?;
    push_bytes(text, b")")
}

// Adds more sets of a call, each after a `>>`.
fn push_more_sets(
    alloc: Global,
    text: &mut Vec<u8>,
    net: &Net,
    sets: &[LocSet],
) -> Result<(), NoMemory>
    ensures text { OnOk result (text.new.items ≡ text.old.items ++ flat_map (next_set net.now) sets.now) }
    ensures rules { OnOk result (AllByRecursion IsLocSet sets.now) }
{
    for set in sets {
        push_bytes(text, b" >> ")?;
        push_set(alloc, text, net, set)?;
    }
    Ok(())
}

/// Adds a call with ranked sets: its word, and the sets in brackets.
#[tactic(auto, unfolding(crate::specs::PolicyText::calls_text))]
pub(crate) fn push_calls(
    alloc: Global,
    text: &mut Vec<u8>,
    net: &Net,
    call: SetCall,
    sets: &[LocSet],
) -> Result<(), NoMemory>
    ensures text { OnOk result (text.new.items ≡ text.old.items ++ calls_text net.now (map (Of call) sets.now)) }
    ensures rules { OnOk result (HaveLocSets (map (Of call) sets.now)) }
{
    match sets {
        [] => Ok(()),
        [first, rest @ ..] => {
            push_bytes(text, call.word())?;
            push_bytes(text, b"(")?;
            push_set(alloc, text, net, first)?;
            push_more_sets(alloc, text, net, rest)?;
            push_bytes(text, b")")
        }
    }
}
