//! Ranked expressions.
ghost use Rattle.std.specs.Prelude.{◌≡◌, ◌++◌, OnOk};
ghost use Rattle.policy_base.specs.Policies.{ranking_of};
ghost use Rattle.policy_text.specs.PolicyText.{opening, closing, ranking_text};
ghost use Rattle.policy_text.specs.Values.{HasLocSets};

use crate::call::{push_call, push_calls};
use input_output::NoMemory;
use net_base::Net;
use policy_base::Ranked;
use std::alloc::Global;
use text_parts::push_bytes;

/// How strongly `>>` binds: of two operators the one with the greater number binds more strongly.
pub(crate) const PREFER: u8 = 1;

// How strongly `or` binds.
const OR: u8 = 2;

/// How strongly `and` binds.
pub(crate) const AND: u8 = 3;

/// How strongly `not` binds.
pub(crate) const NOT: u8 = 4;

// How strongly a call binds, and whatever stands in brackets.
const CALL: u8 = 5;

/// Opens a bracket, where one is needed.
pub(crate) fn push_opening(text: &mut Vec<u8>, is_bracketed: bool) -> Result<(), NoMemory>
    ensures { OnOk result (text.new.items ≡ text.old.items ++ opening is_bracketed) }
{
    if is_bracketed {
        return push_bytes(text, b"(");
    }
    Ok(())
}

/// Closes it.
pub(crate) fn push_closing(text: &mut Vec<u8>, is_bracketed: bool) -> Result<(), NoMemory>
    ensures { OnOk result (text.new.items ≡ text.old.items ++ closing is_bracketed) }
{
    if is_bracketed {
        return push_bytes(text, b")");
    }
    Ok(())
}

/// Adds an expression, in brackets where it binds less strongly than `least`.
pub(crate) fn push_ranked(
    alloc: Global,
    text: &mut Vec<u8>,
    net: &Net,
    least: u8,
    ranked: &Ranked,
) -> Result<(), NoMemory>
    ensures text { OnOk result (text.new.items ≡ text.old.items ++ ranking_text net.now least (ranking_of ranked.now)) }
    ensures rules { OnOk result (HasLocSets (ranking_of ranked.now)) }
{
    match ranked {
        Ranked::Call(call) => push_call(alloc, text, net, call),
        Ranked::Calls(call, sets) => push_calls(alloc, text, net, *call, sets.as_slice()),
        Ranked::Prefer(a, b) => {
            push_opening(text, PREFER < least)?;
            push_ranked(alloc, text, net, PREFER, a)?;
            push_bytes(text, b" >> ")?;
            push_ranked(alloc, text, net, OR, b)?;
            push_closing(text, PREFER < least)
        }
        Ranked::Or(a, b) => {
            push_opening(text, OR < least)?;
            push_ranked(alloc, text, net, OR, a)?;
            push_bytes(text, b" or ")?;
            push_ranked(alloc, text, net, AND, b)?;
            push_closing(text, OR < least)
        }
        Ranked::And(a, b) => {
            push_opening(text, AND < least)?;
            push_ranked(alloc, text, net, AND, a)?;
            push_bytes(text, b" and ")?;
            push_ranked(alloc, text, net, NOT, b)?;
            push_closing(text, AND < least)
        }
        Ranked::Not(a) => {
            push_opening(text, NOT < least)?;
            push_bytes(text, b"not ")?;
            push_ranked(alloc, text, net, CALL, a)?;
            push_closing(text, NOT < least)
        }
    }
}
