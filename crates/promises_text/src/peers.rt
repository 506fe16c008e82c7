//! The line of the peers that an external case names.
ghost use Rattle.std.specs.Prelude.{◌≡◌, ◌++◌, OnOk};
ghost use Rattle.std.specs.List.{flat_map};
ghost use Rattle.net_base.specs.Locations.{in_order};
ghost use Rattle.policy_base.specs.Policies.{policy_of};
ghost use Rattle.promises_text.specs.Texts.{idle_line, named_peer};

use crate::line::push_line;
use input_output::NoMemory;
use net_base::{Loc, Net};
use outcome_report::push_next;
use policy_base::Policy;
use promises_report::{Group, is_named_peer};
use std::alloc::Global;

// Adds a peer that the `from` of the statement with a number names.
#[tactic(auto, unfolding(crate::specs::Texts::named_peer))]
fn push_peer(
    text: &mut Vec<u8>,
    net: &Net,
    policy: &Policy,
    number: u32,
    at: Loc,
) -> Result<(), NoMemory>
    ensures { OnOk result (text.new.items ≡ text.old.items ++ named_peer net.now (policy_of policy.now) number at) }
{
    if !is_named_peer(net, policy, number, at) {
        return Ok(());
    }
    push_next(text, net, at)
}

// Adds the peers that the `from` of the statement with a number names.
fn push_peers(text: &mut Vec<u8>, net: &Net, policy: &Policy, number: u32) -> Result<(), NoMemory>
    ensures { OnOk result (text.new.items ≡ text.old.items ++ flat_map (named_peer net.now (policy_of policy.now) number) (in_order net.now)) }
{
    for place in 0..net.routers().len() + net.peers().len() {
        push_peer(text, net, policy, number, Loc::new(place as u16))?;
    }
    Ok(())
}

/// Adds the line of the peers that an external case names.
pub fn push_idle(
    alloc: Global,
    text: &mut Vec<u8>,
    net: &Net,
    policy: &Policy,
    group: &Group,
) -> Result<(), NoMemory>
    ensures { OnOk result (text.new.items ≡ text.old.items ++ idle_line net.now (policy_of policy.now) group.now) }
{
    if !group.external {
        return Ok(());
    }
    let mut names = Vec::new(alloc);
    push_peers(&mut names, net, policy, group.statement)?;
    push_line(text, b"unclaimed peer", &names, b"\n")
}
