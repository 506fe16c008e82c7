//! Events, and then rounds until no message waits.
ghost use Rattle.std.specs.Prelude.{◌≡◌, ◌++◌, IfOk, OnOk, codes};
ghost use Rattle.std.specs.Fmt.{decimal};
ghost use Rattle.policy_base.specs.Policies.{IsPolicyOf, policy_of};
ghost use Rattle.evidence_law.specs.Passes.{Passes};
ghost use Rattle.settle_report.specs.Lines.{deliveries_line, rounds_line};
ghost use Rattle.settle_report.specs.Settlement.{IsSettlementOf};

use config_base::Config;
use event_base::Event;
use event_core::opening;
use event_rounds::{Rest, come_to_rest};
use evidence_base::Evidence;
use input_output::NoMemory;
use net_base::{Net, Prefix, known_net, known_prefix};
use outcome_report::push_report;
use policy_base::Policy;
use std::alloc::Global;
use text_parts::push_bytes;
use trace_report::{Standing, happen, push_each_refused};

// Adds a line of a word and a count, which may be beyond what 64 bits hold.
fn push_count(text: &mut Vec<u8>, word: &[u8], count: u128) -> Result<(), NoMemory>
    ensures { OnOk result (text.new.items ≡ text.old.items ++ (word.now ++ decimal count ++ codes "\n")) }
{
    let mut buffer = itoa::Buffer::new();
    push_bytes(text, word)?;
    push_bytes(text, buffer.format(count).as_bytes())?;
    push_bytes(text, b"\n")
}

// Adds how a network came to rest.
#[tactic(auto, unfolding(crate::specs::Lines::deliveries_line, crate::specs::Lines::rounds_line))]
fn push_rest(text: &mut Vec<u8>, rest: Rest) -> Result<(), NoMemory>
    ensures { OnOk result (text.new.items ≡ text.old.items ++ rounds_line rest.rounds ++ deliveries_line rest.deliveries) }
{
    push_count(text, b"rounds ", u128::from(rest.rounds))?;
    push_count(text, b"deliveries ", rest.deliveries)
}

/// What is told of events on a configured network, for one prefix: they happen from the opening on, and then messages are delivered
/// round by round until none waits. A line for each refused event, the counts of rounds and of deliveries, and then the report of the
/// outcome that is settled under what the events left down, cut and silent.
pub fn settle_events(
    alloc: Global,
    net: &Net,
    policy: &Policy,
    config: &Config,
    evidence: &Evidence,
    prefix: Prefix,
    events: &[Event],
) -> Result<Vec<u8>, NoMemory>
    requires fits { IsPolicyOf net.now (policy_of policy.now) }
    requires passes { Passes net.now (policy_of policy.now) config.now evidence.now.cases }
    ensures { IfOk result (λ text. IsSettlementOf net.now (policy_of policy.now) config.now prefix events.now text.items) }
{
    known_net(net);
    known_prefix(prefix);
    let mut world = opening(alloc, net, policy, config, prefix)?;
    let refused = happen(alloc, &mut world, events)?;
    let rest = come_to_rest(alloc, &mut world)?;
    let mut text = Vec::new(alloc);
    push_each_refused(&mut text, &refused)?;
    push_rest(&mut text, rest)?;
    let scene = Standing { world: &world };
    push_report(alloc, &mut text, net, policy, evidence, prefix, &scene)?;
    Ok(text)
}
