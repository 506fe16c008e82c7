//! The trace of a world.
ghost use Rattle.std.specs.Prelude.{◌≡◌, ◌++◌, IfOk, OnOk};
ghost use Rattle.config_base.specs.Configs.{PlainConfig};
ghost use Rattle.policy_base.specs.Policies.{IsPolicyOf, policy_of};
ghost use Rattle.event_state.specs.States.{state};
ghost use Rattle.evidence_law.specs.Passes.{Passes};
ghost use Rattle.trace_report.specs.Lines.{quiet_line};
ghost use Rattle.trace_report.specs.Trace.{IsTrace};

use crate::refused::{Refused, push_each_refused};
use event_state::World;
use evidence_base::Evidence;
use input_output::NoMemory;
use net_base::{Loc, Net, Prefix};
use outcome_report::{Scene, push_report, with_front};
use policy_base::Policy;
use std::alloc::{AllocError, Global};
use text_parts::push_bytes;

/// A world as a report shows it.
#[derive(Drop)]
pub struct Standing<'a> {
    /// The world.
    pub world: &'a World<'a>,
}

impl Scene for Standing<'_> {
    ghost use Rattle.trace_report.specs.Scenes.{shown_in};

    ghost shown = { shown_in };

    fn is_dead(&self, at: Loc) -> bool {
        self.world.is_down(at)
    }

    fn path(&self, at: Loc) -> Option<&[Loc]> {
        Some(self.world.route(at)?.path.as_slice())
    }

    /// The path that the peer last heard.
    fn offer(&self, alloc: Global, router: Loc, peer: Loc) -> Result<Option<Vec<Loc>>, AllocError> {
        match self.world.heard(router, peer) {
            None => Ok(None),
            Some(route) => Ok(Some(with_front(alloc, peer, route.path.as_slice())?)),
        }
    }
}

/// Adds whether no message waits.
pub fn push_quiet(text: &mut Vec<u8>, quiet: bool) -> Result<(), NoMemory>
    ensures { OnOk result (text.new.items ≡ text.old.items ++ quiet_line quiet) }
{
    if quiet {
        push_bytes(text, b"quiet yes\n")
    } else {
        push_bytes(text, b"quiet no\n")
    }
}

/// The trace of a world: a line for each refused event, whether no message waits, and then the report of what the world shows. Of a
/// session that tells the path that the peer last heard.
pub fn trace_report(
    alloc: Global,
    net: &Net,
    policy: &Policy,
    evidence: &Evidence,
    prefix: Prefix,
    world: &World<'_>,
    refused: &[Refused],
) -> Result<Vec<u8>, NoMemory>
    requires fits { IsPolicyOf net.now (policy_of policy.now) }
    requires passes { (config : PlainConfig) × Passes net.now (policy_of policy.now) config evidence.now.cases }
    ensures { IfOk result (λ text. (config : PlainConfig) → Passes net.now (policy_of policy.now) config evidence.now.cases
        → IsTrace net.now (policy_of policy.now) config prefix refused.now (state world.now) text.items) }
{
    let mut text = Vec::new(alloc);
    push_each_refused(&mut text, refused)?;
    push_quiet(&mut text, world.is_quiet())?;
    let scene = Standing { world };
    push_report(alloc, &mut text, net, policy, evidence, prefix, &scene)?;
    Ok(text)
}
