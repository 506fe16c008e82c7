//! The commands that answer what a third text asks: a scenario, or events.
ghost use Rattle.std.specs.Prelude.{◌<◌, ℕ, List as Seq, Result as Read, IfOk, length};
ghost use Rattle.net_base.specs.Network.{PlainNet};
ghost use Rattle.policy_base.specs.CaseNumbers.{OriginsAreRouters};
ghost use Rattle.policy_base.specs.Policies.{IsPolicyOf, PlainPolicy, policy_of};
ghost use Rattle.config_base.specs.Configs.{PlainConfig};
ghost use Rattle.evidence_base.specs.Made.{PlainCaseEvidence};
ghost use Rattle.compile_core.specs.Compiling.{IsEvidenceOfMade};
ghost use Rattle.compile_jobs.specs.Compiling.{Answers, SaysOfThird, SaysOfValue};
ghost use Rattle.input_texts.specs.Texts.{IsReadOr, OfTexts};
ghost use Rattle.run_base.specs.Said.{IsGiven, said};

use crate::pairs::compiled_evidence_for;
use event_reader::{Events, EventsFault};
use evidence_base::Evidence;
use input_output::NoMemory;
use input_texts::{events_for, net_of, policy_for, scenario_for};
use net_base::Net;
use policy_base::Policy;
use run_base::Stop;
use scenario_reader::ScenarioFault;
use scenarios::Scenario;
use std::alloc::Global;

/// What a third text asks.
pub trait Question {
    /// What may be wrong with such a text.
    type Fault;

    /// The line of a fault.
    ghost line_of: { Self.Fault → Seq ℕ };

    /// What a text spells for a network.
    ghost spelled: { PlainNet → Seq ℕ → Read Self Self.Fault };

    /// Reads a text for a network, or says why the run stops.
    fn read(alloc: Global, net: &Net, text: &[u8]) -> Result<Self, Stop>
    where
        Self: Sized,
        ensures { IsReadOr (λ question. question) line_of (spelled net.now text.now) result };
}

impl Question for Scenario {
    ghost use Rattle.input_texts.specs.FaultLines.{scenario_line};
    ghost use Rattle.scenario_reader.specs.Spelled.{spelled as scenario_spelled};

    type Fault = ScenarioFault;

    ghost line_of = { scenario_line };

    ghost spelled = { scenario_spelled };

    fn read(alloc: Global, net: &Net, text: &[u8]) -> Result<Scenario, Stop> {
        scenario_for(alloc, net, text)
    }
}

impl Question for Events {
    ghost use Rattle.event_reader.specs.Spelled.{spelled as events_spelled};
    ghost use Rattle.input_texts.specs.FaultLines.{events_line};

    type Fault = EventsFault;

    ghost line_of = { events_line };

    ghost spelled = { events_spelled };

    fn read(alloc: Global, net: &Net, text: &[u8]) -> Result<Events, Stop> {
        events_for(alloc, net, text)
    }
}

/// A command that answers what a third text asks, of the configuration that is compiled from the policy. It is given the evidence, of which
/// it makes the configuration where it needs one (`compile_core::config_for`).
pub trait Answer {
    /// What is asked.
    type Asked: Question + Drop;

    /// What is written for a network, a policy and what is asked, of the configuration that is compiled and of its evidence.
    ghost writes: { PlainNet → PlainPolicy → Self.Asked → PlainConfig → Seq PlainCaseEvidence → Seq ℕ → Type 0 };

    /// The text that is written.
    fn answer(
        alloc: Global,
        net: &Net,
        policy: &Policy,
        evidence: &Evidence,
        asked: &Self::Asked,
    ) -> Result<Vec<u8>, NoMemory>
        requires routers { OriginsAreRouters net.now policy.now.origins }
        requires fits { IsPolicyOf net.now (policy_of policy.now) }
        requires evidence { IsEvidenceOfMade net.now (policy_of policy.now) evidence.now.cases }
        ensures { IfOk result (λ bytes. Answers writes net.now (policy_of policy.now) asked.now evidence.now.cases bytes.items) };
}

// The answer to what is asked, or why the policy is refused.
fn answer_to<A: Answer>(
    alloc: Global,
    net: &Net,
    policy: &Policy,
    asked: &A::Asked,
) -> Result<Vec<u8>, Stop>
    requires routers { OriginsAreRouters net.now policy.now.origins }
    requires fits { IsPolicyOf net.now (policy_of policy.now) }
    ensures { IsGiven (SaysOfValue A.Asked.line_of A.Asked.spelled A.writes net.now (policy_of policy.now) asked.now) (said result) }
{
    let evidence = compiled_evidence_for(alloc, net, policy)?;
    Ok(A::answer(alloc, net, policy, &evidence, asked)?)
}

// What the third text comes to.
fn third_text<A: Answer>(
    alloc: Global,
    net: &Net,
    policy: &Policy,
    third: &[u8],
) -> Result<Vec<u8>, Stop>
    requires routers { OriginsAreRouters net.now policy.now.origins }
    requires fits { IsPolicyOf net.now (policy_of policy.now) }
    ensures { IsGiven (SaysOfThird A.Asked.line_of A.Asked.spelled A.writes third.now net.now (policy_of policy.now)) (said result) }
{
    let asked = A::Asked::read(alloc, net, third)?;
    answer_to::<A>(alloc, net, policy, &asked)
}

/// What the texts of a topology and of a policy and a third text come to: the answer to what the third one asks, or why the run stops.
#[tactic(auto, unfolding(input_texts::specs::Texts::OfTexts))]
pub fn answered_texts<A: Answer>(
    alloc: Global,
    topology: &[u8],
    policy: &[u8],
    third: &[u8],
) -> Result<Vec<u8>, Stop>
    requires { length policy.now < 4294967295 }
    ensures { IsGiven (OfTexts (SaysOfThird A.Asked.line_of A.Asked.spelled A.writes third.now) topology.now policy.now) (said result) }
{
    let net = net_of(alloc, topology)?;
    let policy = policy_for(alloc, &net, policy)?;
    third_text::<A>(alloc, &net, &policy, third)
}
