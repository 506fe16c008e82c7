//! What is compiled from a policy: a configuration, and the evidence that it is right.
ghost use Rattle.std.specs.Prelude.{◌≡◌, IfOk};
ghost use Rattle.policy_base.specs.Policies.{policy_of};
ghost use Rattle.policy_base.specs.CaseNumbers.{OriginsAreRouters};
ghost use Rattle.compile_jobs.specs.Compiling.{IsCompiledOr, IsCompiledEvidenceOr};
ghost use Rattle.refusal_lines.specs.RefusalLines.{IsShowable, refusal_line as line_of};
ghost use Rattle.run_base.specs.Said.{line as line_said, stop_said};
ghost use Rattle.run_base.specs.declared.outcome.Status.TheVariants.{Refused};

use compile_core::{CompileRefusal, Compiled, compile, compiled_evidence};
use evidence_base::Evidence;
use input_output::NoMemory;
use net_base::Net;
use policy_base::Policy;
use refusal_lines::refusal_line;
use run_base::{Status, Stop};
use std::alloc::Global;

// Why the run stops where a policy is refused for this.
fn refused(alloc: Global, net: &Net, refusal: &CompileRefusal) -> Result<Stop, NoMemory>
    requires { IsShowable refusal.now }
    ensures { IfOk result (λ stop. stop_said stop ≡ line_said Refused (line_of net.now refusal.now)) }
{
    let line = refusal_line(alloc, net, refusal)?;
    Ok(Stop::Line(Status::Refused, line))
}

/// The configuration that is compiled from the policy, with its evidence, or why the run stops.
#[tactic(auto, using(crate::proofs::Showing::refusals_are_showable))]
pub fn compiled_for(alloc: Global, net: &Net, policy: &Policy) -> Result<Compiled, Stop>
    requires { OriginsAreRouters net.now policy.now.origins }
    ensures { IsCompiledOr net.now (policy_of policy.now) result }
{
    match compile(alloc, net, policy) {
        Ok(compiled) => Ok(compiled),
        Err(CompileRefusal::NoMemory) => Err(Stop::NoMemory),
        Err(refusal) => Err(refused(alloc, net, &refusal)?),
    }
}

/// The evidence for the configuration that is compiled from the policy, or why the run stops. The configuration isn't made.
#[tactic(auto, using(crate::proofs::Showing::refusals_are_showable))]
pub fn compiled_evidence_for(alloc: Global, net: &Net, policy: &Policy) -> Result<Evidence, Stop>
    requires { OriginsAreRouters net.now policy.now.origins }
    ensures { IsCompiledEvidenceOr net.now (policy_of policy.now) result }
{
    match compiled_evidence(alloc, net, policy) {
        Ok(evidence) => Ok(evidence),
        Err(CompileRefusal::NoMemory) => Err(Stop::NoMemory),
        Err(refusal) => Err(refused(alloc, net, &refusal)?),
    }
}
