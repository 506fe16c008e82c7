//! The compiler.
ghost use Rattle.std.specs.Prelude.{IfErr, IfOk};
ghost use Rattle.policy_base.specs.Policies.{policy_of};
ghost use Rattle.evidence_law.specs.Passes.{Passes};
ghost use Rattle.policy_base.specs.CaseNumbers.{OriginsAreRouters};
ghost use Rattle.compile_core.specs.Compiling.{IsEvidenceOfMade, IsMade, IsRefusal};

use crate::accept::accepted_cases;
use crate::compiled::Compiled;
use crate::evidence::evidence_of;
use case_core::CompileRefusal;
use config_base::Config;
use config_maker::config_of;
use evidence_base::Evidence;
use input_output::NoMemory;
use net_base::{Net, known_net};
use policy_base::{Policy, cases, known_policy};
use std::alloc::Global;
use tag_assign::tags;

/// The evidence of a policy, whose origins are routers, for a network: that of its cases, each with its own graph, numbers and
/// tags, or why the policy is refused. The cases are judged in order, with room for 131,072 steps over all of them, and the first
/// one that isn't accepted is refused. If memory is not refused, there is evidence exactly where none of them is. It passes for the
/// configuration that is made of it; none is made here, for those who write nothing of it.
pub fn compiled_evidence(
    alloc: Global,
    net: &Net,
    policy: &Policy,
) -> Result<Evidence, CompileRefusal>
    requires { OriginsAreRouters net.now policy.now.origins }
    ensures made { IfOk result (λ evidence. IsEvidenceOfMade net.now (policy_of policy.now) evidence.cases) }
    ensures refused { IfErr result (λ e. IsRefusal net.now (policy_of policy.now) e) }
{
    known_net(net);
    known_policy(policy);
    let list = cases(alloc, net, policy)?;
    let all = accepted_cases(alloc, net, policy, &list)?;
    let tags = tags(alloc, net, &all.graphs)?;
    Ok(evidence_of(
        alloc,
        list.cases.as_slice(),
        all.graphs,
        all.prefs,
        tags.of.as_slice(),
    )?)
}

/// The configuration that is made of the evidence of a policy.
pub fn config_for(
    alloc: Global,
    net: &Net,
    policy: &Policy,
    evidence: &Evidence,
) -> Result<Config, NoMemory>
    requires routers { OriginsAreRouters net.now policy.now.origins }
    requires made { IsEvidenceOfMade net.now (policy_of policy.now) evidence.now.cases }
    ensures made { IfOk result (λ config. IsMade net.now (policy_of policy.now) config evidence.now.cases) }
    ensures passes { IfOk result (λ config. Passes net.now (policy_of policy.now) config evidence.now.cases) }
{
    known_net(net);
    known_policy(policy);
    config_of(alloc, net, policy, evidence.cases.as_slice())
}

/// Compiles a policy, whose origins are routers, for a network: the configuration of its cases, and the evidence that this
/// configuration is right, or why the policy is refused. If memory is not refused, a policy is compiled exactly where none of its
/// cases is.
pub fn compile(alloc: Global, net: &Net, policy: &Policy) -> Result<Compiled, CompileRefusal>
    requires { OriginsAreRouters net.now policy.now.origins }
    ensures made { IfOk result (λ given. IsMade net.now (policy_of policy.now) given.config given.evidence.cases) }
    ensures passes { IfOk result (λ given. Passes net.now (policy_of policy.now) given.config given.evidence.cases) }
    ensures refused { IfErr result (λ e. IsRefusal net.now (policy_of policy.now) e) }
{
    let evidence = compiled_evidence(alloc, net, policy)?;
    let config = config_for(alloc, net, policy, &evidence)?;
    Ok(Compiled { config, evidence })
}
