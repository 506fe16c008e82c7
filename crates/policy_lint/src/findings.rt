//! The findings of a policy and its text.
ghost use Rattle.std.specs.Prelude.{◌≡◌, ◌<◌, List as Items, Ok, IfErr, IfOk, OnOk, length};
ghost use Rattle.policy_base.specs.Policies.{policy_of};
ghost use Rattle.policy_tokens.specs.declared.token.Token.{Token as PlainToken};
ghost use Rattle.policy_tokens.specs.Tokens.{tokens_of};
ghost use Rattle.policy_parser.specs.Spelled.{spelled};
ghost use Rattle.case_graphs.specs.Limits.{AreAllWithin, IsRefused};
ghost use Rattle.policy_lint.specs.Findings.{AreFindings};

use crate::finding::Finding;
use crate::groups::push_unused;
use crate::statements::{push_covered, push_idle, push_unreached, statements_with_cases};
use case_graphs::LimitRefusal;
use input_output::NoMemory;
use lint_cover::covered_statements;
use lint_ranks::reached_ranks;
use net_base::{Net, known_net};
use policy_base::{Policy, cases, known_policy};
use policy_tokens::{PolicyFault, Token, tokens};
use std::alloc::Global;

// The tokens of a text that spells a policy.
fn tokens_for(alloc: Global, bytes: &[u8]) -> Result<Vec<Token>, NoMemory>
    requires short { length bytes.now < 4294967295 }
    requires cut { (ts : Items PlainToken) × (tokens_of bytes.now ≡ Ok ts) }
    ensures { IfOk result (λ tokens. tokens_of bytes.now ≡ Ok tokens.items) }
{
    match tokens(alloc, bytes) {
        Ok(tokens) => Ok(tokens),
        Err(PolicyFault::NoMemory) => Err(NoMemory),
        // The text spells a policy.
        Err(_) => unreachable!(),
    }
}

/// The parts of a policy, which `bytes` spell for the network, that can never matter: groups whose names are used nowhere, in order of
/// the text; statements whose prefixes earlier ones govern, and then those that no case has, by number; and alternatives that no
/// permitted walk reaches, by statement and place. Refused is a policy exactly where the limits on alternatives, nodes and steps
/// refuse a case of it, and for the first such case: whether sources have paths, or preference numbers exist, isn't asked.
pub fn lint(
    alloc: Global,
    bytes: &[u8],
    net: &Net,
    policy: &Policy,
) -> Result<Vec<Finding>, LimitRefusal>
    requires spelled { spelled net.now bytes.now ≡ Ok (policy_of policy.now) }
    requires short { length bytes.now < 4294967295 }
    ensures found { IfOk result (λ findings. AreFindings bytes.now net.now (policy_of policy.now) findings.items) }
    ensures within { OnOk result (AreAllWithin net.now (policy_of policy.now)) }
    ensures refused { IfErr result (IsRefused net.now (policy_of policy.now)) }
{
    known_net(net);
    known_policy(policy);
    let statements = policy.statements();
    let list = cases(alloc, net, policy)?;
    let ranks = reached_ranks(alloc, net, policy, &list)?;
    let have = statements_with_cases(alloc, statements.len(), list.cases.as_slice())?;
    let covered = covered_statements(alloc, statements)?;
    let tokens = tokens_for(alloc, bytes)?;
    let mut findings = Vec::new(alloc);
    push_unused(alloc, &mut findings, bytes, &tokens)?;
    push_covered(&mut findings, &covered)?;
    push_idle(&mut findings, &have, statements.len())?;
    push_unreached(&mut findings, &ranks, &have, statements)?;
    Ok(findings)
}
