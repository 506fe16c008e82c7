//! Printing policies.
ghost use Rattle.std.specs.Prelude.{◌≡◌, ◌++◌, OnOk, IfOk, IsTrue, Ok, map, codes};
ghost use Rattle.std.specs.List.{AllByRecursion, flat_map};
ghost use Rattle.net_base.specs.Prefixes.{IsPattern};
ghost use Rattle.policy_base.specs.Policies.{plain_statement, policy_of};
ghost use Rattle.policy_parser.specs.Spelled.{spelled};
ghost use Rattle.policy_text.specs.PolicyText.{is_everything as is_every_prefix, next_pattern, patterns_text, from_text, statement_line, origin_line, policy_text};
ghost use Rattle.policy_text.specs.Printable.{IsPrintable};
ghost use Rattle.policy_text.specs.Values.{HasSources, IsOriginValue, IsStatementValue};

use crate::names::{have_names, push_names};
use crate::ranked::{PREFER, push_ranked};
use input_output::NoMemory;
use net_base::{Net, Pattern};
use policy_base::{FromSet, Origin, Policy, Statement};
use std::alloc::Global;
use text_parts::{push_bytes, push_pattern, push_prefix};

// Whether the pattern is that of all prefixes.
fn is_everything(pattern: Pattern) -> bool
    ensures test { result ≡ is_every_prefix pattern }
    ensures rules { IsTrue result → IsPattern pattern }
{
    pattern.base().bits() == 0 && pattern.base().len() == 0 && pattern.upto() == 32
}

// Adds patterns, each after an `or`.
fn push_more_patterns(text: &mut Vec<u8>, patterns: &[Pattern]) -> Result<(), NoMemory>
    ensures text { OnOk result (text.new.items ≡ text.old.items ++ flat_map next_pattern patterns.now) }
    ensures rules { OnOk result (AllByRecursion IsPattern patterns.now) }
{
    for pattern in patterns {
        push_bytes(text, b" or ")?;
        push_pattern(text, *pattern)?;
    }
    Ok(())
}

// Adds the patterns, joined by `or`; all prefixes alone are `true`.
#[tactic(auto, unfolding(crate::specs::PolicyText::patterns_text))]
fn push_patterns(text: &mut Vec<u8>, patterns: &[Pattern]) -> Result<(), NoMemory>
    ensures text { OnOk result (text.new.items ≡ text.old.items ++ patterns_text patterns.now) }
    ensures rules { OnOk result (AllByRecursion IsPattern patterns.now) }
{
    match patterns {
        [] => Ok(()),
        [only] if is_everything(*only) => push_bytes(text, b"true"),
        [first, rest @ ..] => {
            push_pattern(text, *first)?;
            push_more_patterns(text, rest)
        }
    }
}

// Adds the sources that a statement names, if it names some.
fn push_from(alloc: Global, text: &mut Vec<u8>, net: &Net, from: &FromSet) -> Result<(), NoMemory>
    ensures text { OnOk result (text.new.items ≡ text.old.items ++ from_text net.now from.now) }
    ensures rules { OnOk result (HasSources from.now) }
{
    match from {
        FromSet::Any => Ok(()),
        FromSet::Named(set) => {
            push_bytes(text, b" from ")?;
            push_names(alloc, text, net, set)
        }
    }
}

// Ends an item and its line.
fn push_end(text: &mut Vec<u8>) -> Result<(), NoMemory>
    ensures { OnOk result (text.new.items ≡ text.old.items ++ codes ";\n") }
{
    push_bytes(text, b";\n")
}

// Adds the line of a statement.
#[tactic(auto, unfolding(crate::specs::PolicyText::statement_line))]
fn push_statement(
    alloc: Global,
    text: &mut Vec<u8>,
    net: &Net,
    statement: &Statement,
) -> Result<(), NoMemory>
    ensures text { OnOk result (text.new.items ≡ text.old.items ++ statement_line net.now (plain_statement statement.now)) }
    ensures rules { OnOk result (IsStatementValue (plain_statement statement.now)) }
{
    push_patterns(text, statement.patterns.as_slice())?;
    push_bytes(text, b" => ")?;
    push_ranked(alloc, text, net, PREFER, &statement.ranked)?;
    push_from(alloc, text, net, &statement.from)?;
    push_end(text)
}

// Adds the line of a prefix that is originated.
#[tactic(auto, unfolding(crate::specs::PolicyText::origin_line))]
fn push_origin(
    alloc: Global,
    text: &mut Vec<u8>,
    net: &Net,
    origin: &Origin,
) -> Result<(), NoMemory>
    ensures text { OnOk result (text.new.items ≡ text.old.items ++ origin_line net.now origin.now) }
    ensures rules { OnOk result (IsOriginValue origin.now) }
{
    push_bytes(text, b"originate ")?;
    push_prefix(text, origin.prefix)?;
    push_bytes(text, b" at ")?;
    push_names(alloc, text, net, &origin.at)?;
    push_end(text)
}

// Adds the lines of the statements.
fn push_statements(
    alloc: Global,
    text: &mut Vec<u8>,
    net: &Net,
    statements: &[Statement],
) -> Result<(), NoMemory>
    ensures text { OnOk result (text.new.items ≡ text.old.items ++ flat_map (statement_line net.now) (map plain_statement statements.now)) }
    ensures rules { OnOk result (AllByRecursion IsStatementValue (map plain_statement statements.now)) }
{
    for statement in statements {
        push_statement(alloc, text, net, statement)?;
    }
    Ok(())
}

// Adds the lines of the originated prefixes.
fn push_origins(
    alloc: Global,
    text: &mut Vec<u8>,
    net: &Net,
    origins: &[Origin],
) -> Result<(), NoMemory>
    ensures text { OnOk result (text.new.items ≡ text.old.items ++ flat_map (origin_line net.now) origins.now) }
    ensures rules { OnOk result (AllByRecursion IsOriginValue origins.now) }
{
    for origin in origins {
        push_origin(alloc, text, net, origin)?;
    }
    Ok(())
}

/// The text of a policy for a net: first the originated prefixes, then the statements, one per line, in order.
/// Where the policy is printable for the net, the text is read as this policy again.
pub fn print_policy(alloc: Global, policy: &Policy, net: &Net) -> Result<Vec<u8>, NoMemory>
    ensures text { IfOk result (λ v. v.items ≡ policy_text net.now (policy_of policy.now)) }
    ensures read { IfOk result (λ v. IsPrintable net.now (policy_of policy.now) → spelled net.now v.items ≡ Ok (policy_of policy.now)) }
{
    have_names(net.routers());
    have_names(net.peers());
    let mut text = Vec::new(alloc);
    push_origins(alloc, &mut text, net, policy.origins())?;
    push_statements(alloc, &mut text, net, policy.statements())?;
    Ok(text)
}
