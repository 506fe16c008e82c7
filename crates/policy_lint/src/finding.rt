//! Findings.
ghost use Rattle.std.specs.Prelude.{◌≡◌, [], ◌∷◌, ◌++◌, OnOk, if◌then◌else◌};

use net_base::Name;
use std::alloc::AllocError;

/// A part of a policy that can never matter. Statements and alternatives are numbered from 1.
#[derive(Clone, Copy, PartialEq, Eq)]
pub enum Finding {
    /// The name of this group stands nowhere but in its `define`.
    UnusedGroup(Name),
    /// Each prefix that the patterns of this statement contain is governed by an earlier one.
    Covered(u32),
    /// No case has this statement.
    Idle(u32),
    /// The statement, which isn't idle, and an alternative of it: no permitted walk of its cases has this rank.
    Unreached(u32, u32),
}

/// Adds a finding, where it holds.
pub(crate) fn push_if(
    findings: &mut Vec<Finding>,
    holds: bool,
    finding: Finding,
) -> Result<(), AllocError>
    ensures { OnOk result (findings.new.items ≡ findings.old.items ++ (if holds then finding ∷ [] else [])) }
{
    if holds {
        findings.push(finding)?;
    }
    Ok(())
}
