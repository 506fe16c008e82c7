//! What is told of all cases.
ghost use Rattle.std.specs.Prelude.{◌≡◌, ◌++◌, ◌<◌, ◌∷◌, [], IfOk, OnOk, length, if◌then◌else◌};
ghost use Rattle.own_space.specs.Covers.{covered_in};
ghost use Rattle.policy_base.specs.Policies.{policy_of};
ghost use Rattle.promises_report.specs.Cases.{HaveOneStep, TellsCases};
ghost use Rattle.promises_report.specs.Places.{sessions_of as sessions_in};

use crate::case::tell_case;
use crate::counts::Counts;
use crate::group::{Group, join};
use evidence_base::CaseEvidence;
use input_output::NoMemory;
use net_base::{Loc, Net};
use own_space::OpenCase;
use policy_base::Policy;
use std::alloc::Global;

/// What is told of cases.
#[derive(Drop)]
pub struct ToldCases {
    /// Those that say the same stand together.
    pub groups: Vec<Group>,
    /// How many of each kind they have.
    pub counts: Counts,
    /// Those in which some router takes what peers announce.
    pub taking: Vec<OpenCase>,
}

// Notes a case in which some router takes what peers announce.
fn note_taking(
    taking: &mut Vec<OpenCase>,
    number: usize,
    statement: u32,
    takes: bool,
) -> Result<(), NoMemory>
    ensures { OnOk result (taking.new.items ≡ taking.old.items ++ (if takes then record { number = number; statement = statement } ∷ [] else [])) }
{
    if takes {
        taking.push(OpenCase { number, statement })?;
    }
    Ok(())
}

/// What is told of all cases. The sessions are those of the network, and the marks tell which statements are covered.
pub fn tell_cases(
    alloc: Global,
    net: &Net,
    policy: &Policy,
    cases: &[CaseEvidence],
    sessions: &[(Loc, Loc)],
    marks: &[bool],
) -> Result<ToldCases, NoMemory>
    requires few { length cases.now < 4294967296 }
    requires one_step { HaveOneStep cases.now }
    requires sessions { sessions.now ≡ sessions_in net.now }
    requires marks { marks.now ≡ covered_in (policy_of policy.now) }
    ensures { IfOk result (λ all. TellsCases net.now (policy_of policy.now) cases.now all.groups.items all.counts all.taking.items) }
{
    let mut counts = Counts::none();
    let mut groups = Vec::new(alloc);
    let mut taking = Vec::new(alloc);
    for place in 0..cases.len() {
        let case = &cases[place];
        let number = place + 1;
        let (group, added) = tell_case(alloc, net, policy, number, case, sessions, marks)?;
        let sum = counts.and(added.counts);
        counts = sum;
        note_taking(&mut taking, number, case.case().statement, added.takes)?;
        join(alloc, &mut groups, group)?;
    }
    Ok(ToldCases {
        groups,
        counts,
        taking,
    })
}
