//! What is told of one case.
ghost use Rattle.std.specs.Prelude.{◌≡◌, ◌&&◌, IfOk, length};
ghost use Rattle.std.specs.List.{list_any};
ghost use Rattle.net_base.specs.Locations.{numbers_below};
ghost use Rattle.own_space.specs.Covers.{covered_in};
ghost use Rattle.policy_base.specs.Policies.{policy_of};
ghost use Rattle.promises_report.specs.Cases.{HasOneStep, TellsCase};
ghost use Rattle.promises_report.specs.Groups.{alone as alone_in};
ghost use Rattle.promises_report.specs.Places.{sessions_of};
ghost use Rattle.promises_report.specs.Standings.{row_of};
ghost use Rattle.promises_report.specs.Telling.{promises_in};
ghost use Rattle.promises_report.specs.Taking.{takes};

use crate::counts::{Counts, case_counts};
use crate::group::Group;
use crate::row::{origins, sessions_in, sources};
use crate::words::{number_word, origins_word, prefixes_word};
use crate::{Told, told_of};
use evidence_base::CaseEvidence;
use input_output::NoMemory;
use net_base::{Loc, Net, known_net};
use policy_base::{Case, Policy};
use std::alloc::Global;

// Whether a permitted walk passes some router.
#[tactic(auto, using(crate::proofs::SomeRouter::none_more))]
fn passes_some(net: &Net, told: &Told<'_>) -> bool
    ensures { result ≡ list_any (promises_in told.now).passes (numbers_below (length net.now.routers)) }
{
    for place in 0..net.routers().len() {
        if told.passes(Loc::new(place as u16)) {
            return true;
        }
    }
    false
}

// Whether some router takes what peers announce.
fn takes_some(net: &Net, case: &Case, told: &Told<'_>) -> bool
    ensures { result ≡ takes net.now case.now (promises_in told.now) }
{
    case.external && passes_some(net, told)
}

// A group of one case.
fn alone(
    alloc: Global,
    net: &Net,
    policy: &Policy,
    number: usize,
    case: &Case,
    told: &Told<'_>,
    sessions: &[(Loc, Loc)],
) -> Result<Group, NoMemory>
    requires { sessions.now ≡ sessions_of net.now }
    ensures { IfOk result (λ group. group ≡ alone_in net.now (policy_of policy.now) number case.now (row_of net.now case.now (promises_in told.now))) }
{
    Ok(Group {
        statement: case.statement,
        external: case.external,
        numbers: number_word(alloc, number)?,
        prefixes: prefixes_word(alloc, policy, case)?,
        ends: origins_word(alloc, net, case)?,
        routers: sources(alloc, net, case, told)?,
        origins: origins(alloc, net, case, told)?,
        sessions: sessions_in(alloc, net, case, told, sessions)?,
    })
}

/// What is told of a case, besides how all stand in it.
#[derive(Clone, Copy)]
pub struct Added {
    /// How many of each kind it has.
    pub counts: Counts,
    /// Whether some router takes what peers announce.
    pub takes: bool,
}

/// What is told of a case: how all stand in it, as a group of its own, and the rest. The sessions are those of the network, and the marks
/// tell which statements are covered.
pub fn tell_case(
    alloc: Global,
    net: &Net,
    policy: &Policy,
    number: usize,
    case: &CaseEvidence,
    sessions: &[(Loc, Loc)],
    marks: &[bool],
) -> Result<(Group, Added), NoMemory>
    requires one_step { HasOneStep case.now }
    requires sessions { sessions.now ≡ sessions_of net.now }
    requires marks { marks.now ≡ covered_in (policy_of policy.now) }
    ensures { IfOk result (λ it. TellsCase net.now (policy_of policy.now) number case.now it.0 it.1.counts it.1.takes) }
{
    known_net(net);
    let told = told_of(alloc, net, case)?;
    let case = case.case();
    let group = alone(alloc, net, policy, number, case, &told, sessions)?;
    let counts = case_counts(net, policy, case, &group, marks);
    let takes = takes_some(net, case, &told);
    Ok((group, Added { counts, takes }))
}
