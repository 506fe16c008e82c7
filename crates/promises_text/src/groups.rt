//! The lines of a group. Each `push_` function adds a text to the end of another.
ghost use Rattle.std.specs.Prelude.{◌≡◌, ◌++◌, OnOk};
ghost use Rattle.own_space.specs.Covers.{covered_in};
ghost use Rattle.policy_base.specs.Policies.{policy_of};
ghost use Rattle.promises_report.specs.Places.{sessions_of};
ghost use Rattle.promises_text.specs.Texts.{
  case_line,
  group_text,
  head_lines,
  origin_line,
  other_lines,
  prefix_line,
  source_lines,
  told_lines,
};

use crate::peers::push_idle;
use crate::routers::{push_router_sources, push_transit, push_unclaimed_routers, push_unused};
use crate::sessions::{push_session_sources, push_unclaimed_sessions};
use input_output::NoMemory;
use net_base::{Loc, Net};
use policy_base::Policy;
use promises_report::{Group, is_covered};
use std::alloc::Global;
use text_parts::{push_bytes, push_number};

// Adds the line of the cases of a group.
#[tactic(auto, unfolding(crate::specs::Texts::case_line))]
fn push_cases(text: &mut Vec<u8>, group: &Group) -> Result<(), NoMemory>
    ensures { OnOk result (text.new.items ≡ text.old.items ++ case_line group.now) }
{
    push_bytes(text, b"case")?;
    push_bytes(text, group.numbers.as_slice())?;
    push_bytes(text, b" statement ")?;
    push_number(text, u64::from(group.statement))?;
    push_bytes(text, b"\n")
}

// Adds the line of their prefixes.
#[tactic(auto, unfolding(crate::specs::Texts::prefix_line))]
fn push_prefixes(text: &mut Vec<u8>, group: &Group) -> Result<(), NoMemory>
    ensures { OnOk result (text.new.items ≡ text.old.items ++ prefix_line group.now) }
{
    push_bytes(text, b"prefix")?;
    push_bytes(text, group.prefixes.as_slice())?;
    push_bytes(text, b"\n")
}

// Adds the line of their origins.
#[tactic(auto, unfolding(crate::specs::Texts::origin_line))]
fn push_origins(text: &mut Vec<u8>, group: &Group) -> Result<(), NoMemory>
    ensures { OnOk result (text.new.items ≡ text.old.items ++ origin_line group.now) }
{
    push_bytes(text, b"origin")?;
    push_bytes(text, group.ends.as_slice())?;
    push_bytes(text, b"\n")
}

// Adds the lines of the cases of a group, of their prefixes and of their origins.
fn push_head(text: &mut Vec<u8>, group: &Group) -> Result<(), NoMemory>
    ensures { OnOk result (text.new.items ≡ text.old.items ++ head_lines group.now) }
{
    push_cases(text, group)?;
    push_prefixes(text, group)?;
    push_origins(text, group)
}

// Adds the lines of who isn't claimed, and who carries routes without a claim.
fn push_others(
    alloc: Global,
    text: &mut Vec<u8>,
    net: &Net,
    policy: &Policy,
    sessions: &[(Loc, Loc)],
    group: &Group,
) -> Result<(), NoMemory>
    requires { sessions.now ≡ sessions_of net.now }
    ensures { OnOk result (text.new.items ≡ text.old.items ++ other_lines net.now (policy_of policy.now) group.now) }
{
    push_unclaimed_routers(alloc, text, net, group)?;
    push_unclaimed_sessions(alloc, text, net, sessions, group)?;
    push_idle(alloc, text, net, policy, group)?;
    push_transit(alloc, text, net, group)
}

// Adds the lines of the sources by rank, of so many.
fn push_sources(
    alloc: Global,
    text: &mut Vec<u8>,
    net: &Net,
    sessions: &[(Loc, Loc)],
    group: &Group,
    ranks: u64,
) -> Result<(), NoMemory>
    requires { sessions.now ≡ sessions_of net.now }
    ensures { OnOk result (text.new.items ≡ text.old.items ++ source_lines net.now ranks group.now) }
{
    push_router_sources(alloc, text, net, group, ranks)?;
    push_session_sources(alloc, text, net, sessions, group, ranks)
}

// Adds what is promised for the cases of a group, or that no prefix of it is left.
fn push_told(
    alloc: Global,
    text: &mut Vec<u8>,
    net: &Net,
    policy: &Policy,
    sessions: &[(Loc, Loc)],
    marks: &[bool],
    group: &Group,
    ranks: u64,
) -> Result<(), NoMemory>
    requires sessions { sessions.now ≡ sessions_of net.now }
    requires marks { marks.now ≡ covered_in (policy_of policy.now) }
    ensures { OnOk result (text.new.items ≡ text.old.items ++ told_lines net.now (policy_of policy.now) ranks group.now) }
{
    if is_covered(group.external, group.statement, marks) {
        return push_bytes(text, b"covered\n");
    }
    push_sources(alloc, text, net, sessions, group, ranks)?;
    push_others(alloc, text, net, policy, sessions, group)
}

/// Adds the text of a group. The sessions are those of the network, the marks tell which statements are covered, and there are so many
/// ranks.
pub fn push_group(
    alloc: Global,
    text: &mut Vec<u8>,
    net: &Net,
    policy: &Policy,
    sessions: &[(Loc, Loc)],
    marks: &[bool],
    group: &Group,
    ranks: u64,
) -> Result<(), NoMemory>
    requires sessions { sessions.now ≡ sessions_of net.now }
    requires marks { marks.now ≡ covered_in (policy_of policy.now) }
    ensures { OnOk result (text.new.items ≡ text.old.items ++ group_text net.now (policy_of policy.now) ranks group.now) }
{
    push_head(text, group)?;
    push_told(alloc, text, net, policy, sessions, marks, group, ranks)?;
    push_unused(alloc, text, net, group)
}
