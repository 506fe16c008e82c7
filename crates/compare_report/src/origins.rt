//! The origins of a change. Each `push_` function adds a text to the end of another.
ghost use Rattle.std.specs.Prelude.{◌≡◌, ◌++◌, OnOk};
ghost use Rattle.compare_report.specs.Groups.{kept_lines, moved_lines, new_origins as new_origins_of, old_origins as old_origins_of, origin_lines, peers_line, seen, with_origins as with_origins_of};

use crate::groups::origins_stay;
use compare_base::CasePair;
use compare_lines::push_set;
use comparison::ComparedPair;
use input_output::NoMemory;
use net_base::{LocSet, Net};
use std::alloc::Global;
use text_parts::push_bytes;

// A set with the routers that are origins, where routers are.
fn with_origins(set: LocSet, origins: Option<LocSet>) -> LocSet
    ensures { result ≡ with_origins_of set origins }
{
    match origins {
        None => set,
        Some(more) => set.union(&more),
    }
}

// The routers that are origins in the old policy for some of these pairs.
#[tactic(auto, using(crate::proofs::Borrowed::seen_next, crate::proofs::Borrowed::seen_push))]
fn old_origins(group: &[&ComparedPair]) -> LocSet
    ensures { result ≡ old_origins_of (seen group.now) }
{
    let mut set = LocSet::new();
    for pair in group {
        set = with_origins(set, pair.pair.cases.old.origins);
    }
    set
}

// The routers that are origins in the new policy for some of these pairs.
#[tactic(auto, using(crate::proofs::Borrowed::seen_next, crate::proofs::Borrowed::seen_push))]
fn new_origins(group: &[&ComparedPair]) -> LocSet
    ensures { result ≡ new_origins_of (seen group.now) }
{
    let mut set = LocSet::new();
    for pair in group {
        set = with_origins(set, pair.pair.cases.new.origins);
    }
    set
}

// Adds a line for the peers, where they are the origins and the network has some.
fn push_peers(
    text: &mut Vec<u8>,
    net: &Net,
    word: &[u8],
    origins: Option<LocSet>,
) -> Result<(), NoMemory>
    ensures { OnOk result (text.new.items ≡ text.old.items ++ peers_line net.now word.now origins) }
{
    match origins {
        Some(_) => Ok(()),
        None => {
            if net.peers().len() > 0 {
                push_bytes(text, word)?;
                push_bytes(text, b"peers\n")
            } else {
                Ok(())
            }
        }
    }
}

// Adds the lines of origins that are the same in both policies.
fn push_kept(
    alloc: Global,
    text: &mut Vec<u8>,
    net: &Net,
    group: &[&ComparedPair],
    cases: &CasePair,
) -> Result<(), NoMemory>
    ensures { OnOk result (text.new.items ≡ text.old.items ++ kept_lines net.now (seen group.now) cases.now) }
{
    push_peers(text, net, b"origins ", cases.old.origins)?;
    let set = old_origins(group);
    push_set(alloc, text, net, b"origins ", &set)
}

// Adds the lines of origins that change.
fn push_moved(
    alloc: Global,
    text: &mut Vec<u8>,
    net: &Net,
    group: &[&ComparedPair],
    cases: &CasePair,
) -> Result<(), NoMemory>
    ensures { OnOk result (text.new.items ≡ text.old.items ++ moved_lines net.now (seen group.now) cases.now) }
{
    let old = old_origins(group);
    let new = new_origins(group);
    let lost = old.without(&new);
    let kept = old.common(&new);
    let gained = new.without(&old);
    push_peers(text, net, b"origins lost ", cases.old.origins)?;
    push_set(alloc, text, net, b"origins lost ", &lost)?;
    push_set(alloc, text, net, b"origins kept ", &kept)?;
    push_peers(text, net, b"origins gained ", cases.new.origins)?;
    push_set(alloc, text, net, b"origins gained ", &gained)
}

/// Adds the lines of the origins of a group, of whose first pair these are the cases.
pub fn push_origins(
    alloc: Global,
    text: &mut Vec<u8>,
    net: &Net,
    group: &[&ComparedPair],
    cases: &CasePair,
) -> Result<(), NoMemory>
    ensures { OnOk result (text.new.items ≡ text.old.items ++ origin_lines net.now (seen group.now) cases.now) }
{
    if origins_stay(cases) {
        push_kept(alloc, text, net, group, cases)
    } else {
        push_moved(alloc, text, net, group, cases)
    }
}
