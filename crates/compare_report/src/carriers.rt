//! Who carries in one policy alone.
ghost use Rattle.std.specs.Prelude.{◌≡◌, ◌||◌, ◌==◌, ℕ, IfOk, OnOk, filter, not};
ghost use Rattle.std.specs.List.{list_any};
ghost use Rattle.compare_base.specs.Same.{same_place};
ghost use Rattle.indexmap.specs.IndexSet.{contains};
ghost use Rattle.comparison.specs.declared.values.ComparedPair.{ComparedPair as PlainPair};
ghost use Rattle.compare_report.specs.Groups.{seen};
ghost use Rattle.compare_report.specs.Kinds.{carriers_of, has_carriers as has_carriers_in, is_carrier, router_place};

use crate::kinds::Split;
use compare_base::Place;
use comparison::ComparedPair;
use indexmap::IndexSet;
use input_output::NoMemory;
use net_base::Loc;
use std::alloc::{AllocError, Global};

/// Whether routers carry in the old policy alone, or in the new one alone.
#[derive(Clone, Copy)]
pub enum Carrying {
    /// In the old policy alone.
    Lost,
    /// In the new policy alone.
    Gained,
}

// The routers of a pair that carry in one policy alone.
fn carriers(which: Carrying, pair: &ComparedPair) -> &[Loc]
    ensures { result.now ≡ carriers_of which pair.now }
{
    match which {
        Carrying::Lost => pair.change.lost.as_slice(),
        Carrying::Gained => pair.change.gained.as_slice(),
    }
}

// Whether a pair has such routers.
fn has_carriers(which: Carrying, pair: &ComparedPair) -> bool
    ensures { result ≡ has_carriers_in which pair.now }
{
    carriers(which, pair).len() > 0
}

/// Whether some of these pairs has such routers.
#[tactic(auto, using(crate::proofs::Borrowed::seen_next, crate::proofs::Borrowed::seen_push))]
pub fn some_carriers(group: &[&ComparedPair], which: Carrying) -> bool
    ensures { result ≡ list_any (has_carriers_in which) (seen group.now) }
{
    for pair in group {
        if has_carriers(which, pair) {
            return true;
        }
    }
    false
}

/// The pairs that have such routers, and the others.
#[tactic(auto, using(crate::proofs::Borrowed::seen_next, crate::proofs::Borrowed::seen_push))]
pub fn split_by_carriers<'a>(
    alloc: Global,
    group: &[&'a ComparedPair],
    which: Carrying,
) -> Result<Split<'a>, AllocError>
    ensures these { IfOk result (λ split. seen split.these.items ≡ filter (has_carriers_in which) (seen group.now)) }
    ensures others { IfOk result (λ split. seen split.others.items ≡ filter (λ (x : PlainPair). not (has_carriers_in which x)) (seen group.now)) }
{
    let mut these = Vec::new(alloc);
    let mut others = Vec::new(alloc);
    for pair in group {
        if has_carriers(which, pair) {
            these.push(*pair)?;
        } else {
            others.push(*pair)?;
        }
    }
    Ok(Split { these, others })
}

// Puts routers into a set of places.
fn add_routers(set: &mut IndexSet<Place>, routers: &[Loc]) -> Result<(), NoMemory>
    ensures { OnOk result ((r : ℕ) → contains same_place set.new (router_place r) ≡ (contains same_place set.old (router_place r) || list_any (λ l. l == r) routers.now)) }
{
    for router in routers {
        set.insert(Place {
            router: *router,
            peer: None,
        })?;
    }
    Ok(())
}

/// The routers of some pairs that carry in one policy alone, as a set of places.
#[tactic(auto, using(crate::proofs::Borrowed::seen_next, crate::proofs::Borrowed::seen_push))]
pub fn carrier_set(
    alloc: Global,
    group: &[&ComparedPair],
    which: Carrying,
) -> Result<IndexSet<Place>, NoMemory>
    ensures { IfOk result (λ set. (r : ℕ) → contains same_place set (router_place r) ≡ is_carrier which (seen group.now) r) }
{
    let mut set = IndexSet::new(alloc);
    for pair in group {
        add_routers(&mut set, carriers(which, pair))?;
    }
    Ok(set)
}
