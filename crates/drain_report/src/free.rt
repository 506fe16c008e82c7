//! Which links and routers no step is of.
ghost use Rattle.std.specs.Prelude.{◌≡◌, ◌&&◌, ◌<◌, ℕ, IfOk, IsTrue, filter, not};
ghost use Rattle.std.specs.List.{list_any};
ghost use Rattle.net_base.specs.declared.limits.TheConstants.{LOCATIONS};
ghost use Rattle.net_base.specs.Network.{is_router as router_at, joins, linked};
ghost use Rattle.net_base.specs.Sets.{holds};
ghost use Rattle.scenarios.specs.Surviving.{live_by};
ghost use Rattle.drain_report.specs.Free.{leads_to, spared_by};

use impact_law::Cut;
use net_base::{List, Loc, LocSet, Net, Prefix};
use scenarios::{Scenario, Survivors};
use std::alloc::{AllocError, Global};

// Whether a location is a router.
fn is_router(net: &Net, at: Loc) -> bool
    ensures exact { result ≡ router_at net.now at }
    ensures within { IsTrue result → at < LOCATIONS }
{
    (at.number() as usize) < net.routers().len()
}

// The routers to which a step leads.
fn ends(net: &Net, steps: &[(Loc, Loc)]) -> LocSet
    ensures { (l : ℕ) → holds result l ≡ (router_at net.now l && list_any (leads_to l) steps.now) }
{
    let mut set = LocSet::new();
    for step in steps {
        if is_router(net, step.1) {
            set.insert(step.1);
        }
    }
    set
}

// What is left of a network where the links of some steps are dead.
fn left_by(net: &Net, alloc: Global, prefix: Prefix, steps: List<(Loc, Loc)>) -> Survivors
    ensures { (a b : ℕ) → IsTrue (linked net.now a b) → live_by net.now result a b ≡ not (list_any (joins a b) steps) }
{
    let scenario = Scenario {
        prefix,
        dead: LocSet::new(),
        dead_links: steps,
        silent: List::new(alloc),
    };
    Survivors::new(net, &scenario)
}

/// What no step is of: links by what is left of the network without those of steps, and routers but those to which a step leads.
#[derive(Drop)]
pub(crate) struct Spared {
    left: Survivors,
    ends: LocSet,
}

impl Spared {
    /// What these steps spare.
    pub(crate) fn new(net: &Net, alloc: Global, prefix: Prefix, steps: List<(Loc, Loc)>) -> Spared
        ensures left { (a b : ℕ) → IsTrue (linked net.now a b) → live_by net.now result.left a b ≡ not (list_any (joins a b) steps) }
        ensures ends { (l : ℕ) → holds result.ends l ≡ (router_at net.now l && list_any (leads_to l) steps) }
    {
        let ends = ends(net, steps.as_slice());
        let left = left_by(net, alloc, prefix, steps);
        Spared { left, ends }
    }

    // Whether no step is over a link, or leads to a router.
    fn has(&self, net: &Net, cut: Cut) -> bool
        ensures { result ≡ spared_by net.now self.now.left self.now.ends cut }
    {
        match cut {
            Cut::Link(a, b) => self.left.is_live(net, a, b),
            Cut::Router(router) => !self.ends.holds(router),
        }
    }

    /// Those of some links and routers that no step is of.
    pub(crate) fn among(
        &self,
        alloc: Global,
        net: &Net,
        cuts: &[Cut],
    ) -> Result<List<Cut>, AllocError>
        ensures { IfOk result (λ free. free ≡ filter (spared_by net.now self.now.left self.now.ends) cuts.now) }
    {
        let mut free = List::new(alloc);
        for cut in cuts {
            if self.has(net, *cut) {
                free.push(*cut)?;
            }
        }
        Ok(free)
    }
}
