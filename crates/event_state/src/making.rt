//! The world before any event.
ghost use Rattle.std.specs.Prelude.{◌≡◌, IfOk, None, [], false, replicate};
ghost use Rattle.policy_base.specs.Policies.{policy_of};
ghost use Rattle.event_state.specs.States.{blank, setting, state};

use crate::near::all_neighbours;
use crate::queue::Queue;
use crate::world::World;
use config_base::{Config, Route, class_of};
use net_base::{Net, Prefix};
use policy_base::Policy;
use std::alloc::{AllocError, Global};

// So many marks that aren't set.
fn marks(alloc: Global, count: usize) -> Result<Vec<bool>, AllocError>
    ensures { IfOk result (λ all. all.items ≡ replicate count false) }
{
    Ok(vec![in alloc; false; count]?)
}

// So many places without a route.
fn no_routes(alloc: Global, count: usize) -> Result<Vec<Option<Route>>, AllocError>
    ensures { IfOk result (λ all. all.items ≡ replicate count None) }
{
    let mut all = Vec::new(alloc);
    for _ in 0..count {
        all.push(None)?;
    }
    Ok(all)
}

// So many queues in which nothing waits.
fn queues(alloc: Global, count: usize) -> Result<Vec<Queue>, AllocError>
    ensures { IfOk result (λ all. all.items ≡ replicate count []) }
{
    let mut all = Vec::new(alloc);
    for _ in 0..count {
        all.push(Queue::new(alloc))?;
    }
    Ok(all)
}

// What is up and what is silent, by location and by direction.
#[derive(Drop)]
struct AllMarks {
    down: Vec<bool>,
    cut: Vec<bool>,
    silent: Vec<bool>,
}

// Everything is up, and no peer is silent.
fn no_marks(alloc: Global, locations: usize, directions: usize) -> Result<AllMarks, AllocError>
    ensures down { IfOk result (λ m. m.down.items ≡ replicate locations false) }
    ensures cut { IfOk result (λ m. m.cut.items ≡ replicate directions false) }
    ensures silent { IfOk result (λ m. m.silent.items ≡ replicate directions false) }
{
    Ok(AllMarks {
        down: marks(alloc, locations)?,
        cut: marks(alloc, directions)?,
        silent: marks(alloc, directions)?,
    })
}

// What has passed over sessions, by direction: what was heard and queued last, and what waits.
#[derive(Drop)]
struct Passed {
    heard: Vec<Option<Route>>,
    queued: Vec<Option<Route>>,
    queues: Vec<Queue>,
}

// Nobody has queued or heard anything.
fn nothing_passed(alloc: Global, directions: usize) -> Result<Passed, AllocError>
    ensures heard { IfOk result (λ p. p.heard.items ≡ replicate directions None) }
    ensures queued { IfOk result (λ p. p.queued.items ≡ replicate directions None) }
    ensures queues { IfOk result (λ p. p.queues.items ≡ replicate directions []) }
{
    Ok(Passed {
        heard: no_routes(alloc, directions)?,
        queued: no_routes(alloc, directions)?,
        queues: queues(alloc, directions)?,
    })
}

impl<'a> World<'a> {
    /// The world before any event: everything is up, no peer is silent, no router has a route, and nobody has queued or heard
    /// anything.
    pub fn new(
        alloc: Global,
        net: &'a Net,
        policy: &'a Policy,
        config: &'a Config,
        prefix: Prefix,
    ) -> Result<World<'a>, AllocError>
        ensures state { IfOk result (λ world. state world ≡ blank) }
        ensures setting { IfOk result (λ world. setting world ≡ (net.now, policy_of policy.now, config.now, prefix)) }
    {
        let locations = net.routers().len() + net.peers().len();
        let directions = net.links().len() + net.links().len();
        let marks = no_marks(alloc, locations, directions)?;
        let near = all_neighbours(alloc, net)?;
        let routes = no_routes(alloc, locations)?;
        let passed = nothing_passed(alloc, directions)?;
        Ok(World {
            net,
            policy,
            config,
            prefix,
            class: class_of(config, prefix),
            near,
            down: marks.down,
            routes,
            cut: marks.cut,
            silent: marks.silent,
            queues: passed.queues,
            heard: passed.heard,
            queued: passed.queued,
        })
    }
}
