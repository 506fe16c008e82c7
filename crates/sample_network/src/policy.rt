//! The policy of the sample.
ghost use Rattle.std.specs.Prelude.{◌≡◌, ◌≤◌, IfOk, map};
ghost use Rattle.net_base.specs.Locations.{numbers_below};
ghost use Rattle.policy_base.specs.Policies.{plain_statement, policy_of, ranking_of};
ghost use Rattle.sample_network.specs.Network.{IsSampleNumber};
ghost use Rattle.sample_network.specs.SamplePolicy.{
  alone as set_of_one,
  inner_statement,
  leaf_origin,
  leaf_pattern,
  leaf_prefix as
      prefix_of_leaf,
  no_transit as without_leaves,
  outer_statement,
  ranked_exits as exits,
  sample_policy,
};

use crate::network::{SPINES, address};
use input_output::NoMemory;
use net_base::{List, Loc, LocSet, Pattern, Prefix};
use policy_base::{Call, FromSet, Origin, Policy, Ranked, Statement};
use policy_words::SetCall;
use std::alloc::Global;

// The prefix of a leaf.
fn leaf_prefix(place: u16) -> Prefix
    requires { place ≤ 95 }
    ensures { result ≡ prefix_of_leaf place }
{
    Prefix::new(address(10, 0, place as u8 + 1, 0), 24)
}

// The set of one location.
fn alone(place: u16) -> LocSet
    requires { place ≤ 101 }
    ensures { result ≡ set_of_one place }
{
    LocSet::new().with(Loc::new(place))
}

// Each leaf with its prefix.
fn origins(alloc: Global, leaves: u16) -> Result<Vec<Origin>, NoMemory>
    requires { leaves ≤ 96 }
    ensures { IfOk result (λ v. v.items ≡ map leaf_origin (numbers_below leaves)) }
{
    let mut all = Vec::new(alloc);
    for place in 0..leaves {
        all.push(Origin {
            prefix: leaf_prefix(place),
            at: alone(place),
        })?;
    }
    Ok(all)
}

// The patterns of the leaves' prefixes.
fn patterns(alloc: Global, leaves: u16) -> Result<Vec<Pattern>, NoMemory>
    requires { leaves ≤ 96 }
    ensures { IfOk result (λ v. v.items ≡ map leaf_pattern (numbers_below leaves)) }
{
    let mut all = Vec::new(alloc);
    for place in 0..leaves {
        all.push(Pattern::only(leaf_prefix(place)))?;
    }
    Ok(all)
}

// No leaf between the ends of a path.
fn no_transit(leaves: u16) -> Ranked
    ensures { ranking_of result ≡ without_leaves leaves }
{
    Ranked::Call(Call::Of(SetCall::NoTransit, LocSet::of_range(0, leaves)))
}

// The first peer, and then the second.
fn ranked_exits(alloc: Global, leaves: u16) -> Result<Ranked, NoMemory>
    requires { leaves ≤ 96 }
    ensures { IfOk result (λ r. ranking_of r ≡ exits leaves) }
{
    let sets = vec![in alloc; alone(leaves + SPINES), alone(leaves + SPINES + 1)]?;
    Ok(Ranked::Calls(SetCall::Exit, List::from_vec(sets)))
}

// The statement for the leaves' prefixes.
fn inner(alloc: Global, leaves: u16) -> Result<Statement, NoMemory>
    requires { leaves ≤ 96 }
    ensures { IfOk result (λ s. plain_statement s ≡ inner_statement leaves) }
{
    Ok(Statement {
        patterns: List::from_vec(patterns(alloc, leaves)?),
        ranked: no_transit(leaves),
        from: FromSet::Any,
    })
}

// The statement for all other prefixes.
fn outer(alloc: Global, leaves: u16) -> Result<Statement, NoMemory>
    requires { leaves ≤ 96 }
    ensures { IfOk result (λ s. plain_statement s ≡ outer_statement leaves) }
{
    let everything = Pattern::new(Prefix::new(0, 0), 32);
    let exits = Box::new(alloc, ranked_exits(alloc, leaves)?)?;
    let inside = Box::new(alloc, no_transit(leaves))?;
    Ok(Statement {
        patterns: List::from_vec(vec![in alloc; everything]?),
        ranked: Ranked::And(exits, inside),
        from: FromSet::Any,
    })
}

/// The policy for the network of so many leaves.
pub fn policy(alloc: Global, leaves: u16) -> Result<Policy, NoMemory>
    requires { IsSampleNumber leaves }
    ensures { IfOk result (λ p. policy_of p ≡ sample_policy leaves) }
{
    let origins = origins(alloc, leaves)?;
    let statements = vec![in alloc; inner(alloc, leaves)?, outer(alloc, leaves)?]?;
    Ok(Policy::new(List::from_vec(origins), List::from_vec(statements)))
}
