//! Runs of what is in order.
ghost use Rattle.std.specs.Prelude.{◌≡◌, ◌≤◌, ◌-◌, IfOk, length, vec_len, take, drop, filter};
ghost use Rattle.std.specs.List.{prefix_len};
ghost use Rattle.std.specs.List.Sorted.{IsStrictlySortedBy};
ghost use Rattle.net_base.specs.declared.limits.TheConstants.{LOCATIONS};
ghost use Rattle.config_maker.specs.Hops.{goes, stands, hop_order, announced_order, is_before, IsReached, AreReached};

use crate::hop::{Announced, Hop};
use net_base::Loc;
use std::alloc::{AllocError, Global};

// Whether the hop's ends come before two others.
fn is_before(hop: &Hop, from: Loc, to: Loc) -> bool
    ensures { result ≡ is_before from to hop.now }
{
    hop.from < from || (hop.from == from && hop.to < to)
}

// How many hops at the front go from one location to another.
fn run_len(hops: &[Hop], from: Loc, to: Loc) -> usize
    ensures len { result ≡ prefix_len (goes from to) hops.now }
    ensures within { result ≤ length hops.now }
{
    hops.iter()
        .take_while(|hop| hop.from == from && hop.to == to)
        .count()
}

// How many hops at the front stand before those from one location to another.
fn skip_len(hops: &[Hop], from: Loc, to: Loc) -> usize
    ensures len { result ≡ prefix_len (is_before from to) hops.now }
    ensures within { result ≤ length hops.now }
{
    hops.iter()
        .take_while(|hop| is_before(hop, from, to))
        .count()
}

// Where the hops from one location to another begin and end, looked for from a place on that isn't behind them.
fn ends_from(hops: &[Hop], place: usize, from: Loc, to: Loc) -> (usize, usize)
    requires order { IsStrictlySortedBy hop_order hops.now }
    requires reached { IsReached hops.now place from to }
    ensures order { result.0 ≤ result.1 }
    ensures bound { result.1 ≤ length hops.now }
    ensures run { take (result.1 - result.0) (drop result.0 hops.now) ≡ filter (goes from to) hops.now }
    ensures reached { IsReached hops.now result.0 from to }
{
    let start = place + skip_len(&hops[place..], from, to);
    let len = run_len(&hops[start..], from, to);
    (start, start + len)
}

/// The hops from one location to another, looked for from a place on that isn't behind them, which moves up to them.
pub fn next_hops<'a>(hops: &'a [Hop], place: &mut usize, from: Loc, to: Loc) -> &'a [Hop]
    requires order { IsStrictlySortedBy hop_order hops.now }
    requires reached { IsReached hops.now place.old from to }
    ensures hops { result.now ≡ filter (goes from to) hops.now }
    ensures reached { IsReached hops.now place.new from to }
{
    let (start, end) = ends_from(hops, *place, from, to);
    *place = start;
    &hops[start..end]
}

/// Where the hops from a location begin.
pub fn first_from(hops: &[Hop], from: Loc) -> usize
    requires { IsStrictlySortedBy hop_order hops.now }
    ensures { IsReached hops.now result from 0 }
{
    hops.partition_point(|hop| hop.from < from)
}

/// Where the hops from each location begin.
pub fn first_places(alloc: Global, hops: &[Hop], locations: usize) -> Result<Vec<usize>, AllocError>
    requires order { IsStrictlySortedBy hop_order hops.now }
    requires few { locations ≤ LOCATIONS }
    ensures len { IfOk result (λ places. vec_len places ≡ locations) }
    ensures reached { IfOk result (λ places. AreReached hops.now places.items 0) }
{
    let mut places = Vec::with_capacity(alloc, locations)?;
    for number in 0..locations {
        places.push(first_from(hops, Loc::new(number as u16)))?;
    }
    Ok(places)
}

// Where that which is announced at a location begins and ends. It is what `node_classes` asks of the steps of a node: the law of such a
// part of a list is `run_between` for both, and what ascends there is of another type.
fn ends_at(announced: &[Announced], at: Loc) -> (usize, usize)
    requires { IsStrictlySortedBy announced_order announced.now }
    ensures order { result.0 ≤ result.1 }
    ensures bound { result.1 ≤ length announced.now }
    ensures run { take (result.1 - result.0) (drop result.0 announced.now) ≡ filter (stands at) announced.now }
{
    let start = announced.partition_point(|own| own.at < at);
    let end = announced.partition_point(|own| own.at <= at);
    (start, end)
}

/// What is announced at a location.
pub fn announced_at(announced: &[Announced], at: Loc) -> &[Announced]
    requires { IsStrictlySortedBy announced_order announced.now }
    ensures { result.now ≡ filter (stands at) announced.now }
{
    let (start, end) = ends_at(announced, at);
    &announced[start..end]
}
