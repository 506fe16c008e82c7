//! The rules of routers and peers.
ghost use Rattle.std.specs.Prelude.{◌≡◌, ◌≢◌, ◌≤◌, ◌++◌, ◌∷◌, [], Ok, Err, OnOk, IfOk, IfErr, IsTrue, length, map, position, not, nat_eq};
ghost use Rattle.std.specs.List.{list_any};
ghost use Rattle.std.specs.Str.{bytes_eq};
ghost use Rattle.net_base.specs.Gives.{GivesUnless};
ghost use Rattle.net_base.specs.Steps.{each_from};
ghost use Rattle.net_base.specs.declared.limits.TheConstants.{ROUTERS};
ghost use Rattle.topology.specs.Rules.{named as named_at, is_lawful_as, site_of, names_differ, names_of, number, numbers_differ, shared};
ghost use Rattle.topology.specs.Shape.{each};
ghost use Rattle.topology.specs.Views.{raw_entry, named_entry, texts};

use crate::fault::TopoFault;
use crate::parts::Kind;
use crate::shape::RawEntry;
use indexmap::IndexSet;
use net_base::{Name, Site, peer_as, router_as};
use std::alloc::Global;

/// An entry of `routers` or `peers` that has a name.
#[derive(Clone, Copy)]
pub struct Named {
    /// The lawful name of the entry.
    pub name: Name,
    /// The AS number, whose range isn't judged yet.
    pub asn: u64,
    /// The BGP identifier as a number of 32 bits.
    pub id: u32,
}

/// One of the two numbers of a router or peer, neither of which two of them may share.
#[derive(Clone, Copy)]
pub enum Number {
    /// The AS number.
    As,
    /// The BGP identifier.
    Id,
}

// The entry at this place, with its name.
#[tactic(auto, unfolding(crate::specs::Rules::named))]
fn named_entry(kind: Kind, place: u32, raw: &RawEntry<'_>) -> Result<Named, TopoFault>
    ensures { GivesUnless TopoFault.NoMemory named_entry result (named_at kind place (raw_entry raw.now)) }
{
    match Name::of(raw.name.as_bytes()) {
        Some(name) => Ok(Named {
            name,
            asn: raw.asn,
            id: raw.id,
        }),
        None => Err(TopoFault::BadName(kind, place)),
    }
}

/// The entries of this kind with their names.
pub fn with_names(alloc: Global, kind: Kind, raw: &[RawEntry<'_>]) -> Result<Vec<Named>, TopoFault>
    requires { length raw.now ≤ ROUTERS }
    ensures entries { GivesUnless TopoFault.NoMemory (λ v. map named_entry v.items) result (each_from (named_at kind) 1 (map raw_entry raw.now)) }
    ensures count { IfOk result (λ v. length v.items ≡ length raw.now) }
{
    let mut all = Vec::new(alloc);
    let mut place = 1;
    for entry in raw {
        let read = named_entry(kind, place, entry)?;
        all.push(read)?;
        place += 1;
    }
    Ok(all)
}

// Puts a name at the end, unless it is there; says whether it is new.
fn note<'a>(names: &mut IndexSet<&'a [u8]>, name: &'a [u8]) -> Result<bool, TopoFault>
    ensures fresh { IfOk result (λ new. new ≡ not (list_any (bytes_eq name.now) (texts names.old.keys))) }
    ensures added { IfOk result (λ new. IsTrue new → texts names.new.keys ≡ texts names.old.keys ++ name.now ∷ []) }
    ensures err { IfErr result (λ e. e ≡ TopoFault.NoMemory) }
{
    Ok(names.insert(name)?)
}

/// The names in order, none of which stands twice.
#[tactic(auto, unfolding(crate::specs::Rules::names_differ))]
pub fn names<'a>(alloc: Global, entries: &'a [Named]) -> Result<IndexSet<&'a [u8]>, TopoFault>
    ensures ok { OnOk result (names_differ (map named_entry entries.now) ≡ Ok tt) }
    ensures names { IfOk result (λ set. texts set.keys ≡ names_of (map named_entry entries.now)) }
    ensures err { IfErr result (λ e. e ≢ TopoFault.NoMemory → names_differ (map named_entry entries.now) ≡ Err e) }
{
    let mut names = IndexSet::new(alloc);
    for entry in entries {
        if !note(&mut names, entry.name.as_bytes())? {
            return Err(TopoFault::Twice(entry.name));
        }
    }
    Ok(names)
}

// Whether a router, or else a peer, may have the AS number.
fn is_lawful(kind: Kind, asn: u32) -> bool
    ensures { result ≡ is_lawful_as kind asn }
{
    match kind {
        Kind::Routers => router_as(asn),
        _ => peer_as(asn),
    }
}

// The router or peer of an entry.
#[tactic(auto, unfolding(crate::specs::Rules::site_of))]
fn site(kind: Kind, entry: &Named) -> Result<Site, TopoFault>
    ensures { GivesUnless TopoFault.NoMemory (λ s. s) result (site_of kind (named_entry entry.now)) }
{
    let Ok(asn) = u32::try_from(entry.asn) else {
        return Err(TopoFault::AsRange(entry.name));
    };
    if !is_lawful(kind, asn) {
        return Err(TopoFault::AsRange(entry.name));
    }
    Ok(Site {
        name: entry.name,
        asn,
        id: entry.id,
    })
}

/// The routers or peers of the entries, whose AS numbers are in their range.
#[tactic(auto, unfolding(crate::specs::Shape::each))]
pub fn sites(alloc: Global, kind: Kind, entries: &[Named]) -> Result<Vec<Site>, TopoFault>
    ensures { GivesUnless TopoFault.NoMemory (λ v. v.items) result (each (site_of kind) (map named_entry entries.now)) }
{
    let mut all = Vec::new(alloc);
    for entry in entries {
        let read = site(kind, entry)?;
        all.push(read)?;
    }
    Ok(all)
}

impl Number {
    // The number of an entry.
    fn of(self, entry: &Named) -> u64
        ensures { result ≡ number self (named_entry entry.now) }
    {
        match self {
            Number::As => entry.asn,
            Number::Id => u64::from(entry.id),
        }
    }

    // What is wrong where two entries have the same number.
    fn shared(self, earlier: &Named, later: &Named) -> TopoFault
        ensures { result ≡ shared self (named_entry earlier.now) (named_entry later.now) }
    {
        match self {
            Number::As => TopoFault::AsTwice(earlier.name, later.name),
            Number::Id => TopoFault::IdTwice(earlier.name, later.name),
        }
    }
}

// Where a number stands.
fn place_of(numbers: &IndexSet<u64>, number: u64) -> Option<usize>
    ensures { result ≡ position (nat_eq number) numbers.now.keys }
{
    numbers.get_index_of(&number)
}

/// No two entries have the same number.
#[tactic(auto, unfolding(crate::specs::Rules::numbers_differ))]
pub fn unshared(alloc: Global, which: Number, entries: &[Named]) -> Result<(), TopoFault>
    ensures { GivesUnless TopoFault.NoMemory (λ u. u) result (numbers_differ which (map named_entry entries.now)) }
{
    let mut seen = IndexSet::new(alloc);
    for entry in entries {
        let number = which.of(entry);
        if let Some(i) = place_of(&seen, number) {
            return Err(which.shared(&entries[i], entry));
        }
        seen.insert(number)?;
    }
    Ok(())
}
