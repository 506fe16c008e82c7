//! The names that stand for locations.
ghost use Rattle.std.specs.Prelude.{◌≡◌, ◌≤◌, ◌<◌, ◌+◌, ◌++◌, ◌∷◌, [], None, Ok, IfOk, IfErr, IsTrue, not, false, length, slice_get};
ghost use Rattle.std.specs.List.{list_any, position};
ghost use Rattle.std.specs.Str.{bytes_eq};
ghost use Rattle.policy_tokens.specs.declared.limits.TheConstants.{DEFINITIONS};
ghost use Rattle.net_base.specs.declared.limits.TheConstants.{LOCATIONS};
ghost use Rattle.net_base.specs.Network.{IsNet};
ghost use Rattle.net_base.specs.NetSets.{peers as peers_of};
ghost use Rattle.policy_rules.specs.KnownNames.{set_named, is_known as knows, with_new_name, with_sites, net_names, first_place as first_of_two};
ghost use Rattle.policy_rules.specs.KeptNames.{texts, stand_in as stands_for, kept_set, with_set, with_kept_group};
ghost use Rattle.net_base.specs.Gives.{GivesUnless};
ghost use Rattle.policy_tokens.specs.declared.fault.PolicyFault.TheVariants.{NoMemory};

use crate::origins::has_peer;
use indexmap::IndexSet;
use net_base::limits::LOCATIONS;
use net_base::{Loc, LocSet, Net, Place, Site};
use policy_tokens::PolicyFault;
use policy_tokens::limits::DEFINITIONS;
use std::alloc::Global;

/// The names that stand for locations, each with its set: those of the network, and the groups so far. Of more names than
/// a policy may have, the later ones keep of their sets only whether there is a peer in them.
#[derive(Drop)]
pub struct Known<'a> {
    net: &'a Net,
    /// All peers of the network.
    all_peers: LocSet,
    names: IndexSet<&'a [u8]>,
    /// The sets of the first names, which are as many as a policy may have.
    sets: Vec<LocSet>,
    /// For each later name whether its set has a peer.
    peers: Vec<bool>,
    /// Where the first name stands that was defined again.
    twice: Option<Place>,
    ghost all_peers_are: { all_peers ≡ peers_of net.now },
    ghost first: { length sets.items < LOCATIONS + DEFINITIONS → peers.items ≡ [] },
}

// The place of a name among the known ones, from 0.
fn place_in(names: &IndexSet<&[u8]>, name: &[u8]) -> Option<usize>
    ensures { result ≡ position (bytes_eq name.now) (texts names.now.keys) }
{
    match names.get_index_of(&name) {
        Some(i) => Some(i),
        None => None,
    }
}

// Puts a name at the end, unless it is there; says whether it is new.
fn note<'a>(names: &mut IndexSet<&'a [u8]>, name: &'a [u8]) -> Result<bool, PolicyFault>
    ensures fresh { IfOk result (λ new. new ≡ not (list_any (bytes_eq name.now) (texts names.old.keys))) }
    ensures added { IfOk result (λ new. IsTrue new → texts names.new.keys ≡ texts names.old.keys ++ name.now ∷ []) }
    ensures kept { IfOk result (λ new. new ≡ false → texts names.new.keys ≡ texts names.old.keys) }
    ensures err { IfErr result (λ e. e ≡ PolicyFault.NoMemory) }
{
    Ok(names.insert(name)?)
}

// The place of a name that is defined again, the first time.
fn first_place(earlier: Option<Place>, place: Place) -> Option<Place>
    ensures { result ≡ first_of_two earlier place }
{
    match earlier {
        Some(first) => Some(first),
        None => Some(place),
    }
}

// A set with a peer, or one with none.
fn stand_in(net: &Net, peer: bool) -> LocSet
    ensures { result ≡ stands_for net.now peer }
{
    if peer {
        LocSet::new().with(Loc::new(net.routers().len() as u16))
    } else {
        LocSet::new()
    }
}

impl<'a> Known<'a> {
    ghost use Rattle.policy_rules.specs.KnownView.{plain_names};

    // The set that is shown for the name at this place.
    fn shown_at(&self, place: usize) -> Option<LocSet>
        ensures { result ≡ slice_get (plain_names self.now).sets place }
    {
        if place < self.sets.len() {
            return self.sets.get(place).copied();
        }
        let peer = self.peers.get(place - self.sets.len()).copied()?;
        Some(stand_in(self.net, peer))
    }

    /// The set that a name stands for.
    pub fn set_named(&self, name: &[u8]) -> Option<LocSet>
        ensures { result ≡ set_named (plain_names self.now) name.now }
    {
        let place = place_in(&self.names, name)?;
        self.shown_at(place)
    }

    /// Where the first name stands that was defined again.
    pub fn twice(&self) -> Option<Place>
        ensures { result ≡ (plain_names self.now).twice }
    {
        self.twice
    }

    // The set of one name more: the set itself, as long as there are no more names than a policy may have.
    fn keep(&mut self, set: LocSet) -> Result<(), PolicyFault>
        ensures known { GivesUnless NoMemory (λ _. plain_names self.new) result (Ok (with_set (plain_names self.old) (kept_set self.old.net.now (plain_names self.old) set))) }
        ensures net { self.new.net.now ≡ self.old.net.now }
    {
        if (self.sets.len() as u64) < LOCATIONS + DEFINITIONS {
            self.sets.push(set)?;
        } else {
            self.peers.push(has_peer(self.net, &self.all_peers, &set))?;
        }
        Ok(())
    }

    // One name more, unless it is there; says whether it is new.
    fn add(&mut self, name: &'a [u8], set: LocSet) -> Result<bool, PolicyFault>
        ensures known { GivesUnless NoMemory (λ _. plain_names self.new) result (Ok (with_new_name (plain_names self.old) name.now (kept_set self.old.net.now (plain_names self.old) set))) }
        ensures fresh { IfOk result (λ new. new ≡ not (knows (plain_names self.old) name.now)) }
        ensures net { self.new.net.now ≡ self.old.net.now }
    {
        if !note(&mut self.names, name)? {
            return Ok(false);
        }
        self.keep(set)?;
        Ok(true)
    }

    /// The name of a group that is defined at this place. One that is known keeps its set.
    pub fn define(&mut self, place: Place, name: &'a [u8], set: LocSet) -> Result<(), PolicyFault>
        ensures known { GivesUnless NoMemory (λ _. plain_names self.new) result (Ok (with_kept_group self.old.net.now (plain_names self.old) place name.now set)) }
        ensures net { self.new.net.now ≡ self.old.net.now }
    {
        if !self.add(name, set)? {
            self.twice = first_place(self.twice, place);
        }
        Ok(())
    }

    // The names of locations from `first` on.
    fn add_sites(&mut self, first: u16, sites: &'a [Site]) -> Result<(), PolicyFault>
        requires few { length (plain_names self.old).sets ≤ first }
        requires fit { first + length sites.now ≤ LOCATIONS }
        ensures known { GivesUnless NoMemory (λ _. plain_names self.new) result (Ok (with_sites first sites.now (plain_names self.old))) }
        ensures few { IfOk result (λ _. length (plain_names self.new).sets ≤ first + length sites.now) }
        ensures net { self.new.net.now ≡ self.old.net.now }
    {
        let mut number = first;
        for site in sites {
            let alone = LocSet::new().with(Loc::new(number));
            self.add(site.name.as_bytes(), alone)?;
            number += 1;
        }
        Ok(())
    }

    /// The names of a network.
    pub fn of(alloc: Global, net: &'a Net) -> Result<Known<'a>, PolicyFault>
        ensures known { GivesUnless NoMemory plain_names result (Ok (net_names net.now)) }
        ensures few { IfOk result (λ _. length (net_names net.now).sets ≤ LOCATIONS) }
        ensures net { IfOk result (λ known. known.net.now ≡ net.now) }
        ensures rules { IsNet net.now }
    {
        let mut known = Known {
            net,
            all_peers: net.peer_set(),
            names: IndexSet::new(alloc),
            sets: Vec::new(alloc),
            peers: Vec::new(alloc),
            twice: None,
        };
        let routers = net.routers();
        known.add_sites(0, routers)?;
        known.add_sites(routers.len() as u16, net.peers())?;
        Ok(known)
    }
}
