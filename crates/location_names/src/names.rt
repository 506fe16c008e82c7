//! Locations by their names.
ghost use Rattle.std.specs.Prelude.{◌≡◌, ◌<◌, ◌≤◌, ◌++◌, ◌∷◌, [], IfOk, IfSome, IsTrue, not};
ghost use Rattle.std.specs.List.{list_any, position};
ghost use Rattle.std.specs.Str.{bytes_eq};
ghost use Rattle.indexmap.specs.IndexSet.{index_set_len};
ghost use Rattle.net_base.specs.declared.limits.TheConstants.{LOCATIONS};
ghost use Rattle.location_names.specs.Names.{names_of, texts};

use indexmap::IndexSet;
use net_base::{Loc, Net};
use std::alloc::{AllocError, Global};
use std::marker::Model;

/// The names of a network's locations, in order. One is found without a look at the others.
#[derive(Drop)]
pub struct LocationNames<'a> {
    found: IndexSet<&'a [u8]>,
}

impl<'a> Model for LocationNames<'a> {
    ghost use Rattle.std.specs.Prelude.{List, ℕ, ◌≤◌};
    ghost use Rattle.indexmap.specs.IndexSet.{index_set_len};
    ghost use Rattle.net_base.specs.declared.limits.TheConstants.{LOCATIONS};
    ghost use Rattle.location_names.specs.Names.{texts};

    ghost Value = { List (List ℕ) };

    ghost view = { λ n. texts n.found.keys };

    ghost invariant = { λ n. index_set_len n.found ≤ LOCATIONS };
}

// Puts a name at the end, unless it is there; says whether it is new.
fn note<'a>(names: &mut IndexSet<&'a [u8]>, name: &'a [u8]) -> Result<bool, AllocError>
    ensures fresh { IfOk result (λ new. new ≡ not (list_any (bytes_eq name.now) (texts names.old.keys))) }
    ensures added { IfOk result (λ new. IsTrue new → texts names.new.keys ≡ texts names.old.keys ++ name.now ∷ []) }
{
    Ok(names.insert(name)?)
}

// The names of the locations, in order.
fn names(alloc: Global, net: &Net) -> Result<IndexSet<&[u8]>, AllocError>
    ensures names { IfOk result (λ set. texts set.keys ≡ names_of net.now) }
    ensures few { IfOk result (λ set. index_set_len set ≤ LOCATIONS) }
{
    let mut names = IndexSet::new(alloc);
    for place in 0..net.routers().len() + net.peers().len() {
        note(&mut names, net.site(Loc::new(place as u16)).name.as_bytes())?;
    }
    Ok(names)
}

// The place of a name.
fn place(names: &IndexSet<&[u8]>, name: &str) -> Option<u16>
    requires { index_set_len names.now ≤ LOCATIONS }
    ensures place { result ≡ position (bytes_eq name.now) (texts names.now.keys) }
    ensures within { IfSome result (λ i. i < LOCATIONS) }
{
    match names.get_index_of(&name.as_bytes()) {
        Some(i) => Some(i as u16),
        None => None,
    }
}

impl<'a> LocationNames<'a> {
    /// The names of a network's locations.
    pub fn of(alloc: Global, net: &'a Net) -> Result<LocationNames<'a>, AllocError>
        ensures { IfOk result (λ names. names ≡ names_of net.now) }
    {
        Ok(LocationNames {
            found: names(alloc, net)?,
        })
    }

    /// The location of a name. What is no name has none.
    pub fn location(&self, name: &str) -> Option<Loc>
        ensures location { result ≡ position (bytes_eq name.now) self.now }
        ensures within { IfSome result (λ l. l < LOCATIONS) }
    {
        Some(Loc::new(place(&self.found, name)?))
    }
}
