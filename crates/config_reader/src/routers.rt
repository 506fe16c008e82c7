//! The routers that are read.
ghost use Rattle.std.specs.Prelude.{◌≡◌, ◌++◌, ◌∷◌, [], IfErr, OnOk, length, nat_eq};
ghost use Rattle.std.specs.Str.{bytes_eq};
ghost use Rattle.indexmap.specs.IndexSet.{insert_key};
ghost use Rattle.net_base.specs.Gives.{GivesUnless};
ghost use Rattle.config_reader.specs.Reading.{stood_before};

use crate::names::Names;
use crate::reading::Misplaced;
use config_base::RouterConfig;
use indexmap::IndexSet;
use net_base::{List, Name};
use std::alloc::Global;
use std::marker::Model;

// What differs from router to router, so that what stood before is found without a look at each of them.
#[derive(Drop)]
struct Known {
    names: Names,
    asns: IndexSet<u32>,
    ids: IndexSet<u32>,
}

// What is known where there is no router.
fn nothing_known(alloc: Global) -> Known
    ensures names { result.names ≡ [] }
    ensures asns { result.asns.keys ≡ [] }
    ensures ids { result.ids.keys ≡ [] }
{
    Known {
        names: Names::new(alloc),
        asns: IndexSet::new(alloc),
        ids: IndexSet::new(alloc),
    }
}

// Notes what is a router's own.
fn note(known: &mut Known, alloc: Global, router: &RouterConfig) -> Result<(), Misplaced>
    ensures names { OnOk result (known.new.names ≡ insert_key bytes_eq known.old.names router.now.name) }
    ensures asns { OnOk result (known.new.asns.keys ≡ insert_key nat_eq known.old.asns.keys router.now.asn) }
    ensures ids { OnOk result (known.new.ids.keys ≡ insert_key nat_eq known.old.ids.keys router.now.id) }
    ensures err { IfErr result (λ e. e ≡ Misplaced.NoMemory) }
{
    known.names.insert(alloc, &router.name)?;
    known.asns.insert(router.asn)?;
    known.ids.insert(router.id)?;
    Ok(())
}

/// Routers in the order in which they came. Whether a name, an AS number or an identifier stood before is found
/// without a look at each of them.
#[derive(Drop)]
pub struct Routers {
    all: List<RouterConfig>,
    known: Known,
}

impl Model for Routers {
    ghost use Rattle.std.specs.Prelude.{List};
    ghost use Rattle.config_base.specs.declared.config.RouterConfig.{RouterConfig};
    ghost use Rattle.config_reader.specs.Known.{AreKnown};

    ghost Value = { List RouterConfig };

    ghost view = { λ r. r.all };

    ghost invariant = { λ r. AreKnown r.known.names r.known.asns.keys r.known.ids.keys r.all };
}

impl Routers {
    /// No router.
    pub fn new(alloc: Global) -> Routers
        ensures { result ≡ [] }
    {
        Routers {
            all: List::new(alloc),
            known: nothing_known(alloc),
        }
    }

    /// Whether there is no router.
    pub fn is_empty(&self) -> bool
        ensures { result ≡ nat_eq (length self.now) 0 }
    {
        self.all.as_slice().is_empty()
    }

    /// Whether the name, the AS number or the identifier is that of one of the routers.
    pub fn are_like(&self, name: &Name, asn: u32, id: u32) -> bool
        ensures { result ≡ stood_before name.now asn id self.now }
    {
        if self.known.asns.contains(&asn) {
            return true;
        }
        if self.known.ids.contains(&id) {
            return true;
        }
        self.known.names.contains(name)
    }

    /// These routers and one more.
    pub fn with(self, alloc: Global, router: RouterConfig) -> Result<Routers, Misplaced>
        ensures { GivesUnless Misplaced.NoMemory (λ r. r) result (Ok (self ++ router ∷ [])) }
    {
        let Routers { mut all, mut known } = self;
        note(&mut known, alloc, &router)?;
        all.push(router)?;
        Ok(Routers { all, known })
    }

    /// The list of the routers.
    pub fn into_list(self) -> List<RouterConfig>
        ensures { result ≡ self }
    {
        let Routers { all, known } = self;
        drop(known);
        all
    }
}
