//! Names that were read.
ghost use Rattle.std.specs.Prelude.{◌≡◌, ◌++◌, ◌∷◌, [], IfOk, IfErr, IsTrue, false, map, not};
ghost use Rattle.std.specs.List.{list_any};
ghost use Rattle.std.specs.Str.{bytes_eq};

use crate::reading::Misplaced;
use indexmap::IndexSet;
use net_base::Name;
use std::alloc::Global;
use std::marker::Model;

/// Names in the order in which they came, none of them twice. A name is found without a look at each.
#[derive(Drop)]
pub struct Names {
    found: IndexSet<Vec<u8>>,
}

impl Model for Names {
    ghost use Rattle.std.specs.Prelude.{List, ℕ, map};

    ghost Value = { List (List ℕ) };

    ghost view = { λ n. map (λ v. v.items) n.found.keys };
}

// Puts bytes behind the others, unless they are there; says whether they are new.
fn note(found: &mut IndexSet<Vec<u8>>, bytes: Vec<u8>) -> Result<bool, Misplaced>
    ensures fresh { IfOk result (λ new. new ≡ not (list_any (bytes_eq bytes.items) (map (λ v. v.items) found.old.keys))) }
    ensures added { IfOk result (λ new. IsTrue new → map (λ v. v.items) found.new.keys ≡ map (λ v. v.items) found.old.keys ++ bytes.items ∷ []) }
    ensures kept { IfOk result (λ new. new ≡ false → map (λ v. v.items) found.new.keys ≡ map (λ v. v.items) found.old.keys) }
    ensures err { IfErr result (λ e. e ≡ Misplaced.NoMemory) }
{
    Ok(found.insert(bytes)?)
}

impl Names {
    /// No name.
    pub fn new(alloc: Global) -> Names
        ensures { result ≡ [] }
    {
        Names {
            found: IndexSet::new(alloc),
        }
    }

    /// Whether the name is one of them.
    pub fn contains(&self, name: &Name) -> bool
        ensures { result ≡ list_any (bytes_eq name.now) self.now }
    {
        self.found.contains(name.as_bytes())
    }

    /// Puts a name behind the others, unless it is there; says whether it is new.
    pub fn insert(&mut self, alloc: Global, name: &Name) -> Result<bool, Misplaced>
        ensures fresh { IfOk result (λ new. new ≡ not (list_any (bytes_eq name.now) self.old)) }
        ensures err { IfErr result (λ e. e ≡ Misplaced.NoMemory) }
        ensures added { IfOk result (λ new. IsTrue new → self.new ≡ self.old ++ name.now ∷ []) }
        ensures kept { IfOk result (λ new. new ≡ false → self.new ≡ self.old) }
    {
        let bytes = Vec::from_slice(alloc, name.as_bytes())?;
        note(&mut self.found, bytes)
    }
}
