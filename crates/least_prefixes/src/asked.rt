//! The class of a prefix.
ghost use Rattle.std.specs.Prelude.{◌≡◌, ◌||◌, IfOk, OnOk, is_some};
ghost use Rattle.indexmap.specs.IndexSet.{contains};
ghost use Rattle.net_base.specs.Prefixes.{PlainPrefix, same_prefix};
ghost use Rattle.policy_base.specs.Policies.{PlainPolicy, policy_of};
ghost use Rattle.policy_base.specs.Governing.{originated_at};
ghost use Rattle.least_prefixes.specs.Classes.{class_for, some_class};

use first_patterns::FirstPatterns;
use indexmap::IndexSet;
use input_output::NoMemory;
use net_base::Prefix;
use policy_base::{Origin, Policy};
use std::alloc::Global;

/// The places, from 1, of the first patterns that contain a prefix in the old policy and in the new one.
#[derive(Clone, Copy, PartialEq, Eq, Hash, Drop)]
pub(crate) struct Class {
    old: Option<usize>,
    new: Option<usize>,
}

/// Two policies, ready to be asked for the classes of prefixes.
#[derive(Drop)]
pub(crate) struct Asked {
    old: FirstPatterns,
    new: FirstPatterns,
    originated: IndexSet<Prefix>,
}

// Puts the prefixes that a policy originates to the others.
fn add_originated(originated: &mut IndexSet<Prefix>, origins: &[Origin]) -> Result<(), NoMemory>
    ensures { OnOk result ((p : PlainPrefix) → contains same_prefix originated.new p ≡ (contains same_prefix originated.old p || is_some (originated_at origins.now p))) }
{
    for origin in origins {
        originated.insert(origin.prefix)?;
    }
    Ok(())
}

// The class of these places, none where there are none.
fn class_of(old: Option<usize>, new: Option<usize>) -> Option<Class>
    ensures { result ≡ some_class old new }
{
    match (old, new) {
        (None, None) => None,
        (old, new) => Some(Class { old, new }),
    }
}

impl Asked {
    ghost use Rattle.least_prefixes.specs.Least.{Knows};

    /// The two policies, with the prefixes that they originate.
    pub(crate) fn new(alloc: Global, old: &Policy, new: &Policy) -> Result<Asked, NoMemory>
        ensures { IfOk result (λ asked. Knows asked (policy_of old.now) (policy_of new.now)) }
    {
        let mut originated = IndexSet::new(alloc);
        add_originated(&mut originated, old.origins())?;
        add_originated(&mut originated, new.origins())?;
        let old = FirstPatterns::new(alloc, old)?;
        let new = FirstPatterns::new(alloc, new)?;
        Ok(Asked {
            old,
            new,
            originated,
        })
    }

    /// The class of a prefix. None where one of the policies originates it, and where neither has a pattern that contains it.
    pub(crate) fn class(&self, prefix: Prefix) -> Option<Class>
        ensures { (old new : PlainPolicy) → Knows self.now old new → result ≡ class_for old new prefix }
    {
        if self.originated.contains(&prefix) {
            return None;
        }
        class_of(self.old.place(prefix), self.new.place(prefix))
    }
}
