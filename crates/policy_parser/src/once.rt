//! Prefixes that are originated once.
ghost use Rattle.std.specs.Prelude.{◌≡◌, ◌++◌, ◌∷◌, [], IfOk, IfErr, IsTrue, Ok, false, not};
ghost use Rattle.std.specs.List.{list_any};
ghost use Rattle.net_base.specs.Prefixes.{same_prefix};
ghost use Rattle.net_base.specs.Gives.{GivesUnless};
ghost use Rattle.policy_tokens.specs.declared.fault.PolicyFault.TheVariants.{NoMemory};
ghost use Rattle.policy_rules.specs.PrefixKeys.{prefixes_of};
ghost use Rattle.policy_parser.specs.Told.{none_originated, plain_once, with_prefix};

use indexmap::IndexSet;
use net_base::{Place, Prefix};
use policy_tokens::PolicyFault;
use std::alloc::Global;

/// The prefixes that are originated, as long as each of them is so once.
#[derive(Drop)]
pub(crate) struct Once {
    before: IndexSet<(u32, u8)>,
    /// The first figure that is no prefix or one that was originated before.
    pub fault: Result<(), PolicyFault>,
}

// Puts a prefix at the end, unless it is there; says whether it is new.
fn note(before: &mut IndexSet<(u32, u8)>, prefix: Prefix) -> Result<bool, PolicyFault>
    ensures fresh { IfOk result (λ new. new ≡ not (list_any (same_prefix prefix) (prefixes_of before.old.keys))) }
    ensures added { IfOk result (λ new. IsTrue new → prefixes_of before.new.keys ≡ prefixes_of before.old.keys ++ prefix ∷ []) }
    ensures kept { IfOk result (λ new. new ≡ false → prefixes_of before.new.keys ≡ prefixes_of before.old.keys) }
    ensures err { IfErr result (λ e. e ≡ PolicyFault.NoMemory) }
{
    Ok(before.insert((prefix.bits(), prefix.len()))?)
}

impl Once {
    /// No prefix.
    pub fn new(alloc: Global) -> Once
        ensures { plain_once result ≡ none_originated }
    {
        Once {
            before: IndexSet::new(alloc),
            fault: Ok(()),
        }
    }

    /// A prefix more, whose figure stands at this place.
    pub fn take(
        &mut self,
        place: Place,
        prefix: Result<Prefix, PolicyFault>,
    ) -> Result<(), PolicyFault>
        ensures { GivesUnless NoMemory (λ _. plain_once self.new) result (Ok (with_prefix (plain_once self.old) place prefix)) }
    {
        if self.fault.is_err() {
            return Ok(());
        }
        match prefix {
            Ok(prefix) => {
                if !note(&mut self.before, prefix)? {
                    self.fault = Err(PolicyFault::OriginTwice(place));
                }
            }
            Err(fault) => self.fault = Err(fault),
        }
        Ok(())
    }
}
