//! Which names a text may use.
ghost use Rattle.std.specs.Prelude.{◌≡◌};
ghost use Rattle.policy_rules.specs.KnownView.{plain_names};
ghost use Rattle.policy_rules.specs.Checks.{set_at as set_there};

use crate::known::Known;
use net_base::LocSet;
use policy_grammar::{Lexeme, text_of};
use policy_tokens::PolicyFault;

/// The set that a name of the text stands for, or that it is unknown.
#[tactic(auto, unfolding(crate::specs::Checks::set_at))]
pub fn set_at(bytes: &[u8], known: &Known<'_>, name: &Lexeme) -> Result<LocSet, PolicyFault>
    ensures { result ≡ set_there bytes.now (plain_names known.now) name.now }
{
    match known.set_named(text_of(bytes, name)) {
        Some(set) => Ok(set),
        None => Err(PolicyFault::Unknown(name.place)),
    }
}
