//! Reading policies.
ghost use Rattle.std.specs.Prelude.{◌<◌, length, IfOk};
ghost use Rattle.policy_tokens.specs.Ahead.{ahead_of};
ghost use Rattle.net_base.specs.Gives.{GivesUnless};
ghost use Rattle.policy_tokens.specs.declared.fault.PolicyFault.TheVariants.{NoMemory};
ghost use Rattle.policy_tokens.specs.Places.{first_place};
ghost use Rattle.policy_grammar.specs.Left.{lexemes_ahead};
ghost use Rattle.policy_grammar.specs.Items.{items_of};
ghost use Rattle.policy_base.specs.Policies.{policy_of};
ghost use Rattle.policy_parser.specs.Depth.{IsAtMostDeep};
ghost use Rattle.policy_parser.specs.SoFar.{ReadsItems};
ghost use Rattle.policy_parser.specs.Spelled.{items_spelled, spelled};

use crate::item_values::item;
use crate::verdicts::Verdicts;
use net_base::Net;
use policy_base::Policy;
use policy_grammar::{Symbol, begins, first_deep, first_lexeme};
use policy_tokens::{PolicyFault, is_text};
use policy_values::{Reader, Whole};
use std::alloc::Global;

// What becomes of the items of a text, each of which is read with the names above it.
fn items_taken<'a>(
    alloc: Global,
    bytes: &'a [u8],
    net: &'a Net,
) -> Result<Verdicts<'a>, PolicyFault>
    requires { length bytes.now < 4294967295 }
    ensures { ReadsItems bytes.now net.now (items_of (lexemes_ahead bytes.now (ahead_of bytes.now 0 first_place))) result }
{
    let whole = Whole::of(net);
    let mut verdicts = Verdicts::of(alloc, net)?;
    let mut at = first_lexeme(bytes);
    'items: while !begins(Symbol::EndOfText, &at) {
        let reader = Reader {
            alloc,
            text: bytes,
            whole: &whole,
            known: verdicts.known(),
        };
        let read = item(&reader, &mut at)?;
        verdicts.take(bytes, read)?;
    }
    Ok(verdicts)
}

// The same for bytes that may be no text or may open too many brackets.
fn verdicts_of<'a>(
    alloc: Global,
    bytes: &'a [u8],
    net: &'a Net,
) -> Result<Verdicts<'a>, PolicyFault>
    requires { length bytes.now < 4294967295 }
    ensures { ReadsItems bytes.now net.now (items_spelled bytes.now) result }
{
    if !is_text(bytes) {
        return Err(PolicyFault::NotText);
    }
    if let Some(place) = first_deep(bytes)? {
        return Err(PolicyFault::Deep(place));
    }
    items_taken(alloc, bytes, net)
}

/// The policy that a text spells for a net, or the first rule that it breaks, at the first token that does.
///
/// Each part goes to its value as it is read, and nothing else of the text is kept: an expression only while its names are
/// known, its calls are few enough and each `path` is short enough, the policy only while no rule is broken. Brackets are
/// counted before that. So no tree of more than 256 calls is ever made or dropped: of its 321 levels at most 255 are operators
/// with two sides, 65 are `not` and one is a call.
pub fn read_policy(alloc: Global, bytes: &[u8], net: &Net) -> Result<Policy, PolicyFault>
    requires { length bytes.now < 4294967295 }
    ensures read { GivesUnless NoMemory policy_of result (spelled net.now bytes.now) }
    ensures depth { IfOk result (λ policy. IsAtMostDeep 321 (policy_of policy)) }
{
    let verdicts = verdicts_of(alloc, bytes, net)?;
    verdicts.policy()
}
