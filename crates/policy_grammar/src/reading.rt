//! The lexeme at which a text is read.
ghost use Rattle.std.specs.Prelude.{◌≡◌, ◌==◌, ◌<◌, ◌≤◌, ℕ, List, true, false, Some, None, length, OnOk};
ghost use Rattle.net_base.specs.Gives.{GivesUnless};
ghost use Rattle.policy_tokens.specs.declared.fault.PolicyFault.TheVariants.{NoMemory};
ghost use Rattle.policy_grammar.specs.Symbols.{number_of};
ghost use Rattle.policy_grammar.specs.declared.symbol.Symbol.TheVariants.{EndOfText};
ghost use Rattle.policy_grammar.specs.Left.{left, StandsIn};
ghost use Rattle.policy_grammar.specs.Reading.{refused as refusal, past as past_of, first_of, after};

use crate::lexeme::{Lexeme, advance};
use crate::symbol::Symbol;
use policy_tokens::PolicyFault;

/// The fault that no policy goes on with this lexeme.
pub fn refused(at: &Lexeme) -> PolicyFault
    ensures { (text : List ℕ) → result ≡ refusal (left text at.now) }
{
    PolicyFault::Syntax(at.place)
}

/// Whether this lexeme has this symbol.
#[inline(always)]
pub fn begins(symbol: Symbol, at: &Lexeme) -> bool
    ensures { result ≡ (number_of at.now.symbol == number_of symbol) }
{
    at.symbol.number() == symbol.number()
}

/// Whether this lexeme has this symbol, which isn't the end of the text. If so, the next one comes.
#[inline(always)]
pub fn past(symbol: Symbol, text: &[u8], at: &mut Lexeme) -> bool
    requires sign { number_of symbol < number_of EndOfText }
    requires stands { StandsIn text.now at.old }
    ensures here { result ≡ true → past_of symbol (left text.now at.old) ≡ Some (at.old, left text.now at.new) }
    ensures away { result ≡ false → (past_of symbol (left text.now at.old) ≡ None) × (at.new ≡ at.old) }
    ensures stands { StandsIn text.now at.new }
    ensures fewer { length (left text.now at.new) ≤ length (left text.now at.old) }
    ensures onward { result ≡ true → length (left text.now at.new) < length (left text.now at.old) }
{
    let here = begins(symbol, at);
    if here {
        advance(text, at);
    }
    here
}

/// This lexeme, which is to have this symbol and not to be the end of the text. Then the next one comes. Another one is refused.
pub fn first(symbol: Symbol, text: &[u8], at: &mut Lexeme) -> Result<Lexeme, PolicyFault>
    requires sign { number_of symbol < number_of EndOfText }
    requires stands { StandsIn text.now at.old }
    ensures read { GivesUnless NoMemory (λ x. (x, left text.now at.new)) result (first_of symbol (left text.now at.old)) }
    ensures stands { StandsIn text.now at.new }
    ensures fewer { length (left text.now at.new) ≤ length (left text.now at.old) }
    ensures onward { OnOk result (length (left text.now at.new) < length (left text.now at.old)) }
{
    let here = *at;
    if past(symbol, text, at) {
        Ok(here)
    } else {
        Err(refused(at))
    }
}

/// Goes on behind this lexeme, which is to have this symbol and not to be the end of the text. Another one is refused.
pub fn passed(symbol: Symbol, text: &[u8], at: &mut Lexeme) -> Result<(), PolicyFault>
    requires sign { number_of symbol < number_of EndOfText }
    requires stands { StandsIn text.now at.old }
    ensures read { GivesUnless NoMemory (λ _. left text.now at.new) result (after symbol (left text.now at.old)) }
    ensures stands { StandsIn text.now at.new }
    ensures fewer { length (left text.now at.new) ≤ length (left text.now at.old) }
    ensures onward { OnOk result (length (left text.now at.new) < length (left text.now at.old)) }
{
    first(symbol, text, at)?;
    Ok(())
}
