//! What figures spell.
ghost use Rattle.std.specs.Prelude.{◌≡◌};
ghost use Rattle.policy_grammar.specs.Raw.{RawPattern as raw};
ghost use Rattle.policy_rules.specs.Figures.{prefix_at as prefix_there, upto_at as upto_there, pattern_at as pattern_there};

use net_base::{Pattern, Prefix, read_length, read_prefix};
use policy_grammar::{Lexeme, text_of};
use policy_tokens::PolicyFault;

/// The prefix that a figure spells, or that it spells none.
pub fn prefix_at(bytes: &[u8], figure: &Lexeme) -> Result<Prefix, PolicyFault>
    ensures { result ≡ prefix_there bytes.now figure.now }
{
    match read_prefix(text_of(bytes, figure)) {
        Ok(prefix) => Ok(prefix),
        Err(_) => Err(PolicyFault::PrefixBad(figure.place)),
    }
}

// The pattern of a base up to the length that a figure spells.
fn upto_at(bytes: &[u8], base: Prefix, figure: &Lexeme) -> Result<Pattern, PolicyFault>
    ensures { result ≡ upto_there bytes.now base figure.now }
{
    let Some(upto) = read_length(text_of(bytes, figure)) else {
        return Err(PolicyFault::PrefixBad(figure.place));
    };
    if u16::from(base.len()) > upto || upto > 32 {
        return Err(PolicyFault::PrefixBad(figure.place));
    }
    Ok(Pattern::new(base, upto as u8))
}

/// All prefixes, for which `true` stands.
pub fn all_prefixes() -> Pattern
    ensures { result ≡ record { base = record { bits = 0; len = 0 }; upto = 32 } }
{
    Pattern::new(Prefix::new(0, 0), 32)
}

/// The prefix that a figure spells, alone.
pub fn only_at(bytes: &[u8], figure: &Lexeme) -> Result<Pattern, PolicyFault>
    ensures { result ≡ pattern_there bytes.now (raw.Only figure.now) }
{
    let prefix = prefix_at(bytes, figure)?;
    Ok(Pattern::only(prefix))
}

/// The prefixes inside the one that a figure spells, up to the length that another one spells.
pub fn inside_at(bytes: &[u8], figure: &Lexeme, upto: &Lexeme) -> Result<Pattern, PolicyFault>
    ensures { result ≡ pattern_there bytes.now (raw.UpTo figure.now upto.now) }
{
    let prefix = prefix_at(bytes, figure)?;
    upto_at(bytes, prefix, upto)
}
