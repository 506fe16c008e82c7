//! Cutting a text into tokens.
ghost use Rattle.std.specs.Prelude.{◌≡◌, ◌<◌, length};
ghost use Rattle.std.specs.Str.{is_utf8};
ghost use Rattle.net_base.specs.Gives.{GivesUnless};
ghost use Rattle.policy_tokens.specs.declared.fault.PolicyFault.TheVariants.{NoMemory};
ghost use Rattle.policy_tokens.specs.Places.{first_place};
ghost use Rattle.policy_tokens.specs.Tokens.{tokens_from, tokens_of};

use crate::fault::PolicyFault;
use crate::next::{Next, next_token};
use crate::token::Token;
use net_base::Place;
use std::alloc::Global;

// The tokens of bytes that are text.
fn cut(alloc: Global, bytes: &[u8]) -> Result<Vec<Token>, PolicyFault>
    requires { length bytes.now < 4294967295 }
    ensures { GivesUnless NoMemory (λ v. v.items) result (tokens_from (length bytes.now) 0 first_place bytes.now) }
{
    let mut found = Vec::new(alloc);
    let mut next = next_token(bytes, 0, Place { line: 1, column: 1 });
    while let Next::Token(token) = next {
        found.push(token)?;
        next = next_token(bytes, token.to, token.behind());
    }
    match next {
        Next::Stray(place) => Err(PolicyFault::Token(place)),
        _ => Ok(found),
    }
}

/// Whether the bytes are UTF-8.
pub fn is_text(bytes: &[u8]) -> bool
    ensures { result ≡ is_utf8 bytes.now }
{
    match std::str::from_utf8(bytes) {
        Ok(_) => true,
        Err(_) => false,
    }
}

/// The tokens of a text, in order, each with its place; or the first rule that the text breaks: it is UTF-8,
/// and each character outside of comments belongs to a token or is a blank.
#[tactic(auto, unfolding(crate::specs::Tokens::tokens_of))]
pub fn tokens(alloc: Global, bytes: &[u8]) -> Result<Vec<Token>, PolicyFault>
    requires { length bytes.now < 4294967295 }
    ensures { GivesUnless NoMemory (λ v. v.items) result (tokens_of bytes.now) }
{
    if !is_text(bytes) {
        return Err(PolicyFault::NotText);
    }
    cut(alloc, bytes)
}
