//! How many brackets are open at once.
ghost use Rattle.std.specs.Prelude.{◌≡◌, ◌≤◌, ◌<◌, ◌∷◌, ℕ, List, length, Ok, None, false, IfSome, IsTrue};
ghost use Rattle.policy_tokens.specs.declared.limits.TheConstants.{BRACKETS};
ghost use Rattle.net_base.specs.Gives.{GivesUnless};
ghost use Rattle.policy_tokens.specs.declared.fault.PolicyFault.TheVariants.{NoMemory};
ghost use Rattle.policy_tokens.specs.Places.{first_place};
ghost use Rattle.policy_tokens.specs.Tokens.{tokens_from};
ghost use Rattle.policy_grammar.specs.Deep.{deep_from, deep_found, is_too_deep, open_behind as open_after};
ghost use Rattle.policy_grammar.specs.declared.lexeme.Lexeme.{Lexeme};
ghost use Rattle.policy_grammar.specs.Symbols.{symbol_of};

use net_base::Place;
use policy_tokens::limits::BRACKETS;
use policy_tokens::{Next, Piece, PolicyFault, TokenKind, front, next_token};

// The brackets of some tokens.
#[derive(Clone, Copy)]
struct Brackets {
    open: u64,
    // Where the first one opens that is too deep.
    deep: Option<Place>,
}

// The brackets with those of one token more, which stands at this place.
fn with_token(brackets: Brackets, kind: TokenKind, place: Place) -> Brackets
    requires { brackets.open ≤ BRACKETS }
    ensures brackets { (bytes : List ℕ) (l : Lexeme) (ls : List Lexeme) → l.symbol ≡ symbol_of kind bytes → l.place ≡ place
        → deep_from result.deep result.open ls ≡ deep_from brackets.deep brackets.open (l ∷ ls) }
    ensures fits { result.open ≤ BRACKETS }
{
    if brackets.deep.is_some() {
        return brackets;
    }
    match kind {
        TokenKind::RoundOpen if brackets.open >= BRACKETS => Brackets {
            open: brackets.open,
            deep: Some(place),
        },
        TokenKind::RoundOpen => Brackets {
            open: brackets.open + 1,
            deep: None,
        },
        TokenKind::RoundClose => Brackets {
            open: brackets.open.saturating_sub(1),
            deep: None,
        },
        _ => brackets,
    }
}

// How many brackets are open behind a token, unless it opens one too many.
fn open_behind(before: u64, kind: TokenKind) -> Option<u64>
    requires { before ≤ BRACKETS }
    ensures fits { IfSome result (λ n. n ≤ BRACKETS) }
    ensures counted { IfSome result (λ n. (bytes : List ℕ) → (is_too_deep before (symbol_of kind bytes) ≡ false) × (open_after before (symbol_of kind bytes) ≡ n)) }
{
    match kind {
        TokenKind::RoundOpen if before >= BRACKETS => None,
        TokenKind::RoundOpen => Some(before + 1),
        TokenKind::RoundClose => Some(before.saturating_sub(1)),
        _ => Some(before),
    }
}

// Whether each piece of a text may stand in a policy and no bracket is too deep. Places matter only where this is not so,
// and it takes less time to look once more for the place of a fault than to know the place of each token.
fn is_fine(text: &[u8]) -> bool
    ensures { IsTrue result → deep_found text.now (tokens_from (length text.now) 0 first_place text.now) ≡ Ok None }
{
    let mut count = 0u64;
    let mut rest = text;
    while !rest.is_empty() {
        match front(rest) {
            Piece::Gap(len) => rest = &rest[len..],
            Piece::Token(kind, len) => {
                let Some(behind) = open_behind(count, kind) else {
                    return false;
                };
                count = behind;
                rest = &rest[len..];
            }
            Piece::Stray => return false,
        }
    }
    true
}

/// The place of the first `(` of a text that comes while 64 brackets are open, or the fault of what begins no token.
/// A `)` closes one where one is open.
pub fn first_deep(text: &[u8]) -> Result<Option<Place>, PolicyFault>
    requires { length text.now < 4294967295 }
    ensures { GivesUnless NoMemory (λ x. x) result (deep_found text.now (tokens_from (length text.now) 0 first_place text.now)) }
{
    if is_fine(text) {
        return Ok(None);
    }
    let mut brackets = Brackets {
        open: 0,
        deep: None,
    };
    let mut next = next_token(text, 0, Place { line: 1, column: 1 });
    while let Next::Token(token) = next {
        brackets = with_token(brackets, token.kind, token.place);
        next = next_token(text, token.to, token.behind());
    }
    match next {
        Next::Stray(place) => Err(PolicyFault::Token(place)),
        _ => Ok(brackets.deep),
    }
}
