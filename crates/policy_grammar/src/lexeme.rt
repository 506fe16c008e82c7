//! Tokens with what they stand for.
ghost use Rattle.std.specs.Prelude.{◌≡◌, ◌<◌, length};
ghost use Rattle.policy_tokens.specs.Ahead.{ahead_of, IsPlace};
ghost use Rattle.policy_tokens.specs.Places.{first_place};
ghost use Rattle.policy_grammar.specs.Symbols.{number_of};
ghost use Rattle.policy_grammar.specs.declared.symbol.Symbol.TheVariants.{EndOfText};
ghost use Rattle.policy_grammar.specs.Lexemes.{slice_of, lexeme_of as lexeme};
ghost use Rattle.policy_grammar.specs.Left.{lexemes_ahead, behind, left, StandsIn};

use crate::symbol::{Symbol, symbol_of};
use net_base::Place;
use policy_tokens::{Next, Token, next_token};

/// A token with what it stands for: the bytes of the text from `from` on, before `to`.
#[derive(Clone, Copy)]
pub struct Lexeme {
    /// What it stands for.
    pub symbol: Symbol,
    /// The place of its first byte in the text, from 0.
    pub from: u32,
    /// The place behind its last byte.
    pub to: u32,
    /// The line and the column of its first byte.
    pub place: Place,
}

// The bytes of a text from one place on, before another; none where there are no such.
fn slice(bytes: &[u8], from: u32, to: u32) -> &[u8]
    ensures { result.now ≡ slice_of bytes.now from to }
{
    let (from, to) = (from as usize, to as usize);
    if from <= to && to <= bytes.len() {
        &bytes[from..to]
    } else {
        &[]
    }
}

/// The bytes of a lexeme.
pub fn text_of<'a>(bytes: &'a [u8], lexeme: &Lexeme) -> &'a [u8]
    ensures { result.now ≡ slice_of bytes.now lexeme.now.from lexeme.now.to }
{
    slice(bytes, lexeme.from, lexeme.to)
}

// A token with what its bytes stand for.
fn lexeme_of(bytes: &[u8], token: &Token) -> Lexeme
    ensures { result ≡ lexeme bytes.now token.now }
{
    Lexeme {
        symbol: symbol_of(token.kind, slice(bytes, token.from, token.to)),
        from: token.from,
        to: token.to,
        place: token.place,
    }
}

// The next lexeme at a place of a text or behind it.
fn lexeme_from(text: &[u8], from: u32, place: Place) -> Lexeme
    requires fits { length text.now < 4294967295 }
    requires place { IsPlace text.now from place }
    ensures left { left text.now result ≡ lexemes_ahead text.now (ahead_of text.now from place) }
    ensures stands { StandsIn text.now result }
{
    match next_token(text, from, place) {
        Next::Token(token) => lexeme_of(text, &token),
        Next::End(place) | Next::Stray(place) => Lexeme {
            symbol: Symbol::EndOfText,
            from: 0,
            to: 0,
            place,
        },
    }
}

/// The first lexeme of a text, whose bytes are fewer than 2^32 - 1.
#[tactic(auto, unfolding(crate::specs::Left::behind, crate::specs::Left::StandsIn))]
pub fn first_lexeme(text: &[u8]) -> Lexeme
    requires { length text.now < 4294967295 }
    ensures left { left text.now result ≡ lexemes_ahead text.now (ahead_of text.now 0 first_place) }
    ensures stands { StandsIn text.now result }
{
    // An empty name stands before the text, and the first lexeme is the one behind it.
    let mut at = Lexeme {
        symbol: Symbol::Name,
        from: 0,
        to: 0,
        place: Place { line: 1, column: 1 },
    };
    advance(text, &mut at);
    at
}

/// Goes on to the next lexeme. There is none behind the end of the text.
pub fn advance(text: &[u8], at: &mut Lexeme)
    requires inside { number_of at.old.symbol < number_of EndOfText }
    requires stands { StandsIn text.now at.old }
    ensures left { behind text.now at.old ≡ left text.now at.new }
    ensures stands { StandsIn text.now at.new }
{
    let place = Place {
        line: at.place.line,
        column: at.place.column + (at.to - at.from),
    };
    *at = lexeme_from(text, at.to, place);
}
