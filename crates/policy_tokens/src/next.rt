//! One token of a text after another.
ghost use Rattle.std.specs.Prelude.{◌≡◌, ◌≤◌, ◌<◌, ◌+◌, length};
ghost use Rattle.policy_tokens.specs.Ahead.{behind_piece, ahead_of, from_next, IsPlace, IsToken};

use crate::piece::{Piece, front};
use crate::token::Token;
use net_base::Place;

/// What stands next in a text, behind blanks and comments.
#[derive(Clone, Copy)]
pub enum Next {
    /// A token.
    Token(Token),
    /// The text ends at this place.
    End(Place),
    /// What stands at this place begins no token.
    Stray(Place),
}

// The place behind a piece of so many bytes that begins with this one. A line feed is a piece by itself.
fn behind(place: Place, first: u8, len: u32) -> Place
    requires line { place.line < 4294967295 }
    requires column { place.column + len ≤ 4294967295 }
    ensures { result ≡ behind_piece place first len }
{
    if first == b'\n' {
        Place {
            line: place.line + 1,
            column: 1,
        }
    } else {
        Place {
            line: place.line,
            column: place.column + len,
        }
    }
}

/// The next token of a text that stands at this byte, which has this place, or behind it.
#[inline(always)]
pub fn next_token(bytes: &[u8], from: u32, place: Place) -> Next
    requires fits { length bytes.now < 4294967295 }
    requires place { IsPlace bytes.now from place }
    ensures next { ahead_of bytes.now from place ≡ from_next bytes.now result }
    ensures stands { IsToken bytes.now result }
{
    let (mut at, mut here) = (from, place);
    let mut rest = &bytes[at as usize..];
    while let [first, ..] = rest {
        match front(rest) {
            Piece::Gap(len) => {
                here = behind(here, *first, len as u32);
                at += len as u32;
                rest = &rest[len..];
            }
            Piece::Token(kind, len) => {
                let to = at + len as u32;
                return Next::Token(Token {
                    kind,
                    from: at,
                    to,
                    place: here,
                });
            }
            Piece::Stray => return Next::Stray(here),
        }
    }
    Next::End(here)
}
