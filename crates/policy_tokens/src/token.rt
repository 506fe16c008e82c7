//! Tokens.
ghost use Rattle.std.specs.Prelude.{◌≡◌, ◌≤◌, ◌+◌, ◌-◌};
ghost use Rattle.policy_tokens.specs.Ahead.{behind_token};

use net_base::Place;

/// What a token is.
#[derive(Clone, Copy, Debug, PartialEq, Eq)]
pub enum TokenKind {
    /// A letter, then letters, digits, `_`, `-` and `.`: at most 32 bytes.
    Word,
    /// A digit, then digits, `.` and `/`.
    Figure,
    /// `=>`
    Arrow,
    /// `>>`
    Above,
    /// `=`
    Equals,
    /// `{`
    BraceOpen,
    /// `}`
    BraceClose,
    /// `(`
    RoundOpen,
    /// `)`
    RoundClose,
    /// `,`
    Comma,
    /// `;`
    Semicolon,
}

/// A token of a text: the bytes from `from` on, before `to`.
#[derive(Clone, Copy, Debug, PartialEq, Eq)]
pub struct Token {
    /// What the token is.
    pub kind: TokenKind,
    /// The place of its first byte in the text, from 0.
    pub from: u32,
    /// The place behind its last byte.
    pub to: u32,
    /// Where its first byte stands.
    pub place: Place,
}

impl Token {
    /// The place behind its last byte.
    pub fn behind(&self) -> Place
        requires order { self.now.from ≤ self.now.to }
        requires column { self.now.place.column + (self.now.to - self.now.from) ≤ 4294967295 }
        ensures { result ≡ behind_token self.now }
    {
        Place {
            line: self.place.line,
            column: self.place.column + (self.to - self.from),
        }
    }
}
