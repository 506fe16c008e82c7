//! What stands at the front of a text.
ghost use Rattle.std.specs.Prelude.{◌≡◌, ◌≤◌, ◌<◌, ◌+◌, ℕ, length};
ghost use Rattle.std.specs.List.{prefix_len};
ghost use Rattle.net_base.specs.NameRule.{is_letter as letter, is_name_byte as word_byte};
ghost use Rattle.policy_tokens.specs.Tokens.{
  is_blank as blank,
  in_line as line_byte,
  is_figure_byte as figure_byte,
  two_signs as pair,
  one_sign as
      single,
  word_piece as word,
  sign_at,
  piece_at,
  IsWithin,
};

use crate::token::TokenKind;

/// What stands at the front of a text, with its number of bytes.
#[derive(Clone, Copy)]
pub enum Piece {
    /// A blank or a comment.
    Gap(usize),
    /// A token of this kind.
    Token(TokenKind, usize),
    /// Nothing that may stand in a policy.
    Stray,
}

fn is_letter(b: u8) -> bool
    ensures { result ≡ letter b }
{
    b.is_ascii_alphabetic()
}

fn is_word_byte(b: u8) -> bool
    ensures { result ≡ word_byte b }
{
    b.is_ascii_alphabetic() || matches!(b, b'0'..=b'9' | b'_' | b'-' | b'.')
}

fn is_figure_byte(b: u8) -> bool
    ensures { result ≡ figure_byte b }
{
    matches!(b, b'0'..=b'9' | b'.' | b'/')
}

fn is_blank(b: u8) -> bool
    ensures { result ≡ blank b }
{
    matches!(b, b' ' | b'\t' | b'\r' | b'\n')
}

// How many bytes at the front may stand in a word.
fn word_len(bytes: &[u8]) -> usize
    ensures len { result ≡ prefix_len word_byte bytes.now }
    ensures within { result ≤ length bytes.now }
{
    bytes.iter().take_while(|b| is_word_byte(**b)).count()
}

// How many bytes at the front may stand in a figure.
fn figure_len(bytes: &[u8]) -> usize
    ensures len { result ≡ prefix_len figure_byte bytes.now }
    ensures within { result ≤ length bytes.now }
{
    bytes.iter().take_while(|b| is_figure_byte(**b)).count()
}

// How many bytes stand before the first line feed: all of them where there is none.
fn line_len(bytes: &[u8]) -> usize
    ensures len { result ≡ prefix_len line_byte bytes.now }
    ensures within { result ≤ length bytes.now }
{
    bytes.iter().take_while(|b| **b != b'\n').count()
}

// The sign that two bytes make.
fn two_signs(a: u8, b: u8) -> Option<TokenKind>
    ensures { result ≡ pair a b }
{
    match (a, b) {
        (b'=', b'>') => Some(TokenKind::Arrow),
        (b'>', b'>') => Some(TokenKind::Above),
        _ => None,
    }
}

// The sign that one byte makes.
fn one_sign(a: u8) -> Option<TokenKind>
    ensures { result ≡ single a }
{
    match a {
        b'=' => Some(TokenKind::Equals),
        b'{' => Some(TokenKind::BraceOpen),
        b'}' => Some(TokenKind::BraceClose),
        b'(' => Some(TokenKind::RoundOpen),
        b')' => Some(TokenKind::RoundClose),
        b',' => Some(TokenKind::Comma),
        b';' => Some(TokenKind::Semicolon),
        _ => None,
    }
}

// A word of so many bytes, unless it is longer than a word may be.
fn word_piece(n: usize) -> Piece
    ensures rule { result ≡ word n }
    ensures within { (m : ℕ) → 0 < n → n ≤ m → IsWithin result m }
{
    if n <= 32 {
        Piece::Token(TokenKind::Word, n)
    } else {
        Piece::Stray
    }
}

// A sign at the front, the longer one where it fits.
fn sign_front(first: u8, rest: &[u8]) -> Piece
    ensures rule { result ≡ sign_at first rest.now }
    ensures within { IsWithin result (1 + length rest.now) }
{
    if !rest.is_empty() {
        if let Some(kind) = two_signs(first, rest[0]) {
            return Piece::Token(kind, 2);
        }
    }
    match one_sign(first) {
        Some(kind) => Piece::Token(kind, 1),
        None => Piece::Stray,
    }
}

/// What stands at the front.
#[tactic(auto, unfolding(crate::specs::Tokens::piece_at))]
#[inline(always)]
pub fn front(bytes: &[u8]) -> Piece
    ensures rule { result ≡ piece_at bytes.now }
    ensures within { IsWithin result (length bytes.now) }
{
    let [first, rest @ ..] = bytes else {
        return Piece::Stray;
    };
    if is_blank(*first) {
        Piece::Gap(1)
    } else if *first == b'#' {
        Piece::Gap(1 + line_len(rest))
    } else if is_letter(*first) {
        word_piece(1 + word_len(rest))
    } else if first.is_ascii_digit() {
        Piece::Token(TokenKind::Figure, 1 + figure_len(rest))
    } else {
        sign_front(*first, rest)
    }
}
