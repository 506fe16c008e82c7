//! What a token stands for in the grammar.
ghost use Rattle.std.specs.Prelude.{◌≡◌, ◌<◌};
ghost use Rattle.policy_grammar.specs.Symbols.{
  call_number as number_of_call,
  number_of,
  set_number as number_of_set,
  symbol_of as symbol,
  symbol_of_word,
  word_symbol as spelled_symbol,
};

use policy_tokens::TokenKind;
use policy_words::{CallWord, SetCall, Word};

/// What a token stands for in the grammar: a word of the language, a name, a figure or a sign. The words of calls
/// are those of `CallWord`; `any` also stands for a set. The end of the text has a symbol of its own.
#[derive(Clone, Copy)]
pub enum Symbol {
    /// `define`.
    Define,
    /// `originate`.
    Originate,
    /// `at`.
    At,
    /// `from`.
    From,
    /// `true`.
    True,
    /// `le`.
    Le,
    /// `or`.
    Or,
    /// `and`.
    And,
    /// `not`.
    Not,
    /// The word of a call.
    Call(CallWord),
    /// A word that isn't one of the language.
    Name,
    /// A figure.
    Figure,
    /// `=>`.
    Arrow,
    /// `>>`.
    Above,
    /// `=`.
    Equals,
    /// `{`.
    BraceOpen,
    /// `}`.
    BraceClose,
    /// `(`.
    RoundOpen,
    /// `)`.
    RoundClose,
    /// `,`.
    Comma,
    /// `;`.
    Semicolon,
    /// Nothing follows.
    EndOfText,
}

// The number of a call of one set among these calls.
fn set_number(call: SetCall) -> u8
    ensures number { result ≡ number_of_set call }
    ensures small { result < 100 }
{
    match call {
        SetCall::Avoid => 0,
        SetCall::Through => 1,
        SetCall::NoTransit => 2,
        SetCall::Start => 3,
        SetCall::End => 4,
        SetCall::Exit => 5,
        SetCall::Enter => 6,
    }
}

// The number of a call among the calls.
fn call_number(word: CallWord) -> u8
    ensures number { result ≡ number_of_call word }
    ensures small { result < 200 }
{
    match word {
        CallWord::Any => 0,
        CallWord::Drop => 1,
        CallWord::Internal => 2,
        CallWord::Link => 3,
        CallWord::Path => 4,
        CallWord::Of(call) => 5 + set_number(call),
    }
}

impl Symbol {
    /// The number of the symbol: no two have the same one.
    pub fn number(self) -> u8
        ensures { result ≡ number_of self }
    {
        match self {
            Symbol::Define => 0,
            Symbol::Originate => 1,
            Symbol::At => 2,
            Symbol::From => 3,
            Symbol::True => 4,
            Symbol::Le => 5,
            Symbol::Or => 6,
            Symbol::And => 7,
            Symbol::Not => 8,
            Symbol::Name => 9,
            Symbol::Figure => 10,
            Symbol::Arrow => 11,
            Symbol::Above => 12,
            Symbol::Equals => 13,
            Symbol::BraceOpen => 14,
            Symbol::BraceClose => 15,
            Symbol::RoundOpen => 16,
            Symbol::RoundClose => 17,
            Symbol::Comma => 18,
            Symbol::Semicolon => 19,
            Symbol::Call(word) => 20 + call_number(word),
            Symbol::EndOfText => 255,
        }
    }
}

// What a word of the language stands for.
fn word_symbol(word: Word) -> Symbol
    ensures { result ≡ symbol_of_word word }
{
    match word {
        Word::Define => Symbol::Define,
        Word::Originate => Symbol::Originate,
        Word::At => Symbol::At,
        Word::From => Symbol::From,
        Word::True => Symbol::True,
        Word::Le => Symbol::Le,
        Word::Or => Symbol::Or,
        Word::And => Symbol::And,
        Word::Not => Symbol::Not,
        Word::Call(call) => Symbol::Call(call),
    }
}

// A word of the language, or a name.
#[tactic(auto, unfolding(crate::specs::Symbols::word_symbol))]
fn spelled(bytes: &[u8]) -> Symbol
    ensures { result ≡ spelled_symbol bytes.now }
{
    match Word::named(bytes) {
        Some(word) => word_symbol(word),
        None => Symbol::Name,
    }
}

/// What a token of this kind and these bytes stands for.
pub(crate) fn symbol_of(kind: TokenKind, bytes: &[u8]) -> Symbol
    ensures { result ≡ symbol kind bytes.now }
{
    match kind {
        TokenKind::Word => spelled(bytes),
        TokenKind::Figure => Symbol::Figure,
        TokenKind::Arrow => Symbol::Arrow,
        TokenKind::Above => Symbol::Above,
        TokenKind::Equals => Symbol::Equals,
        TokenKind::BraceOpen => Symbol::BraceOpen,
        TokenKind::BraceClose => Symbol::BraceClose,
        TokenKind::RoundOpen => Symbol::RoundOpen,
        TokenKind::RoundClose => Symbol::RoundClose,
        TokenKind::Comma => Symbol::Comma,
        TokenKind::Semicolon => Symbol::Semicolon,
    }
}
