//! The words, and the one that a text spells.
ghost use Rattle.std.specs.Prelude.{◌≡◌};
ghost use Rattle.policy_words.specs.Words.{set_word, text_of, word_named, word_text};

/// A test of paths by one set of locations. A path is read from its source to its origin end.
#[derive(Clone, Copy)]
pub enum SetCall {
    /// No location is in the set.
    Avoid,
    /// Some location is in the set.
    Through,
    /// No location but the first and the last is in the set.
    NoTransit,
    /// The first location is in the set.
    Start,
    /// The last location is in the set.
    End,
    /// The last location is a peer, and it or the one before it is in the set.
    Exit,
    /// The first location is a peer, and it or the one after it is in the set.
    Enter,
}

/// Which call it is, without its sets.
#[derive(Clone, Copy)]
pub enum CallWord {
    /// `any`: every path.
    Any,
    /// `drop`: no path.
    Drop,
    /// `internal`: no peer occurs.
    Internal,
    /// `link`: a step between two sets.
    Link,
    /// `path`: a set for each place.
    Path,
    /// A call of one set.
    Of(SetCall),
}

/// A word of the language.
#[derive(Clone, Copy)]
pub enum Word {
    /// `define`: a group of names begins.
    Define,
    /// `originate`: prefixes that routers announce of themselves.
    Originate,
    /// `at`: before the routers of an `originate` item.
    At,
    /// `from`: before the sources of a statement.
    From,
    /// `true`: the pattern of all prefixes.
    True,
    /// `le`: before the greatest length of a pattern.
    Le,
    /// `or`: one of two expressions.
    Or,
    /// `and`: both of two expressions.
    And,
    /// `not`: not the expression behind it.
    Not,
    /// The word of a call. `any` also stands for a set.
    Call(CallWord),
}

/// The words, each once.
#[rattlefmt::skip]
pub const WORDS: [Word; 21] = [
    Word::Define, Word::Originate, Word::At, Word::From, Word::True, Word::Le,
    Word::Or, Word::And, Word::Not,
    Word::Call(CallWord::Any), Word::Call(CallWord::Drop), Word::Call(CallWord::Internal), Word::Call(CallWord::Link), Word::Call(CallWord::Path),
    Word::Call(CallWord::Of(SetCall::Avoid)), Word::Call(CallWord::Of(SetCall::Through)), Word::Call(CallWord::Of(SetCall::NoTransit)),
    Word::Call(CallWord::Of(SetCall::Start)), Word::Call(CallWord::Of(SetCall::End)), Word::Call(CallWord::Of(SetCall::Exit)),
    Word::Call(CallWord::Of(SetCall::Enter)),
];

impl SetCall {
    /// The word that the policy language has for it.
    pub fn word(self) -> &'static [u8]
        ensures { result.now ≡ set_word self }
    {
        match self {
            SetCall::Avoid => b"avoid",
            SetCall::Through => b"through",
            SetCall::NoTransit => b"notransit",
            SetCall::Start => b"start",
            SetCall::End => b"end",
            SetCall::Exit => b"exit",
            SetCall::Enter => b"enter",
        }
    }
}

impl CallWord {
    /// The word that the policy language has for it.
    pub fn text(self) -> &'static [u8]
        ensures { result.now ≡ word_text self }
    {
        match self {
            CallWord::Any => b"any",
            CallWord::Drop => b"drop",
            CallWord::Internal => b"internal",
            CallWord::Link => b"link",
            CallWord::Path => b"path",
            CallWord::Of(call) => call.word(),
        }
    }
}

impl Word {
    /// How it is spelled.
    pub fn text(self) -> &'static [u8]
        ensures { result.now ≡ text_of self }
    {
        match self {
            Word::Define => b"define",
            Word::Originate => b"originate",
            Word::At => b"at",
            Word::From => b"from",
            Word::True => b"true",
            Word::Le => b"le",
            Word::Or => b"or",
            Word::And => b"and",
            Word::Not => b"not",
            Word::Call(call) => call.text(),
        }
    }

    /// The word that these bytes spell, or None where they spell none.
    #[tactic(auto, unfolding(crate::specs::Words::word_named))]
    pub fn named(bytes: &[u8]) -> Option<Word>
        ensures { result ≡ word_named bytes.now }
    {
        WORDS.iter().copied().find(|word| bytes == word.text())
    }
}
