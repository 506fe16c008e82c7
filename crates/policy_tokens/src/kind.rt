//! What a fault can count.

/// What a count of a policy counts.
#[derive(Clone, Copy, Debug, PartialEq, Eq)]
pub enum Kind {
    /// `define` items.
    Definitions,
    /// Statements.
    Statements,
    /// Patterns over all statements.
    Patterns,
    /// Prefixes that are originated.
    Prefixes,
    /// Pairs of a prefix and an origin.
    Origins,
    /// Calls of a statement.
    Calls,
    /// Places of a `path` call.
    Places,
}

impl Kind {
    ghost use Rattle.std.specs.Prelude.{◌≡◌};
    ghost use Rattle.policy_tokens.specs.Kinds.{kind_word};

    /// The word of what is counted.
    pub fn word(self) -> &'static [u8]
        ensures { result.now ≡ kind_word self }
    {
        match self {
            Kind::Definitions => b"definitions",
            Kind::Statements => b"statements",
            Kind::Patterns => b"patterns",
            Kind::Prefixes => b"prefixes",
            Kind::Origins => b"origins",
            Kind::Calls => b"calls",
            Kind::Places => b"places",
        }
    }
}
