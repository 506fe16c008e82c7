//! What is wrong with a policy text.
use crate::kind::Kind;
use input_output::NoMemory;
use net_base::Place;
use std::alloc::{AllocError, AllocFailed};
use text_parts::{TextFault, push_at, push_bytes, push_number, push_word};

/// The rule that a policy text breaks: of several the one that stands first here, and of that one the first
/// token that breaks it.
#[derive(Clone, Copy, Debug, Drop, PartialEq, Eq)]
pub enum PolicyFault {
    /// The bytes aren't UTF-8.
    NotText,
    /// A character begins no token, or a word is longer than 32 bytes.
    Token(Place),
    /// More than 64 brackets are open at once.
    Deep(Place),
    /// No policy has the tokens up to this one.
    Syntax(Place),
    /// The name is neither a location nor a group that is defined above it.
    Unknown(Place),
    /// The group has the name of a location or of a group above it.
    Twice(Place),
    /// The figure is no prefix, or no length that may follow this prefix.
    PrefixBad(Place),
    /// The `>>` stands under an `or` or a `not`.
    RankUnder(Place),
    /// The name stands for a set with a peer, and only routers may originate a prefix.
    OriginPeer(Place),
    /// The prefix is originated above already.
    OriginTwice(Place),
    /// There are more of these than a policy may have; this is how many there are.
    TooMany(Kind, u64),
    /// There was not enough memory.
    NoMemory,
}

impl TextFault for PolicyFault {
    ghost use Rattle.policy_tokens.specs.Faults.{told};

    ghost telling = { told };

    fn number(&self) -> u8 {
        match self {
            PolicyFault::NotText => 1,
            PolicyFault::Token(_) => 2,
            PolicyFault::Deep(_) => 3,
            PolicyFault::Syntax(_) => 4,
            PolicyFault::Unknown(_) => 5,
            PolicyFault::Twice(_) => 6,
            PolicyFault::PrefixBad(_) => 7,
            PolicyFault::RankUnder(_) => 8,
            PolicyFault::OriginPeer(_) => 9,
            PolicyFault::OriginTwice(_) => 10,
            PolicyFault::TooMany(_, _) => 11,
            PolicyFault::NoMemory => 0,
        }
    }

    fn word(&self) -> &'static [u8] {
        match self {
            PolicyFault::NotText => b"not-text",
            PolicyFault::Token(_) => b"token",
            PolicyFault::Deep(_) => b"deep",
            PolicyFault::Syntax(_) => b"syntax",
            PolicyFault::Unknown(_) => b"unknown",
            PolicyFault::Twice(_) => b"twice",
            PolicyFault::PrefixBad(_) => b"prefix-bad",
            PolicyFault::RankUnder(_) => b"rank-under",
            PolicyFault::OriginPeer(_) => b"origin-peer",
            PolicyFault::OriginTwice(_) => b"origin-twice",
            PolicyFault::TooMany(_, _) => b"too-many",
            PolicyFault::NoMemory => b"no-memory",
        }
    }

    fn push_values(&self, text: &mut Vec<u8>) -> Result<(), NoMemory> {
        match self {
            PolicyFault::NotText | PolicyFault::NoMemory => Ok(()),
            PolicyFault::Token(place)
            | PolicyFault::Deep(place)
            | PolicyFault::Syntax(place)
            | PolicyFault::Unknown(place)
            | PolicyFault::Twice(place)
            | PolicyFault::PrefixBad(place)
            | PolicyFault::RankUnder(place)
            | PolicyFault::OriginPeer(place)
            | PolicyFault::OriginTwice(place) => push_at(text, *place),
            PolicyFault::TooMany(kind, number) => {
                push_word(text, kind.word())?;
                push_bytes(text, b" ")?;
                push_number(text, *number)
            }
        }
    }

    fn is_no_memory(&self) -> bool {
        matches!(self, PolicyFault::NoMemory)
    }
}

impl From<AllocError> for PolicyFault {
    ghost use Rattle.std.specs.Prelude.{◌≡◌};
    ghost use Rattle.policy_tokens.specs.declared.fault.PolicyFault.TheVariants.{NoMemory};

    ghost from_gives = { λ _ e. e ≡ NoMemory };

    fn from(_e: AllocError) -> PolicyFault {
        PolicyFault::NoMemory
    }
}

impl<T: Drop> From<AllocFailed<T>> for PolicyFault {
    ghost use Rattle.std.specs.Prelude.{◌≡◌};
    ghost use Rattle.policy_tokens.specs.declared.fault.PolicyFault.TheVariants.{NoMemory};

    ghost from_gives = { λ _ e. e ≡ NoMemory };

    fn from(_e: AllocFailed<T>) -> PolicyFault {
        PolicyFault::NoMemory
    }
}
