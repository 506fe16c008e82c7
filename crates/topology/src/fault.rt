//! What is wrong with a topology text.
use crate::parts::{Field, Kind};
use input_output::NoMemory;
use net_base::Name;
use std::alloc::{AllocError, AllocFailed};
use text_parts::{TextFault, push_bytes, push_number, push_place, push_word};

/// The rule that a topology text breaks: of several the one that stands first here. Places count from 1 in
/// their array.
#[derive(Clone, Copy, Drop, PartialEq, Eq)]
pub enum TopoFault {
    /// The text is no JSON, or opens more than 127 arrays and objects at once.
    NotJson,
    /// The value hasn't the shape of a topology; this is the first part that differs.
    Shape(Field),
    /// There are more than 512 routers, 256 peers or 8,192 links; this is how many there are.
    TooMany(Kind, u64),
    /// The entry at this place of `routers` or `peers` has no lawful name.
    BadName(Kind, u32),
    /// The name stands twice over routers and peers.
    Twice(Name),
    /// The AS number is out of range: from 64512 to 65534 or from 4200000000 to 4294967294 for a router (RFC 6996), from 1
    /// to 65534 or from 65536 to 4294967294 for a peer.
    AsRange(Name),
    /// Both have the same AS number. The earlier one stands first.
    AsTwice(Name, Name),
    /// Both have the same identifier. The earlier one stands first.
    IdTwice(Name, Name),
    /// An end of the link at this place isn't a name of the text.
    UnknownEnd(u32),
    /// The link at this place has the ends of an earlier one, in either order.
    LinkTwice(u32),
    /// The link at this place joins a location to itself.
    SelfLink(u32),
    /// The link at this place joins two peers.
    PeerLink(u32),
    /// There was not enough memory.
    NoMemory,
}

impl TextFault for TopoFault {
    ghost use Rattle.topology.specs.Faults.{told};

    ghost telling = { told };

    fn number(&self) -> u8 {
        match self {
            TopoFault::NotJson => 1,
            TopoFault::Shape(_) => 2,
            TopoFault::TooMany(_, _) => 3,
            TopoFault::BadName(_, _) => 4,
            TopoFault::Twice(_) => 5,
            TopoFault::AsRange(_) => 6,
            TopoFault::AsTwice(_, _) => 7,
            TopoFault::IdTwice(_, _) => 8,
            TopoFault::UnknownEnd(_) => 9,
            TopoFault::LinkTwice(_) => 10,
            TopoFault::SelfLink(_) => 11,
            TopoFault::PeerLink(_) => 12,
            TopoFault::NoMemory => 0,
        }
    }

    fn word(&self) -> &'static [u8] {
        match self {
            TopoFault::NotJson => b"not-json",
            TopoFault::Shape(_) => b"shape",
            TopoFault::TooMany(_, _) => b"too-many",
            TopoFault::BadName(_, _) => b"name",
            TopoFault::Twice(_) => b"twice",
            TopoFault::AsRange(_) => b"as-range",
            TopoFault::AsTwice(_, _) => b"as-twice",
            TopoFault::IdTwice(_, _) => b"id-twice",
            TopoFault::UnknownEnd(_) => b"unknown-end",
            TopoFault::LinkTwice(_) => b"link-twice",
            TopoFault::SelfLink(_) => b"self-link",
            TopoFault::PeerLink(_) => b"peer-link",
            TopoFault::NoMemory => b"no-memory",
        }
    }

    fn push_values(&self, text: &mut Vec<u8>) -> Result<(), NoMemory> {
        match self {
            TopoFault::NotJson | TopoFault::NoMemory => Ok(()),
            TopoFault::Shape(field) => push_word(text, field.word()),
            TopoFault::TooMany(kind, number) => {
                push_word(text, kind.word())?;
                push_bytes(text, b" ")?;
                push_number(text, *number)
            }
            TopoFault::BadName(kind, place) => {
                push_word(text, kind.word())?;
                push_place(text, *place)
            }
            TopoFault::Twice(name) | TopoFault::AsRange(name) => push_word(text, name.as_bytes()),
            TopoFault::AsTwice(first, second) | TopoFault::IdTwice(first, second) => {
                push_word(text, first.as_bytes())?;
                push_word(text, second.as_bytes())
            }
            TopoFault::UnknownEnd(place)
            | TopoFault::LinkTwice(place)
            | TopoFault::SelfLink(place)
            | TopoFault::PeerLink(place) => push_place(text, *place),
        }
    }

    fn is_no_memory(&self) -> bool {
        matches!(self, TopoFault::NoMemory)
    }
}

impl From<AllocError> for TopoFault {
    ghost use Rattle.std.specs.Prelude.{◌≡◌};
    ghost use Rattle.topology.specs.declared.fault.TopoFault.TheVariants.{NoMemory};

    ghost from_gives = { λ _ e. e ≡ NoMemory };

    fn from(_e: AllocError) -> TopoFault {
        TopoFault::NoMemory
    }
}

impl<T: Drop> From<AllocFailed<T>> for TopoFault {
    ghost use Rattle.std.specs.Prelude.{◌≡◌};
    ghost use Rattle.topology.specs.declared.fault.TopoFault.TheVariants.{NoMemory};

    ghost from_gives = { λ _ e. e ≡ NoMemory };

    fn from(_e: AllocFailed<T>) -> TopoFault {
        TopoFault::NoMemory
    }
}
