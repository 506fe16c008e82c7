//! What is wrong with an event text.
use input_output::NoMemory;
use std::alloc::{AllocError, AllocFailed};
use text_parts::{TextFault, push_bytes, push_number};

/// The rule that an event text breaks: of several the one that stands first here. Events count from 1.
#[derive(Clone, Copy, Drop, PartialEq, Eq)]
pub enum EventsFault {
    /// The text is no JSON, or opens more than 127 arrays and objects at once.
    NotJson,
    /// The event at this place hasn't the shape of one. Place 0 is all that stands around the events: the object, its keys, a `prefix`
    /// that is no text, `events` that is no array.
    Shape(u64),
    /// There are so many events, more than 65,536.
    TooMany(u64),
    /// A name in the event at this place isn't one of a location of the network.
    Unknown(u64),
    /// `prefix` is no prefix.
    BadPrefix,
    /// There was not enough memory.
    NoMemory,
}

impl TextFault for EventsFault {
    ghost use Rattle.event_reader.specs.Faults.{told};

    ghost telling = { told };

    fn number(&self) -> u8 {
        match self {
            EventsFault::NotJson => 1,
            EventsFault::Shape(_) => 2,
            EventsFault::TooMany(_) => 3,
            EventsFault::Unknown(_) => 4,
            EventsFault::BadPrefix => 5,
            EventsFault::NoMemory => 0,
        }
    }

    fn word(&self) -> &'static [u8] {
        match self {
            EventsFault::NotJson => b"not-json",
            EventsFault::Shape(_) => b"shape",
            EventsFault::TooMany(_) => b"too-many",
            EventsFault::Unknown(_) => b"unknown",
            EventsFault::BadPrefix => b"bad-prefix",
            EventsFault::NoMemory => b"no-memory",
        }
    }

    fn push_values(&self, text: &mut Vec<u8>) -> Result<(), NoMemory> {
        match self {
            EventsFault::NotJson | EventsFault::BadPrefix | EventsFault::NoMemory => Ok(()),
            EventsFault::Shape(place) | EventsFault::Unknown(place) => {
                push_bytes(text, b" place ")?;
                push_number(text, *place)
            }
            EventsFault::TooMany(number) => {
                push_bytes(text, b" ")?;
                push_number(text, *number)
            }
        }
    }

    fn is_no_memory(&self) -> bool {
        matches!(self, EventsFault::NoMemory)
    }
}

impl From<AllocError> for EventsFault {
    ghost use Rattle.std.specs.Prelude.{◌≡◌};
    ghost use Rattle.event_reader.specs.declared.fault.EventsFault.TheVariants.{NoMemory};

    ghost from_gives = { λ _ e. e ≡ NoMemory };

    fn from(_e: AllocError) -> EventsFault {
        EventsFault::NoMemory
    }
}

impl<T: Drop> From<AllocFailed<T>> for EventsFault {
    ghost use Rattle.std.specs.Prelude.{◌≡◌};
    ghost use Rattle.event_reader.specs.declared.fault.EventsFault.TheVariants.{NoMemory};

    ghost from_gives = { λ _ e. e ≡ NoMemory };

    fn from(_e: AllocFailed<T>) -> EventsFault {
        EventsFault::NoMemory
    }
}
