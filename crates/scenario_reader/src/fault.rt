//! What is wrong with a scenario text.
use crate::parts::Field;
use input_output::NoMemory;
use std::alloc::{AllocError, AllocFailed};
use text_parts::{TextFault, push_bytes, push_number, push_word};

/// The rule that a scenario text breaks: of several the one that stands first here. Places count from 1 in their array.
#[derive(Clone, Copy, Drop, PartialEq, Eq)]
pub enum ScenarioFault {
    /// The text is no JSON, or opens more than 127 arrays and objects at once.
    NotJson,
    /// The value hasn't the shape of a scenario; this is the first part that differs.
    Shape(Field),
    /// A name in this field isn't one of a location of the network.
    Unknown(Field),
    /// The pair at this place of `dead_links` is no link of the network.
    NoLink(u64),
    /// The pair at this place of `silent` is no link of a router and a peer.
    NotPeerLink(u64),
    /// `prefix` is no prefix.
    BadPrefix,
    /// There was not enough memory.
    NoMemory,
}

impl TextFault for ScenarioFault {
    ghost use Rattle.scenario_reader.specs.Faults.{told};

    ghost telling = { told };

    fn number(&self) -> u8 {
        match self {
            ScenarioFault::NotJson => 1,
            ScenarioFault::Shape(_) => 2,
            ScenarioFault::Unknown(_) => 3,
            ScenarioFault::NoLink(_) => 4,
            ScenarioFault::NotPeerLink(_) => 5,
            ScenarioFault::BadPrefix => 6,
            ScenarioFault::NoMemory => 0,
        }
    }

    fn word(&self) -> &'static [u8] {
        match self {
            ScenarioFault::NotJson => b"not-json",
            ScenarioFault::Shape(_) => b"shape",
            ScenarioFault::Unknown(_) => b"unknown",
            ScenarioFault::NoLink(_) => b"no-link",
            ScenarioFault::NotPeerLink(_) => b"not-peer-link",
            ScenarioFault::BadPrefix => b"bad-prefix",
            ScenarioFault::NoMemory => b"no-memory",
        }
    }

    fn push_values(&self, text: &mut Vec<u8>) -> Result<(), NoMemory> {
        match self {
            ScenarioFault::NotJson | ScenarioFault::BadPrefix | ScenarioFault::NoMemory => Ok(()),
            ScenarioFault::Shape(field) | ScenarioFault::Unknown(field) => {
                push_word(text, field.word())
            }
            ScenarioFault::NoLink(place) | ScenarioFault::NotPeerLink(place) => {
                push_bytes(text, b" place ")?;
                push_number(text, *place)
            }
        }
    }

    fn is_no_memory(&self) -> bool {
        matches!(self, ScenarioFault::NoMemory)
    }
}

impl From<AllocError> for ScenarioFault {
    ghost use Rattle.std.specs.Prelude.{◌≡◌};
    ghost use Rattle.scenario_reader.specs.declared.fault.ScenarioFault.TheVariants.{NoMemory};

    ghost from_gives = { λ _ e. e ≡ NoMemory };

    fn from(_e: AllocError) -> ScenarioFault {
        ScenarioFault::NoMemory
    }
}

impl<T: Drop> From<AllocFailed<T>> for ScenarioFault {
    ghost use Rattle.std.specs.Prelude.{◌≡◌};
    ghost use Rattle.scenario_reader.specs.declared.fault.ScenarioFault.TheVariants.{NoMemory};

    ghost from_gives = { λ _ e. e ≡ NoMemory };

    fn from(_e: AllocFailed<T>) -> ScenarioFault {
        ScenarioFault::NoMemory
    }
}
