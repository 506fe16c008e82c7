//! What is wrong with an evidence text.
use crate::parts::Field;
use input_output::NoMemory;
use std::alloc::{AllocError, AllocFailed};
use text_parts::{TextFault, push_word};

/// The rule that an evidence text breaks: of several the one that stands first here.
#[derive(Clone, Copy, Debug, Drop, PartialEq, Eq)]
pub enum EvidenceFault {
    /// The text is no JSON, or opens more than 127 arrays and objects at once.
    NotJson,
    /// The value hasn't the shape of evidence; this is the first part that differs.
    Shape(Field),
    /// A number is not whole or out of its range; this is the first part that holds one.
    Number(Field),
    /// A start or a step names a node that isn't in the list of its case.
    Place,
    /// The version isn't 1.
    Version,
    /// There was not enough memory.
    NoMemory,
}

impl TextFault for EvidenceFault {
    ghost use Rattle.evidence_text.specs.Faults.{told};

    ghost telling = { told };

    fn number(&self) -> u8 {
        match self {
            EvidenceFault::NotJson => 1,
            EvidenceFault::Shape(_) => 2,
            EvidenceFault::Number(_) => 3,
            EvidenceFault::Place => 4,
            EvidenceFault::Version => 5,
            EvidenceFault::NoMemory => 0,
        }
    }

    fn word(&self) -> &'static [u8] {
        match self {
            EvidenceFault::NotJson => b"not-json",
            EvidenceFault::Shape(_) => b"shape",
            EvidenceFault::Number(_) => b"number",
            EvidenceFault::Place => b"place",
            EvidenceFault::Version => b"version",
            EvidenceFault::NoMemory => b"no-memory",
        }
    }

    fn push_values(&self, text: &mut Vec<u8>) -> Result<(), NoMemory> {
        match self {
            EvidenceFault::Shape(field) | EvidenceFault::Number(field) => {
                push_word(text, field.word())
            }
            EvidenceFault::NotJson
            | EvidenceFault::Place
            | EvidenceFault::Version
            | EvidenceFault::NoMemory => Ok(()),
        }
    }

    fn is_no_memory(&self) -> bool {
        matches!(self, EvidenceFault::NoMemory)
    }
}

impl From<AllocError> for EvidenceFault {
    ghost use Rattle.std.specs.Prelude.{◌≡◌};
    ghost use Rattle.evidence_text.specs.declared.fault.EvidenceFault.TheVariants.{NoMemory};

    ghost from_gives = { λ _ e. e ≡ NoMemory };

    fn from(_e: AllocError) -> EvidenceFault {
        EvidenceFault::NoMemory
    }
}

impl<T: Drop> From<AllocFailed<T>> for EvidenceFault {
    ghost use Rattle.std.specs.Prelude.{◌≡◌};
    ghost use Rattle.evidence_text.specs.declared.fault.EvidenceFault.TheVariants.{NoMemory};

    ghost from_gives = { λ _ e. e ≡ NoMemory };

    fn from(_e: AllocFailed<T>) -> EvidenceFault {
        EvidenceFault::NoMemory
    }
}
