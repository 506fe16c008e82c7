//! What is wrong with a tables text.
use input_output::NoMemory;
use std::alloc::{AllocError, AllocFailed};
use text_parts::{TextFault, push_bytes, push_number};

/// The rule that a tables text breaks: of several the one that stands first here. Entries are counted from 1.
#[derive(Clone, Copy, Drop, PartialEq, Eq)]
pub enum TablesFault {
    /// The text is no JSON, or opens more than 127 arrays and objects at once.
    NotJson,
    /// The value hasn't the shape of tables: this is the first entry that differs, or 0 for what is around them.
    Shape(u64),
    /// There are so many entries, and another number of routers.
    Count(u64),
    /// The path of this entry has a name that isn't one of a location of the network.
    Unknown(u64),
    /// The path of this entry doesn't begin with its router.
    Holder(u64),
    /// There was not enough memory.
    NoMemory,
}

impl TextFault for TablesFault {
    ghost use Rattle.table_reader.specs.Faults.{told};

    ghost telling = { told };

    fn number(&self) -> u8 {
        match self {
            TablesFault::NotJson => 1,
            TablesFault::Shape(_) => 2,
            TablesFault::Count(_) => 3,
            TablesFault::Unknown(_) => 4,
            TablesFault::Holder(_) => 5,
            TablesFault::NoMemory => 0,
        }
    }

    fn word(&self) -> &'static [u8] {
        match self {
            TablesFault::NotJson => b"not-json",
            TablesFault::Shape(_) => b"shape",
            TablesFault::Count(_) => b"count",
            TablesFault::Unknown(_) => b"unknown",
            TablesFault::Holder(_) => b"holder",
            TablesFault::NoMemory => b"no-memory",
        }
    }

    fn push_values(&self, text: &mut Vec<u8>) -> Result<(), NoMemory> {
        match self {
            TablesFault::NotJson | TablesFault::NoMemory => Ok(()),
            TablesFault::Count(count) => {
                push_bytes(text, b" ")?;
                push_number(text, *count)
            }
            TablesFault::Shape(place) | TablesFault::Unknown(place) | TablesFault::Holder(place) =>
                {
                    push_bytes(text, b" place ")?;
                    push_number(text, *place)
                }
        }
    }

    fn is_no_memory(&self) -> bool {
        matches!(self, TablesFault::NoMemory)
    }
}

impl From<AllocError> for TablesFault {
    ghost use Rattle.std.specs.Prelude.{◌≡◌};
    ghost use Rattle.table_reader.specs.declared.fault.TablesFault.TheVariants.{NoMemory};

    ghost from_gives = { λ _ e. e ≡ NoMemory };

    fn from(_e: AllocError) -> TablesFault {
        TablesFault::NoMemory
    }
}

impl<T: Drop> From<AllocFailed<T>> for TablesFault {
    ghost use Rattle.std.specs.Prelude.{◌≡◌};
    ghost use Rattle.table_reader.specs.declared.fault.TablesFault.TheVariants.{NoMemory};

    ghost from_gives = { λ _ e. e ≡ NoMemory };

    fn from(_e: AllocFailed<T>) -> TablesFault {
        TablesFault::NoMemory
    }
}
