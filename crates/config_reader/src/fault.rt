//! What is wrong with a configuration text.
ghost use Rattle.std.specs.Prelude.{◌≡◌, ◌++◌, OnOk};
ghost use Rattle.config_reader.specs.Faults.{line_number_text};

use input_output::NoMemory;
use std::alloc::{AllocError, AllocFailed};
use text_parts::{TextFault, push_bytes, push_number};

/// Why a text is no configuration. Version is judged first, then each line from the second on, and last whether
/// the text is finished; of a line Line comes before Number, Number before Order, and Order before Twice. Lines
/// are numbered from 1.
#[derive(Clone, Copy, Debug, PartialEq, Eq)]
pub enum ConfigFault {
    /// The text doesn't begin with the first line of its edition, `propane-config 2` or `propane-config 1`.
    Version,
    /// The line has none of the forms.
    Line(u32),
    /// The line may not stand there, its class number isn't the next, or an entry doesn't ascend.
    Order(u32),
    /// A router's name, AS number or identifier stood in an earlier router's line, or a neighbour's name in the
    /// line of an earlier neighbour of the router.
    Twice(u32),
    /// A number of the line has a leading zero or is out of its range.
    Number(u32),
    /// Bytes follow the last line feed, or the block of a router is open.
    Unfinished,
    /// There was not enough memory.
    NoMemory,
}

// Adds the number of a line.
fn push_line(text: &mut Vec<u8>, line: u32) -> Result<(), NoMemory>
    ensures { OnOk result (text.new.items ≡ text.old.items ++ line_number_text line) }
{
    push_bytes(text, b" line ")?;
    push_number(text, u64::from(line))
}

impl TextFault for ConfigFault {
    ghost use Rattle.config_reader.specs.Faults.{told};

    ghost telling = { told };

    fn number(&self) -> u8 {
        match self {
            ConfigFault::Version => 1,
            ConfigFault::Line(_) => 2,
            ConfigFault::Order(_) => 3,
            ConfigFault::Twice(_) => 4,
            ConfigFault::Number(_) => 5,
            ConfigFault::Unfinished => 6,
            ConfigFault::NoMemory => 0,
        }
    }

    fn word(&self) -> &'static [u8] {
        match self {
            ConfigFault::Version => b"version",
            ConfigFault::Line(_) => b"line",
            ConfigFault::Order(_) => b"order",
            ConfigFault::Twice(_) => b"twice",
            ConfigFault::Number(_) => b"number",
            ConfigFault::Unfinished => b"unfinished",
            ConfigFault::NoMemory => b"no-memory",
        }
    }

    fn push_values(&self, text: &mut Vec<u8>) -> Result<(), NoMemory> {
        match self {
            ConfigFault::Version | ConfigFault::Unfinished | ConfigFault::NoMemory => Ok(()),
            ConfigFault::Line(line)
            | ConfigFault::Order(line)
            | ConfigFault::Twice(line)
            | ConfigFault::Number(line) => push_line(text, *line),
        }
    }

    fn is_no_memory(&self) -> bool {
        matches!(self, ConfigFault::NoMemory)
    }
}

impl From<AllocError> for ConfigFault {
    ghost use Rattle.std.specs.Prelude.{◌≡◌};
    ghost use Rattle.config_reader.specs.declared.fault.ConfigFault.TheVariants.{NoMemory};

    ghost from_gives = { λ _ e. e ≡ NoMemory };

    fn from(_e: AllocError) -> ConfigFault {
        ConfigFault::NoMemory
    }
}

impl<T: Drop> From<AllocFailed<T>> for ConfigFault {
    ghost use Rattle.std.specs.Prelude.{◌≡◌};
    ghost use Rattle.config_reader.specs.declared.fault.ConfigFault.TheVariants.{NoMemory};

    ghost from_gives = { λ _ e. e ≡ NoMemory };

    fn from(_e: AllocFailed<T>) -> ConfigFault {
        ConfigFault::NoMemory
    }
}
