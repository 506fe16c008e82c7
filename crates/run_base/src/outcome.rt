//! What a run comes to.
use input_output::NoMemory;
use std::alloc::AllocError;

/// How a run ended. The program ends with its number.
#[derive(Clone, Copy, Debug, PartialEq, Eq)]
pub enum Status {
    /// 0: the command's text was written whole.
    Done,
    /// 1: the compiler refused.
    Refused,
    /// 2: the words are no command.
    Usage,
    /// 3: a named input is too long, or not a text of its kind.
    BadInput,
    /// 4: a named input couldn't be read.
    ReadFault,
    /// 5: what was to be written couldn't be written whole.
    WriteFault,
    /// 6: memory was refused.
    NoMemory,
    /// 7: the check of evidence fails.
    CheckFails,
}

impl Status {
    ghost use Rattle.std.specs.Prelude.{◌≡◌};
    ghost use Rattle.run_base.specs.Statuses.{number_of};

    /// The number with which the program ends.
    pub fn number(self) -> u8
        ensures { result ≡ number_of self }
    {
        match self {
            Status::Done => 0,
            Status::Refused => 1,
            Status::Usage => 2,
            Status::BadInput => 3,
            Status::ReadFault => 4,
            Status::WriteFault => 5,
            Status::NoMemory => 6,
            Status::CheckFails => 7,
        }
    }
}

/// Why a command gives no text.
#[derive(Drop)]
pub enum Stop {
    /// A line for standard error, and the status that goes with it.
    Line(Status, Vec<u8>),
    /// The check of evidence fails: a line for the output.
    Failing(Vec<u8>),
    /// Memory was refused.
    NoMemory,
}

impl From<NoMemory> for Stop {
    ghost use Rattle.std.specs.Prelude.{◌≡◌};
    ghost use Rattle.run_base.specs.declared.outcome.Stop.TheVariants as stop;

    ghost from_gives = { λ _ e. e ≡ stop.NoMemory };

    fn from(_: NoMemory) -> Stop {
        Stop::NoMemory
    }
}

impl From<AllocError> for Stop {
    ghost use Rattle.std.specs.Prelude.{◌≡◌};
    ghost use Rattle.run_base.specs.declared.outcome.Stop.TheVariants as stop;

    ghost from_gives = { λ _ e. e ≡ stop.NoMemory };

    fn from(_: AllocError) -> Stop {
        Stop::NoMemory
    }
}
