//! What a line says.
use config_base::{Export, Import, Origination};
use net_base::{List, Name, Pattern};
use std::alloc::{AllocError, AllocFailed};

/// A line of a configuration text, without its line feed, but for the first line of the text.
#[derive(Drop)]
pub enum Line {
    /// `class`: the number of the class, None where it is over 4294967295, and its patterns.
    Class(Option<u32>, List<Pattern>),
    /// `router`: the name of a router, its AS number and its BGP identifier (RFC 4271, 1.1).
    Router(Name, u32, u32),
    /// `originate`: a route of the router's own.
    Origination(Origination),
    /// `session`: the name and the AS number of a router to which the router speaks.
    Session(Name, u32),
    /// `peer`: the name and the AS number of a peer to which the router speaks.
    Peer(Name, u32),
    /// `import` in the block of a router.
    Import(Import),
    /// `import` in the block of a peer. Its own tag is none.
    PeerImport(Import),
    /// `export`.
    Export(Export),
    /// `end`: the end of a router's block.
    End,
}

/// Why bytes are no line.
#[derive(Clone, Copy, Debug, PartialEq, Eq)]
pub enum LineFault {
    /// They have none of the forms.
    Form,
    /// A number has a leading zero or is out of its range.
    Number,
    /// There was not enough memory.
    NoMemory,
}

impl From<AllocError> for LineFault {
    ghost use Rattle.std.specs.Prelude.{◌≡◌};
    ghost use Rattle.config_lines.specs.declared.line.LineFault.TheVariants.{NoMemory};

    ghost from_gives = { λ _ e. e ≡ NoMemory };

    fn from(_e: AllocError) -> LineFault {
        LineFault::NoMemory
    }
}

impl<T: Drop> From<AllocFailed<T>> for LineFault {
    ghost use Rattle.std.specs.Prelude.{◌≡◌};
    ghost use Rattle.config_lines.specs.declared.line.LineFault.TheVariants.{NoMemory};

    ghost from_gives = { λ _ e. e ≡ NoMemory };

    fn from(_e: AllocFailed<T>) -> LineFault {
        LineFault::NoMemory
    }
}
