//! Events, and why one is refused.
ghost use Rattle.std.specs.Prelude.{◌≡◌};
ghost use Rattle.event_base.specs.declared.event.EventFault.TheVariants.{NoMemory as no_memory};

use net_base::Loc;
use std::alloc::AllocError;
use std::fmt;
use thiserror::Error;

/// What happens next on a network.
#[derive(Clone, Copy, Debug, PartialEq, Eq)]
pub enum Event {
    /// The first message from one end of a session to the other is delivered.
    Deliver(Loc, Loc),
    /// The link of two locations goes down, either end first.
    LinkDown(Loc, Loc),
    /// The link of two locations comes up, either end first.
    LinkUp(Loc, Loc),
    /// A router goes down.
    RouterDown(Loc),
    /// A router comes up.
    RouterUp(Loc),
    /// A peer announces again to a router, which stands first.
    PeerSpeak(Loc, Loc),
    /// A peer announces nothing any more to a router, which stands first.
    PeerSilent(Loc, Loc),
}

/// Why an event is refused.
#[derive(Clone, Copy, Debug, PartialEq, Eq, Error)]
pub enum EventFault {
    /// No message waits on the session.
    #[error("no message waits")]
    NothingWaits,
    /// What is to go down or silent is so already.
    #[error("not up")]
    NotUp,
    /// What is to come up or to speak does so already.
    #[error("not down")]
    NotDown,
    /// The locations aren't linked, the one location is no router, or the two aren't a router and a peer in this order.
    #[error("no such link")]
    NoLink,
    /// Memory was refused.
    #[error("out of memory")]
    NoMemory,
}

impl EventFault {
    ghost use Rattle.event_base.specs.Words.{word_of};

    /// The word of the fault.
    pub fn word(self) -> &'static [u8]
        ensures { result.now ≡ word_of self }
    {
        match self {
            EventFault::NothingWaits => b"nothing-waits",
            EventFault::NotUp => b"not-up",
            EventFault::NotDown => b"not-down",
            EventFault::NoLink => b"no-link",
            EventFault::NoMemory => b"no-memory",
        }
    }
}

impl From<AllocError> for EventFault {
    ghost from_gives = { λ _ e. e ≡ no_memory };

    fn from(_error: AllocError) -> EventFault {
        EventFault::NoMemory
    }
}
