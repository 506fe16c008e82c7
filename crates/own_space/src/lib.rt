//! A network's own space, and where inside it peers are believed: the parts of its originated prefixes in which a policy lets
//! a router take a longer prefix from a peer.
//!
//! Packets follow the longest prefix that holds their address. So whoever is believed in a longer prefix inside an originated one draws its
//! packets away. Peers are the origins of every prefix that no `originate` item names. `open_parts` finds where inside the originated prefixes
//! a policy lets a router take such a prefix from a peer. What it needs of the cases is the number of each in which some router takes what
//! peers announce.
//!
//! A part is one pattern inside one originated prefix. The default route holds no space of the network's own, and has no part. It speaks of the
//! prefixes that the statement of its case governs and that aren't originated. It isn't cut down to these: patterns have a greatest length and
//! no least one, so what a pattern up to 24 leaves of a prefix would be a pattern for each prefix of 25 bits. A part is left out where nothing
//! of it is left.
//!
//! `covered_by_others` tells which statements govern no prefix of peers at all: their external cases have no prefix.
//!
//! `promises` alone needs it.
//!
//! It knows nothing of graphs, or of how cases are found.
#![tactic(auto)]

mod covers;
mod laws;
mod open_case;
mod open_part;
mod parts;
mod spaces;

pub use covers::covered_by_others;
pub use laws::{covered_governs_nothing, parts_are_what_is_open, parts_tell_something};
pub use open_case::OpenCase;
pub use open_part::OpenPart;
pub use parts::open_parts;
