//! The words of a network: locations and sets of them, names, prefixes, patterns, tags, networks, and the limits of
//! networks; and how an address and a prefix are read.
//!
//! A location is a number: the routers count from 0, and the peers follow. A network (`Net`) has its routers, its peers and
//! its links. Each router is an AS of its own with a private number (RFC 6996). Names, AS numbers and BGP identifiers
//! differ over routers and peers together, and links ascend with the lesser end first. `specs/Network` has these rules
//! (`IsNet`), `specs/NameRule` what a name is.
//!
//! Types that keep rules (`Net`, `Prefix`, `Pattern`, `Name`) have private fields, and one function that makes a value: it
//! requires the rule or checks it. Contracts see such a value as a plain record (`PlainNet`, `PlainPrefix`,
//! `PlainPattern`). So definitions range over plain records and take the rule as a premise where they need it, and a
//! contract can name a value without a proof inside it. `known_net` and `known_prefix` give a proof what each value keeps.
//! `List<T>` is a vector that contracts see as its items, so that public structs read in clauses as plain records.
//!
//! A set of locations (`LocSet`) is twelve words, a bit for each of the 768 locations that a network can have. It is copied
//! and takes no memory. Its operations are said by membership, `holds`. Where a contract needs the set itself, the
//! definition word by word is in `specs/SetOperations`, and `sets_of_the_same_locations_are_one` says that two sets of the
//! same locations are one value.
//!
//! A tag (`Tag`) is a large community (RFC 8092) whose middle part is always 0 and therefore isn't kept. Prefixes are those
//! of IPv4 alone. `read_prefix` takes no memory, and gives the first rule that the bytes break.
//!
//! A function that reads a text gives what the text spells, unless memory ran out. That is said once, for any fault type:
//! `GivesUnless` of `specs/Gives`.
//!
//! It knows nothing of policies, and of texts other than those of addresses and prefixes.
#![tactic(auto)]

mod known;
pub mod laws;
pub mod limits;
mod list;
mod loc;
mod name;
mod net;
mod numbers;
mod place;
mod prefix;
mod prefix_text;
mod words;

pub use known::{known_net, known_prefix};
pub use list::List;
pub use loc::{Loc, LocSet};
pub use name::Name;
pub use net::{Net, Site};
pub use numbers::{Tag, peer_as, router_as, tag_fits};
pub use place::Place;
pub use prefix::{Pattern, Prefix};
pub use prefix_text::{PrefixFault, read_address, read_length, read_prefix};
