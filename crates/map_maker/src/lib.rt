//! The maps of a configuration, or that their text would have too many lines; an order of the patterns shows which of them
//! overlap.
//!
//! `maps_of` gives one list a class, and copies the routers as they stand. It promises that the maps mean what the
//! configuration's lines mean (`means`).
//!
//! The list of a class denies the patterns of earlier classes that overlap its own. To compare each pattern with each would
//! take the square of their number. So patterns have a key (`key`): their length, the bits in front, and the greatest
//! length that they contain. The patterns of one length that overlap a given one lie between two keys (`Span`), and there
//! are at most 33 lengths. Earlier patterns are in sorted blocks whose sizes double (`with_entries`), so one more class
//! costs little. That takes some 70 searches for each pattern and length.
//!
//! Lines are counted before any list is made. A configuration whose text would have more than 1,000,000 lines (`MAX_LINES`)
//! is refused in the time of a sort, with how many there would be (`TooManyLines`).
//!
//! `routemap`, `checkmap` and `maps` alone need it.
//!
//! It knows nothing of texts and policies.
#![tactic(auto)]

mod copies;
mod counts;
mod earlier;
mod lists;
mod made;
mod places;
mod refusal;
mod spans;

pub use made::maps_of;
pub use refusal::MapsRefusal;
