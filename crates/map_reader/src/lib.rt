//! Takes the lines of a maps text one after another, over the reader of configurations, and gives the maps or the first
//! fault.
//!
//! Maps are read as a configuration is. `MapsReading` keeps a configuration that is being read, with one class for each
//! list, which has the pattern of the list's first line. So lists come in the order of classes, entries name them as they
//! name classes, and what may follow what, which entries ascend and what stands twice is said and proved once. To that it
//! adds what is new in maps: a list goes on or the next one begins, and entries are numbered in order.
//!
//! The faults are those of configuration texts, in the same order and with the same numbers and words. So `MapsFault` is
//! another name of `ConfigFault`.
//!
//! `read_maps` goes from line to line, and takes memory for what was read alone. `texts_are_read` says that maps have one
//! text, and `first_fault_of_a_text` that a fault is the first one.
//!
//! `checkmap` alone needs it.
//!
//! It knows nothing of policies, and of how maps are made.
#![tactic(auto)]

pub mod laws;
mod read;
mod reading;

/// Why a text spells no maps: the faults of configuration texts, judged in the same order. The text begins with the line
/// `propane-maps 1`; a line breaks the order where its list is neither that of the line before nor the next, too, or where
/// its number isn't the next.
pub use config_reader::ConfigFault as MapsFault;
pub use read::read_maps;
