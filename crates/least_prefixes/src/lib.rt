//! The least prefix of each pair of first patterns that two policies have for some prefix, found at the addresses at which
//! these can change.
//!
//! Two policies divide the prefixes into classes: those with the same first pattern in the old policy and the same in the new one, which
//! neither originates (`specs/Classes`). Of each class that has a prefix at all the least one is found, by address and then by length.
//! Which patterns there are pairs of can't be read off the text: a pattern of one policy can be covered by earlier ones wherever one of the
//! other contains it.
//!
//! At a fixed length the patterns that contain a prefix change at few addresses: where a base or an originated prefix begins, and behind it
//! (`bounds`). So the least prefix of a class begins at such an address, and only prefixes there are asked (`asked`): 33 at most for each of
//! twice as many addresses as there are patterns and originated prefixes. The addresses are taken in order, so the first prefix of a class
//! that is met is the least (`search`).
//!
//! Compiling doesn't need it.
//!
//! It knows nothing of networks, or of what statements say of paths.
#![tactic(auto)]

mod asked;
mod bounds;
mod search;

pub use search::least_prefixes;
