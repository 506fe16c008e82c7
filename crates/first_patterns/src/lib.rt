//! The first pattern of a policy that contains a prefix, with the number of its statement.
//!
//! The first pattern in order of the text stands in the statement that governs the prefix, so it tells more than the
//! statement: the prefixes of which it is the first are those that it contains and no pattern before it (`specs/Firsts`).
//!
//! Each pattern is put into one table under its base, once for each length that it contains (`table`). So the first one that
//! contains a prefix is the least of those that stand under the prefix's own first bits, of which there are at most 33, and only as many
//! as there are lengths of bases: a look-up takes as long for sixteen thousand patterns as for one. A policy takes 33 entries for each
//! pattern at most. To scan the patterns would take no memory, but two policies are compared by more look-ups than there are patterns in
//! both, so the time would grow as the square.
//!
//! `FirstPatterns` is made of a policy once, and then asked.
//!
//! Compiling doesn't need it.
//!
//! It knows nothing of networks or texts.
#![tactic(auto)]

mod firsts;
mod table;

pub use firsts::{FirstPatterns, Stated};
