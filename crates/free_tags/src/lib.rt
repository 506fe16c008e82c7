//! Which tags and preferences stand in a configuration, the k-th value that a router's tags leave free there, and the greatest preference.
//!
//! A new configuration may run beside an old one where no tag stands in both. So its nodes are given tags again: at a router the
//! k-th of them gets the k-th value, from 1, that stands in no tag of the old configuration with that router's AS number
//! (`specs/Free`). Values are found in passing: for each AS number it is kept how far its values have been counted, so that a value
//! is looked at once where numbers are asked in order, and any order gives the same (`FreeTags`).
//!
//! Where so many tags are taken that a router has too few values left, want of memory is answered: those tags alone would fill
//! 32 GB.
//!
//! `renew` and `renewal` alone need it.
//!
//! It knows nothing of networks, policies, graphs and texts.
#![tactic(auto)]

mod free;
mod taken;

pub use free::FreeTags;
pub use taken::{greatest_pref, tags_of_config};
