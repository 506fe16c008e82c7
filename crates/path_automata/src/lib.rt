//! States of ranked expressions, one location at a time from the origin end: what is left of each alternative after a list of locations.
//!
//! `Automata` begins with the normal form of each reversed expression. `step` leads from a state over a location to the next one, the
//! derivative of each alternative. `rank` is the first alternative that what was read meets, and `is_dead` says that no list can follow any
//! more. A state is a list of terms by their numbers (`path_terms`). States that were found keep their numbers, equal ones have one number,
//! and what is asked of a state is found once and kept at its number.
//!
//! A policy's sets are few, so most locations are alike. Those that are in the same sets of the first state's expressions are of one class:
//! they have the same derivatives, which have no other sets. So next states are kept in a table with a row for each state and a place for
//! each class, and one derivative serves a whole class. Derivatives of terms are kept too, by term and class, for alternations,
//! intersections and complements; those of others cost no more than a look-up. The table gets its row before a state is added, so where
//! memory is refused the states are as before.
//!
//! An automaton depends on a statement and a network alone, so it may be lent to one graph after another, and whoever has it next looks up
//! what was found before. Expressions that several alternatives share are reversed once.
//!
//! It knows nothing of the links of networks.
#![tactic(auto)]

mod classes;
mod derive;
mod derived;
mod facts;
mod memo;
mod reversal;
mod shortcuts;
mod starts;
mod states;

pub use states::{Automata, State};
