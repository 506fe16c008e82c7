//! The texts of inputs, of all eight kinds: what a text spells, or the line that tells its fault.
//!
//! There is a function for each kind: `net_of`, `policy_for`, `config_for` (and `config_1_for` for the first edition),
//! `evidence_for`, `scenario_for`, `events_for`, `tables_for` and `maps_for`. Those of which names are looked up take the
//! network. Each calls the reader of the kind, and then one function turns what the reader gives into what a run does. It is
//! proved once for every fault: the trait `TextFault` names how a kind of fault is told, by its number, word and values, and
//! which one is want of memory.
//!
//! The kind of text is no part of the fault: it is the word that stands in front of it (`policy 4 syntax at 1:1`). A text of
//! maps has the faults of a configuration, and which of two texts of one kind is meant is known only here or by the caller
//! (`policy_named`). What a text
//! spells, or its fault, is said once for all kinds, too (`IsReadOr`, `OfRead` of `specs/Texts`). What the inputs of a
//! command come to together stands in `specs/Asked` (`SpellFor`, `SpellAlso`).
//!
//! Want of memory has no line: it ends a run with a status of its own.
//!
//! It knows nothing of what is done with the texts.
#![tactic(auto)]

mod fault_lines;
mod texts;

pub use fault_lines::or_told;
pub use texts::{
    config_1_for, config_for, events_for, evidence_for, maps_for, net_of, policy_for, policy_named,
    scenario_for, tables_for,
};
