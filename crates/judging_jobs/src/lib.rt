//! The jobs that judge what is given, or write it anew: evidence (`check`), recorded tables (`audit`), a policy's parts
//! (`lint`), a configuration of the first edition (`migrate`), route maps (`routemap`, `maps`, `checkmap`); and the lines of
//! their verdicts.
//!
//! | Command | Judges | By |
//! |---|---|---|
//! | `check` | evidence for a configuration | `evidence_check`; the configuration's text is read only where it isn't the one that is made of the evidence |
//! | `audit` | routes that were recorded | `check` first, then `table_audit` |
//! | `lint` | parts of a policy that can never matter | `policy_lint` |
//! | `migrate` | nothing: a configuration of the first edition, written in the second | `config_reader`, `config_text` |
//! | `routemap`, `maps`, `checkmap` | whether maps are those of a configuration, and those maps | `map_maker`, `route_map_text`, `map_reader` |
//!
//! The lines of verdicts stand here, since no other crate writes them. Bytes go in, and a verdict or a text comes out; of all these commands
//! only `routemap` needs the compiler.
//!
//! A verdict goes to the output whether it holds or fails: it is what was asked for, and no error of the run. Which line a
//! rule that fails gives is said by the verdict itself, with its place, so a run has only to say the status.
//!
//! Mostly a configuration is the one that is made of its evidence. So `check` judges the evidence first, and compares texts.
//! It reads the configuration only where these differ, or where the evidence fails. All the same, a fault of its text is told
//! before a rule that fails, since all texts are judged before what they say.
//!
//! It knows nothing of words, names or sinks.
#![tactic(auto)]

mod audit;
mod audit_lines;
mod check;
mod check_map;
mod config_maps;
pub mod laws;
mod lines;
mod lint;
mod map_said;
mod maps;
mod migrate;
mod route_map;
mod verdict_lines;

pub use audit::audit_texts;
pub use audit_lines::{stable_line, unstable_line};
pub use check::check_texts;
pub use check_map::check_map_texts;
pub use config_maps::config_maps_text;
pub use lines::lint_text;
pub use lint::lint_texts;
pub use map_said::{differs_line, same_line, too_many_lines_line};
pub use migrate::migrate_text;
pub use route_map::route_map_texts;
pub use verdict_lines::{fails_line, holds_line};
