//! Takes the lines of a configuration text of either edition one after another, and gives the configuration or the first
//! fault of the text.
//!
//! `read_config` reads the second edition, and `read_config_1` the first. `specs/Text` says what is read: the version
//! first, then line by line, and last whether the text is finished. Of a line its form comes before its numbers, these
//! before its order, and that before what stands twice. `texts_are_read` says that a text is read exactly where it is the
//! text of a lawful configuration, and `first_fault_of_a_text` that a fault is the first one, whatever comes behind it.
//!
//! There is one reader for both editions. The ranges of the first lie within those of the second, so what a text of the
//! first edition spells is a lawful configuration, and `migrate` only reads and prints. `read_config` refuses the first
//! edition by its version: one reader that took both would give a configuration two texts.
//!
//! `Reading` is what was read so far. It takes memory for what it keeps alone: the patterns of classes, and the blocks of
//! routers. Names, AS numbers and identifiers of routers, and names of a router's neighbours, are found by hash (`Names`,
//! `Routers`), since a text may have hundreds of thousands of each. What follows what, which lines ascend and what stands
//! twice is asked line by line, by `follow`.
//!
//! `check`, `audit`, `migrate` and `checkmap` alone need it.
//!
//! It knows nothing of policies and evidence.
#![tactic(auto)]

mod block;
mod fault;
pub mod laws;
mod names;
mod order;
mod read;
mod reading;
mod routers;

pub use fault::ConfigFault;
pub use read::{read_config, read_config_1};
pub use reading::{Misplaced, OpenRouter, Reading, after, nothing_read};
pub use routers::Routers;
