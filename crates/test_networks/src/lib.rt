//! Small networks, and policies and configurations for them, as texts, for the tests of other crates: two routers, a
//! triangle, rings, chains, two spines, and how they are read.
//!
//! `Network` names them, `read` gives the network and a policy of a text, `config_of` a configuration. `path` and `tag` make
//! the values of rows. The texts are read by the program's own readers, so a row can be compared by eye with what a user
//! would write.
//!
//! They are a crate of their own since a function costs a test crate two to four times what it costs a library, and since
//! three crates of rows share them.
//!
//! It knows nothing of what is tested.
#![tactic(auto)]

mod configs;
mod networks;
mod reading;
mod values;

pub use configs::{
    ENTERED_CONFIG, LINE_CONFIG, RING_CONFIG, TRIANGLE_CONFIG, TWO_EXITS_CONFIG,
    TWO_ROUTERS_CONFIG, TWO_ROUTERS_CONFIG_1, TWO_ROUTERS_EVIDENCE, TWO_SPINES_CONFIG,
    TWO_WAYS_CONFIG,
};
pub use networks::Network;
pub use reading::{config_of, read};
pub use values::{path, tag};
