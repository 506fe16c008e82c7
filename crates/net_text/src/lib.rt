//! The text of a network. It is read again as the same network.
//!
//! `print_net` writes one JSON object without spaces, its keys in the order of their bytes, and a line feed. Routers, peers
//! and links stand in their order. `specs/NetText` says the bytes.
//!
//! `printed_networks_are_read` says that the text spells the network that was printed. It asks that names keep the rule of
//! names, as those of every network do that was read or made of names.
//!
//! Compiling doesn't need it.
//!
//! It knows nothing of policies.
#![tactic(auto)]

mod law;
mod print;

pub use law::printed_networks_are_read;
pub use print::print_net;
