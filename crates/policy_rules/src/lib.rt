//! The rules of a policy by themselves: names and groups, prefixes, where ranks may be, origins, limits.
//!
//! Each rule has a definition of what it says of lexemes or of items, and a function that judges one part. A function gives
//! the value of the part or the fault at its place, and the reader of policies decides which fault is told.
//!
//! `Known` has the names that stand for locations: those of the network, and the groups so far, each with its set. A name
//! is known only below its definition. If there are more than 1,024 names, the later groups keep only whether their sets
//! have a peer. Nothing else is asked of them any more, since too many groups are a fault, and a hostile text would make
//! each of them cost a set.
//!
//! `Mark` says where the first `>>` of an expression stands, and the first one under an `or` or a `not`. The `mark_`
//! functions keep a stack of them while an expression is read in postfix order, so no tree is needed to judge where ranks
//! may stand.
//!
//! Calls are counted by their words, so `exit(A >> B)` is one. `true` counts as one pattern. A pair of a prefix and an
//! origin is counted once. A count stays at the greatest number of 64 bits.
//!
//! It knows nothing of what else is in a text, and of cases.
#![tactic(auto)]

mod checks;
mod counts;
mod figures;
mod known;
mod origins;
mod ranks;

pub use checks::set_at;
pub use counts::within;
pub use figures::{all_prefixes, inside_at, only_at, prefix_at};
pub use known::Known;
pub use origins::has_peer;
pub use ranks::{Mark, mark_above, mark_and, mark_call, mark_not, mark_or, ranks_fine};
