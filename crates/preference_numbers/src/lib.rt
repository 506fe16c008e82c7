//! The preference numbers of a graph whose relation is total.
//!
//! A number is 100 and a count: at a router, of the classes of nodes at the same location that stand strictly lower. A class is nodes that
//! stand equally high, and is counted by its first node. So higher nodes have greater numbers, and nodes that stand equally high have equal
//! ones. Counts are of rows of bits: the first nodes of classes at the location that aren't in the node's row.
//!
//! A node away from routers has the number 0, which no rule asks about. Where no two nodes stand at one location every router's node has
//! 100, without a count.
//!
//! `infer` promises that the numbers are these and meet the rules of evidence (`MeetsRules`), for the claimed locations for which the
//! relation was made. Other numbers may meet them too: who judges evidence asks for the rules, and not for these numbers.
//!
//! It knows nothing of policies.
#![tactic(auto)]

mod classes;
mod preferences;

pub use preferences::infer;
