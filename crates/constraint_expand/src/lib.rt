//! The alternatives of a ranked expression as expressions over the locations of a network, the best one first, which share their parts.
//!
//! `expand` goes down the ranked expression. A call becomes an expression. `>>` puts the alternatives of its second side behind those of
//! its first. `and` makes of each alternative of the one side and each of the other one that asks for both, in order of the first and then
//! of the second. `or` and `not` make one alternative. All are put into one list of shared parts (`Parts` of `path_exprs`), where a part
//! names earlier ones by their numbers. So nothing is copied, and who goes over the parts meets each once, however many alternatives it
//! stands in.
//!
//! The alternatives are counted before the first of them is made. There may be more than any memory holds: an `and` multiplies. More than
//! 64 are refused with their count (`TooManyRanks`), up to 18,446,744,073,709,551,615, which stands for more too. So the only other fault
//! is want of memory.
//!
//! The expressions are those of `specs/Forward` in `path_exprs`, so their meaning is said without this crate: a list of at least two
//! locations is in an expression exactly where it meets the alternative (`path_law`).
//!
//! It knows nothing of graphs.
#![tactic(auto)]

mod calls;
mod fault;
mod ranked;

pub use fault::ExpandFault;
pub use ranked::expand;
