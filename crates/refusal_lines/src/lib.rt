//! What is told of a policy that is refused: the line of the refusal, and the lines that show it.
//!
//! `refusal_line` tells the number, the word and the values: the case, from 1, a router by its name in the topology, and two
//! walks where a source is mixed. For a number that isn't a location's it names nothing. No refusal of the compiler has such
//! a number, so the definition (`specs/RefusalLines`) needn't ask for it. Where there are two policies, `named_refusal_line` says
//! of which the refusal is.
//!
//! `explanation` adds what shows a refusal for want of numbers: a line for each removed pair of nodes, with why the one may
//! not stand as high as the other, and each node by the walk that leads to it. A line names a node by a function,
//! `shown_walk`, and not by any walk that leads there. So the lines of a refutation are a function of it, and a run says one
//! thing. That the nodes of a refusal can be shown is what the caller has to bring, and it follows from its being a refusal.
//!
//! `accepted_line` is the answer of `explain` to a policy that isn't refused.
//!
//! It knows nothing of inputs.
#![tactic(auto)]

mod explanations;
mod lines;

pub use explanations::{accepted_line, explanation};
pub use lines::{named_refusal_line, refusal_line};
