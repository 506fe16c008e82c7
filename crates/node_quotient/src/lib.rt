//! The graph in which nodes of one location become one node where nothing onward tells them apart.
//!
//! Fewer nodes mean fewer tags and lines, and evidence that a person can read. Two nodes of one location are joined where every list of
//! locations can be followed from both or from neither, and ends in equal ranks. Marks of listeners needn't be compared, since on a
//! well-formed graph the location tells them. The least node of each class is kept. So each node but the starts is still entered from one
//! before it, and the call that trims closes the gaps in the numbers.
//!
//! No policy is accepted or refused for it: numbers exist on one faithful graph of a case exactly where they exist on every other. Limits
//! are counted before, on the graph as it was.
//!
//! `quotient` begins with classes by location and rank. Where each has one node, that is all, and the graph is its own quotient. Else
//! classes split one another (`split_classes`): a class splits every other one into the nodes that step into it and those that don't. Of
//! the two parts the smaller one goes on to split others, as in the algorithms of Hopcroft, and of Paige and Tarjan. So a long chain of
//! nodes takes no more turns than it has nodes, each over few of them, where plain rounds would each go over all.
//!
//! Of the splitting it is proved only that joined nodes don't come apart: they step alike, and so are on one side of each split. Then whole
//! rounds over all nodes show that all others have come apart. Where a round splits something after all, rounds go on until one doesn't. So
//! the result needs no proof that the list of what waits misses nothing. Only the time depends on that: a `split_classes` that splits
//! nothing would be proved too, and be slow.
//!
//! It knows nothing of policies.
#![tactic(auto)]

mod alike;
mod first;
mod grouping;
mod joined;
mod partition;
mod quotients;
mod round;

pub use quotients::quotient;
