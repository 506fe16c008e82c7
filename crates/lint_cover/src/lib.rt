//! Which patterns others cover: whether every prefix of a pattern is in one of several other patterns.
//!
//! A pattern contains the prefixes inside its base up to a length. So what the patterns whose base is around a prefix leave
//! open inside it is all that is longer than one number says, the depth there. Where that number is as great as is wanted,
//! the block is covered; where it is short, both halves of the block are asked.
//!
//! `covered_by` goes over all patterns at each block, and takes no memory. `covered_statements` asks the same of every
//! statement of a policy, against the patterns of the earlier ones: there a table of bases (`PatternTable`) gives the number
//! of a block by one look-up more than that of the block around it. Each pattern is put in as soon as it has been asked
//! about. That may be done at once: a covered pattern changes no cover, and after one that isn't covered no other pattern of
//! its statement is asked. So a repeated pattern is answered at once, and the look-ups grow as the patterns times the lengths
//! around them, not as their square.
//!
//! What is said is `IsCovered`, prefix by prefix, and both answers are proved to be exactly it.
//!
//! `lint` and `promises` alone need it.
//!
//! It knows nothing of what statements say of paths.
#![tactic(auto)]

mod covered;
mod statements;
mod table;

pub use covered::covered_by;
pub use statements::covered_statements;
pub use table::PatternTable;
