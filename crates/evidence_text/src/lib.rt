//! Reads and prints evidence, a JSON text: the evidence that the bytes spell, or the least rule that they break, and the
//! text of evidence.
//!
//! Reading goes in passes, each with a rule of its own: the JSON value, its shape, the ranges of its numbers, the nodes
//! that starts and steps name, the version. Of several broken rules the one with the least number is told. The shape is
//! read into values in which a number out of its range has no value (`RawEvidence`), so that the shape is judged whole
//! before any range is. The JSON value takes far more memory than what it says, and is given back before the rules are
//! judged.
//!
//! Evidence with the keys of each object in order and with all numbers in their ranges, as it is printed, is read from the
//! tokens of its text instead, and no JSON value is made (`tokens`). Any other text is read as above, so that each fault
//! is told by these passes alone.
//!
//! A value that isn't a number is a fault of the shape. A number that is too large, negative or not whole is a fault of a
//! number. Origins break the shape only where all are in their range and don't ascend. A case with more nodes than a graph
//! can number is answered with want of memory: no text that memory holds has so many.
//!
//! `print_evidence` pushes text onto one vector: one object without spaces, its keys in the order of their bytes. Each
//! function that adds a part also says that the part is lawful. So `printed_evidence_is_read`, which needs lawful evidence,
//! becomes a promise about every value of the program. `specs/Text` says the bytes, `specs/Spelled` what they spell. The
//! laws in `laws` say of each fault when it comes.
//!
//! `evidence` prints it, and `check` and `audit` read it.
//!
//! It knows nothing of policies, and of how evidence is found.
#![tactic(auto)]

mod fault;
mod judge;
pub mod laws;
mod numbers;
mod parts;
mod print;
mod raw;
mod read;
mod shape;
mod tokens;

pub use fault::EvidenceFault;
pub use parts::Field;
pub use print::print_evidence;
pub use read::read_evidence;
