//! The tests: the rows of `test_meanings`, `test_calls` and `test_runs`, none of which is wrong; and a file that is read.
//!
//! It is the only crate with tests. A crate with tests is proved twice, and a changed test of a low crate proves anew all
//! that is above it. The rows are in libraries, since a function costs a test crate two to four times what it costs a
//! library.
//!
//! A crate that makes a text of what a run shows has no test besides: a reader of a text is tried by what a command says of
//! the text, a verdict by the line that tells it, and both by runs over files (`tools/test/runs/`).
//!
//! It knows nothing of what a row says.
#![tactic(auto)]

#[cfg(test)]
mod tests;
