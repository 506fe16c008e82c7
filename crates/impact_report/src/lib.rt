//! What cuts besides some failures change of the best ranks of claimed sources, and its text: the claimed sources in order,
//! the best rank of each, and for each cut the ranks that it changes.
//!
//! A cut is one link or one router that is dead, too; never a peer, and never a silent session. All are told that live, also
//! those that change nothing. A dead router's own sources have no rank in its row. Who is claimed is told by
//! `outcome_claims`, and the ranks that a cut leaves by `cut_ranks`: here the rows are made of both (`impact`), and written
//! (`impact_text`, `what_if_text`).
//!
//! The class in the text is counted over the cases of the policy, since the text knows no configuration. The classes of every
//! configuration that passes are those of the cases.
//!
//! `impact` and `whatif` alone need it.
//!
//! It knows nothing of the compiler, or of texts that are read.
#![tactic(auto)]

mod lines;
mod report;
mod rows;
mod sources;
mod text;

pub use report::impact;
pub use text::{impact_text, what_if_text};
