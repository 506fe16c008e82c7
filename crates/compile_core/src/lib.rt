//! The compiler: the evidence of a policy, with its configuration where that is asked for, or why the policy is refused.
//!
//! The cases are taken in order, with room for 131,072 steps over all of them; what the steps of a case take is gone for the
//! later ones. Each gets its graph and its numbers (`case_evidence`), and the first one that isn't accepted refuses the
//! policy. Then the nodes get their tags (`tag_assign`). Cases, graphs, numbers and tags are the evidence
//! (`compiled_evidence`), and the configuration is made of the evidence (`config_for`). `compile` gives both. The evidence
//! comes first since most commands need it alone: that a configuration can be made of it is a law, and where none is made,
//! what is promised is said of the one that would be.
//!
//! The compiler is cut by what a caller asks for: the graph of a case, a case with its numbers, all cases. All three answer
//! one `CompileRefusal`.
//!
//! What is compiled is said by a relation and not by a function. A graph, a relation and a configuration are each said by
//! what they have to be, so no definition runs the compiler. `IsMade` of `specs/Compiling` puts them together, and
//! `IsRefusal` says what each refusal says of the policy. The laws close it: what is made passes (`made_evidence_passes`) and
//! is one (`made_pairs_are_one`), a policy that is made isn't refused (`made_policies_are_not_refused`), none is refused for
//! two reasons (`refusals_of_policies_exclude_one_another`), and where numbers are refused no evidence passes over any graphs
//! (`policies_without_numbers_have_no_evidence`).
//!
//! It knows nothing of texts or inputs.
#![tactic(auto)]

mod accept;
mod compiled;
mod compiler;
mod evidence;
mod laws;

pub use case_core::CompileRefusal;
pub use compiled::Compiled;
pub use compiler::{compile, compiled_evidence, config_for};
pub use laws::{
    made_evidence_passes, made_pairs_are_one, made_policies_are_not_refused,
    policies_without_numbers_have_no_evidence, refusals_of_policies_exclude_one_another,
};
