//! Facts on lists, options, results, numbers and truth values alone, where std has no lemma. There is no code here.
//!
//! The lemmas are in `proofs/`, one module for each subject: `Members`, `Each`, `Items`, `Tests`, `Positions`, `Keys`,
//! `Apart`, `SortedRuns`, .. Each lemma is named by the left side of what it says, so one finds it by what stands in the
//! goal. What is in a list is said by `IsIn` (`specs/Members`), with the place at which it is.
//!
//! A lemma that names no type or word of this repository belongs here, so that it stands once. A rearrangement of `&&` and
//! `||` that one proof needs stays beside that proof.
//!
//! It knows nothing of anything in this repository.
#![tactic(auto)]
