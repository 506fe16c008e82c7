//! What is asked of the evidence for a configuration, and the laws that evidence which passes makes the configuration right; no code.
//!
//! `specs/Faithful` says when a graph says of walks what a statement says of them. It has a run for exactly the walks that can still be
//! permitted, and its ranks are theirs. `specs/Passes` says the rest: a graph for each case of the policy, tags that differ, the
//! configuration that is made of it, numbers that meet the rules, and cases within the limits (`Passes`).
//!
//! The laws (`specs/Laws`) speak of the outcomes of `outcome_base`, in the words of the claim alone:
//!
//! - `used_paths_are_allowed`: whatever the numbers are, only allowed paths are used.
//! - `passing_evidence_is_right`: where the evidence passes, each claimed source has besides the best rank that survives, and none only
//!   where none does.
//! - `stable_outcomes_exist`: whatever fails, there is a stable outcome of each prefix.
//!
//! `limits::STEPS` bounds the steps of all cases together. The laws stand on those of `routing_law`, which speak of abstract networks, so
//! that none of their lemmas speaks of lists. Here the real types come to them. The network's part is taken apart from the graph's: imports
//! are asked of a path without locations, so the rule against loops is stated by itself (RFC 4271, 9.1.2). Since AS numbers differ, it
//! becomes a rule on locations. What the claim says has its definitions below, in crates that have never heard of evidence: a reader of the
//! claim needs none of this.
//!
//! It knows nothing of the compiler.
#![tactic(auto)]

ghost use Rattle.evidence_law.specs.Laws.{FaithfulIsWalksAndRanks, PassingEvidenceIsRight, RunsAreWalks, StableOutcomesExist, UsedPathsAreAllowed};

pub mod limits;

/// Whatever its preference numbers are, a configuration that is made of the graphs of a policy's cases lets only allowed paths be
/// used: for every prefix, all failures and every stable outcome, the paths of claimed routers and the paths that peers are offered
/// are allowed and survive, the path of every other router is a suffix of a permitted walk, and where no statement governs the
/// prefix only live origins have routes.
pub fn used_paths_are_allowed()
    ensures { UsedPathsAreAllowed }
{}

/// Where the evidence passes the configuration is right: besides, every claimed source has the best rank among the allowed paths
/// that survive, and none only where none survives.
pub fn passing_evidence_is_right()
    ensures { PassingEvidenceIsRight }
{}

/// And there is something to be right about: whatever fails, there is a stable outcome for every prefix.
pub fn stable_outcomes_exist()
    ensures { StableOutcomesExist }
{}

/// What is asked of the graph of a case is what is asked of its walks and of the rank of each node.
pub fn faithful_is_walks_and_ranks()
    ensures { FaithfulIsWalksAndRanks }
{}

/// In a well-formed graph each path with a run is a walk to an origin, or an origin alone.
pub fn runs_are_walks()
    ensures { RunsAreWalks }
{}
