//! What a configuration is that is compiled from a policy, or whose evidence passes: the headline in one record, what else
//! holds in another, and the laws that give both. There is no code.
//!
//! `specs/Claim` says it in two records. `KeepsPolicy` is the headline: the configuration is of its network, right, and has outcomes.
//! `IsKeptAtWork` is what else holds: of packets, of spreading, of what peers announce, in motion. It takes far more definitions, so it stands
//! apart, and a reader of the headline need believe none of them. Every command that speaks of such a configuration promises both. They name no
//! evidence and no graph, so a reader need not believe anything of them. Their parts are definitions of `outcome_base`, `outcome_law`,
//! `multipath_law`, `motion_law`, `motion_rest` and `rest_law`, and two of its own: `specs/OfNet` says that the blocks of the configuration are
//! those of this network, and `specs/Taken` what routers take from peers.
//!
//! `proofs/Claim` gives the records from evidence that passes, with one line for each part. Whoever finds one more thing that is so of
//! every such configuration adds a field to the second and a line there.
//!
//! What the text has to be for sessions to come up (`IsOfNet`) is a part of the headline beside being right, and no part of
//! that: what is right is said by what lines do, and lines are found by names.
//!
//! What is taken from peers is said of prefixes, and not of addresses. A longer prefix inside one of the network's own is
//! another prefix, with a statement of its own, and the language can refuse it (`le 32`). A rule that refused all longer ones
//! by itself would forbid what some want: a customer's part of a provider's block.
//!
//! A reader begins with `KeepsPolicy`, and a caller with `passing_evidence_keeps_policy` and
//! `passing_evidence_keeps_it_at_work`.
//!
//! It knows nothing of the compiler, texts or commands.
#![tactic(auto)]

ghost use Rattle.claim_law.specs.Laws.{MadeConfigurationsAreOfTheirNet, MadeConfigurationsTakePermitted, PassingEvidenceKeepsItAtWork, PassingEvidenceKeepsPolicy};

/// Where the evidence passes the configuration keeps the policy: it is of its network, right, with outcomes, and so on.
pub fn passing_evidence_keeps_policy()
    ensures { PassingEvidenceKeepsPolicy }
{}

/// And it keeps it at work: of packets, of what peers announce, in motion.
pub fn passing_evidence_keeps_it_at_work()
    ensures { PassingEvidenceKeepsItAtWork }
{}

/// Already a configuration that is made of graphs of the policy's cases is of its network.
pub fn made_configurations_are_of_their_net()
    ensures { MadeConfigurationsAreOfTheirNet }
{}

/// And its routers take from peers what permitted walks end with.
pub fn made_configurations_take_permitted()
    ensures { MadeConfigurationsTakePermitted }
{}
