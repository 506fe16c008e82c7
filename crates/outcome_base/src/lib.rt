//! What the claim says: failures, stable outcomes, what peers are offered, and when a configuration is right for a policy;
//! and outcomes where peers announce what they like. There is no code here.
//!
//! `specs/Outcomes` says what is alive under some failures, what neighbours give each other by the lines of a
//! configuration, and when an outcome is stable: no router would choose again (RFC 4271, 9.1). A router holds a route of
//! the highest preference among those that it is given, and none only where it is given none. Ties are free, so the claim
//! doesn't hang on how a router breaks them (RFC 4271, 9.1.2.2).
//!
//! `specs/Right` says when a configuration is right (`IsRight`): for every prefix, all failures and every stable outcome.
//! What a claimed router uses and a claimed session is offered is allowed, survives and has the best rank that survives.
//! Where one gets nothing, nothing survives for it. Packets are passed on along the path that the router holds.
//!
//! `specs/Announcements` says the same of outcomes where each peer announces any AS path, with any tag, of any prefix, and
//! `specs/Withstanding` what peers can't do then. A session over which nothing of use is announced counts as silent.
//!
//! These definitions stand below those of evidence, so that what a reader must believe of the claim speaks of no evidence.
//!
//! It knows nothing of graphs and evidence.
#![tactic(auto)]
