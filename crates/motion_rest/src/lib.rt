//! The law that a network in motion comes to rest where the evidence passes, however ties are broken: what its routers hold
//! over time is, in the graph, a history as `steady_law` asks for it. There is no code.
//!
//! The machine is that of `motion_law`: to hear, to choose and to send are moves of their own, peers may say any path, and the ends of a
//! session notice at different times that it is gone. `specs/Rest` says what rest is there, and how many rounds lead to it.
//!
//! The way of the proof, file by file:
//!
//! - `proofs/Choices`: what a router picks is one of the first of what it makes of what it has heard; what it holds on to, too.
//! - `proofs/Sources`: after a round it has picked over what was said since the round's start. So after as many rounds as there are
//!   routers the numbers behind each route are those that the peer at its end says now: they are passed on place by place.
//! - `proofs/Match`: what a router makes of what a neighbour says is what the graph of the prefix's case does with the neighbour's route.
//! - `proofs/Still`: a direction that always has the same to say falls silent, and brings no news.
//! - `proofs/History`: so what routers hold is, in the graph, a history as `steady_law` asks for it, and all of it settles.
//! - `proofs/End`: then one more round leaves nothing that waits, and nobody would choose again.
//! - `proofs/Fair`: a schedule that forgets nobody has as many rounds as one likes. `proofs/Resting` puts these together: R rounds for the
//!   numbers behind, R * (R + 2) for all to settle, and one.
//!
//! Where a prefix has no class nobody takes anything, and one round is enough. That there is one end only where ties go by the lowest
//! identifier isn't said here: `steady_law` says it of abstract outcomes.
//!
//! Rest is said of schedules: a schedule says what happens at each time, if anything. So a round is a stretch of time, and no
//! list has to be cut in pieces. A round sends before it hears: otherwise its first hearings could bring what was sent before
//! it began.
//!
//! Compiling doesn't need it.
//!
//! It knows nothing of the compiler or of texts.
#![tactic(auto)]

ghost use Rattle.motion_rest.specs.Rest.{PassingEvidenceRests};

/// Where the evidence passes, for every prefix and whatever has happened before: once nothing more fails and no peer changes what it says,
/// rounds in which each location sends, hears and chooses end in rest, and so does every schedule that forgets nobody.
pub fn passing_evidence_rests()
    ensures { PassingEvidenceRests }
{}
