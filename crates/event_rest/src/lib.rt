//! The machine of events comes to rest, as a case of the law that networks in motion do. There is no code.
//!
//! In the machine of `event_base` each router chooses and sends at once where a message is delivered, and ties go to the lowest identifier.
//! `event_motion` says which moves each event is in the machine of `motion_law`, where to hear, to choose and to send are moves of their own.
//! Here a round of deliveries is a round in motion: all has been sent already, so that to send over each direction once more
//! changes nothing; what waits is heard as it is delivered; and as each router has chosen, choosing once more changes
//! nothing. So where the network in motion comes to rest, which `motion_rest` shows, no message waits after as many rounds of
//! deliveries. The proof that a network comes to rest thus stands once, for the wider machine.
//!
//! - `proofs/Timed`: a list of moves as a schedule. `proofs/Turns`: the moves of one round of deliveries.
//! - `proofs/Corner`: round by round, and what follows.
//!
//! `specs/Corner` has the laws. What rest is for events stands in `rest_law`, which also has what networks need whose routers
//! run several configurations: these are no case of this.
//!
//! Compiling doesn't need it.
//!
//! It knows nothing of the compiler or of texts.
#![tactic(auto)]

ghost use Rattle.event_rest.specs.Corner.{EventsEnd, PassingEvidenceComesToRest, RoundsAreRounds};

/// Rounds of deliveries are rounds in motion. So where the network in motion comes to rest, no message waits after as many of them.
pub fn events_end_as_motions()
    ensures rounds { RoundsAreRounds }
    ensures ends { EventsEnd }
{}

/// Where the evidence passes, for every prefix and after every list of events, messages that are delivered come to an end. Then the
/// routers hold the one settled outcome of what is down, cut and silent, and each peer has heard what it is offered in it.
pub fn passing_evidence_comes_to_rest()
    ensures { PassingEvidenceComesToRest }
{}
