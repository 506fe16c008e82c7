//! The law that a network comes to rest while some routers have flipped to a new configuration and others haven't: first
//! those settle that come to hold a new route, then the others, each as in the network of their own side. There is no code.
//!
//! On the way from an old configuration to a new one some routers already have the new starts, some haven't, some have the lines of
//! both (`IsBetween` of `specs/Between`). As long as nobody loads anything, messages come to an end, whatever was run and loaded
//! before. It takes that the evidence of both passes, and that every preference of the new one is above every one of the old one:
//! then a router that is given a new route holds one.
//!
//! Why: for each world `rest_law` has an order in which the routers of one configuration settle. First those settle that come to
//! hold a new route, as in the new network where the routers that take no part are dead and some hear no peers: what comes to
//! them is new, and comes there too, or an old line gave it, and it comes later (`proofs/Later`). Once they are settled nothing new
//! comes to the others, and these settle as in the old network where besides they are dead (`proofs/Earlier`). `proofs/Setting`
//! compares one side with its own network, what is said and what is taken; `proofs/Rest` puts the two orders together.
//!
//! So what is held at rest is the new side's own outcome where those routers are dead, and of the others the old side's own
//! (`specs/Layered`). `proofs/Settles` has the order of a side together with the settled outcome that it leads to.
//!
//! Where both configurations do the same with a prefix nothing is asked of preferences (`specs/Alike`). Their policies may differ in who originates it. But who
//! originates it by one alone has no tag for its own route there, so nobody hears of it, and no line by which it takes a route (`proofs/Idle`). So such own routes are
//! a layer without lines, below that of the lines that both have (`proofs/Staying`). At rest each router holds what it holds where all run
//! what it runs: a quiet world of theirs is one of either part's own network, but for what nobody hears (`proofs/Theirs`).
//!
//! Compiling doesn't need it.
//!
//! It knows nothing of the compiler, of how a stage is made, or of what a policy allows.
#![tactic(auto)]

ghost use Rattle.rollout_mixtures.specs.Laws.{MixturesComeToRest, RolloutsAreBetween};
ghost use Rattle.rollout_mixtures.specs.Layered.{RestingMixturesAreLayered};
ghost use Rattle.rollout_mixtures.specs.Alike.{AlikesComeToRest, RestingAlikesHoldTheirs, RolloutsRunEither};

/// From the moment on when nobody loads any more, so many rounds of deliveries end all messages, whatever each router runs of an old and
/// a new configuration. Each part of a rollout is such.
pub fn mixtures_come_to_rest()
    ensures between { RolloutsAreBetween }
    ensures rest { MixturesComeToRest }
{}

/// Where no message waits, what a mixture holds is the new configuration's settled outcome where routers that haven't flipped are dead for it, and of
/// the other routers the old one's with the rest dead. Each layer is right for its own policy.
pub fn resting_mixtures_are_layered()
    ensures { RestingMixturesAreLayered }
{}

/// Where both configurations do the same with a prefix, messages end so whichever of the two policies each router runs. Each part of a
/// rollout is such.
pub fn alikes_come_to_rest()
    ensures either { RolloutsRunEither }
    ensures rest { AlikesComeToRest }
{}

/// Where no message waits, each router then holds what it holds in the settled outcome of the policy that it runs. The outcomes of both are the same but
/// for the own routes of who is an origin by one policy alone; peers have heard what both offer.
pub fn resting_alikes_hold_theirs()
    ensures { RestingAlikesHoldTheirs }
{}
