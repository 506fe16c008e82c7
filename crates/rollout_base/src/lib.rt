//! Networks whose routers take other configurations while they run: what each router runs, what it is to load another one,
//! what the lines of a configuration do with a prefix, what a stage between two configurations says, and what is right on
//! the way. There is no code here.
//!
//! A *part* is what one router runs: a policy, by whose items it originates, and a configuration. A
//! *mixture* says which part each router runs, and a router *loads* another part at any time. Routers, sessions and peers are
//! as in `event_base`; only the lines by which a router speaks are those of its own part.
//!
//! - `specs/Mixtures`: the speakers of a mixture, events and loads, and how the network stands after a list of them.
//! - `specs/Lines`: what the lines of a part do with a prefix (`sends`, `takes`), when a part says nothing that two others
//!   don't (`SaysNoMore`), when it does with the routes of another just what that one does (`ReadsAs`), and when the tags of
//!   two parts are apart (`AreApart`).
//! - `specs/Stages`: the configurations on the way from an old one to a new one (`IsStage`, `IsRollout`), and when routers may have
//!   the lines of either or of both (`MayMix`).
//! - `specs/Moments`: what is right of a moment on the way from an old policy to a new one (`IsRightByEither`).
//!
//! Everything is said of one prefix and of what the lines say of it, never of how a configuration is laid out. So the parts of
//! a rollout may be cut in any way, and a router that is half-way through changing its lines is a part too, as long as each
//! line is there whole or isn't there.
//!
//! `between`, `renew` and `renewal` alone need it.
//!
//! It knows nothing of graphs, evidence and how a stage is made.
#![tactic(auto)]
