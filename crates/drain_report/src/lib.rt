//! What is free in a settled outcome, and its text: each link and each router that lives and whose failure leaves all other
//! routers their routes and peers what they are offered (`specs/Free`).
//!
//! That is exactly where no other router's route, and nothing that a peer is offered, goes over it (`free_is_unused`). So
//! `drain` takes one outcome, lists the steps of all paths (`steps`), and asks of each link and router whether one of these
//! steps is its own (`free`). To settle anew for each cut would show the same in the time of as many settlings. The law
//! `cuts_move_what_goes_over_them` says the rest: any other failure moves each route that goes over it. `whatif` settles anew
//! only for those.
//!
//! In a quiet world the failure of something free leaves the world quiet: nobody sends a message
//! (`failures_off_routes_are_quiet`). That there is one answer is `drains_are_one`. No configuration is made for it: what is
//! promised is said of each one for which the evidence passes.
//!
//! `drain` and `whatif` alone need it.
//!
//! It knows nothing of the compiler, or of texts of scenarios.
#![tactic(auto)]

mod drain_laws;
mod drained;
mod free;
mod quiet_failures;
mod report;
mod steps;
mod text;

pub use drain_laws::{cuts_move_what_goes_over_them, drains_are_one, free_is_unused};
pub use drained::Drain;
pub use quiet_failures::failures_off_routes_are_quiet;
pub use report::drain;
pub use text::drain_text;
