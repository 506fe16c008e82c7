//! Ranked expressions.
use crate::call::Call;
use net_base::{List, LocSet};
use policy_words::SetCall;

/// A ranked expression over calls: it stands for a list of alternatives, the best one first.
#[derive(Drop)]
pub enum Ranked {
    /// One call.
    Call(Call),
    /// One call with several ranked sets, as `exit(A >> B)`: an alternative for each set, the best one first.
    Calls(SetCall, List<LocSet>),
    /// `a >> b`: first the alternatives of `a`, then those of `b`.
    Prefer(Box<Ranked>, Box<Ranked>),
    /// `a or b`: one alternative.
    Or(Box<Ranked>, Box<Ranked>),
    /// `a and b`: all pairs, ordered by the place in `a` first.
    And(Box<Ranked>, Box<Ranked>),
    /// `not a`: one alternative.
    Not(Box<Ranked>),
}
