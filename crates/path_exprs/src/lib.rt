//! Expressions over locations: which lists they hold, their normal forms, reversals and derivatives, the expressions of calls, and ranked
//! expressions whose alternatives share their parts.
//!
//! An expression (`Expr`) holds lists of locations. It is made of sets of locations by sequence, alternation, intersection, complement and
//! repetition. Its derivative by a location holds what may follow that location in it (`specs/Derivative`), as Brzozowski has it. So a path
//! is read one location at a time, and an expression that is reversed first is read from the origin end, as a route travels. In normal form
//! members are flattened, in order and not repeated (`specs/Normal`). Without that derivatives would grow with each location that is read.
//!
//! A ranked expression (`RankedExpr`) is the expressions of its alternatives, the best one first, at most 64. They share their parts
//! (`Parts`): a part is an expression of its own, or names earlier parts by their numbers. So the `and` of two ranked expressions adds one
//! part for each pair of alternatives and copies nothing. Copies would cost the length of both expressions for each pair.
//!
//! `specs/Forward` says which expression a call is, and `specs/Standings` where the walks of a case can stand: a location, with what is
//! left of each alternative after a walk that led there. `limits::NODES` is the most of these that a case may have. What is said here of
//! calls and cases needs no compiler, so evidence can be judged without one. Expressions are ordered, compared and hashed by what they are
//! made of. The order serves normal forms; who has numbers for expressions needn't ask it.
//!
//! It knows nothing of graphs.
#![tactic(auto)]

mod equality;
mod expr;
pub mod limits;
mod order;
mod parts;
mod ranked_expr;

pub use expr::Expr;
pub use parts::{Part, Parts};
pub use ranked_expr::RankedExpr;
