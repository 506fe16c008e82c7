//! Expressions over locations.
use net_base::LocSet;

/// An expression: it holds lists of locations.
#[derive(Drop)]
pub enum Expr {
    /// No list.
    Never,
    /// The empty list alone.
    Empty,
    /// Each list of one location of the set.
    Set(LocSet),
    /// A list of the first, and then one of the second.
    Seq(Box<Expr>, Box<Expr>),
    /// A list of one of them.
    Either(Vec<Expr>),
    /// A list of each of them.
    Both(Vec<Expr>),
    /// Each list that it doesn't hold.
    Not(Box<Expr>),
    /// Any number of its lists, one after the other.
    Star(Box<Expr>),
}
