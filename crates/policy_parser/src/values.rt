//! What the items of a text come to as they are read, for a network and the names above them.
use net_base::{LocSet, Place, Prefix};
use policy_base::Statement;
use policy_grammar::Lexeme;
use policy_tokens::PolicyFault;

/// A group that is defined.
#[derive(Clone, Copy)]
pub struct GroupRead {
    /// The word behind `define`.
    pub name: Lexeme,
    /// The locations of its members, or the first one that is unknown.
    pub set: Result<LocSet, PolicyFault>,
}

/// A prefix that is originated.
#[derive(Clone, Copy)]
pub struct OriginRead {
    /// Where the figure of the prefix stands.
    pub place: Place,
    /// The prefix, or that its figure is none.
    pub prefix: Result<Prefix, PolicyFault>,
    /// The locations that originate it, or the first name that is unknown.
    pub at: Result<LocSet, PolicyFault>,
    /// The first name that is unknown or stands for a set with a peer.
    pub routers: Result<(), PolicyFault>,
}

/// A statement: each rule that it may break by itself, and its value where it breaks none of those on names, figures,
/// calls and places and has no more patterns than a policy may have.
#[derive(Drop)]
pub struct StatementRead {
    /// The first name that is unknown.
    pub names: Result<(), PolicyFault>,
    /// The first figure that is no prefix or no length.
    pub figures: Result<(), PolicyFault>,
    /// How many patterns it has.
    pub patterns: u64,
    /// The first `>>` under an `or` or a `not`.
    pub ranks: Result<(), PolicyFault>,
    /// Whether it has too many calls.
    pub calls: Result<(), PolicyFault>,
    /// The first `path` with too many places.
    pub places: Result<(), PolicyFault>,
    /// What it says, of use only where the rules named above are kept.
    pub value: Statement,
}

/// An item.
#[derive(Drop)]
pub enum ItemRead {
    /// A `define` item.
    Group(GroupRead),
    /// An `originate` item.
    Origin(OriginRead),
    /// A statement.
    State(StatementRead),
}
