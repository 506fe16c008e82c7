//! Policies.
ghost use Rattle.std.specs.Prelude.{◌≡◌};

use crate::ranked::Ranked;
use net_base::{List, LocSet, Pattern, Prefix};
use std::marker::Model;

/// Which sources a statement claims: all locations, or those named.
#[derive(Clone, Copy)]
pub enum FromSet {
    /// All locations.
    Any,
    /// The locations that are named.
    Named(LocSet),
}

/// A statement: the prefixes that it governs, what their paths must meet, and the sources it claims.
#[derive(Drop)]
pub struct Statement {
    /// The prefixes that the statement governs, as far as no earlier statement does: those in some of these patterns.
    pub patterns: List<Pattern>,
    /// What a path must meet, and the rank that it then has.
    pub ranked: Ranked,
    /// The sources that the statement claims.
    pub from: FromSet,
}

/// A prefix with the routers that originate it.
#[derive(Clone, Copy)]
pub struct Origin {
    /// The prefix, which no other item originates.
    pub prefix: Prefix,
    /// The locations that originate it. Of a policy that was read they are routers.
    pub at: LocSet,
}

/// A policy within the limits, in which no prefix is originated twice.
#[derive(Drop)]
pub struct Policy {
    origins: List<Origin>,
    statements: List<Statement>,
}

impl Model for Policy {
    ghost use Rattle.std.specs.Coded.{codes};
    ghost use Rattle.policy_base.specs.contracts.ranked.Ranked as ranked;
    ghost use Rattle.policy_base.specs.Policies.{PolicyLists, IsPolicy, policy_of};

    ghost Value = { PolicyLists };

    ghost coded = { Prim.hlevel (codes, ranked.the_row.coded) };

    ghost view = { λ p. record { origins = p.origins; statements = p.statements } };

    ghost invariant = { λ p. IsPolicy (policy_of (record { origins = p.origins; statements = p.statements })) };
}

impl Policy {
    ghost use Rattle.policy_base.specs.Policies.{IsPolicy, policy_of};

    /// The policy of these `originate` items and statements.
    pub fn new(origins: List<Origin>, statements: List<Statement>) -> Policy
        requires { IsPolicy (policy_of (record { origins = origins; statements = statements })) }
        ensures { result ≡ record { origins = origins; statements = statements } }
    {
        Policy {
            origins,
            statements,
        }
    }

    /// The `originate` items, in order of the text.
    pub fn origins(&self) -> &[Origin]
        ensures origins { result.now ≡ self.now.origins }
        ensures rules { IsPolicy (policy_of self.now) }
    {
        self.origins.as_slice()
    }

    /// The statements, in order of the text.
    pub fn statements(&self) -> &[Statement]
        ensures statements { result.now ≡ self.now.statements }
        ensures rules { IsPolicy (policy_of self.now) }
    {
        self.statements.as_slice()
    }
}
