//! What is told of items: for each rule its first fault, and how much there is of what a limit counts.
ghost use Rattle.std.specs.Prelude.{◌≡◌, ◌≤◌, length, IfOk, Ok};
ghost use Rattle.net_base.specs.declared.limits.TheConstants.{LOCATIONS};
ghost use Rattle.net_base.specs.Network.{IsNet};
ghost use Rattle.net_base.specs.Gives.{GivesUnless};
ghost use Rattle.policy_tokens.specs.declared.fault.PolicyFault.TheVariants.{NoMemory};
ghost use Rattle.policy_rules.specs.KnownNames.{net_names};
ghost use Rattle.policy_parser.specs.Told.{
  plain_told,
  nothing_told,
  first_told,
  figure_told,
  all_kept,
  no_amounts,
  rules_with_origin,
  rules_with_state,
  amounts_with_group,
  amounts_with_origin,
  amounts_with_state,
  with_members,
  with_origins,
  with_state,
  with_item,
  limits_fault,
  first_fault as fault_of,
};

use crate::once::Once;
use crate::values::{GroupRead, ItemRead, OriginRead, StatementRead};
use net_base::{LocSet, Net, Prefix};
use policy_base::limits::{ORIGINS, PATTERNS, PREFIXES, STATEMENTS};
use policy_grammar::text_of;
use policy_rules::{Known, within};
use policy_tokens::limits::DEFINITIONS;
use policy_tokens::{Kind, PolicyFault};
use std::alloc::Global;

/// For each rule on an item by itself the first fault.
#[derive(Clone, Copy)]
pub(crate) struct Rules {
    /// The first figure that is no prefix or no length.
    pub figures: Result<(), PolicyFault>,
    /// The first `>>` under an `or` or a `not`.
    pub ranks: Result<(), PolicyFault>,
    /// The first name of an origin that stands for a set with a peer.
    pub routers: Result<(), PolicyFault>,
    /// The first statement with too many calls.
    pub calls: Result<(), PolicyFault>,
    /// The first `path` with too many places.
    pub places: Result<(), PolicyFault>,
}

/// How many there are of what a limit counts, at most the greatest number of 64 bits.
#[derive(Clone, Copy)]
pub(crate) struct Amounts {
    /// `define` items.
    pub definitions: u64,
    /// Statements.
    pub statements: u64,
    /// Patterns over all statements.
    pub patterns: u64,
    /// Prefixes that are originated.
    pub prefixes: u64,
    /// Pairs of a prefix and an origin.
    pub pairs: u64,
}

/// What is told of the items of a text that were read up to a place.
#[derive(Drop)]
pub(crate) struct Told<'a> {
    known: Known<'a>,
    /// The first name that is unknown: what stands behind it isn't looked at.
    names: Result<(), PolicyFault>,
    rules: Rules,
    once: Once,
    amounts: Amounts,
}

// The first of two faults.
fn first_of(
    first: Result<(), PolicyFault>,
    next: Result<(), PolicyFault>,
) -> Result<(), PolicyFault>
    ensures { result ≡ first_told first next }
{
    match first {
        Ok(_) => next,
        Err(fault) => Err(fault),
    }
}

// Whether a figure is a prefix.
fn figure(prefix: Result<Prefix, PolicyFault>) -> Result<(), PolicyFault>
    ensures { result ≡ figure_told prefix }
{
    match prefix {
        Ok(_) => Ok(()),
        Err(fault) => Err(fault),
    }
}

impl Rules {
    // No rule is broken.
    fn kept() -> Rules
        ensures { result ≡ all_kept }
    {
        Rules {
            figures: Ok(()),
            ranks: Ok(()),
            routers: Ok(()),
            calls: Ok(()),
            places: Ok(()),
        }
    }

    // The faults with those of one `originate` item more.
    fn with_origin(self, origin: &OriginRead) -> Rules
        ensures { result ≡ rules_with_origin self origin.now }
    {
        Rules {
            figures: first_of(self.figures, figure(origin.prefix)),
            ranks: self.ranks,
            routers: first_of(self.routers, origin.routers),
            calls: self.calls,
            places: self.places,
        }
    }

    // The faults with those of one statement more.
    fn with_state(self, statement: &StatementRead) -> Rules
        ensures { result ≡ rules_with_state self statement.now }
    {
        Rules {
            figures: first_of(self.figures, statement.figures),
            ranks: first_of(self.ranks, statement.ranks),
            routers: self.routers,
            calls: first_of(self.calls, statement.calls),
            places: first_of(self.places, statement.places),
        }
    }
}

impl Amounts {
    // Nothing is counted yet.
    fn none() -> Amounts
        ensures { result ≡ no_amounts }
    {
        Amounts {
            definitions: 0,
            statements: 0,
            patterns: 0,
            prefixes: 0,
            pairs: 0,
        }
    }

    // The counts with one group more.
    fn with_group(self) -> Amounts
        ensures { result ≡ amounts_with_group self }
    {
        Amounts {
            definitions: self.definitions.saturating_add(1),
            statements: self.statements,
            patterns: self.patterns,
            prefixes: self.prefixes,
            pairs: self.pairs,
        }
    }

    // The counts with one originated prefix more, which these locations originate.
    fn with_origin(self, at: &LocSet) -> Amounts
        ensures { result ≡ amounts_with_origin self at.now }
    {
        Amounts {
            definitions: self.definitions,
            statements: self.statements,
            patterns: self.patterns,
            prefixes: self.prefixes.saturating_add(1),
            pairs: self.pairs.saturating_add(at.len()),
        }
    }

    // The counts with one statement more, which has so many patterns.
    fn with_state(self, patterns: u64) -> Amounts
        ensures { result ≡ amounts_with_state self patterns }
    {
        Amounts {
            definitions: self.definitions,
            statements: self.statements.saturating_add(1),
            patterns: self.patterns.saturating_add(patterns),
            prefixes: self.prefixes,
            pairs: self.pairs,
        }
    }

    // Tests the numbers of groups, statements, patterns and originated prefixes.
    fn within(self) -> Result<(), PolicyFault>
        ensures { result ≡ limits_fault self }
    {
        within(Kind::Definitions, DEFINITIONS, self.definitions)?;
        within(Kind::Statements, STATEMENTS, self.statements)?;
        within(Kind::Patterns, PATTERNS, self.patterns)?;
        within(Kind::Prefixes, PREFIXES, self.prefixes)
    }
}

impl<'a> Told<'a> {
    /// Nothing is read yet: the names are those of a network.
    pub fn of(alloc: Global, net: &'a Net) -> Result<Told<'a>, PolicyFault>
        ensures told { GivesUnless NoMemory plain_told result (Ok (nothing_told net.now)) }
        ensures few { IfOk result (λ _. length (net_names net.now).sets ≤ LOCATIONS) }
        ensures rules { IsNet net.now }
    {
        Ok(Told {
            known: Known::of(alloc, net)?,
            names: Ok(()),
            rules: Rules::kept(),
            once: Once::new(alloc),
            amounts: Amounts::none(),
        })
    }

    /// The names of the network, and those of the groups so far.
    pub fn known(&self) -> &Known<'a>
        ensures { result.now ≡ self.now.known }
    {
        &self.known
    }

    // A group more.
    fn group(&mut self, text: &'a [u8], group: &GroupRead) -> Result<(), PolicyFault>
        ensures { GivesUnless NoMemory (λ _. plain_told self.new) result (Ok (with_members text.now (plain_told self.old) group.now.name group.now.set)) }
    {
        match group.set {
            Ok(set) => {
                let name = group.name;
                self.known.define(name.place, text_of(text, &name), set)?;
                self.amounts = self.amounts.with_group();
            }
            Err(fault) => self.names = Err(fault),
        }
        Ok(())
    }

    // A prefix more that is originated.
    fn origin(&mut self, origin: &OriginRead) -> Result<(), PolicyFault>
        ensures { GivesUnless NoMemory (λ _. plain_told self.new) result (Ok (with_origins (plain_told self.old) origin.now origin.now.at)) }
    {
        match origin.at {
            Ok(at) => {
                self.once.take(origin.place, origin.prefix)?;
                self.rules = self.rules.with_origin(origin);
                self.amounts = self.amounts.with_origin(&at);
            }
            Err(fault) => self.names = Err(fault),
        }
        Ok(())
    }

    // A statement more.
    fn state(&mut self, statement: &StatementRead)
        ensures { plain_told self.new ≡ with_state (plain_told self.old) statement.now }
    {
        self.names = statement.names;
        self.rules = self.rules.with_state(statement);
        self.amounts = self.amounts.with_state(statement.patterns);
    }

    /// An item more. Nothing is told behind a name that is unknown.
    pub fn take(&mut self, text: &'a [u8], item: &ItemRead) -> Result<(), PolicyFault>
        ensures { GivesUnless NoMemory (λ _. plain_told self.new) result (Ok (with_item text.now (plain_told self.old) item.now)) }
    {
        if self.names.is_err() {
            return Ok(());
        }
        match item {
            ItemRead::Group(group) => self.group(text, group),
            ItemRead::Origin(origin) => self.origin(origin),
            ItemRead::State(statement) => {
                self.state(statement);
                Ok(())
            }
        }
    }

    /// The first rule that is broken, or the first limit that is passed.
    #[tactic(auto, unfolding(crate::specs::Told::first_fault))]
    pub fn first_fault(&self) -> Result<(), PolicyFault>
        ensures { result ≡ fault_of (plain_told self.now) }
    {
        self.names?;
        if let Some(place) = self.known.twice() {
            return Err(PolicyFault::Twice(place));
        }
        let rules = self.rules;
        rules.figures?;
        rules.ranks?;
        rules.routers?;
        self.once.fault?;
        self.amounts.within()?;
        within(Kind::Origins, ORIGINS, self.amounts.pairs)?;
        rules.calls?;
        rules.places
    }
}
