//! Calls with places, place by place.
ghost use Rattle.std.specs.Prelude.{◌≡◌, ◌≤◌, ◌<◌, ◌+◌, length, Ok};
ghost use Rattle.policy_tokens.specs.declared.limits.TheConstants.{PLACES};
ghost use Rattle.net_base.specs.Gives.{GivesUnless};
ghost use Rattle.policy_tokens.specs.declared.fault.PolicyFault.TheVariants.{NoMemory};
ghost use Rattle.policy_base.specs.Policies.{ranking_of};
ghost use Rattle.policy_grammar.specs.declared.symbol.Symbol.TheVariants.{EndOfText};
ghost use Rattle.policy_grammar.specs.Left.{left, StandsIn};
ghost use Rattle.policy_grammar.specs.Reading.{chain};
ghost use Rattle.policy_grammar.specs.Symbols.{number_of};
ghost use Rattle.policy_rules.specs.KnownView.{plain_names};
ghost use Rattle.policy_values.specs.CallValues.{plain_call, plain_value};
ghost use Rattle.policy_values.specs.CallReaders.{
  linked as link_of_two,
  plain_places,
  no_places,
  with_place,
  path_ranking,
  path_value,
  one_behind as one_there,
  place_link,
  link_read,
  path_read,
  taken,
};
ghost use Rattle.policy_values.specs.Parts.{parts_value};

use crate::call_values::CallRead;
use crate::parts::Parts;
use crate::reader::Reader;
use net_base::{List, LocSet};
use policy_base::{Call, Ranked};
use policy_grammar::{Lexeme, Symbol, passed, past};
use policy_rules::within;
use policy_tokens::limits::PLACES;
use policy_tokens::{Kind, PolicyFault};
use std::alloc::Global;

/// The places of a `path` that were read so far.
#[derive(Drop)]
pub(crate) struct PathPlaces {
    /// How many there are.
    pub count: u64,
    /// The first name that is unknown.
    pub names: Result<(), PolicyFault>,
    /// The sets of the places up to there, of which no more are kept than a `path` may have.
    pub list: List<LocSet>,
}

// A `link` of two sets.
fn linked(
    a: Result<LocSet, PolicyFault>,
    b: Result<LocSet, PolicyFault>,
) -> Result<Ranked, PolicyFault>
    ensures { plain_value result ≡ link_of_two a b }
{
    Ok(Ranked::Call(Call::Link(a?, b?)))
}

// The value of a `path` with so many places.
fn ranked(count: u64, sets: List<LocSet>) -> Ranked
    ensures { ranking_of result ≡ path_ranking count sets }
{
    if count > PLACES {
        Ranked::Call(Call::Drop)
    } else {
        Ranked::Call(Call::Path(sets))
    }
}

impl PathPlaces {
    // No place.
    fn none(alloc: Global) -> PathPlaces
        ensures { plain_places result ≡ no_places }
    {
        PathPlaces {
            count: 0,
            names: Ok(()),
            list: List::new(alloc),
        }
    }

    // One place more. Its set is kept if a `path` may have it.
    fn take(&mut self, set: Result<LocSet, PolicyFault>) -> Result<(), PolicyFault>
        requires few { self.old.count < 18446744073709551615 }
        ensures { GivesUnless NoMemory (λ _. plain_places self.new) result (Ok (with_place (plain_places self.old) set)) }
    {
        let before = self.count;
        self.count += 1;
        match (self.names, set) {
            (Ok(_), Ok(set)) => {
                if before < PLACES {
                    self.list.push(set)?;
                }
            }
            (Ok(_), Err(fault)) => self.names = Err(fault),
            (Err(_), _) => {}
        }
        Ok(())
    }

    // The value of the `path`.
    fn value(self) -> Result<Ranked, PolicyFault>
        ensures { plain_value result ≡ (path_value (plain_places self)).value }
    {
        self.names?;
        Ok(ranked(self.count, self.list))
    }

    // The `path` with these places.
    fn read(self) -> CallRead
        ensures { plain_call result ≡ path_value (plain_places self) }
    {
        CallRead {
            above: None,
            places: within(Kind::Places, PLACES, self.count),
            value: self.value(),
        }
    }
}

impl Reader<'_> {
    // The place behind a symbol.
    fn one_behind(
        &self,
        symbol: Symbol,
        at: &mut Lexeme,
    ) -> Result<Result<LocSet, PolicyFault>, PolicyFault>
        requires sign { number_of symbol < number_of EndOfText }
        requires stands { StandsIn self.now.text.now at.old }
        ensures read { GivesUnless NoMemory (λ x. (x, left self.now.text.now at.new)) result
            (one_there self.now.text.now self.now.whole.now.net.now (plain_names self.now.known.now) symbol (left self.now.text.now at.old)) }
        ensures stands { StandsIn self.now.text.now at.new }
        ensures fewer { length (left self.now.text.now at.new) ≤ length (left self.now.text.now at.old) }
    {
        passed(symbol, self.text, at)?;
        self.one(at)
    }

    /// A `link` more, behind its word.
    #[tactic(auto, unfolding(crate::specs::CallReaders::link_read))]
    pub(crate) fn link_call(&self, parts: &mut Parts, at: &mut Lexeme) -> Result<(), PolicyFault>
        requires stands { StandsIn self.now.text.now at.old }
        ensures read { GivesUnless NoMemory (λ _. (parts_value parts.new, left self.now.text.now at.new)) result
            (taken (link_read self.now.text.now self.now.whole.now.net.now (plain_names self.now.known.now) (left self.now.text.now at.old)) (parts_value parts.old)) }
        ensures stands { StandsIn self.now.text.now at.new }
        ensures fewer { length (left self.now.text.now at.new) ≤ length (left self.now.text.now at.old) }
    {
        let a = self.one_behind(Symbol::RoundOpen, at)?;
        let b = self.one_behind(Symbol::Comma, at)?;
        passed(Symbol::RoundClose, self.text, at)?;
        parts.take_call(CallRead {
            above: None,
            places: Ok(()),
            value: linked(a, b),
        })
    }

    // More places, as long as a comma comes.
    fn more_places(&self, places: &mut PathPlaces, at: &mut Lexeme) -> Result<(), PolicyFault>
        requires stands { StandsIn self.now.text.now at.old }
        requires room { places.old.count + length (left self.now.text.now at.old) ≤ 18446744073709551615 }
        ensures read { GivesUnless NoMemory (λ _. (plain_places places.new, left self.now.text.now at.new)) result
            (chain Symbol.Comma (place_link self.now.text.now self.now.whole.now.net.now (plain_names self.now.known.now))
            (length (left self.now.text.now at.old)) (plain_places places.old) (left self.now.text.now at.old)) }
        ensures stands { StandsIn self.now.text.now at.new }
        ensures fewer { length (left self.now.text.now at.new) ≤ length (left self.now.text.now at.old) }
    {
        while past(Symbol::Comma, self.text, at) {
            let set = self.one(at)?;
            places.take(set)?;
        }
        Ok(())
    }

    // The places of a `path`, two at least, in brackets.
    #[tactic(auto, unfolding(crate::specs::CallReaders::path_read))]
    fn path_places(&self, places: &mut PathPlaces, at: &mut Lexeme) -> Result<(), PolicyFault>
        requires none { plain_places places.old ≡ no_places }
        requires stands { StandsIn self.now.text.now at.old }
        ensures read { GivesUnless NoMemory (λ _. (path_value (plain_places places.new), left self.now.text.now at.new)) result
            (path_read self.now.text.now self.now.whole.now.net.now (plain_names self.now.known.now) (left self.now.text.now at.old)) }
        ensures stands { StandsIn self.now.text.now at.new }
        ensures fewer { length (left self.now.text.now at.new) ≤ length (left self.now.text.now at.old) }
    {
        let a = self.one_behind(Symbol::RoundOpen, at)?;
        places.take(a)?;
        let b = self.one_behind(Symbol::Comma, at)?;
        places.take(b)?;
        self.more_places(places, at)?;
        passed(Symbol::RoundClose, self.text, at)
    }

    /// A `path` more, behind its word.
    pub(crate) fn path_call(&self, parts: &mut Parts, at: &mut Lexeme) -> Result<(), PolicyFault>
        requires stands { StandsIn self.now.text.now at.old }
        ensures read { GivesUnless NoMemory (λ _. (parts_value parts.new, left self.now.text.now at.new)) result
            (taken (path_read self.now.text.now self.now.whole.now.net.now (plain_names self.now.known.now) (left self.now.text.now at.old)) (parts_value parts.old)) }
        ensures stands { StandsIn self.now.text.now at.new }
        ensures fewer { length (left self.now.text.now at.new) ≤ length (left self.now.text.now at.old) }
    {
        let mut places = PathPlaces::none(self.alloc);
        self.path_places(&mut places, at)?;
        parts.take_call(places.read())
    }
}
