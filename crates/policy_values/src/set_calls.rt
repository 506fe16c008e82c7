//! Calls with ranked sets, set by set.
ghost use Rattle.std.specs.Prelude.{◌≡◌, ◌≤◌, ℕ, List as Items, [], length, Ok};
ghost use Rattle.net_base.specs.Gives.{GivesUnless};
ghost use Rattle.policy_tokens.specs.declared.fault.PolicyFault.TheVariants.{NoMemory};
ghost use Rattle.policy_base.specs.Policies.{ranking_of};
ghost use Rattle.policy_grammar.specs.Left.{left, StandsIn};
ghost use Rattle.policy_grammar.specs.Reading.{chain};
ghost use Rattle.policy_grammar.specs.Calls.{above_at};
ghost use Rattle.policy_rules.specs.KnownView.{plain_names};
ghost use Rattle.policy_values.specs.CallValues.{plain_value};
ghost use Rattle.policy_values.specs.Built.{ranked_sets as ranked_by};
ghost use Rattle.policy_values.specs.CallReaders.{plain_sets, with_set, sets_value, set_link, placeless, sets_read, taken};
ghost use Rattle.policy_values.specs.Parts.{parts_value};

use crate::call_values::CallRead;
use crate::parts::Parts;
use crate::reader::Reader;
use net_base::{List, LocSet, Place};
use policy_base::{Call, Ranked};
use policy_grammar::{Lexeme, Symbol, begins, passed, past};
use policy_tokens::PolicyFault;
use policy_words::SetCall;
use std::alloc::Global;

/// The ranked sets of a call that were read so far.
#[derive(Drop)]
pub(crate) struct SetsRead {
    /// The first name that is unknown.
    pub names: Result<(), PolicyFault>,
    /// The sets up to there.
    pub list: List<LocSet>,
}

// A call with these ranked sets: with one set it is that call.
fn ranked_sets(call: SetCall, sets: List<LocSet>) -> Ranked
    ensures { ranking_of result ≡ ranked_by call sets }
{
    match sets.as_slice() {
        [only] => Ranked::Call(Call::Of(call, *only)),
        _ => Ranked::Calls(call, sets),
    }
}

impl SetsRead {
    // No set.
    fn none(alloc: Global) -> SetsRead
        ensures { plain_sets result ≡ Ok [] }
    {
        SetsRead {
            names: Ok(()),
            list: List::new(alloc),
        }
    }

    // One set more. Once a name is unknown, the first one stays.
    fn take(&mut self, set: Result<LocSet, PolicyFault>) -> Result<(), PolicyFault>
        ensures { GivesUnless NoMemory (λ _. plain_sets self.new) result (Ok (with_set (plain_sets self.old) set)) }
    {
        match (self.names, set) {
            (Ok(_), Ok(set)) => self.list.push(set)?,
            (Ok(_), Err(fault)) => self.names = Err(fault),
            (Err(_), _) => {}
        }
        Ok(())
    }

    // What the call comes to.
    fn value(self, call: SetCall) -> Result<Ranked, PolicyFault>
        ensures { plain_value result ≡ sets_value call (plain_sets self) }
    {
        self.names?;
        Ok(ranked_sets(call, self.list))
    }
}

// Where the `>>` stands that is this lexeme, if it is one.
fn above(at: &Lexeme) -> Option<Place>
    ensures { (text : Items ℕ) → result ≡ above_at (left text at.now) }
{
    if begins(Symbol::Above, at) {
        Some(at.place)
    } else {
        None
    }
}

impl Reader<'_> {
    // More sets, as long as a `>>` comes.
    fn more_sets(&self, sets: &mut SetsRead, at: &mut Lexeme) -> Result<(), PolicyFault>
        requires stands { StandsIn self.now.text.now at.old }
        ensures read { GivesUnless NoMemory (λ _. (plain_sets sets.new, left self.now.text.now at.new)) result
            (chain Symbol.Above (set_link self.now.text.now self.now.whole.now.net.now (plain_names self.now.known.now))
            (length (left self.now.text.now at.old)) (plain_sets sets.old) (left self.now.text.now at.old)) }
        ensures stands { StandsIn self.now.text.now at.new }
        ensures fewer { length (left self.now.text.now at.new) ≤ length (left self.now.text.now at.old) }
    {
        while past(Symbol::Above, self.text, at) {
            let set = self.set(at)?;
            sets.take(set)?;
        }
        Ok(())
    }

    // The ranked sets of a call, in brackets, and where the first `>>` between them stands.
    #[tactic(auto, unfolding(crate::specs::CallReaders::sets_read))]
    fn ranked_sets(
        &self,
        call: SetCall,
        sets: &mut SetsRead,
        at: &mut Lexeme,
    ) -> Result<Option<Place>, PolicyFault>
        requires none { plain_sets sets.old ≡ Ok [] }
        requires stands { StandsIn self.now.text.now at.old }
        ensures read { GivesUnless NoMemory (λ above. (placeless above (sets_value call (plain_sets sets.new)), left self.now.text.now at.new)) result
            (sets_read self.now.text.now self.now.whole.now.net.now (plain_names self.now.known.now) call (left self.now.text.now at.old)) }
        ensures stands { StandsIn self.now.text.now at.new }
        ensures fewer { length (left self.now.text.now at.new) ≤ length (left self.now.text.now at.old) }
    {
        passed(Symbol::RoundOpen, self.text, at)?;
        let set = self.set(at)?;
        let above = above(at);
        sets.take(set)?;
        self.more_sets(sets, at)?;
        passed(Symbol::RoundClose, self.text, at)?;
        Ok(above)
    }

    /// A call with ranked sets more, behind its word.
    pub(crate) fn sets_call(
        &self,
        call: SetCall,
        parts: &mut Parts,
        at: &mut Lexeme,
    ) -> Result<(), PolicyFault>
        requires stands { StandsIn self.now.text.now at.old }
        ensures read { GivesUnless NoMemory (λ _. (parts_value parts.new, left self.now.text.now at.new)) result
            (taken (sets_read self.now.text.now self.now.whole.now.net.now (plain_names self.now.known.now) call (left self.now.text.now at.old)) (parts_value parts.old)) }
        ensures stands { StandsIn self.now.text.now at.new }
        ensures fewer { length (left self.now.text.now at.new) ≤ length (left self.now.text.now at.old) }
    {
        let mut sets = SetsRead::none(self.alloc);
        let above = self.ranked_sets(call, &mut sets, at)?;
        parts.take_call(CallRead {
            above,
            places: Ok(()),
            value: sets.value(call),
        })
    }
}
