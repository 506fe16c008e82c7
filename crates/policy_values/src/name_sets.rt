//! Sets of named locations, joined as their names are read.
ghost use Rattle.std.specs.Prelude.{◌≡◌, ◌≤◌, [], ◌∷◌, length};
ghost use Rattle.net_base.specs.Gives.{GivesUnless};
ghost use Rattle.policy_tokens.specs.declared.fault.PolicyFault.TheVariants.{NoMemory};
ghost use Rattle.policy_grammar.specs.Left.{left, StandsIn};
ghost use Rattle.policy_grammar.specs.Reading.{chain};
ghost use Rattle.policy_grammar.specs.Names.{names_at, braced_at};
ghost use Rattle.policy_grammar.specs.Calls.{set_at, one_at};
ghost use Rattle.policy_rules.specs.KnownView.{plain_names};
ghost use Rattle.policy_rules.specs.Checks.{set_of_names};
ghost use Rattle.policy_values.specs.Built.{set_of_arg};
ghost use Rattle.policy_values.specs.NameSets.{link_by, with_named as with_one};
ghost use Rattle.policy_values.specs.Reads.{over};

use crate::reader::Reader;
use net_base::LocSet;
use policy_grammar::{Lexeme, Symbol, begins, first, passed, past};
use policy_rules::set_at;
use policy_tokens::PolicyFault;
use policy_words::CallWord;

impl Reader<'_> {
    /// The locations of one name more. The first name that is unknown stays the answer.
    pub(crate) fn add_named(&self, joined: &mut Result<LocSet, PolicyFault>, name: &Lexeme)
        ensures { joined.new ≡ with_one self.now.text.now (plain_names self.now.known.now) joined.old name.now }
    {
        let Ok(set) = *joined else {
            return;
        };
        *joined = match set_at(self.text, self.known, name) {
            Ok(more) => Ok(set.union(&more)),
            Err(fault) => Err(fault),
        };
    }

    // The locations of a name.
    fn alone(&self, name: &Lexeme) -> Result<LocSet, PolicyFault>
        ensures { result ≡ set_of_names self.now.text.now (plain_names self.now.known.now) (name.now ∷ []) }
    {
        let mut joined = Ok(LocSet::new());
        self.add_named(&mut joined, name);
        joined
    }

    // More names, as long as a comma comes.
    fn more_names(
        &self,
        joined: &mut Result<LocSet, PolicyFault>,
        at: &mut Lexeme,
    ) -> Result<(), PolicyFault>
        requires stands { StandsIn self.now.text.now at.old }
        ensures read { GivesUnless NoMemory (λ _. (joined.new, left self.now.text.now at.new)) result
            (chain Symbol.Comma (link_by (with_one self.now.text.now (plain_names self.now.known.now))) (length (left self.now.text.now at.old)) joined.old (left self.now.text.now at.old)) }
        ensures stands { StandsIn self.now.text.now at.new }
        ensures fewer { length (left self.now.text.now at.new) ≤ length (left self.now.text.now at.old) }
    {
        while past(Symbol::Comma, self.text, at) {
            let name = first(Symbol::Name, self.text, at)?;
            self.add_named(joined, &name);
        }
        Ok(())
    }

    /// Names that are joined by commas.
    #[tactic(auto, unfolding(policy_grammar::specs::Names::names_at))]
    pub fn names(&self, at: &mut Lexeme) -> Result<Result<LocSet, PolicyFault>, PolicyFault>
        requires stands { StandsIn self.now.text.now at.old }
        ensures read { GivesUnless NoMemory (λ x. (x, left self.now.text.now at.new)) result
            (over (set_of_names self.now.text.now (plain_names self.now.known.now)) (names_at (left self.now.text.now at.old))) }
        ensures stands { StandsIn self.now.text.now at.new }
        ensures fewer { length (left self.now.text.now at.new) ≤ length (left self.now.text.now at.old) }
    {
        let name = first(Symbol::Name, self.text, at)?;
        let mut joined = self.alone(&name);
        self.more_names(&mut joined, at)?;
        Ok(joined)
    }

    /// Names in braces.
    #[tactic(auto, unfolding(policy_grammar::specs::Names::braced_at))]
    pub fn braced(&self, at: &mut Lexeme) -> Result<Result<LocSet, PolicyFault>, PolicyFault>
        requires stands { StandsIn self.now.text.now at.old }
        ensures read { GivesUnless NoMemory (λ x. (x, left self.now.text.now at.new)) result
            (over (set_of_names self.now.text.now (plain_names self.now.known.now)) (braced_at (left self.now.text.now at.old))) }
        ensures stands { StandsIn self.now.text.now at.new }
        ensures fewer { length (left self.now.text.now at.new) ≤ length (left self.now.text.now at.old) }
    {
        passed(Symbol::BraceOpen, self.text, at)?;
        let set = self.names(at)?;
        passed(Symbol::BraceClose, self.text, at)?;
        Ok(set)
    }

    /// A set: all locations, or names.
    #[tactic(auto, unfolding(policy_grammar::specs::Calls::set_at))]
    pub(crate) fn set(&self, at: &mut Lexeme) -> Result<Result<LocSet, PolicyFault>, PolicyFault>
        requires stands { StandsIn self.now.text.now at.old }
        ensures read { GivesUnless NoMemory (λ x. (x, left self.now.text.now at.new)) result
            (over (set_of_arg self.now.text.now self.now.whole.now.net.now (plain_names self.now.known.now)) (set_at (left self.now.text.now at.old))) }
        ensures stands { StandsIn self.now.text.now at.new }
        ensures fewer { length (left self.now.text.now at.new) ≤ length (left self.now.text.now at.old) }
    {
        if past(Symbol::Call(CallWord::Any), self.text, at) {
            return Ok(Ok(self.whole.all));
        }
        self.names(at)
    }

    /// A place of a `link` or a `path`: all locations, a name, or names in braces.
    #[tactic(auto, unfolding(policy_grammar::specs::Calls::one_at))]
    pub(crate) fn one(&self, at: &mut Lexeme) -> Result<Result<LocSet, PolicyFault>, PolicyFault>
        requires stands { StandsIn self.now.text.now at.old }
        ensures read { GivesUnless NoMemory (λ x. (x, left self.now.text.now at.new)) result
            (over (set_of_arg self.now.text.now self.now.whole.now.net.now (plain_names self.now.known.now)) (one_at (left self.now.text.now at.old))) }
        ensures stands { StandsIn self.now.text.now at.new }
        ensures fewer { length (left self.now.text.now at.new) ≤ length (left self.now.text.now at.old) }
    {
        if past(Symbol::Call(CallWord::Any), self.text, at) {
            return Ok(Ok(self.whole.all));
        }
        if begins(Symbol::BraceOpen, at) {
            return self.braced(at);
        }
        let name = first(Symbol::Name, self.text, at)?;
        Ok(self.alone(&name))
    }
}
