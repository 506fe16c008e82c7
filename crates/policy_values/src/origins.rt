//! The names of `originate` items.
ghost use Rattle.std.specs.Prelude.{◌≡◌, ◌≤◌, [], ◌∷◌, length};
ghost use Rattle.net_base.specs.Gives.{GivesUnless};
ghost use Rattle.policy_tokens.specs.declared.fault.PolicyFault.TheVariants.{NoMemory};
ghost use Rattle.policy_grammar.specs.Left.{left, StandsIn};
ghost use Rattle.policy_grammar.specs.Reading.{chain};
ghost use Rattle.policy_grammar.specs.Names.{names_at};
ghost use Rattle.policy_rules.specs.KnownView.{plain_names};
ghost use Rattle.policy_values.specs.NameSets.{link_by};
ghost use Rattle.policy_values.specs.OriginNames.{origin_names as named, with_alone, with_origin as with_one};
ghost use Rattle.policy_values.specs.Reads.{over};

use crate::reader::Reader;
use net_base::LocSet;
use policy_grammar::{Lexeme, Symbol, first, past};
use policy_rules::{has_peer, set_at};
use policy_tokens::PolicyFault;

/// The names of an `originate`.
#[derive(Clone, Copy)]
pub struct OriginNames {
    /// The locations that they stand for, or the first one that is unknown.
    pub at: Result<LocSet, PolicyFault>,
    /// The first one that is unknown or stands for a set with a peer.
    pub routers: Result<(), PolicyFault>,
}

impl Reader<'_> {
    // Tests that the names so far and this one stand for routers alone.
    fn routers_alone(
        &self,
        so_far: Result<(), PolicyFault>,
        name: &Lexeme,
    ) -> Result<(), PolicyFault>
        ensures { result ≡ with_alone self.now.text.now self.now.whole.now.net.now (plain_names self.now.known.now) so_far name.now }
    {
        so_far?;
        let set = set_at(self.text, self.known, name)?;
        if has_peer(self.whole.net, &self.whole.peers, &set) {
            return Err(PolicyFault::OriginPeer(name.place));
        }
        Ok(())
    }

    // One name more.
    fn add_origin(&self, found: &mut OriginNames, name: &Lexeme)
        ensures { found.new ≡ with_one self.now.text.now self.now.whole.now.net.now (plain_names self.now.known.now) found.old name.now }
    {
        self.add_named(&mut found.at, name);
        found.routers = self.routers_alone(found.routers, name);
    }

    // The first name.
    fn first_origin(&self, name: &Lexeme) -> OriginNames
        ensures { result ≡ named self.now.text.now self.now.whole.now.net.now (plain_names self.now.known.now) (name.now ∷ []) }
    {
        let mut found = OriginNames {
            at: Ok(LocSet::new()),
            routers: Ok(()),
        };
        self.add_origin(&mut found, name);
        found
    }

    // More names, as long as a comma comes.
    fn more_origins(&self, found: &mut OriginNames, at: &mut Lexeme) -> Result<(), PolicyFault>
        requires stands { StandsIn self.now.text.now at.old }
        ensures read { GivesUnless NoMemory (λ _. (found.new, left self.now.text.now at.new)) result
            (chain Symbol.Comma (link_by (with_one self.now.text.now self.now.whole.now.net.now (plain_names self.now.known.now)))
            (length (left self.now.text.now at.old)) found.old (left self.now.text.now at.old)) }
        ensures stands { StandsIn self.now.text.now at.new }
        ensures fewer { length (left self.now.text.now at.new) ≤ length (left self.now.text.now at.old) }
    {
        while past(Symbol::Comma, self.text, at) {
            let name = first(Symbol::Name, self.text, at)?;
            self.add_origin(found, &name);
        }
        Ok(())
    }

    /// The names of an `originate`, which are joined by commas.
    #[tactic(auto, unfolding(policy_grammar::specs::Names::names_at))]
    pub fn origin_names(&self, at: &mut Lexeme) -> Result<OriginNames, PolicyFault>
        requires stands { StandsIn self.now.text.now at.old }
        ensures read { GivesUnless NoMemory (λ x. (x, left self.now.text.now at.new)) result
            (over (named self.now.text.now self.now.whole.now.net.now (plain_names self.now.known.now)) (names_at (left self.now.text.now at.old))) }
        ensures stands { StandsIn self.now.text.now at.new }
        ensures fewer { length (left self.now.text.now at.new) ≤ length (left self.now.text.now at.old) }
    {
        let name = first(Symbol::Name, self.text, at)?;
        let mut found = self.first_origin(&name);
        self.more_origins(&mut found, at)?;
        Ok(found)
    }
}
