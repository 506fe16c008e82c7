//! Ranked expressions, read to their values.
ghost use Rattle.std.specs.Prelude.{◌≤◌, [], length};
ghost use Rattle.policy_tokens.specs.declared.limits.TheConstants.{BRACKETS};
ghost use Rattle.net_base.specs.Gives.{GivesUnless};
ghost use Rattle.policy_tokens.specs.declared.fault.PolicyFault.TheVariants.{NoMemory};
ghost use Rattle.policy_grammar.specs.Left.{left, StandsIn};
ghost use Rattle.policy_grammar.specs.Reading.{chain};
ghost use Rattle.policy_grammar.specs.Ranked.{operator_of, ranked_with, inner_at as bracket_at};
ghost use Rattle.policy_rules.specs.KnownView.{plain_names};
ghost use Rattle.policy_values.specs.Parts.{parts_value, parts_of, step_onto};
ghost use Rattle.policy_values.specs.Reads.{over};
ghost use Rattle.policy_values.specs.Levels.{atom_at, unit_at, side_at, joined_at, side_link, inner_at};
ghost use Rattle.policy_values.specs.Operators.{level_of};

use crate::operators::Operator;
use crate::parts::Parts;
use crate::reader::Reader;
use policy_grammar::{Lexeme, Symbol, passed, past, refused};
use policy_tokens::PolicyFault;
use policy_tokens::limits::BRACKETS;

impl Reader<'_> {
    // What a bracket holds, where `depth` brackets more may be open.
    #[cycle(expression)]
    fn inner(&self, depth: u64, parts: &mut Parts, at: &mut Lexeme) -> Result<(), PolicyFault>
        requires stands { StandsIn self.now.text.now at.old }
        ensures read { GivesUnless NoMemory (λ _. (parts_value parts.new, left self.now.text.now at.new)) result
            (inner_at (step_onto self.now.text.now self.now.whole.now.net.now (plain_names self.now.known.now)) depth (parts_value parts.old) (left self.now.text.now at.old)) }
        ensures stands { StandsIn self.now.text.now at.new }
        ensures fewer { length (left self.now.text.now at.new) ≤ length (left self.now.text.now at.old) }
    {
        if depth == 0 {
            return Err(refused(at));
        }
        self.joined(Operator::Above, depth - 1, parts, at)
    }

    // An expression in brackets, or a call.
    #[cycle(expression)]
    fn atom(&self, depth: u64, parts: &mut Parts, at: &mut Lexeme) -> Result<(), PolicyFault>
        requires stands { StandsIn self.now.text.now at.old }
        ensures read { GivesUnless NoMemory (λ _. (parts_value parts.new, left self.now.text.now at.new)) result
            (atom_at (step_onto self.now.text.now self.now.whole.now.net.now (plain_names self.now.known.now)) depth (parts_value parts.old) (left self.now.text.now at.old)) }
        ensures stands { StandsIn self.now.text.now at.new }
        ensures fewer { length (left self.now.text.now at.new) ≤ length (left self.now.text.now at.old) }
    {
        if past(Symbol::RoundOpen, self.text, at) {
            self.inner(depth, parts, at)?;
            return passed(Symbol::RoundClose, self.text, at);
        }
        self.call(parts, at)
    }

    // An atom, with a `not` before it or without.
    #[cycle(expression)]
    fn unit(&self, depth: u64, parts: &mut Parts, at: &mut Lexeme) -> Result<(), PolicyFault>
        requires stands { StandsIn self.now.text.now at.old }
        ensures read { GivesUnless NoMemory (λ _. (parts_value parts.new, left self.now.text.now at.new)) result
            (unit_at (step_onto self.now.text.now self.now.whole.now.net.now (plain_names self.now.known.now)) depth (parts_value parts.old) (left self.now.text.now at.old)) }
        ensures stands { StandsIn self.now.text.now at.new }
        ensures fewer { length (left self.now.text.now at.new) ≤ length (left self.now.text.now at.old) }
    {
        if past(Symbol::Not, self.text, at) {
            self.atom(depth, parts, at)?;
            return parts.take_not(self.alloc);
        }
        self.atom(depth, parts, at)
    }

    // What stands on the sides of an operator.
    #[cycle(expression)]
    fn side(
        &self,
        operator: Operator,
        depth: u64,
        parts: &mut Parts,
        at: &mut Lexeme,
    ) -> Result<(), PolicyFault>
        requires stands { StandsIn self.now.text.now at.old }
        ensures read { GivesUnless NoMemory (λ _. (parts_value parts.new, left self.now.text.now at.new)) result
            (side_at (step_onto self.now.text.now self.now.whole.now.net.now (plain_names self.now.known.now)) (level_of operator) depth (parts_value parts.old) (left self.now.text.now at.old)) }
        ensures stands { StandsIn self.now.text.now at.new }
        ensures fewer { length (left self.now.text.now at.new) ≤ length (left self.now.text.now at.old) }
    {
        match operator {
            Operator::Above => self.joined(Operator::Or, depth, parts, at),
            Operator::Or => self.joined(Operator::And, depth, parts, at),
            Operator::And => self.unit(depth, parts, at),
        }
    }

    // More sides, as long as their operator comes.
    #[cycle(expression)]
    fn more_sides(
        &self,
        operator: Operator,
        depth: u64,
        parts: &mut Parts,
        at: &mut Lexeme,
    ) -> Result<(), PolicyFault>
        requires stands { StandsIn self.now.text.now at.old }
        ensures read { GivesUnless NoMemory (λ _. (parts_value parts.new, left self.now.text.now at.new)) result
            (chain (operator_of (level_of operator))
            (side_link (step_onto self.now.text.now self.now.whole.now.net.now (plain_names self.now.known.now)) (level_of operator)
            (side_at (step_onto self.now.text.now self.now.whole.now.net.now (plain_names self.now.known.now)) (level_of operator) depth))
            (length (left self.now.text.now at.old)) (parts_value parts.old) (left self.now.text.now at.old)) }
        ensures stands { StandsIn self.now.text.now at.new }
        ensures fewer { length (left self.now.text.now at.new) ≤ length (left self.now.text.now at.old) }
    {
        let symbol = operator.symbol();
        let mut place = at.place;
        while past(symbol, self.text, at) {
            self.side(operator, depth, parts, at)?;
            parts.take_sides(self.alloc, operator, place)?;
            place = at.place;
        }
        Ok(())
    }

    // Sides that are joined by an operator, where `depth` brackets may be open.
    #[cycle(expression)]
    fn joined(
        &self,
        operator: Operator,
        depth: u64,
        parts: &mut Parts,
        at: &mut Lexeme,
    ) -> Result<(), PolicyFault>
        requires stands { StandsIn self.now.text.now at.old }
        ensures read { GivesUnless NoMemory (λ _. (parts_value parts.new, left self.now.text.now at.new)) result
            (joined_at (step_onto self.now.text.now self.now.whole.now.net.now (plain_names self.now.known.now)) (level_of operator) depth (parts_value parts.old) (left self.now.text.now at.old)) }
        ensures stands { StandsIn self.now.text.now at.new }
        ensures fewer { length (left self.now.text.now at.new) ≤ length (left self.now.text.now at.old) }
    {
        self.side(operator, depth, parts, at)?;
        self.more_sides(operator, depth, parts, at)
    }

    /// A ranked expression, in its parts. At most 64 brackets are open at once.
    pub fn ranked(&self, at: &mut Lexeme) -> Result<Parts, PolicyFault>
        requires stands { StandsIn self.now.text.now at.old }
        ensures read { GivesUnless NoMemory (λ x. (parts_value x, left self.now.text.now at.new)) result
            (over (parts_of self.now.text.now self.now.whole.now.net.now (plain_names self.now.known.now)) (ranked_with (bracket_at BRACKETS) [] (left self.now.text.now at.old))) }
        ensures stands { StandsIn self.now.text.now at.new }
        ensures fewer { length (left self.now.text.now at.new) ≤ length (left self.now.text.now at.old) }
    {
        let mut parts = Parts::of(self.alloc);
        self.joined(Operator::Above, BRACKETS, &mut parts, at)?;
        Ok(parts)
    }
}
