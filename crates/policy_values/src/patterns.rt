//! The prefixes that statements govern.
ghost use Rattle.std.specs.Prelude.{◌≡◌, ◌≤◌, ◌<◌, ◌+◌, length, Ok, Err, OnOk};
ghost use Rattle.net_base.specs.Gives.{GivesUnless};
ghost use Rattle.policy_tokens.specs.declared.fault.PolicyFault.TheVariants.{NoMemory};
ghost use Rattle.policy_grammar.specs.Left.{left, StandsIn};
ghost use Rattle.policy_grammar.specs.Reading.{chain};
ghost use Rattle.policy_grammar.specs.Items.{pattern_at as pattern_in, predicate_at};
ghost use Rattle.policy_rules.specs.Figures.{pattern_at as pattern_there};
ghost use Rattle.policy_values.specs.PatternValues.{plain_patterns, no_patterns, with_fine as with_one, with_pattern, patterns_value, value_link};
ghost use Rattle.policy_values.specs.Reads.{over};

use net_base::Pattern;
use policy_base::limits::PATTERNS;
use policy_grammar::{Lexeme, Symbol, first, past};
use policy_rules::{all_prefixes, inside_at, only_at};
use policy_tokens::PolicyFault;
use std::alloc::Global;

/// The patterns of a statement.
#[derive(Drop)]
pub struct PatternsRead {
    /// How many there are.
    pub count: u64,
    /// The first figure that is no prefix or no length.
    pub figures: Result<(), PolicyFault>,
    /// The patterns up to the first bad figure, and no more of them than a policy may have.
    pub list: Vec<Pattern>,
}

impl PatternsRead {
    // No pattern.
    fn none(alloc: Global) -> PatternsRead
        ensures { plain_patterns result ≡ no_patterns }
    {
        PatternsRead {
            count: 0,
            figures: Ok(()),
            list: Vec::new(alloc),
        }
    }

    // Keeps a pattern behind those so far, if there is room in a policy.
    fn keep(&mut self, pattern: Pattern) -> Result<(), PolicyFault>
        requires few { self.old.count < 18446744073709551615 }
        ensures { GivesUnless NoMemory (λ _. plain_patterns self.new) result (Ok (with_one (plain_patterns self.old) (Ok pattern))) }
    {
        self.count += 1;
        self.figures = Ok(());
        if self.count <= PATTERNS {
            self.list.push(pattern)?;
        }
        Ok(())
    }

    // Counts a pattern with a bad figure, or one behind such a figure.
    fn refuse(&mut self, fault: PolicyFault)
        requires few { self.old.count < 18446744073709551615 }
        ensures { plain_patterns self.new ≡ with_one (plain_patterns self.old) (Err fault) }
    {
        self.count += 1;
        self.figures = Err(fault);
    }

    // Takes a pattern more.
    fn take(&mut self, read: Result<Pattern, PolicyFault>) -> Result<(), PolicyFault>
        requires few { self.old.count < 18446744073709551615 }
        ensures { GivesUnless NoMemory (λ _. plain_patterns self.new) result (Ok (with_pattern (plain_patterns self.old) read)) }
    {
        match (self.figures, read) {
            (Ok(_), Ok(pattern)) => self.keep(pattern),
            (Ok(_), Err(fault)) => {
                self.refuse(fault);
                Ok(())
            }
            (Err(fault), _) => {
                self.refuse(fault);
                Ok(())
            }
        }
    }
}

// A prefix, with a greatest length or without.
#[tactic(auto, unfolding(policy_grammar::specs::Items::pattern_at))]
fn pattern(text: &[u8], at: &mut Lexeme) -> Result<Result<Pattern, PolicyFault>, PolicyFault>
    requires stands { StandsIn text.now at.old }
    ensures read { GivesUnless NoMemory (λ x. (x, left text.now at.new)) result (over (pattern_there text.now) (pattern_in (left text.now at.old))) }
    ensures stands { StandsIn text.now at.new }
    ensures onward { OnOk result (length (left text.now at.new) < length (left text.now at.old)) }
    ensures fewer { length (left text.now at.new) ≤ length (left text.now at.old) }
{
    let base = first(Symbol::Figure, text, at)?;
    if !past(Symbol::Le, text, at) {
        return Ok(only_at(text, &base));
    }
    let upto = first(Symbol::Figure, text, at)?;
    Ok(inside_at(text, &base, &upto))
}

// More patterns, as long as an `or` comes.
fn more_patterns(text: &[u8], found: &mut PatternsRead, at: &mut Lexeme) -> Result<(), PolicyFault>
    requires stands { StandsIn text.now at.old }
    requires few { found.old.count + length (left text.now at.old) ≤ 18446744073709551615 }
    ensures read { GivesUnless NoMemory (λ _. (plain_patterns found.new, left text.now at.new)) result
        (chain Symbol.Or (value_link text.now) (length (left text.now at.old)) (plain_patterns found.old) (left text.now at.old)) }
    ensures stands { StandsIn text.now at.new }
    ensures fewer { length (left text.now at.new) ≤ length (left text.now at.old) }
{
    while past(Symbol::Or, text, at) {
        let next = pattern(text, at)?;
        found.take(next)?;
    }
    Ok(())
}

/// The prefixes that a statement governs.
#[tactic(auto, unfolding(policy_grammar::specs::Items::predicate_at))]
pub fn predicate(alloc: Global, text: &[u8], at: &mut Lexeme) -> Result<PatternsRead, PolicyFault>
    requires stands { StandsIn text.now at.old }
    ensures read { GivesUnless NoMemory (λ x. (plain_patterns x, left text.now at.new)) result (over (patterns_value text.now) (predicate_at (left text.now at.old))) }
    ensures stands { StandsIn text.now at.new }
    ensures fewer { length (left text.now at.new) ≤ length (left text.now at.old) }
    ensures onward { OnOk result (length (left text.now at.new) < length (left text.now at.old)) }
{
    let mut found = PatternsRead::none(alloc);
    if past(Symbol::True, text, at) {
        found.take(Ok(all_prefixes()))?;
        return Ok(found);
    }
    let first = pattern(text, at)?;
    found.take(first)?;
    more_patterns(text, &mut found, at)?;
    Ok(found)
}
