//! Statements and items, read to what they come to.
ghost use Rattle.std.specs.Prelude.{◌≡◌, ◌≤◌, ◌<◌, ℕ, List as Items, [], length, OnOk};
ghost use Rattle.net_base.specs.Network.{PlainNet};
ghost use Rattle.net_base.specs.Gives.{GivesUnless};
ghost use Rattle.policy_tokens.specs.declared.fault.PolicyFault.TheVariants.{NoMemory};
ghost use Rattle.policy_grammar.specs.Raw.{RawStatement};
ghost use Rattle.policy_grammar.specs.Left.{left, StandsIn};
ghost use Rattle.policy_grammar.specs.Items.{from_at};
ghost use Rattle.policy_rules.specs.KnownNames.{Names as PlainNames};
ghost use Rattle.policy_rules.specs.KnownView.{plain_names};
ghost use Rattle.policy_values.specs.Built.{from_of};
ghost use Rattle.policy_parser.specs.ItemReads.{ReadsStatement};
ghost use Rattle.policy_parser.specs.ItemValues.{IsStatement, ReadsItem};
ghost use Rattle.policy_values.specs.NameSets.{sources_of};
ghost use Rattle.policy_values.specs.Parts.{parts_value, parts_of};
ghost use Rattle.policy_values.specs.PatternValues.{plain_patterns, patterns_value};
ghost use Rattle.policy_values.specs.Reads.{over};

use crate::group_items::{define, originate};
use crate::values::{ItemRead, StatementRead};
use net_base::{List, LocSet};
use policy_base::{FromSet, Statement};
use policy_grammar::{Lexeme, Symbol, passed, past};
use policy_rules::within;
use policy_tokens::limits::CALLS;
use policy_tokens::{Kind, PolicyFault};
use policy_values::{Parts, PatternsRead, Reader, predicate};
use policy_words::CallWord;

// The sources that are named.
fn named(set: Result<LocSet, PolicyFault>) -> Result<FromSet, PolicyFault>
    ensures { result ≡ sources_of set }
{
    Ok(FromSet::Named(set?))
}

// The sources that a statement claims, or the first of their names that is unknown.
#[tactic(auto, unfolding(policy_grammar::specs::Items::from_at, policy_grammar::specs::Calls::set_at))]
fn from(reader: &Reader<'_>, at: &mut Lexeme) -> Result<Result<FromSet, PolicyFault>, PolicyFault>
    requires stands { StandsIn reader.now.text.now at.old }
    ensures read { GivesUnless NoMemory (λ x. (x, left reader.now.text.now at.new)) result
        (over (from_of reader.now.text.now (plain_names reader.now.known.now)) (from_at (left reader.now.text.now at.old))) }
    ensures stands { StandsIn reader.now.text.now at.new }
    ensures fewer { length (left reader.now.text.now at.new) ≤ length (left reader.now.text.now at.old) }
{
    if !past(Symbol::From, reader.text, at) || past(Symbol::Call(CallWord::Any), reader.text, at) {
        return Ok(Ok(FromSet::Any));
    }
    let set = reader.names(at)?;
    Ok(named(set))
}

// What a statement comes to, by its parts.
fn judged(
    patterns: PatternsRead,
    mut parts: Parts,
    from: Result<FromSet, PolicyFault>,
) -> StatementRead
    ensures { (bytes : Items ℕ) (net : PlainNet) (known : PlainNames) (s : RawStatement) → plain_patterns patterns ≡ patterns_value bytes s.patterns
        → parts_value parts ≡ parts_of bytes net known s.ranked → from ≡ from_of bytes known s.from → IsStatement bytes net known s result }
{
    StatementRead {
        names: parts.names_and(&from),
        figures: patterns.figures,
        patterns: patterns.count,
        ranks: parts.ranks(),
        calls: within(Kind::Calls, CALLS, parts.calls),
        places: parts.places,
        value: Statement {
            patterns: List::from_vec(patterns.list),
            ranked: parts.ranked(),
            from: from.unwrap_or(FromSet::Any),
        },
    }
}

// A statement.
#[tactic(auto, unfolding(policy_grammar::specs::Items::statement_at))]
fn statement(reader: &Reader<'_>, at: &mut Lexeme) -> Result<StatementRead, PolicyFault>
    requires stands { StandsIn reader.now.text.now at.old }
    ensures read { ReadsStatement reader.now.text.now reader.now.whole.now.net.now (plain_names reader.now.known.now) (left reader.now.text.now at.old) (left reader.now.text.now at.new) result }
    ensures stands { StandsIn reader.now.text.now at.new }
    ensures fewer { length (left reader.now.text.now at.new) ≤ length (left reader.now.text.now at.old) }
    ensures onward { OnOk result (length (left reader.now.text.now at.new) < length (left reader.now.text.now at.old)) }
{
    let patterns = predicate(reader.alloc, reader.text, at)?;
    passed(Symbol::Arrow, reader.text, at)?;
    let parts = reader.ranked(at)?;
    let from = from(reader, at)?;
    passed(Symbol::Semicolon, reader.text, at)?;
    Ok(judged(patterns, parts, from))
}

/// An item.
#[tactic(auto, unfolding(policy_grammar::specs::Items::item_at))]
pub(crate) fn item(reader: &Reader<'_>, at: &mut Lexeme) -> Result<ItemRead, PolicyFault>
    requires stands { StandsIn reader.now.text.now at.old }
    ensures read { ReadsItem reader.now.text.now reader.now.whole.now.net.now (plain_names reader.now.known.now) (left reader.now.text.now at.old) (left reader.now.text.now at.new) result }
    ensures stands { StandsIn reader.now.text.now at.new }
    ensures fewer { length (left reader.now.text.now at.new) ≤ length (left reader.now.text.now at.old) }
    ensures onward { OnOk result (length (left reader.now.text.now at.new) < length (left reader.now.text.now at.old)) }
{
    if past(Symbol::Define, reader.text, at) {
        return Ok(ItemRead::Group(define(reader, at)?));
    }
    if past(Symbol::Originate, reader.text, at) {
        return Ok(ItemRead::Origin(originate(reader, at)?));
    }
    Ok(ItemRead::State(statement(reader, at)?))
}
