//! What the first patterns of a prefix both contain.
ghost use Rattle.std.specs.Prelude.{◌≡◌, ◌≤◌, IfSome, max, nat_le, if◌then◌else◌};
ghost use Rattle.policy_base.specs.Policies.{PlainPolicy};
ghost use Rattle.policy_pairs.specs.Groups.{TellBoth};
ghost use Rattle.policy_pairs.specs.Pairs.{common as common_of_two, common_of as common_of_firsts, common_pattern as common_pattern_of};

use crate::asked::BothTold;
use compare_base::CommonPattern;
use first_patterns::Stated;
use net_base::{Pattern, Prefix};

// The longer of two prefixes.
fn longer(one: Prefix, other: Prefix) -> Prefix
    ensures prefix { result ≡ (if nat_le one.len other.len then other else one) }
    ensures len { result.len ≡ max one.len other.len }
{
    if one.len() <= other.len() { other } else { one }
}

// The pattern with the longer base and the lesser upper length, of two that have lengths in common.
fn common(one: Pattern, other: Pattern) -> Pattern
    requires one { one.base.len ≤ other.upto }
    requires other { other.base.len ≤ one.upto }
    ensures { result ≡ common_of_two one other }
{
    let base = longer(one.base(), other.base());
    let upto = one.upto().min(other.upto());
    Pattern::new(base, upto)
}

// What the first patterns of a prefix both contain.
fn common_of(prefix: Prefix, old: Option<Stated>, new: Option<Stated>) -> Pattern
    requires old { IfSome old (λ t. (t.pattern.base.len ≤ prefix.len) × (prefix.len ≤ t.pattern.upto)) }
    requires new { IfSome new (λ t. (t.pattern.base.len ≤ prefix.len) × (prefix.len ≤ t.pattern.upto)) }
    ensures { result ≡ common_of_firsts prefix old new }
{
    match (old, new) {
        (Some(old), Some(new)) => common(old.pattern, new.pattern),
        (Some(old), None) => old.pattern,
        (None, Some(new)) => new.pattern,
        (None, None) => Pattern::only(prefix),
    }
}

/// What the first patterns of a prefix both contain, with the prefix.
pub(crate) fn common_pattern(both: &BothTold, prefix: Prefix) -> CommonPattern
    requires { (old new : PlainPolicy) × TellBoth both.now old new }
    ensures { (old new : PlainPolicy) → TellBoth both.now old new → result ≡ common_pattern_of old new prefix }
{
    let old = both.old.firsts.first(prefix);
    let new = both.new.firsts.first(prefix);
    let pattern = common_of(prefix, old, new);
    CommonPattern {
        pattern,
        least: prefix,
    }
}
