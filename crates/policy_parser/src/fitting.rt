//! Policies that are read fit their network.
//!
//! There is no code here. What `policy_parser` reads, by its rules, is what the laws of evidence ask of a policy.

ghost use Rattle.std.specs.Prelude.{◌≡◌, ℕ, List, Ok};
ghost use Rattle.net_base.specs.Network.{PlainNet};
ghost use Rattle.policy_base.specs.Policies.{PlainPolicy, IsPolicyOf};
ghost use Rattle.policy_parser.specs.Spelled.{spelled};

/// A policy that a text spells for a network is within the limits, is over prefixes and patterns, and has routers alone as
/// origins. The network need keep no rule for that.
pub fn policies_that_are_read_fit()
    ensures { (net : PlainNet) (bytes : List ℕ) (policy : PlainPolicy) → spelled net bytes ≡ Ok policy → IsPolicyOf net policy }
{}
