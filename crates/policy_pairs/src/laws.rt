//! What is known of the pairs of two policies: a law, the contract of a function without a body.
ghost use Rattle.std.specs.Prelude.{◌≡◌, List};
ghost use Rattle.net_base.specs.Network.{PlainNet};
ghost use Rattle.policy_base.specs.Policies.{IsPolicyOf, PlainPolicy};
ghost use Rattle.compare_base.specs.declared.pairs.Pair.{Pair};
ghost use Rattle.policy_pairs.specs.Pairs.{ArePairs};

/// Two policies have one list of pairs.
pub fn pairs_are_one()
    ensures { (net : PlainNet) (old new : PlainPolicy) (xs ys : List Pair) → IsPolicyOf net old → IsPolicyOf net new → ArePairs net old new xs → ArePairs net old new ys → xs ≡ ys }
{}
