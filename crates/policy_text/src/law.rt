//! What is printed is read again.
ghost use Rattle.std.specs.Prelude.{◌≡◌, Ok};
ghost use Rattle.net_base.specs.Network.{PlainNet, IsNet};
ghost use Rattle.policy_base.specs.Policies.{PlainPolicy};
ghost use Rattle.policy_parser.specs.Spelled.{spelled};
ghost use Rattle.policy_text.specs.PolicyText.{policy_text};
ghost use Rattle.policy_text.specs.Printable.{IsPrintable};
ghost use Rattle.policy_text.specs.Values.{HasNames, IsPolicyValue};

/// The text of a policy that is printable for a net is read as that policy. The other premises are what the
/// program's types keep of every network and policy.
pub fn printed_policies_are_read()
    ensures { (net : PlainNet) (policy : PlainPolicy) → IsNet net → HasNames net → IsPolicyValue policy → IsPrintable net policy
        → spelled net (policy_text net policy) ≡ Ok policy }
{}
