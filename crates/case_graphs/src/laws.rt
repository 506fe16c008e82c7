//! Laws of the limits, each the contract of a function without a body.
ghost use Rattle.std.specs.Prelude.{◌≡◌, ◌⊎◌};
ghost use Rattle.net_base.specs.Network.{PlainNet};
ghost use Rattle.policy_base.specs.Policies.{PlainPolicy};
ghost use Rattle.case_graphs.specs.declared.refusal.LimitRefusal.{LimitRefusal as PlainRefusal};
ghost use Rattle.case_graphs.specs.declared.refusal.LimitRefusal.TheVariants.{NoMemory};
ghost use Rattle.case_graphs.specs.Limits.{AreAllWithin, IsRefused};

/// Where all cases are within the limits, none of these refuses the policy.
pub fn cases_within_limits_are_not_refused()
    ensures { (net : PlainNet) (policy : PlainPolicy) (e : PlainRefusal) → AreAllWithin net policy → IsRefused net policy e → e ≡ NoMemory }
{}

/// The limits refuse a policy for one cause, if memory is not refused.
pub fn refusals_for_limits_exclude_one_another()
    ensures { (net : PlainNet) (policy : PlainPolicy) (e f : PlainRefusal) → IsRefused net policy e → IsRefused net policy f → (e ≡ NoMemory) ⊎ (f ≡ NoMemory) ⊎ (e ≡ f) }
{}
