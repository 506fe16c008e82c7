//! What every policy keeps.
ghost use Rattle.policy_base.specs.Policies.{IsPolicy, policy_of};

use crate::policy::Policy;

/// What every policy keeps, for a proof that asks for it.
pub fn known_policy(policy: &Policy)
    ensures { IsPolicy (policy_of policy.now) }
{
    let _origins = policy.origins();
}
