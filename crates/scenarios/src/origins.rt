//! The origins of a prefix.
ghost use Rattle.std.specs.Prelude.{◌≡◌, ℕ};
ghost use Rattle.net_base.specs.Sets.{holds};
ghost use Rattle.policy_base.specs.Governing.{is_origin};
ghost use Rattle.policy_base.specs.Policies.{policy_of};

use net_base::{LocSet, Net, Prefix, known_net};
use policy_base::{Policy, origins_of};

/// The origins of a prefix.
pub fn origins_at(net: &Net, policy: &Policy, prefix: Prefix) -> LocSet
    ensures { (l : ℕ) → holds result l ≡ is_origin net.now (policy_of policy.now) prefix l }
{
    known_net(net);
    match origins_of(policy, prefix) {
        None => net.peer_set(),
        Some(routers) => routers,
    }
}
