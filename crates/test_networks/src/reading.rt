//! Texts that are read.
ghost use Rattle.std.specs.Prelude.{IfSome};
ghost use Rattle.policy_base.specs.CaseNumbers.{OriginsAreRouters};

use crate::networks::Network;
use config_base::Config;
use config_reader::read_config;
use net_base::Net;
use policy_base::Policy;
use policy_parser::read_policy;
use std::alloc::Global;
use topology::read_topology;

// The network of a text, where it is one.
fn net_of(alloc: Global, text: &str) -> Option<Net> {
    if text.len() > 65536 {
        return None;
    }
    read_topology(alloc, text.as_bytes()).ok()
}

/// A small network and the policy of a text for it, where the texts are such.
pub fn read(alloc: Global, network: Network, policy: &str) -> Option<(Net, Policy)>
    ensures { IfSome result (λ r. OriginsAreRouters r.0 r.1.origins) }
{
    if policy.len() > 65536 {
        return None;
    }
    let net = net_of(alloc, network.text())?;
    match read_policy(alloc, policy.as_bytes(), &net) {
        Ok(policy) => Some((net, policy)),
        Err(_) => None,
    }
}

/// The configuration of a short text, where it is one.
pub fn config_of(alloc: Global, text: &str) -> Option<Config> {
    if text.len() > 65536 {
        return None;
    }
    read_config(alloc, text.as_bytes()).ok()
}
