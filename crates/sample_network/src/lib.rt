//! A data centre with a given number of leaves, and a policy for it, as two texts that spell them.
//!
//! `sample` makes the network and the policy as values and prints them, so its contract can say what the texts spell.
//! `specs/Network` has the network: 2 to 96 leaves and four spines, each leaf linked with each spine, and two peers, each
//! at a spine of its own. `specs/SamplePolicy` has the policy: each leaf originates a prefix, no leaf carries the traffic
//! of others, and all else leaves by the first peer, or by the second one where it can't.
//!
//! AS numbers are private ones of two octets (RFC 6996), identifiers and prefixes lie in 10.0.0.0/8. The text of the policy
//! is short enough to be read as an input (`short`).
//!
//! `sample` alone needs it.
//!
//! It knows nothing of cases.
#![tactic(auto)]

ghost use Rattle.std.specs.Prelude.{◌≡◌, ◌↔◌, ◌≤◌, IfOk, IsErrAnd, Ok, length};
ghost use Rattle.sample_network.specs.Network.{IsSampleNumber, sample_net};
ghost use Rattle.sample_network.specs.SamplePolicy.{sample_policy};
ghost use Rattle.input_output.specs.declared.limits.TheConstants.{INPUT_BYTES};
ghost use Rattle.net_text.specs.NetText.{net_text};
ghost use Rattle.policy_parser.specs.Spelled.{spelled as policy_spelled};
ghost use Rattle.policy_text.specs.PolicyText.{policy_text};
ghost use Rattle.topology.specs.Topology.{spelled};

mod fault;
mod network;
mod policy;

pub use fault::SampleFault;
use net_text::print_net;
use policy_text::print_policy;
use std::alloc::Global;

/// The texts of the sample's topology and policy. They spell the network of so many leaves, and the policy for it. The text of
/// the policy is no longer than 33,554,432 bytes, so that it can be read. A number that isn't from 2 to 96 gives `Range`.
pub fn sample(alloc: Global, leaves: u16) -> Result<(Vec<u8>, Vec<u8>), SampleFault>
    ensures range { IsErrAnd result (λ e. e ≡ SampleFault.Range) ↔ ¬ IsSampleNumber leaves }
    ensures topology { IfOk result (λ texts. spelled texts.0.items ≡ Ok (sample_net leaves)) }
    ensures policy { IfOk result (λ texts. policy_spelled (sample_net leaves) texts.1.items ≡ Ok (sample_policy leaves)) }
    ensures texts { IfOk result (λ texts. (texts.0.items ≡ net_text (sample_net leaves))
        × (texts.1.items ≡ policy_text (sample_net leaves) (sample_policy leaves))) }
    ensures short { IfOk result (λ texts. length texts.1.items ≤ INPUT_BYTES) }
{
    if leaves < 2 || leaves > 96 {
        return Err(SampleFault::Range);
    }
    let net = network::network(alloc, leaves)?;
    let policy = policy::policy(alloc, leaves)?;
    let topology = print_net(alloc, &net)?;
    let text = print_policy(alloc, &policy, &net)?;
    Ok((topology, text))
}
