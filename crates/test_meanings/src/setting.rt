//! What a row says, as values.
use config_base::Config;
use net_base::Net;
use policy_base::Policy;
use scenarios::Scenario;

/// The network, the policy, the configuration and the scenario of a row.
#[derive(Clone, Copy)]
pub(crate) struct Setting<'s> {
    pub(crate) net: &'s Net,
    pub(crate) policy: &'s Policy,
    pub(crate) config: &'s Config,
    pub(crate) scenario: &'s Scenario,
}
