//! What the compiler gives.

use config_base::Config;
use evidence_base::Evidence;

/// The configuration of a policy, and the evidence that it is right.
#[derive(Drop)]
pub struct Compiled {
    /// The configuration.
    pub config: Config,
    /// The evidence of which it is made.
    pub evidence: Evidence,
}
