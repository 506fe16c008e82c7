//! Whether a pair has changed.
ghost use Rattle.std.specs.Prelude.{◌≡◌};
ghost use Rattle.comparison.specs.Changed.{have_same_origins as same_origins, is_changed, origin_set as origin_set_of};

use crate::values::ComparedPair;
use compare_base::CasePair;
use net_base::{LocSet, Net};

// The origins as a set.
fn origin_set(net: &Net, origins: Option<LocSet>) -> LocSet
    ensures { result ≡ origin_set_of net.now origins }
{
    match origins {
        None => net.peer_set(),
        Some(origins) => origins,
    }
}

// Whether both policies have the same origins.
fn have_same_origins(net: &Net, cases: &CasePair) -> bool
    ensures { result ≡ same_origins net.now cases.now }
{
    origin_set(net, cases.old.origins) == origin_set(net, cases.new.origins)
}

/// Whether the policies say otherwise of a pair: they have other origins for it, or some place differs.
pub fn has_changed(net: &Net, compared: &ComparedPair) -> bool
    ensures { result ≡ is_changed net.now compared.now }
{
    !have_same_origins(net, &compared.pair.cases) || !compared.change.kinds.as_slice().is_empty()
}
