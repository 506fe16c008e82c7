//! Calls on paths.
ghost use Rattle.std.specs.Prelude.{◌≡◌};
ghost use Rattle.policy_base.specs.CallWords.{word_of};

use net_base::{List, LocSet};
use policy_words::{CallWord, SetCall};

/// A call: a test of paths, with the sets of locations that it names. A path is read from its source to
/// its origin end.
#[derive(Drop)]
pub enum Call {
    /// Every path.
    Any,
    /// No path.
    Drop,
    /// No peer occurs.
    Internal,
    /// Some location is in the first set and the next one in the second.
    Link(LocSet, LocSet),
    /// There are as many locations as sets, each in its set.
    Path(List<LocSet>),
    /// The test by this one set.
    Of(SetCall, LocSet),
}

impl Call {
    /// Which call it is.
    pub fn word(&self) -> CallWord
        ensures { result ≡ word_of self.now }
    {
        match self {
            Call::Any => CallWord::Any,
            Call::Drop => CallWord::Drop,
            Call::Internal => CallWord::Internal,
            Call::Link(_, _) => CallWord::Link,
            Call::Path(_) => CallWord::Path,
            Call::Of(call, _) => CallWord::Of(*call),
        }
    }
}
