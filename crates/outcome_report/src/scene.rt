//! What a report shows.
ghost use Rattle.std.specs.Prelude.{◌≡◌, IfOk, option_map};
ghost use Rattle.outcome_report.specs.Lines.{Shown};

use net_base::Loc;
use std::alloc::{AllocError, Global};

/// What a report shows of a network, for a prefix.
pub trait Scene {
    /// Who is dead, along which path a router sends, and which path is told of a session.
    ghost shown: { Self → Shown };

    /// Whether a location is dead.
    fn is_dead(&self, at: Loc) -> bool
        ensures { result ≡ (shown self.now).dead at };

    /// The path along which a router sends.
    fn path(&self, at: Loc) -> Option<&[Loc]>
        ensures { option_map (λ path. path.now) result ≡ (shown self.now).path at };

    /// The path that is told of the session of a router and a peer. It begins with the peer.
    fn offer(&self, alloc: Global, router: Loc, peer: Loc) -> Result<Option<Vec<Loc>>, AllocError>
        ensures { IfOk result (λ offer. option_map (λ v. v.items) offer ≡ (shown self.now).offer router peer) };
}
