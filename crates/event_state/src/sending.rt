//! What is to be sent.
ghost use Rattle.std.specs.Prelude.{◌≡◌, ◌&&◌, ◌∷◌, [], Some, None, IfOk, option_map, if◌then◌else◌};
ghost use Rattle.policy_base.specs.Policies.{policy_of};
ghost use Rattle.event_base.specs.World.{exported, owes as owes_by};
ghost use Rattle.event_base.specs.Speaking.{announced_by, exported_by, same_message};
ghost use Rattle.event_state.specs.Readings.{message_of};
ghost use Rattle.event_state.specs.States.{speakers, state};

use crate::world::World;
use config_base::{NO_TAG, Route, export_of};
use net_base::{List, Loc, Tag};
use policy_base::is_origin;
use std::alloc::{AllocError, Global};
use std::slice;

/// A route that is sent: a path that begins with its sender, and the tag that goes with it.
#[derive(Clone, Copy)]
pub(crate) struct Sent<'r> {
    pub(crate) path: &'r [Loc],
    pub(crate) tag: Tag,
}

// Whether a message is just what was last queued.
fn is_same(sent: &Option<Sent<'_>>, queued: Option<&Route>) -> bool
    ensures { result ≡ same_message (option_map message_of sent.now) (option_map (λ m. m.now) queued.entry) }
{
    match (sent, queued) {
        (None, None) => true,
        (Some(sent), Some(queued)) => {
            sent.path == queued.path.as_slice() && sent.tag == queued.tag && queued.pref == 0
        }
        _ => false,
    }
}

// The message.
fn message(alloc: Global, sent: &Option<Sent<'_>>) -> Result<Option<Route>, AllocError>
    ensures { IfOk result (λ m. m ≡ option_map message_of sent.now) }
{
    let Some(sent) = sent else {
        return Ok(None);
    };
    Ok(Some(Route {
        path: List::from_vec(Vec::from_slice(alloc, sent.path)?),
        tag: sent.tag,
        pref: 0,
    }))
}

impl<'a> World<'a> {
    // What a router's export lines give a neighbour of its route.
    fn export(&self, from: Loc, to: Loc) -> Option<Sent<'_>>
        ensures { option_map message_of result ≡ exported_by self.now.net.now self.now.config.now self.now.prefix from to ((state self.now).route from) }
    {
        let class = self.class?;
        let held = self.route(from)?;
        let tag = export_of(self.net, self.config, class, from, to, held)?;
        Some(Sent {
            path: held.path.as_slice(),
            tag,
        })
    }

    // What a peer announces: the path of itself alone, where it is an origin.
    fn announcement<'r>(&self, peer: &'r Loc) -> Option<Sent<'r>>
        ensures { option_map message_of result ≡ announced_by self.now.net.now (policy_of self.now.policy.now) self.now.prefix peer.now }
    {
        if is_origin(self.net, self.policy, self.prefix, *peer) {
            Some(Sent {
                path: slice::from_ref(peer),
                tag: NO_TAG,
            })
        } else {
            None
        }
    }

    // What one end of a session would now send to the other.
    fn sent<'r>(&'r self, from: &'r Loc, to: Loc) -> Option<Sent<'r>>
        ensures { option_map message_of result ≡ exported (speakers self.now) (state self.now) from.now to }
    {
        if self.net.is_router(*from) {
            return self.export(*from, to);
        }
        if self.is_silent(to, *from) {
            return None;
        }
        self.announcement(from)
    }

    /// Whether the session is live, and one end of it would send something else to the other than what it last queued.
    pub fn owes(&self, from: Loc, to: Loc) -> bool
        ensures { result ≡ owes_by (speakers self.now) (state self.now) from to }
    {
        self.is_live(from, to) && !is_same(&self.sent(&from, to), self.queued(from, to))
    }

    /// The message that one end of a session would now queue to the other: a route, or none to withdraw.
    pub fn message(&self, alloc: Global, from: Loc, to: Loc) -> Result<Option<Route>, AllocError>
        ensures { IfOk result (λ m. m ≡ exported (speakers self.now) (state self.now) from to) }
    {
        message(alloc, &self.sent(&from, to))
    }
}
