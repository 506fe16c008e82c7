//! Messages that wait.
ghost use Rattle.std.specs.Prelude.{◌≡◌, ◌++◌, ◌∷◌, [], List, Option, None, IfOk, OnOk, OnErr, drop, length, slice_index_or};
ghost use Rattle.config_base.specs.declared.route.Route.{Route as PlainRoute};
ghost use Rattle.event_state.specs.Idle.{is_idle, without_last};
ghost use Rattle.event_base.specs.Steps.{unless_waiting};

use config_base::Route;
use event_base::EventFault;
use std::alloc::{AllocError, Global};
use std::collections::VecDeque;
use std::marker::Model;

/// The messages of a direction, in the order in which they were queued: routes, or none to withdraw.
#[derive(Drop)]
pub struct Queue {
    messages: VecDeque<Option<Route>>,
}

impl Model for Queue {
    ghost use Rattle.std.specs.Prelude.{List, Option};
    ghost use Rattle.config_base.specs.declared.route.Route.{Route as PlainRoute};

    ghost Value = { List (Option PlainRoute) };

    ghost view = { λ q. q.messages.items };
}

impl Queue {
    /// A queue in which nothing waits.
    pub fn new(alloc: Global) -> Queue
        ensures { result ≡ [] }
    {
        Queue {
            messages: VecDeque::new(alloc),
        }
    }

    /// The fault of a delivery: nothing waits.
    pub fn fault(&self) -> Option<EventFault>
        ensures { result ≡ unless_waiting self.now }
    {
        if self.messages.is_empty() {
            Some(EventFault::NothingWaits)
        } else {
            None
        }
    }

    /// Queues a message. After an error the queue is as before.
    pub fn push(&mut self, message: Option<Route>) -> Result<(), AllocError>
        ensures ok { OnOk result (self.new ≡ self.old ++ message ∷ []) }
        ensures err { OnErr result (self.new ≡ self.old) }
    {
        self.messages.push_back(message)?;
        Ok(())
    }

    /// Takes the first message out, if one waits.
    pub fn pop(&mut self)
        ensures { self.new ≡ drop 1 self.old }
    {
        self.messages.pop_front();
    }

    /// A copy of the first message, none where nothing waits.
    pub fn first(&self, alloc: Global) -> Result<Option<Route>, AllocError>
        ensures { IfOk result (λ first. first ≡ slice_index_or self.now 0 None) }
    {
        match self.messages.front() {
            Some(Some(route)) => Ok(Some(Route {
                path: route.path.copy(alloc)?,
                tag: route.tag,
                pref: route.pref,
            })),
            _ => Ok(None),
        }
    }

    /// Takes the last message back, if one waits.
    pub fn take_back(&mut self)
        ensures { self.new ≡ without_last self.old }
    {
        self.messages.pop_back();
    }

    /// How many messages wait.
    pub fn len(&self) -> usize
        ensures { result ≡ length self.now }
    {
        self.messages.len()
    }

    /// Whether nothing waits.
    pub fn is_empty(&self) -> bool
        ensures { result ≡ is_idle self.now }
    {
        self.messages.is_empty()
    }
}
