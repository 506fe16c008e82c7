//! The words of events.
ghost use Rattle.std.specs.Prelude.{◌≡◌};
ghost use Rattle.event_reader.specs.Words.{link_event, link_word, router_event, router_word};

use event_base::Event;
use net_base::Loc;

/// What happens between two linked locations.
#[derive(Clone, Copy, Debug, PartialEq, Eq)]
pub enum LinkWord {
    /// `deliver`, from the first to the second.
    Deliver,
    /// `link_down`.
    LinkDown,
    /// `link_up`.
    LinkUp,
    /// `peer_speak`, the router first.
    PeerSpeak,
    /// `peer_silent`, the router first.
    PeerSilent,
}

/// What happens to a router.
#[derive(Clone, Copy, Debug, PartialEq, Eq)]
pub enum RouterWord {
    /// `router_down`.
    RouterDown,
    /// `router_up`.
    RouterUp,
}

impl LinkWord {
    /// What a word says, if it is one of these.
    pub fn of(word: &str) -> Option<LinkWord>
        ensures { result ≡ link_word word.now }
    {
        if word == "deliver" {
            Some(LinkWord::Deliver)
        } else if word == "link_down" {
            Some(LinkWord::LinkDown)
        } else if word == "link_up" {
            Some(LinkWord::LinkUp)
        } else if word == "peer_speak" {
            Some(LinkWord::PeerSpeak)
        } else if word == "peer_silent" {
            Some(LinkWord::PeerSilent)
        } else {
            None
        }
    }

    /// It happens between these two.
    pub fn event(self, first: Loc, second: Loc) -> Event
        ensures { result ≡ link_event self first second }
    {
        match self {
            LinkWord::Deliver => Event::Deliver(first, second),
            LinkWord::LinkDown => Event::LinkDown(first, second),
            LinkWord::LinkUp => Event::LinkUp(first, second),
            LinkWord::PeerSpeak => Event::PeerSpeak(first, second),
            LinkWord::PeerSilent => Event::PeerSilent(first, second),
        }
    }
}

impl RouterWord {
    /// What a word says, if it is one of these.
    pub fn of(word: &str) -> Option<RouterWord>
        ensures { result ≡ router_word word.now }
    {
        if word == "router_down" {
            Some(RouterWord::RouterDown)
        } else if word == "router_up" {
            Some(RouterWord::RouterUp)
        } else {
            None
        }
    }

    /// It happens to this one.
    pub fn event(self, router: Loc) -> Event
        ensures { result ≡ router_event self router }
    {
        match self {
            RouterWord::RouterDown => Event::RouterDown(router),
            RouterWord::RouterUp => Event::RouterUp(router),
        }
    }
}
