//! Configurations: one block per router.
ghost use Rattle.std.specs.Prelude.{◌≡◌};

use net_base::{List, Name, Pattern, Prefix, Tag};
use std::marker::Model;

/// An import line: routes of this class with this tag are taken, with another tag and a preference
/// (LOCAL_PREF, RFC 4271, 5.1.5). In the block of a peer the tag is none.
#[derive(Clone, Copy, Debug, PartialEq, Eq)]
pub struct Import {
    /// The class of the routes, from 1 to the number of classes.
    pub class: u32,
    /// The tag with which they come, or no tag in the block of a peer.
    pub tag: Tag,
    /// The tag that they get.
    pub set: Tag,
    /// The local preference that they get (RFC 4271, 5.1.5), from 0 to 4294967295: the greatest one wins.
    pub pref: u32,
}

/// An export line: routes of this class with this tag are sent.
#[derive(Clone, Copy, Debug, PartialEq, Eq)]
pub struct Export {
    /// The class of the routes, from 1 to the number of classes.
    pub class: u32,
    /// The tag of the routes.
    pub tag: Tag,
}

/// The block of one neighbour: a router's session, or a peer's.
#[derive(Drop)]
pub struct Session {
    /// The neighbour's name, which no other block of the router has.
    pub name: Name,
    /// The neighbour's AS number.
    pub asn: u32,
    /// Whether the neighbour is a peer, and not a router.
    pub peer: bool,
    /// What is taken of the neighbour, ascending by class and then by tag.
    pub imports: List<Import>,
    /// What is sent to the neighbour, ascending by class and then by tag.
    pub exports: List<Export>,
}

/// An originate line: the router's own route for a prefix.
#[derive(Clone, Copy, Debug, PartialEq, Eq)]
pub struct Origination {
    /// The class of the route, from 1 to the number of classes.
    pub class: u32,
    /// The prefix of the route.
    pub prefix: Prefix,
    /// The tag of the route.
    pub tag: Tag,
}

/// The block of one router.
#[derive(Drop)]
pub struct RouterConfig {
    /// The router's name, which no other router has.
    pub name: Name,
    /// The router's AS number, a private one (RFC 6996), which no other router has.
    pub asn: u32,
    /// The router's BGP identifier (RFC 4271, 4.2), from 1 to 4294967295, which no other router has.
    pub id: u32,
    /// The router's own routes, ascending by class and then by prefix.
    pub own: List<Origination>,
    /// The blocks of its neighbours, each with a name of its own.
    pub sessions: List<Session>,
}

/// A configuration: the patterns of each class, and the routers' blocks. The class of a prefix, from 1, is the
/// first one with a pattern that contains it.
#[derive(Drop)]
pub struct Config {
    classes: List<List<Pattern>>,
    routers: List<RouterConfig>,
}

impl Model for Config {
    ghost use Rattle.config_base.specs.Configs.{PlainConfig, IsConfig};

    ghost Value = { PlainConfig };

    ghost view = { λ c. record { classes = c.classes; routers = c.routers } };

    ghost invariant = { λ c. IsConfig (record { classes = c.classes; routers = c.routers }) };
}

impl Config {
    ghost use Rattle.config_base.specs.Configs.{IsConfig};

    /// The configuration of these classes and routers.
    pub fn new(classes: List<List<Pattern>>, routers: List<RouterConfig>) -> Config
        requires { IsConfig (record { classes = classes; routers = routers }) }
        ensures { result ≡ record { classes = classes; routers = routers } }
    {
        Config { classes, routers }
    }

    /// The patterns of each class.
    pub fn classes(&self) -> &[List<Pattern>]
        ensures classes { result.now ≡ self.now.classes }
        ensures rules { IsConfig self.now }
    {
        self.classes.as_slice()
    }

    /// The routers' blocks.
    pub fn routers(&self) -> &[RouterConfig]
        ensures routers { result.now ≡ self.now.routers }
        ensures rules { IsConfig self.now }
    {
        self.routers.as_slice()
    }
}
