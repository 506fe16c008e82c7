//! Maps: lists of lines, and one block per router.
ghost use Rattle.std.specs.Prelude.{◌≡◌};

use config_base::RouterConfig;
use net_base::{List, Pattern};
use std::marker::Model;

/// A line of a list: what its pattern contains is permitted, or denied.
#[derive(Clone, Copy, Debug, PartialEq, Eq)]
pub struct ListLine {
    /// Whether it permits, and not denies.
    pub permit: bool,
    /// The prefixes on which it decides, where no line above it does.
    pub pattern: Pattern,
}

/// Route maps: lists, which are counted from 1 and have one line at least, and the routers' blocks. The blocks are
/// those of a configuration, but a line's class is the number of a list. There are fewer than 4294967296 lists.
#[derive(Drop)]
pub struct Maps {
    lists: List<List<ListLine>>,
    routers: List<RouterConfig>,
}

impl Model for Maps {
    ghost use Rattle.route_maps.specs.Maps.{PlainMaps, IsMaps};

    ghost Value = { PlainMaps };

    ghost view = { λ m. record { lists = m.lists; routers = m.routers } };

    ghost invariant = { λ m. IsMaps (record { lists = m.lists; routers = m.routers }) };
}

impl Maps {
    ghost use Rattle.route_maps.specs.Maps.{IsMaps};

    /// The maps of these lists and routers.
    pub fn new(lists: List<List<ListLine>>, routers: List<RouterConfig>) -> Maps
        requires { IsMaps (record { lists = lists; routers = routers }) }
        ensures { result ≡ record { lists = lists; routers = routers } }
    {
        Maps { lists, routers }
    }

    /// The lines of each list.
    pub fn lists(&self) -> &[List<ListLine>]
        ensures lists { result.now ≡ self.now.lists }
        ensures rules { IsMaps self.now }
    {
        self.lists.as_slice()
    }

    /// The routers' blocks.
    pub fn routers(&self) -> &[RouterConfig]
        ensures routers { result.now ≡ self.now.routers }
        ensures rules { IsMaps self.now }
    {
        self.routers.as_slice()
    }
}
