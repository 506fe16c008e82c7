//! Ways in order.
ghost use Rattle.std.specs.Prelude.{◌↔◌, map};
ghost use Rattle.std.specs.List.{IsDistinct};
ghost use Rattle.list_law.specs.Members.{IsIn};
ghost use Rattle.node_classes.specs.declared.way.Way.{Way as PlainWay};
ghost use Rattle.node_classes.specs.Ways.{Ascend, same_pair, stand};

use crate::way::Way;

/// Puts ways in order, by their node and then by their place. A node has one way to a place.
pub fn put_in_order(ways: &mut Vec<Way>)
    requires { IsDistinct same_pair (map stand ways.old.items) }
    ensures order { Ascend ways.new.items }
    ensures same { (way : PlainWay) → IsIn ways.new.items way ↔ IsIn ways.old.items way }
{
    ways.sort_unstable();
}
