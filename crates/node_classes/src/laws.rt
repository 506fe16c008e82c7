//! What classes and ways in order say.
ghost use Rattle.std.specs.Prelude.{◌≡◌, ◌↔◌, ℕ, List, Some};
ghost use Rattle.list_law.specs.Members.{IsIn};
ghost use Rattle.node_classes.specs.declared.way.Way.{Way as PlainWay};
ghost use Rattle.node_classes.specs.Classes.{AreClasses, AreOneClass, Tied};
ghost use Rattle.node_classes.specs.Ways.{Ascend, follow, next};

/// From two nodes of one class the same lists of places can be followed, and each leads to two nodes of one class.
pub fn classes_follow()
    ensures { (ways : List PlainWay) (a b : ℕ) (classes : List ℕ) → AreClasses ways a b classes
        → (path : List ℕ) → Tied (AreOneClass classes) (follow ways a path) (follow ways b path) }
{}

/// Among ways in order a node steps to another at a place exactly where there is such a way.
pub fn steps_are_ways()
    ensures { (ways : List PlainWay) (n l m : ℕ) → Ascend ways
        → next ways n l ≡ Some m ↔ IsIn ways (record { from = n; at = l; to = m }) }
{}
