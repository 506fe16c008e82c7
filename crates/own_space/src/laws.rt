//! What the parts say, and what is covered: laws without code.
ghost use Rattle.own_space.specs.Laws.{CoveredGovernsNothing, PartsAreWhatIsOpen, PartsTellSomething};

/// Of a prefix inside an originated one that isn't originated itself some part tells exactly where the statement that governs it has one of
/// the cases in which some router takes what peers announce.
pub fn parts_are_what_is_open()
    ensures { PartsAreWhatIsOpen }
{}

/// Each part has something to tell.
pub fn parts_tell_something()
    ensures { PartsTellSomething }
{}

/// A statement is covered exactly where it governs no prefix that peers are the origins of.
pub fn covered_governs_nothing()
    ensures { CoveredGovernsNothing }
{}
