//! What the `open` lines tell: laws without code.
ghost use Rattle.promises_text.specs.Laws.{OpenLinesAreWhatIsTaken, OpenLinesTellOfParts};

/// Each part of the network's own space that peers are believed in stands on the line of one case.
pub fn open_lines_tell_of_parts()
    ensures { OpenLinesTellOfParts }
{}

/// Of a prefix inside an originated one that isn't originated itself some line tells exactly where the policy lets some router take it
/// from a peer.
pub fn open_lines_are_what_is_taken()
    ensures { OpenLinesAreWhatIsTaken }
{}
