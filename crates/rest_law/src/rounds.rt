//! Where nothing more fails, messages come to an end: laws without code.
//!
//! A round (`specs/Rounds`) delivers at least what waits when it begins. After it each speaker has heard only what was said since, so
//! what can be held after so many rounds is what can be chosen, so many times over, of what can be said (`specs/Holding`). A route grows
//! with each hop; so after enough rounds all that is held rests on those that can't change any more, and where the routers have an order
//! in which each must then choose what an outcome has (`specs/Orders`), they come to hold it one after another. In the end no route
//! changes, and one more round leaves no message.
ghost use Rattle.rest_law.specs.Laws.{FairSchedulesHaveRounds, MessagesEnd, QuietStays, RoundsAreThere, RoundsGoOn, RoundsNarrow, RoundsRemember};

/// What each has heard after a round was said since it began, and after so many rounds each route has been chosen so many times over
/// of what could be said.
pub fn rounds_remember()
    ensures round { RoundsRemember }
    ensures rounds { RoundsNarrow }
{}

/// After so many rounds no message waits, and none comes any more. There is a round in every world.
pub fn messages_end()
    ensures ends { MessagesEnd }
    ensures stays { QuietStays }
    ensures there { RoundsAreThere }
    ensures more { RoundsGoOn }
    ensures fair { FairSchedulesHaveRounds }
{}
