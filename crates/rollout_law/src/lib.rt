//! The laws of loads while a network runs: events and loads keep what events keep, loads of what reads the routes of one configuration as
//! it does change nothing, and two layers of routes whose tags are apart stay two layers; no code.
//!
//! Each law is a statement of `specs/Laws` or `specs/Standing`, and the function that names it in its contract is its proof. All
//! are said of one prefix, of lines and tags alone (`rollout_base`), and of no preference.
//!
//! | Law | It says | It needs |
//! |---|---|---|
//! | `changes_keep` | events and loads keep what events alone keep: who is told what, and that each route is a choice | nothing |
//! | `loads_change_nothing` | the network goes on as if all routers ran one part and nobody loaded anything, message by message | each part reads that one's routes as it does (`ReadsAs`), and each route has one of its tags |
//! | `tags_are_of_either` | each route that is held or on its way has a tag that one of two parts gives | no part says more than these two (`SaysNoMore`), and their tags are apart (`AreApart`) |
//! | `tags_that_stand_apart` | the tags of two parts are apart | no tag stands in the lines of both, which can be seen in their texts |
//!
//! The third one is proved of any two kinds of routes, not of tags alone (`proofs/Layers`): a route is of the kind of the line
//! that made it, and lines of the other kind don't read it. `rollout_stages` brings its own kinds to that, which run in the
//! graphs of two cases. `proofs/Same` shows that worlds of one part's tags go on alike. `proofs/Standing` shows where a tag that
//! a part gives or asks for stands: no line of a lawful configuration asks for no tag.
//!
//! Compiling doesn't need it.
//!
//! It knows nothing of graphs, evidence and preferences.
#![tactic(auto)]

ghost use Rattle.rollout_law.specs.Laws.{ChangesKeep, LoadsChangeNothing, OnePartIsPlain, RolloutsBeginAlike, TagsAreOfEither};
ghost use Rattle.rollout_law.specs.Standing.{DisjointTagsAreApart};

/// Each event and each load keeps what is kept: what was last queued is what the sender's lines give of its route, and a router's route
/// is its choice over what it has heard.
pub fn changes_keep()
    ensures { ChangesKeep }
{}

/// Loads of parts that read the routes of one part as it does change nothing, now or later.
pub fn loads_change_nothing()
    ensures alike { LoadsChangeNothing }
    ensures begins { RolloutsBeginAlike }
    ensures plain { OnePartIsPlain }
{}

/// Where each part that is run or taken does nothing that neither of two parts does, whose tags are apart, each route that is held or on its
/// way has a tag that one of the two gives.
pub fn tags_are_of_either()
    ensures { TagsAreOfEither }
{}

/// Where no tag stands in both of two lawful configurations, none that the one gives a route is one for which the other asks.
pub fn tags_that_stand_apart()
    ensures { DisjointTagsAreApart }
{}
