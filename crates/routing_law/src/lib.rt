//! The laws of routing over abstract networks: used paths are sound, numbers are greatest, ranks are best, and there is one
//! settled outcome, under all failures. There is no code here.
//!
//! Each law is a statement of `specs/Laws` (or `specs/Settling`), and the function that names it in its contract is its
//! proof. Networks, graphs and lines are records of plain functions on numbers, so that no lemma speaks of lists; a layer
//! above brings its own lists and blocks to them, once.
//!
//! What is spoken of, and where it is defined:
//!
//! - `Network`: size, routers, origins, identifiers. `Alive`: which locations live and who hears whom. `LinesStable` and `offered`
//!   of `specs/Lines` are said of these two and of what the lines say, and of no graph.
//! - `Graph`: nodes with places, starts, steps and numbers. `WellFormed`, `MeetsRules` (step rule, loop rule) and `MeetsRanks`
//!   (rank rule, listener rule) of `specs/Graph` are said of a network and a graph, and of no failure.
//! - `Spells` of `specs/Spells`: each step has its line and each line its step. `Written` joins it with `WellFormed` and
//!   `TagsDiffer`.
//! - `Setup` of `specs/Outcome`: a network, what of it is alive, and a graph; and what an outcome is in the graph.
//!
//! | Law | It says | It needs |
//! |---|---|---|
//! | `used_paths_are_sound` | each route that is used and each path that is offered has no loop, survives, and has a run to a node, with the node's tag and number | `Written`, `LinesStable` |
//! | `number_is_greatest` | a router's preference is the greatest number of the nodes that are reached at it | and `MeetsRules` |
//! | `lines_are_right` | every source gets the best rank that survives, and none only where none survives | and `MeetsRanks` |
//! | `outcome_exists` | whatever fails, there is an outcome with ties broken | `Written`, `MeetsRules` |
//! | `outcome_is_unique` | and any two are the same | and `NamesDiffer` |
//! | `lines_are_steps` | one line is one step, for one message at a time | `Written` |
//! | `lines_are_graph` | outcomes of the lines are those of the graph | `Written` |
//! | `settling_ends` | search and rounds find the outcome of the graph, which `lines_are_graph` makes one of the lines | `WellFormed`, `MeetsRules` |
//!
//! The laws named `graph_..` and `ranks_are_best` are the steps in between, in terms of the graph alone. `plain_numbers_pass` shows
//! that the rules can be met.
//!
//! It knows nothing of policies, configurations and lists.
#![tactic(auto)]

ghost use Rattle.routing_law.specs.Laws.{
  AnnouncementsAreSteps,
  ExportsAreSteps,
  GraphIsLines,
  GraphNodeIsReached,
  GraphNumberIsGreatest,
  GraphOutcomeExists,
  GraphOutcomeIsUnique,
  GraphPathsAreSound,
  ImportsAreSteps,
  LinesAreGraph,
  LinesAreRight,
  NumberIsGreatest,
  OfferIsBest,
  OutcomeExists,
  OutcomeIsUnique,
  OwnRoutesAreStarts,
  PlainNumbersPass,
  RankIsBest,
  UsedPathsAreSound,
};
ghost use Rattle.routing_law.specs.Settling.{ReachEnds, SettlingEnds};

/// Each route that is used and each path that is offered has no loop, survives, and has a run in the graph, whatever the numbers are.
pub fn used_paths_are_sound()
    ensures { UsedPathsAreSound }
{}

/// A router's preference is the greatest number of the nodes that are reached at it.
pub fn number_is_greatest()
    ensures { NumberIsGreatest }
{}

/// Every source, router or session, gets the best rank that survives, and gets none only where none survives.
pub fn lines_are_right()
    ensures { LinesAreRight }
{}

/// Whatever fails, there is an outcome with ties broken.
pub fn outcome_exists()
    ensures { OutcomeExists }
{}

/// Any two outcomes with ties broken give each router the same.
pub fn outcome_is_unique()
    ensures { OutcomeIsUnique }
{}

/// One line is one step: a route goes on only where its node does, under the tag and the number of the next node. Of use where
/// routes are followed one message at a time.
pub fn lines_are_steps()
    ensures exports { ExportsAreSteps }
    ensures imports { ImportsAreSteps }
    ensures own { OwnRoutesAreStarts }
    ensures peers { AnnouncementsAreSteps }
{}

/// A stable outcome of the lines is one of the graph, and one of the graph with ties broken is one of the lines.
pub fn lines_are_graph()
    ensures down { LinesAreGraph }
    ensures up { GraphIsLines }
{}

/// In the graph each path has no loop, survives and runs to its node.
pub fn graph_paths_are_sound()
    ensures { GraphPathsAreSound }
{}

/// In the graph no node that is reached at a router has a higher number than its route's node, which is reached.
pub fn graph_number_is_greatest()
    ensures greatest { GraphNumberIsGreatest }
    ensures reached { GraphNodeIsReached }
{}

/// In the graph every source has the best rank that survives.
pub fn ranks_are_best()
    ensures routers { RankIsBest }
    ensures sessions { OfferIsBest }
{}

/// In the graph there is exactly one outcome with ties broken.
pub fn graph_has_one_outcome()
    ensures exists { GraphOutcomeExists }
    ensures unique { GraphOutcomeIsUnique }
{}

/// The search for what is reached ends with the best nodes, and the rounds with the outcome.
pub fn settling_ends()
    ensures reach { ReachEnds }
    ensures rounds { SettlingEnds }
{}

/// The rules can be met: with one node a location and equal numbers they hold.
pub fn plain_numbers_pass()
    ensures { PlainNumbersPass }
{}
