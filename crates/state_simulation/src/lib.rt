//! Which of two nodes at one location of a graph may stand at least as high as the other: the greatest relation that keeps the rules, or
//! the first round of the search where some two nodes have no direction.
//!
//! A relation is made for any graph. Where no two nodes stand at one location, each is above itself alone, and no rounds are made. Else
//! every pair of one location stands at first, and each round takes away the pairs against which a rule speaks, until a round takes nothing
//! (`relation`). A round reads what was left before it and writes beside it, so rounds are exact: the law tells which pair goes in which
//! round.
//!
//! Pairs are bits, in a row for each node. What fails at a step rests on what has gone below its target alone. So a round makes one mask
//! for each target whose row the last round changed, and keeps of the row of each node that steps there what the mask has. To go over the
//! pairs one by one would ask the same of each pair again. The loop rule is asked of all nodes at once, by the rows of what can be reached
//! onwards; a row is joined only where its node isn't in yet, since what can be reached is transitive. Targets are taken by location and
//! rank, and a mask is kept while the next target would have the same one.
//!
//! `total_relation` stops at the first round that leaves two nodes without a direction. Then no relation that keeps the rules is total, and
//! numbers that meet the rules of evidence would be one, so there are none (`evidence_needs_a_total_relation`). `relation` never stops
//! early. The first round asks nothing of what can be reached, so these rows are made only where it took something. It is handed on as
//! `FirstRound`, with the rounds as they are or as one copy, so that who tells why there are no numbers needn't begin anew. Accepted graphs
//! pay for one copy at most.
//!
//! It knows nothing of policies.
#![tactic(auto)]

mod apart;
mod copies;
mod first;
mod grouping;
mod laws;
mod located;
mod maps;
mod masks;
mod ordering;
mod pairs;
mod rounds;
mod simulation;
mod table;
mod taking;

pub use apart::stand_apart;
pub use first::FirstRound;
pub use laws::evidence_needs_a_total_relation;
pub use located::located_rows;
pub use maps::{Maps, location_count};
pub use masks::is_hearer;
pub use pairs::is_outranked;
pub use rounds::Rounds;
pub use simulation::{Search, relation, total_relation};
pub use table::Relation;
