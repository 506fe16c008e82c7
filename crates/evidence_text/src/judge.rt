//! The numbers of a text and its nodes.
ghost use Rattle.std.specs.Prelude.{◌≡◌, ◌<◌, ◌≤◌, ◌&&◌, nat_eq, nat_lt, Ok, length, map, IfOk, IfErr, true};
ghost use Rattle.std.specs.List.{AllByRecursion, list_all, list_any};
ghost use Rattle.net_base.specs.Gives.{GivesUnless};
ghost use Rattle.net_base.specs.declared.limits.TheConstants.{LOCATIONS};
ghost use Rattle.net_base.specs.Sets.{set_of};
ghost use Rattle.net_base.specs.Steps.{or_fault};
ghost use Rattle.graph_base.specs.declared.graph.TheConstants.{MAX_NODES};
ghost use Rattle.evidence_text.specs.Shape.{each};
ghost use Rattle.evidence_text.specs.Spelled.{evidence_of, is_placed as is_placed_case, numbered as numbered_text, numbered_case};
ghost use Rattle.evidence_text.specs.Ranges.{HasRanges, IsReadCase};

use crate::fault::EvidenceFault;
use crate::parts::Field;
use crate::raw::{NodeEntry, RawCase, RawEvidence, ReadCase, ReadText};
use evidence_base::{CaseEvidence, Evidence};
use graph_base::{Graph, MAX_NODES, Node, Prefs};
use net_base::{List, Loc, LocSet, Tag};
use policy_base::Case;
use std::alloc::Global;

// What is there, where it isn't out of its range.
fn there<T: Copy + Drop>(field: Field, item: &Option<T>) -> Result<T, EvidenceFault>
    ensures { GivesUnless EvidenceFault.NoMemory (λ n. n) result (or_fault (EvidenceFault.Number field) item.now) }
{
    match item {
        Some(item) => Ok(*item),
        None => Err(EvidenceFault::Number(field)),
    }
}

// All of these, where none of them is out of its range.
fn all_of<T: Copy + Drop>(
    alloc: Global,
    field: Field,
    list: &List<Option<T>>,
) -> Result<List<T>, EvidenceFault>
    ensures { GivesUnless EvidenceFault.NoMemory (λ v. v) result (each (or_fault (EvidenceFault.Number field)) list.now) }
{
    let items = list.as_slice();
    let mut all = Vec::with_capacity(alloc, items.len())?;
    for item in items {
        let read = there(field, item)?;
        all.push(read)?;
    }
    Ok(List::from_vec(all))
}

// The location of this number.
fn location(place: u32) -> Loc
    requires { place < LOCATIONS }
    ensures { result ≡ place }
{
    Loc::new(place as u16)
}

// The set of these locations.
fn set_of_places(places: &[u32]) -> LocSet
    requires { AllByRecursion (λ l. l < LOCATIONS) places.now }
    ensures { result ≡ set_of (λ l. list_any (nat_eq l) places.now) }
{
    let mut set = LocSet::new();
    for place in places {
        set = set.with(location(*place));
    }
    set
}

// The case, where all of its numbers are in their ranges.
#[tactic(auto, unfolding(crate::specs::Spelled::numbered_case))]
fn read_case(alloc: Global, raw: &RawCase) -> Result<ReadCase, EvidenceFault>
    requires { HasRanges raw.now }
    ensures { GivesUnless EvidenceFault.NoMemory (λ c. c) result (numbered_case raw.now) }
{
    let nodes = all_of(alloc, Field::Nodes, &raw.nodes)?;
    let origins = all_of(alloc, Field::Origins, &raw.origins)?;
    let starts = all_of(alloc, Field::Starts, &raw.starts)?;
    let statement = there(Field::Statement, &raw.statement)?;
    let steps = all_of(alloc, Field::Steps, &raw.steps)?;
    let case = Case {
        statement,
        origins: set_of_places(origins.as_slice()),
        external: raw.external,
        prefixes: raw.prefixes.copy(alloc)?,
    };
    Ok(ReadCase {
        case,
        nodes,
        starts,
        steps,
    })
}

// The cases, where all of their numbers are in their ranges; else the first part that holds one that isn't.
fn read_cases(alloc: Global, raw: &[RawCase]) -> Result<List<ReadCase>, EvidenceFault>
    requires { AllByRecursion HasRanges raw.now }
    ensures { GivesUnless EvidenceFault.NoMemory (λ v. v) result (each numbered_case raw.now) }
{
    let mut all = Vec::with_capacity(alloc, raw.len())?;
    for case in raw {
        let read = read_case(alloc, case)?;
        all.push(read)?;
    }
    Ok(List::from_vec(all))
}

/// The text, where all of its numbers are in their ranges; else the first part that holds one that isn't.
#[tactic(auto, unfolding(crate::specs::Spelled::numbered))]
pub fn numbered(alloc: Global, raw: &RawEvidence) -> Result<ReadText, EvidenceFault>
    requires { AllByRecursion HasRanges raw.now.cases }
    ensures { GivesUnless EvidenceFault.NoMemory (λ t. t) result (numbered_text raw.now) }
{
    let cases = read_cases(alloc, raw.cases.as_slice())?;
    match raw.version {
        Some(version) => Ok(ReadText { cases, version }),
        None => Err(EvidenceFault::Number(Field::Version)),
    }
}

// Whether each start is one of so many nodes.
fn starts_are_nodes(count: usize, starts: &[u32]) -> bool
    ensures { result ≡ list_all (λ n. nat_lt n count) starts.now }
{
    starts.iter().all(|node| (*node as usize) < count)
}

// Whether both ends of each step are among so many nodes.
fn steps_join_nodes(count: usize, steps: &[(u32, u32)]) -> bool
    ensures { result ≡ list_all (λ s. nat_lt s.0 count && nat_lt s.1 count) steps.now }
{
    steps.iter().all(|step| (step.0 as usize) < count && (step.1 as usize) < count)
}

// Whether the starts and steps of a case name nodes of its list.
fn is_placed(case: &ReadCase) -> bool
    ensures { result ≡ is_placed_case case.now }
{
    let count = case.nodes.as_slice().len();
    starts_are_nodes(count, case.starts.as_slice())
        && steps_join_nodes(count, case.steps.as_slice())
}

/// Whether the starts and steps of each case name nodes of its list.
pub fn are_placed(cases: &[ReadCase]) -> bool
    ensures { result ≡ list_all is_placed_case cases.now }
{
    cases.iter().all(|case| is_placed(case))
}

// The columns of the nodes of a case.
#[derive(Drop)]
struct Columns {
    nodes: List<Node>,
    numbers: List<u32>,
    tags: List<Tag>,
}

// The columns of these nodes. No text that memory holds has so many nodes that a graph can't number them, and where one
// had, memory is said to be short.
fn columns_of(alloc: Global, entries: &[NodeEntry]) -> Result<Columns, EvidenceFault>
    ensures few { IfOk result (λ _. length entries.now ≤ MAX_NODES) }
    ensures nodes { IfOk result (λ c. c.nodes ≡ map (λ e. e.node) entries.now) }
    ensures numbers { IfOk result (λ c. c.numbers ≡ map (λ e. e.number) entries.now) }
    ensures tags { IfOk result (λ c. c.tags ≡ map (λ e. e.tag) entries.now) }
    ensures err { IfErr result (λ e. e ≡ EvidenceFault.NoMemory) }
{
    if entries.len() > MAX_NODES {
        return Err(EvidenceFault::NoMemory);
    }
    let mut nodes = Vec::with_capacity(alloc, entries.len())?;
    let mut numbers = Vec::with_capacity(alloc, entries.len())?;
    let mut tags = Vec::with_capacity(alloc, entries.len())?;
    for entry in entries {
        nodes.push(entry.node)?;
        numbers.push(entry.number)?;
        tags.push(entry.tag)?;
    }
    Ok(Columns {
        nodes: List::from_vec(nodes),
        numbers: List::from_vec(numbers),
        tags: List::from_vec(tags),
    })
}

// The evidence of a case with the columns of its nodes.
fn with_columns(read: ReadCase, columns: Columns) -> CaseEvidence
    requires ranges { IsReadCase read }
    requires placed { is_placed_case read ≡ true }
    requires few { length read.nodes ≤ MAX_NODES }
    requires nodes { columns.nodes ≡ map (λ e. e.node) read.nodes }
    requires numbers { columns.numbers ≡ map (λ e. e.number) read.nodes }
    requires tags { columns.tags ≡ map (λ e. e.tag) read.nodes }
    ensures { result ≡ evidence_of read }
{
    let graph = Graph::new(columns.nodes, read.starts, read.steps);
    let prefs = Prefs {
        of: columns.numbers,
    };
    CaseEvidence::new(read.case, graph, prefs, columns.tags)
}

// The evidence of a case whose starts and steps name nodes.
fn case_evidence(alloc: Global, read: ReadCase) -> Result<CaseEvidence, EvidenceFault>
    requires ranges { IsReadCase read }
    requires placed { is_placed_case read ≡ true }
    ensures evidence { IfOk result (λ c. c ≡ evidence_of read) }
    ensures err { IfErr result (λ e. e ≡ EvidenceFault.NoMemory) }
{
    let columns = columns_of(alloc, read.nodes.as_slice())?;
    Ok(with_columns(read, columns))
}

/// The evidence of a text whose starts and steps name nodes.
pub fn evidence(alloc: Global, cases: List<ReadCase>) -> Result<Evidence, EvidenceFault>
    requires ranges { AllByRecursion IsReadCase cases }
    requires placed { list_all is_placed_case cases ≡ true }
    ensures evidence { IfOk result (λ e. e.cases ≡ map evidence_of cases) }
    ensures err { IfErr result (λ e. e ≡ EvidenceFault.NoMemory) }
{
    let mut all = List::new(alloc);
    for case in cases.into_vec() {
        let read = case_evidence(alloc, case)?;
        all.push(read)?;
    }
    Ok(Evidence { cases: all })
}
