//! How evidence is written.
ghost use Rattle.std.specs.Prelude.{◌≡◌, ℕ, ◌<◌, ◌^◌, ◌++◌, ◌∷◌, [], codes, map, length, nat_lt, IfOk, OnOk, Ok};
ghost use Rattle.std.specs.Fmt.{decimal};
ghost use Rattle.std.specs.List.{AllByRecursion, slice_index};
ghost use Rattle.serde_json.specs.Data.{Data};
ghost use Rattle.net_base.specs.Prefixes.{IsPrefix};
ghost use Rattle.net_base.specs.Sets.{IsWords};
ghost use Rattle.serde_json.specs.Written.{comma_if, compact_text};
ghost use Rattle.json_values.specs.Json.{array_of, numbers_data, texts_data};
ghost use Rattle.text_parts.specs.Texts.{prefix_text};
ghost use Rattle.evidence_text.specs.Spelled.{spelled};
ghost use Rattle.evidence_text.specs.Text.{case_data, evidence_text, members, node_data, nodes_data, places_text, step_data, ways_text};
ghost use Rattle.evidence_text.specs.Writable.{HasShortRank, IsShort, IsShortTag, IsWritable};

use evidence_base::{CaseEvidence, Evidence};
use graph_base::Node;
use input_output::NoMemory;
use net_base::{Loc, LocSet, Prefix, Tag};
use std::alloc::Global;
use text_parts::{push_bytes, push_number, push_prefix};

// As many bytes as most cases have beside their prefixes, nodes and steps.
const CASE_BYTES: usize = 128;

// As many bytes as most prefixes have.
const PREFIX_BYTES: usize = 16;

// As many bytes as most nodes have.
const NODE_BYTES: usize = 24;

// As many bytes as most steps have.
const STEP_BYTES: usize = 12;

// Adds a comma before every item but the first one.
fn push_comma(text: &mut Vec<u8>, place: usize) -> Result<(), NoMemory>
    ensures { OnOk result (text.new.items ≡ text.old.items ++ comma_if (nat_lt 0 place)) }
{
    if place > 0 {
        push_bytes(text, b",")
    } else {
        Ok(())
    }
}

// Adds a number.
fn push_short(text: &mut Vec<u8>, number: u32) -> Result<(), NoMemory>
    ensures text { OnOk result (text.new.items ≡ text.old.items ++ decimal number) }
    ensures rules { OnOk result (IsShort number) }
{
    push_number(text, u64::from(number))
}

// Adds an array of numbers.
fn push_numbers(text: &mut Vec<u8>, numbers: &[u32]) -> Result<(), NoMemory>
    ensures text { OnOk result (text.new.items ≡ text.old.items ++ compact_text (numbers_data numbers.now)) }
    ensures rules { OnOk result (AllByRecursion IsShort numbers.now) }
{
    push_bytes(text, b"[")?;
    for i in 0..numbers.len() {
        push_comma(text, i)?;
        push_short(text, numbers[i])?;
    }
    push_bytes(text, b"]")
}

// Adds a node with its number and its tag.
fn push_node(text: &mut Vec<u8>, node: Node, number: u32, tag: Tag) -> Result<(), NoMemory>
    ensures text { OnOk result (text.new.items ≡ text.old.items ++ compact_text (node_data node number tag)) }
    ensures rules { OnOk result (HasShortRank node × IsShort number × IsShortTag tag) }
{
    let listener = if node.listener { 1 } else { 0 };
    let rank = node.rank.unwrap_or(0);
    let location = u32::from(node.loc.number());
    push_numbers(
        text,
        &[location, listener, rank, number, tag.asn, tag.value],
    )
}

// Adds the nodes with their numbers and tags.
fn push_nodes(
    text: &mut Vec<u8>,
    nodes: &[Node],
    numbers: &[u32],
    tags: &[Tag],
) -> Result<(), NoMemory>
    requires numbers { length numbers.now ≡ length nodes.now }
    requires tags { length tags.now ≡ length nodes.now }
    ensures text { OnOk result (text.new.items ≡ text.old.items ++ compact_text (array_of (nodes_data nodes.now numbers.now tags.now))) }
    ensures ranks { OnOk result (AllByRecursion HasShortRank nodes.now) }
    ensures numbers { OnOk result (AllByRecursion IsShort numbers.now) }
    ensures tags { OnOk result (AllByRecursion IsShortTag tags.now) }
{
    push_bytes(text, b"[")?;
    for i in 0..nodes.len() {
        push_comma(text, i)?;
        push_node(text, nodes[i], numbers[i], tags[i])?;
    }
    push_bytes(text, b"]")
}

// Adds the steps.
fn push_steps(text: &mut Vec<u8>, steps: &[(u32, u32)]) -> Result<(), NoMemory>
    ensures { OnOk result (text.new.items ≡ text.old.items ++ compact_text (array_of (map step_data steps.now))) }
{
    push_bytes(text, b"[")?;
    for i in 0..steps.len() {
        let step = steps[i];
        push_comma(text, i)?;
        push_numbers(text, &[step.0, step.1])?;
    }
    push_bytes(text, b"]")
}

// Adds a prefix between quotation marks.
fn push_prefix_text(text: &mut Vec<u8>, prefix: Prefix) -> Result<(), NoMemory>
    ensures text { OnOk result (text.new.items ≡ text.old.items ++ compact_text (Data.string (prefix_text prefix))) }
    ensures rules { IsPrefix prefix }
{
    push_bytes(text, b"\"")?;
    push_prefix(text, prefix)?;
    push_bytes(text, b"\"")
}

// Adds the prefixes.
fn push_prefixes(text: &mut Vec<u8>, prefixes: &[Prefix]) -> Result<(), NoMemory>
    ensures text { OnOk result (text.new.items ≡ text.old.items ++ compact_text (texts_data (map prefix_text prefixes.now))) }
    ensures rules { OnOk result (AllByRecursion IsPrefix prefixes.now) }
{
    push_bytes(text, b"[")?;
    for i in 0..prefixes.len() {
        push_comma(text, i)?;
        push_prefix_text(text, prefixes[i])?;
    }
    push_bytes(text, b"]")
}

// Each word has 64 bits, as its type says. It does nothing: only what it says is asked for.
fn are_words(words: &[u64])
    ensures { (i : ℕ) → slice_index words.now i < 2 ^ 64 }
{}

// The locations of a set, ascending.
fn locations(alloc: Global, set: &LocSet) -> Result<Vec<u32>, NoMemory>
    ensures items { IfOk result (λ v. v.items ≡ members set.now) }
    ensures rules { IfOk result (λ v. IsWords set.now) }
{
    are_words(&set.words);
    let mut all = Vec::new(alloc);
    for l in 0..768u16 {
        if set.holds(Loc::new(l)) {
            all.push(u32::from(l))?;
        }
    }
    Ok(all)
}

// Adds an array of the locations of a set.
fn push_locations(alloc: Global, text: &mut Vec<u8>, set: &LocSet) -> Result<(), NoMemory>
    ensures text { OnOk result (text.new.items ≡ text.old.items ++ compact_text (numbers_data (members set.now))) }
    ensures rules { OnOk result (IsWords set.now) }
{
    let locations = locations(alloc, set)?;
    push_numbers(text, &locations)
}

// How a truth value is written.
fn truth(value: bool) -> &'static [u8]
    ensures { result.now ≡ compact_text (Data.boolean value) }
{
    if value { b"true" } else { b"false" }
}

// Adds a truth value.
fn push_truth(text: &mut Vec<u8>, value: bool) -> Result<(), NoMemory>
    ensures { OnOk result (text.new.items ≡ text.old.items ++ compact_text (Data.boolean value)) }
{
    push_bytes(text, truth(value))
}

// Adds a case as far as its prefixes.
fn push_places(alloc: Global, text: &mut Vec<u8>, case: &CaseEvidence) -> Result<(), NoMemory>
    ensures text { OnOk result (text.new.items ≡ text.old.items ++ places_text case.now) }
    ensures rules { OnOk result (IsShort case.now.case.statement → IsWritable case.now) }
{
    let of = case.case();
    push_bytes(text, b"{\"external\":")?;
    push_truth(text, of.external)?;
    push_bytes(text, b",\"nodes\":")?;
    push_nodes(text, case.graph().nodes(), case.prefs(), case.tags())?;
    push_bytes(text, b",\"origins\":")?;
    push_locations(alloc, text, &of.origins)?;
    push_bytes(text, b",\"prefixes\":")?;
    push_prefixes(text, of.prefixes.as_slice())
}

// Adds a case from its starts on.
fn push_ways(text: &mut Vec<u8>, case: &CaseEvidence) -> Result<(), NoMemory>
    ensures text { OnOk result (text.new.items ≡ text.old.items ++ ways_text case.now) }
    ensures rules { OnOk result (IsShort case.now.case.statement) }
{
    let graph = case.graph();
    push_bytes(text, b",\"starts\":")?;
    push_numbers(text, graph.starts())?;
    push_bytes(text, b",\"statement\":")?;
    push_short(text, case.case().statement)?;
    push_bytes(text, b",\"steps\":")?;
    push_steps(text, graph.steps())?;
    push_bytes(text, b"}")
}

// Adds a case, its keys in the order of their bytes.
fn push_case(alloc: Global, text: &mut Vec<u8>, case: &CaseEvidence) -> Result<(), NoMemory>
    ensures text { OnOk result (text.new.items ≡ text.old.items ++ compact_text (case_data case.now)) }
    ensures rules { OnOk result (IsWritable case.now) }
{
    push_places(alloc, text, case)?;
    push_ways(text, case)
}

// Adds the cases.
fn push_cases(alloc: Global, text: &mut Vec<u8>, cases: &[CaseEvidence]) -> Result<(), NoMemory>
    ensures text { OnOk result (text.new.items ≡ text.old.items ++ compact_text (array_of (map case_data cases.now))) }
    ensures rules { OnOk result (AllByRecursion IsWritable cases.now) }
{
    push_bytes(text, b"[")?;
    for i in 0..cases.len() {
        push_comma(text, i)?;
        push_case(alloc, text, &cases[i])?;
    }
    push_bytes(text, b"]")
}

// Room for the text of a case.
fn room_for_case(case: &CaseEvidence) -> usize {
    let prefixes = case.case().prefixes.as_slice().len();
    let graph = case.graph();
    CASE_BYTES
        .saturating_add(prefixes.saturating_mul(PREFIX_BYTES))
        .saturating_add(graph.nodes().len().saturating_mul(NODE_BYTES))
        .saturating_add(graph.steps().len().saturating_mul(STEP_BYTES))
}

// Room for the text of cases, which is asked for once. Where it falls short, the text grows.
fn room_for(cases: &[CaseEvidence]) -> usize {
    let mut room = 0usize;
    for case in cases {
        room = room.saturating_add(room_for_case(case));
    }
    room
}

/// The text of evidence: one JSON object without spaces, its keys in the order of their bytes, and a line feed. It spells
/// this evidence.
pub fn print_evidence(alloc: Global, evidence: &Evidence) -> Result<Vec<u8>, NoMemory>
    ensures text { IfOk result (λ v. v.items ≡ evidence_text evidence.now.cases) }
    ensures read { IfOk result (λ v. spelled v.items ≡ Ok evidence.now.cases) }
{
    let cases = evidence.cases.as_slice();
    let mut text = Vec::with_capacity(alloc, room_for(cases))?;
    push_bytes(&mut text, b"{\"cases\":")?;
    push_cases(alloc, &mut text, cases)?;
    push_bytes(&mut text, b",\"version\":1}\n")?;
    Ok(text)
}
