//! Evidence read from the tokens of its text, with no JSON value made.
ghost use Rattle.std.specs.Prelude.{◌≡◌, ◌≤◌, ◌==◌, [], ◌∷◌, ◌++◌, Some, None, Ok, IfSome, slice_index};
ghost use Rattle.json.specs.Json.{after_end_array, read_key};
ghost use Rattle.json.specs.Token.{begin_array as open_bracket, begin_object as open_brace, boolean as truth};
ghost use Rattle.serde_json.specs.Data.{Data, unsigned};
ghost use Rattle.serde_json.specs.Read.{number_of as written_number, read};
ghost use Rattle.json_values.specs.Json.{json_of};
ghost use Rattle.evidence_text.specs.declared.parts.Field.{Field};
ghost use Rattle.evidence_text.specs.declared.parts.Field.TheVariants as field;
ghost use Rattle.evidence_text.specs.Shape.{case_of, each, node_of, number_of, origins_of, prefix_of, shape_of, step_of};
ghost use Rattle.evidence_text.specs.Tokens.{Begins, array_of};

use crate::numbers::{Numbers, pair, within};
use crate::raw::{NodeEntry, RawCase, RawEvidence};
use crate::shape::are_in_order;
use fast_float::Numeral;
use json::{Reader, Scratch, Token};
use net_base::{List, Prefix, read_prefix};
use simdutf8::basic::from_utf8;
use std::alloc::Global;

// Passes the bracket that opens an array.
fn begin_array(reader: &mut Reader<'_>) -> Option<()>
    ensures { IfSome result (λ _. reader.old ≡ open_bracket ∷ reader.new) }
{
    match reader.next() {
        Some(Token::BeginArray) => Some(()),
        _ => None,
    }
}

// Passes the brace that opens an object.
fn begin_object(reader: &mut Reader<'_>) -> Option<()>
    ensures { IfSome result (λ _. reader.old ≡ open_brace ∷ reader.new) }
{
    match reader.next() {
        Some(Token::BeginObject) => Some(()),
        _ => None,
    }
}

// Passes this key.
fn key(reader: &mut Reader<'_>, name: &str) -> Option<()>
    ensures { IfSome result (λ _. read_key reader.old ≡ Some (Some name.now, reader.new)) }
{
    match reader.next_key() {
        Ok(Some(found)) => { if found == name { Some(()) } else { None } }
        _ => None,
    }
}

// Passes the brace that closes an object.
fn end_object(reader: &mut Reader<'_>) -> Option<()>
    ensures { IfSome result (λ _. read_key reader.old ≡ Some (None, reader.new)) }
{
    match reader.next_key() {
        Ok(None) => Some(()),
        _ => None,
    }
}

// Passes the bracket that closes an array.
fn end_array(reader: &mut Reader<'_>) -> Option<()>
    ensures { IfSome result (λ _. after_end_array reader.old ≡ Some reader.new) }
{
    if reader.take_end_array() {
        Some(())
    } else {
        None
    }
}

// Reads `true` or `false`.
fn boolean(reader: &mut Reader<'_>) -> Option<bool>
    ensures { IfSome result (λ b. reader.old ≡ truth b ∷ reader.new) }
{
    match reader.next() {
        Some(Token::Bool(b)) => Some(b),
        _ => None,
    }
}

// Whether a number begins with a minus.
fn has_minus(bytes: &[u8]) -> bool
    ensures { result ≡ (slice_index bytes.now 0 == 45) }
{
    !bytes.is_empty() && bytes[0] == b'-'
}

// The number of a text that has no sign, no point and no exponent.
fn whole(text: &str) -> Option<u64>
    ensures { IfSome result (λ n. written_number text.now ≡ Some (unsigned n)) }
{
    let bytes = text.as_bytes();
    if has_minus(bytes) {
        return None;
    }
    Numeral::scan(bytes).to_u64()
}

// A whole number in its range.
fn number(reader: &mut Reader<'_>, least: u32, most: u32) -> Option<u32>
    ensures number { IfSome result (λ n. (f : Field) → Begins 0 (number_of f least most) reader.old (Some n) reader.new) }
    ensures range { IfSome result (λ n. n ≤ most) }
{
    let Some(Token::Number(text)) = reader.next() else {
        return None;
    };
    within(whole(text)?, least, most)
}

// The node that an array of six numbers says.
fn node(reader: &mut Reader<'_>) -> Option<NodeEntry>
    ensures { IfSome result (λ n. Begins 1 node_of reader.old (Some n) reader.new) }
{
    begin_array(reader)?;
    let numbers = Numbers {
        location: Some(number(reader, 0, 767)?),
        listener: Some(number(reader, 0, 1)?),
        rank: Some(number(reader, 0, u32::MAX)?),
        number: Some(number(reader, 0, u32::MAX)?),
        asn: Some(number(reader, 0, u32::MAX)?),
        value: Some(number(reader, 0, u32::MAX)?),
    };
    end_array(reader)?;
    numbers.entry()
}

// The step that an array of two numbers says.
fn step(reader: &mut Reader<'_>) -> Option<(u32, u32)>
    ensures { IfSome result (λ s. Begins 1 step_of reader.old (Some s) reader.new) }
{
    begin_array(reader)?;
    let from = number(reader, 0, u32::MAX)?;
    let to = number(reader, 0, u32::MAX)?;
    end_array(reader)?;
    pair(Some(from), Some(to))
}

// The prefix that a string spells.
fn prefix(reader: &mut Reader<'_>) -> Option<Prefix>
    ensures { IfSome result (λ p. Begins 0 prefix_of reader.old p reader.new) }
{
    let Some(Token::String(text)) = reader.next() else {
        return None;
    };
    match read_prefix(text.as_bytes()) {
        Ok(prefix) => Some(prefix),
        Err(_) => None,
    }
}

// Puts an item behind the others, where there is memory for it.
fn push<T: Drop>(all: &mut List<T>, item: T) -> Option<()>
    ensures { IfSome result (λ _. all.new ≡ all.old ++ item ∷ []) }
{
    match all.push(item) {
        Ok(()) => Some(()),
        Err(_) => None,
    }
}

// The nodes of an array.
fn nodes(alloc: Global, reader: &mut Reader<'_>) -> Option<List<Option<NodeEntry>>>
    ensures { IfSome result (λ v. Begins 2 (array_of field.Nodes (each node_of)) reader.old v reader.new) }
{
    begin_array(reader)?;
    let mut all = List::new(alloc);
    'items: while !reader.take_end_array() {
        let entry = node(reader)?;
        push(&mut all, Some(entry))?;
    }
    Some(all)
}

// The steps of an array.
fn steps(alloc: Global, reader: &mut Reader<'_>) -> Option<List<Option<(u32, u32)>>>
    ensures { IfSome result (λ v. Begins 2 (array_of field.Steps (each step_of)) reader.old v reader.new) }
{
    begin_array(reader)?;
    let mut all = List::new(alloc);
    'items: while !reader.take_end_array() {
        let entry = step(reader)?;
        push(&mut all, Some(entry))?;
    }
    Some(all)
}

// The prefixes of an array.
fn prefixes(alloc: Global, reader: &mut Reader<'_>) -> Option<List<Prefix>>
    ensures { IfSome result (λ v. Begins 1 (array_of field.Prefixes (each prefix_of)) reader.old v reader.new) }
{
    begin_array(reader)?;
    let mut all = List::new(alloc);
    'items: while !reader.take_end_array() {
        let entry = prefix(reader)?;
        push(&mut all, entry)?;
    }
    Some(all)
}

// The numbers of an array, each of which is at most so great.
fn numbers(alloc: Global, reader: &mut Reader<'_>, most: u32) -> Option<List<Option<u32>>>
    ensures { IfSome result (λ v. (f : Field) → Begins 1 (array_of f (each (number_of f 0 most))) reader.old v reader.new) }
{
    begin_array(reader)?;
    let mut all = List::new(alloc);
    'items: while !reader.take_end_array() {
        let entry = number(reader, 0, most)?;
        push(&mut all, Some(entry))?;
    }
    Some(all)
}

// The locations of the origins, ascending.
fn origins(alloc: Global, reader: &mut Reader<'_>) -> Option<List<Option<u32>>>
    ensures { IfSome result (λ v. Begins 1 (array_of field.Origins origins_of) reader.old v reader.new) }
{
    let origins = numbers(alloc, reader, 767)?;
    if are_in_order(origins.as_slice()) {
        Some(origins)
    } else {
        None
    }
}

// The case that an object with its keys in order says.
fn case(alloc: Global, reader: &mut Reader<'_>) -> Option<RawCase>
    ensures { IfSome result (λ c. Begins 3 case_of reader.old c reader.new) }
{
    begin_object(reader)?;
    key(reader, "external")?;
    let external = boolean(reader)?;
    key(reader, "nodes")?;
    let nodes = nodes(alloc, reader)?;
    key(reader, "origins")?;
    let origins = origins(alloc, reader)?;
    key(reader, "prefixes")?;
    let prefixes = prefixes(alloc, reader)?;
    key(reader, "starts")?;
    let starts = numbers(alloc, reader, u32::MAX)?;
    key(reader, "statement")?;
    let statement = Some(number(reader, 1, u32::MAX)?);
    key(reader, "steps")?;
    let steps = steps(alloc, reader)?;
    end_object(reader)?;
    Some(RawCase {
        external,
        nodes,
        origins,
        prefixes,
        starts,
        statement,
        steps,
    })
}

// The cases of an array.
fn cases(alloc: Global, reader: &mut Reader<'_>) -> Option<List<RawCase>>
    ensures { IfSome result (λ v. Begins 4 (array_of field.Cases (each case_of)) reader.old v reader.new) }
{
    begin_array(reader)?;
    let mut all = List::new(alloc);
    'items: while !reader.take_end_array() {
        let entry = case(alloc, reader)?;
        push(&mut all, entry)?;
    }
    Some(all)
}

// The evidence that an object with its keys in order says.
fn evidence(alloc: Global, reader: &mut Reader<'_>) -> Option<RawEvidence>
    ensures { IfSome result (λ e. Begins 5 shape_of reader.old e reader.new) }
{
    begin_object(reader)?;
    key(reader, "cases")?;
    let cases = cases(alloc, reader)?;
    key(reader, "version")?;
    let version = Some(number(reader, 0, u32::MAX)?);
    end_object(reader)?;
    Some(RawEvidence { cases, version })
}

// The evidence that the text says, with nothing behind it.
fn read_text(alloc: Global, text: &str) -> Option<RawEvidence>
    ensures { IfSome result (λ e. (d : Data) × (read text.now ≡ Some d) × (shape_of d ≡ Ok e)) }
{
    let mut scratch = Scratch::new(alloc);
    let Ok(mut reader) = Reader::new(text, &mut scratch) else {
        return None;
    };
    let raw = evidence(alloc, &mut reader)?;
    if reader.next().is_some() {
        return None;
    }
    Some(raw)
}

/// The text that the bytes spell, where they are evidence with all numbers in their ranges and with the keys of each
/// object in order, as it is printed. `None` tells nothing: other bytes may be evidence too, and memory may be short.
pub fn read_tokens(alloc: Global, bytes: &[u8]) -> Option<RawEvidence>
    ensures { IfSome result (λ e. (d : Data) × (json_of bytes.now ≡ Some d) × (shape_of d ≡ Ok e)) }
{
    match from_utf8(bytes) {
        Ok(text) => read_text(alloc, text),
        Err(_) => None,
    }
}
