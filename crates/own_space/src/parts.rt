//! The parts of a network's own space that peers are believed in.
ghost use Rattle.std.specs.Prelude.{◌≡◌, ◌++◌, ◌+◌, ◌<◌, List as Items, length, map, IfOk, OnOk};
ghost use Rattle.std.specs.List.{flat_map};
ghost use Rattle.net_base.specs.Prefixes.{PlainPattern};
ghost use Rattle.policy_base.specs.Policies.{plain_statement, policy_of};
ghost use Rattle.lint_cover.specs.Tables.{Holds};
ghost use Rattle.own_space.specs.Open.{new_part, open_parts as parts_in, origin_part, parts_from, pattern_parts, statement_parts};

use crate::covers::{is_covered, table_of};
use crate::open_case::{OpenCase, number_at};
use crate::open_part::OpenPart;
use crate::spaces::{outer_of, part_in};
use input_output::NoMemory;
use lint_cover::PatternTable;
use net_base::Pattern;
use policy_base::{Origin, Policy, Statement};
use std::alloc::Global;

// Adds a part, unless all of its prefixes are in patterns before it.
fn push_new(parts: &mut Vec<OpenPart>, table: &PatternTable, part: OpenPart) -> Result<(), NoMemory>
    ensures { (qs : Items PlainPattern) → Holds table.now qs → OnOk result (parts.new.items ≡ parts.old.items ++ new_part qs part) }
{
    if is_covered(table, part.pattern) {
        return Ok(());
    }
    parts.push(part)?;
    Ok(())
}

// Adds the part of a pattern in an originated prefix.
fn push_part(
    parts: &mut Vec<OpenPart>,
    table: &PatternTable,
    number: usize,
    pattern: Pattern,
    origin: &Origin,
) -> Result<(), NoMemory>
    ensures { (qs : Items PlainPattern) → Holds table.now qs → OnOk result (parts.new.items ≡ parts.old.items ++ origin_part qs number pattern origin.now) }
{
    let within = origin.prefix;
    match part_in(within, pattern) {
        None => Ok(()),
        Some(pattern) => push_new(
            parts,
            table,
            OpenPart {
                pattern,
                within,
                number,
            },
        ),
    }
}

// Adds the parts of a pattern, by originated prefix.
fn push_parts(
    parts: &mut Vec<OpenPart>,
    table: &PatternTable,
    number: usize,
    pattern: Pattern,
    outer: &[Origin],
) -> Result<(), NoMemory>
    ensures { (qs : Items PlainPattern) → Holds table.now qs → OnOk result (parts.new.items ≡ parts.old.items ++ flat_map (origin_part qs number pattern) outer.now) }
{
    for origin in outer {
        push_part(parts, table, number, pattern, origin)?;
    }
    Ok(())
}

// Adds the parts of a pattern, where its statement has one of the cases.
fn push_pattern(
    parts: &mut Vec<OpenPart>,
    table: &PatternTable,
    number: Option<usize>,
    pattern: Pattern,
    outer: &[Origin],
) -> Result<(), NoMemory>
    ensures { (qs : Items PlainPattern) → Holds table.now qs → OnOk result (parts.new.items ≡ parts.old.items ++ pattern_parts outer.now qs number pattern) }
{
    match number {
        None => Ok(()),
        Some(number) => {
            if is_covered(table, pattern) {
                Ok(())
            } else {
                push_parts(parts, table, number, pattern, outer)
            }
        }
    }
}

// Adds the parts of a statement, and puts its patterns into the table.
fn push_statement(
    parts: &mut Vec<OpenPart>,
    table: &mut PatternTable,
    number: Option<usize>,
    patterns: &[Pattern],
    outer: &[Origin],
) -> Result<(), NoMemory>
    ensures held { (qs : Items PlainPattern) → Holds table.old qs → OnOk result (Holds table.new (qs ++ patterns.now)) }
    ensures parts { (qs : Items PlainPattern) → Holds table.old qs → OnOk result (parts.new.items ≡ parts.old.items ++ statement_parts outer.now qs number patterns.now) }
{
    for pattern in patterns {
        push_pattern(parts, table, number, *pattern, outer)?;
        table.note(*pattern)?;
    }
    Ok(())
}

// Adds the parts of statements.
fn push_statements(
    parts: &mut Vec<OpenPart>,
    table: &mut PatternTable,
    cases: &[OpenCase],
    statements: &[Statement],
    outer: &[Origin],
) -> Result<(), NoMemory>
    requires { length statements.now < 4294967295 }
    ensures { (qs : Items PlainPattern) → Holds table.old qs
        → OnOk result (parts.new.items ≡ parts.old.items ++ parts_from outer.now cases.now qs 1 (map plain_statement statements.now)) }
{
    for place in 0..statements.len() {
        let number = number_at(cases, place);
        push_statement(
            parts,
            table,
            number,
            statements[place].patterns.as_slice(),
            outer,
        )?;
    }
    Ok(())
}

/// The parts of a policy's own space that peers are believed in, where these are the cases in which some router takes what peers announce:
/// by statement, by pattern and by originated prefix. A part is left out where each of its prefixes is originated, or in a pattern before it.
pub fn open_parts(
    alloc: Global,
    policy: &Policy,
    cases: &[OpenCase],
) -> Result<Vec<OpenPart>, NoMemory>
    ensures { IfOk result (λ parts. parts.items ≡ parts_in (policy_of policy.now) cases.now) }
{
    let origins = policy.origins();
    let outer = outer_of(alloc, origins)?;
    let mut table = table_of(alloc, origins)?;
    let mut parts = Vec::new(alloc);
    push_statements(&mut parts, &mut table, cases, policy.statements(), &outer)?;
    Ok(parts)
}
