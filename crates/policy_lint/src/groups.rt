//! Groups whose names are used nowhere.
ghost use Rattle.std.specs.Prelude.{◌≡◌, ◌++◌, ◌+◌, ◌-◌, ◌^◌, ◌<◌, ◌==◌, ℕ, List as Items, map, filter, IfOk, OnOk, if◌then◌else◌};
ghost use Rattle.std.specs.Str.{bytes_eq};
ghost use Rattle.policy_lint.specs.declared.finding.Finding.TheVariants as finding;
ghost use Rattle.policy_lint.specs.Groups.{count_of, group_in as group_of, group_names as names_of, is_unused, named, times, token_text as text_of};

use crate::finding::{Finding, push_if};
use input_output::NoMemory;
use net_base::Name;
use policy_tokens::Token;
use std::alloc::{AllocError, Global};
use std::collections::HashMap;

// The bytes of a token.
fn token_text<'a>(bytes: &'a [u8], token: &Token) -> &'a [u8]
    ensures { result.now ≡ text_of bytes.now token.now }
{
    let (from, to) = (token.from as usize, token.to as usize);
    if from <= to && to <= bytes.len() {
        &bytes[from..to]
    } else {
        &[]
    }
}

// Counts a text once more.
fn count_one<'a>(counts: &mut HashMap<&'a [u8], u64>, text: &'a [u8]) -> Result<(), NoMemory>
    requires { count_of counts.old text.now < 2 ^ 64 - 1 }
    ensures { OnOk result ((q : Items ℕ) → count_of counts.new q ≡ (if bytes_eq text.now q then count_of counts.old text.now + 1 else count_of counts.old q)) }
{
    let count = counts.get(text).copied().unwrap_or(0);
    counts.insert(text, count + 1)?;
    Ok(())
}

// How many tokens have each text.
fn text_counts<'a>(
    alloc: Global,
    bytes: &'a [u8],
    tokens: &[Token],
) -> Result<HashMap<&'a [u8], u64>, NoMemory>
    ensures { IfOk result (λ counts. (q : Items ℕ) → count_of counts q ≡ times bytes.now tokens.now q) }
{
    let mut counts = HashMap::new(alloc);
    for token in tokens {
        count_one(&mut counts, token_text(bytes, token))?;
    }
    Ok(counts)
}

// The name of the group that these tokens begin to define, if they do.
fn group_in(bytes: &[u8], tokens: &[Token]) -> Option<Name>
    ensures { result ≡ group_of bytes.now tokens.now }
{
    let [word, name, ..] = tokens else {
        return None;
    };
    if token_text(bytes, word) == b"define".as_slice() {
        Name::of(token_text(bytes, name))
    } else {
        None
    }
}

// Puts a name behind others, where there is one.
fn keep(names: &mut Vec<Name>, name: Option<Name>) -> Result<(), AllocError>
    ensures { OnOk result (names.new.items ≡ names.old.items ++ named name) }
{
    if let Some(name) = name {
        names.push(name)?;
    }
    Ok(())
}

// The names of the groups, in order of the text.
fn group_names(alloc: Global, bytes: &[u8], tokens: &[Token]) -> Result<Vec<Name>, AllocError>
    ensures { IfOk result (λ names. names.items ≡ names_of bytes.now tokens.now) }
{
    let mut names = Vec::new(alloc);
    for i in 0..tokens.len() {
        keep(&mut names, group_in(bytes, &tokens[i..]))?;
    }
    Ok(names)
}

// Whether one token has this text.
fn stands_once(counts: &HashMap<&[u8], u64>, name: &Name) -> bool
    ensures { result ≡ (count_of counts.now name.now == 1) }
{
    counts.get(name.as_bytes()).copied().unwrap_or(0) == 1
}

// Adds the groups of these names whose text one token has.
fn push_once(
    findings: &mut Vec<Finding>,
    counts: &HashMap<&[u8], u64>,
    names: &[Name],
) -> Result<(), AllocError>
    ensures { OnOk result (findings.new.items ≡ findings.old.items ++ map finding.UnusedGroup (filter (λ name. count_of counts.now name == 1) names.now)) }
{
    for name in names {
        push_if(
            findings,
            stands_once(counts, name),
            Finding::UnusedGroup(*name),
        )?;
    }
    Ok(())
}

/// Adds the groups whose names are no token but the one in their `define`.
pub fn push_unused(
    alloc: Global,
    findings: &mut Vec<Finding>,
    bytes: &[u8],
    tokens: &[Token],
) -> Result<(), NoMemory>
    ensures { OnOk result (findings.new.items ≡ findings.old.items ++ map finding.UnusedGroup (filter (is_unused bytes.now tokens.now) (names_of bytes.now tokens.now))) }
{
    let names = group_names(alloc, bytes, tokens)?;
    let counts = text_counts(alloc, bytes, tokens)?;
    push_once(findings, &counts, &names)?;
    Ok(())
}
