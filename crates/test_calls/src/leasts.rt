//! The least prefixes of pairs of first patterns.
use first_patterns::FirstPatterns;
use input_output::NoMemory;
use least_prefixes::least_prefixes;
use net_base::{Net, Prefix, read_prefix};
use policy_base::Policy;
use std::alloc::Global;
use test_networks::{Network, read};

// A prefix, and the number of the statement that governs it in the old policy.
type Least = (&'static str, Option<u32>);

// Two policies, and the least prefixes of the pairs of first patterns that they have.
type Row = (&'static str, &'static str, &'static [Least]);

const ROWS: [Row; 5] = [
    // what one longer `le` takes from the statement below is a pair of its own
    (
        "10.0.0.0/16 le 24 => any; true => any;",
        "10.0.0.0/16 le 25 => any; true => any;",
        &[
            ("0.0.0.0/0", Some(2)),
            ("10.0.0.0/16", Some(1)),
            ("10.0.0.0/25", Some(2)),
        ],
    ),
    // an originated prefix has no pair
    (
        "originate 10.0.0.0/16 at D; 10.0.0.0/16 le 24 => any; true => any;",
        "10.0.0.0/16 le 24 => any; true => any;",
        &[("0.0.0.0/0", Some(2)), ("10.0.0.0/17", Some(1))],
    ),
    (
        "10.0.1.0/24 => any;",
        "10.0.2.0/24 => any;",
        &[("10.0.1.0/24", Some(1)), ("10.0.2.0/24", None)],
    ),
    // the least prefix of a pattern can begin behind that of another one
    (
        "originate 10.0.0.0/24 at D; 10.0.0.0/25 le 32 => any; 10.0.0.0/24 le 32 => any;",
        "10.0.0.0/25 le 32 => any; 10.0.0.0/24 le 32 => any;",
        &[("10.0.0.0/25", Some(1)), ("10.0.0.128/25", Some(2))],
    ),
    // behind the last prefix there is no address
    (
        "255.255.255.0/24 le 32 => any;",
        "255.255.255.128/25 le 32 => any;",
        &[
            ("255.255.255.0/24", Some(1)),
            ("255.255.255.128/25", Some(1)),
        ],
    ),
];

// Whether a prefix is the one that is wanted, and has this statement.
fn is_wanted(firsts: &FirstPatterns, prefix: Prefix, wanted: &Least) -> bool {
    let statement = firsts.first(prefix).map(|first| first.statement);
    read_prefix(wanted.0.as_bytes()).ok() == Some(prefix) && statement == wanted.1
}

fn are_wanted(firsts: &FirstPatterns, prefixes: &[Prefix], wanted: &[Least]) -> bool {
    if prefixes.len() != wanted.len() {
        return false;
    }
    for number in 0..wanted.len() {
        if !is_wanted(firsts, prefixes[number], &wanted[number]) {
            return false;
        }
    }
    true
}

fn are_found(
    alloc: Global,
    old: &Policy,
    new: &Policy,
    wanted: &[Least],
) -> Result<bool, NoMemory> {
    let least = least_prefixes(alloc, old, new)?;
    let firsts = FirstPatterns::new(alloc, old)?;
    Ok(are_wanted(&firsts, &least, wanted))
}

fn is_right(alloc: Global, row: &Row) -> Result<bool, NoMemory> {
    let read_both: Option<((Net, Policy), (Net, Policy))> = match read(
        alloc,
        Network::Ring,
        row.0,
    ) {
        None => None,
        Some(old) => read(alloc, Network::Ring, row.1).map(|new| (old, new)),
    };
    match read_both {
        None => Ok(false),
        Some((old, new)) => are_found(alloc, &old.1, &new.1, row.2),
    }
}

/// The first row whose least prefixes are others.
pub fn wrong_least(alloc: Global) -> Result<Option<usize>, NoMemory> {
    for number in 0..ROWS.len() {
        if !is_right(alloc, &ROWS[number])? {
            return Ok(Some(number));
        }
    }
    Ok(None)
}
