//! What statements of policies mean: ranks, walks, origins, cases.
use crate::wrong::{UNREAD, Wrong};
use input_output::NoMemory;
use net_base::{Loc, LocSet, Net, Prefix, read_prefix};
use policy_base::{
    Case, Policy, Ranked, Statement, alternatives, cases, governing, is_allowed, is_loop_free,
    is_origin, is_permitted, is_walk, rank_of, statement_of,
};
use std::alloc::Global;
use test_networks::{Network, path, read};

// A path, and whether it is a walk, and free of loops. The routers A to D are 0 to 3, the peers P and Q are 4 and 5.
type Path = (&'static [u16], bool, bool);

const PATHS: [Path; 15] = [
    (&[], false, true),
    (&[1], false, true),
    (&[4], false, true),
    (&[0, 1], true, true),
    (&[1, 4], false, true),
    (&[4, 0], true, true),
    (&[0, 1, 2], true, true),
    (&[2, 3, 5], true, true),
    (&[5, 3, 1, 0], false, true),
    (&[4, 0, 1, 2, 3], true, true),
    (&[0, 4, 0], false, false),
    (&[0, 1, 0], true, false),
    (&[1, 0], true, true),
    (&[1, 2], true, true),
    (&[3, 2], true, true),
];

// A statement, with a figure for each path: its rank, or 0 where it has none.
type Ranks = (&'static str, &'static [u8; 15]);

const RANKS: [Ranks; 16] = [
    ("true => any;", b"111111111111111"),
    ("true => drop;", b"000000000000000"),
    ("true => internal;", b"110100100001111"),
    ("true => avoid(B, P);", b"100000010000001"),
    ("true => through(B, P);", b"011111101111110"),
    ("true => notransit(B, P);", b"111111010000111"),
    ("true => start(B, P);", b"011011000100110"),
    ("true => end(B, P);", b"011110000000000"),
    ("true => link({A, B}, {B, C, P});", b"000110100111010"),
    ("true => path({A, P}, {A, B});", b"000101000000000"),
    ("true => exit(B, P);", b"001010000000000"),
    ("true => exit(D);", b"000000010000000"),
    ("true => enter(B, P);", b"001001000100000"),
    ("true => enter(D);", b"000000001000000"),
    (
        "true => (start(B) >> end(C)) and through(A >> C);",
        b"000000300000124",
    ),
    ("true => not (start(B) or drop);", b"101101111111001"),
];

// Whether a path has this rank.
fn has_rank(
    alloc: Global,
    net: &Net,
    ranked: &Ranked,
    row: &Path,
    figure: u8,
) -> Result<bool, NoMemory> {
    if alternatives(ranked) > 64 {
        return Ok(false);
    }
    let path = path(alloc, row.0)?;
    Ok(rank_of(ranked, &path, net).unwrap_or(0) == u32::from(figure.wrapping_sub(b'0')))
}

// Whether the paths have these ranks.
fn has_ranks(
    alloc: Global,
    net: &Net,
    statement: &Statement,
    row: &Ranks,
) -> Result<bool, NoMemory> {
    for i in 0..15 {
        if !has_rank(alloc, net, &statement.ranked, &PATHS[i], row.1[i])? {
            return Ok(false);
        }
    }
    Ok(true)
}

// The first statement that ranks otherwise.
fn wrong_statement(
    alloc: Global,
    net: &Net,
    statements: &[Statement],
) -> Result<Option<Wrong>, NoMemory> {
    if statements.len() != RANKS.len() {
        return Ok(Some(UNREAD));
    }
    for i in 0..statements.len() {
        let row = &RANKS[i];
        if !has_ranks(alloc, net, &statements[i], row)? {
            return Ok(Some((row.0, i)));
        }
    }
    Ok(None)
}

// The statements of the table as one text.
fn ranked_text(alloc: Global) -> Result<String, NoMemory> {
    let mut text = String::new(alloc);
    for row in &RANKS {
        text.push_str(row.0)?;
    }
    Ok(text)
}

/// The first statement that ranks otherwise.
pub fn wrong_rank(alloc: Global) -> Result<Option<Wrong>, NoMemory> {
    let text = ranked_text(alloc)?;
    match read(alloc, Network::RowBetweenPeers, &text) {
        Some((net, policy)) => wrong_statement(alloc, &net, policy.statements()),
        None => Ok(Some(UNREAD)),
    }
}

// Whether it is told of a path whether it is a walk and free of loops.
fn is_told(alloc: Global, net: &Net, row: &Path) -> Result<bool, NoMemory> {
    let path = path(alloc, row.0)?;
    Ok(is_walk(&path, net) == row.1 && is_loop_free(&path) == row.2)
}

fn wrong_walk(alloc: Global, net: &Net) -> Result<Option<Wrong>, NoMemory> {
    for i in 0..PATHS.len() {
        if !is_told(alloc, net, &PATHS[i])? {
            return Ok(Some(("a walk or a loop", i)));
        }
    }
    Ok(None)
}

// The routers A and B have 10.0.0.0/8, 10.1.1.0/24 and 10.2.0.0/16, and D has 11.0.0.0/8.
const POLICY: &str =
    "originate 10.0.0.0/8 at A, B; originate 10.1.1.0/24 at A, B; originate 11.0.0.0/8 at D;
originate 10.2.0.0/16 at A, B;
10.0.0.0/8 le 16 => any from C, D;
11.0.0.0/8 => any;
10.0.0.0/8 le 24 => any;";

// A prefix, and the number of the statement that governs it.
type Governed = (&'static str, Option<u32>);

const GOVERNED: [Governed; 6] = [
    ("10.0.0.0/8", Some(1)),
    ("10.1.0.0/16", Some(1)),
    ("10.1.1.0/24", Some(3)),
    ("11.0.0.0/8", Some(2)),
    ("11.1.0.0/16", None),
    ("12.0.0.0/8", None),
];

fn is_governed(policy: &Policy, row: &Governed) -> bool {
    match read_prefix(row.0.as_bytes()) {
        Ok(prefix) => governing(policy, prefix) == row.1,
        Err(_) => false,
    }
}

fn wrong_prefix(policy: &Policy) -> Option<Wrong> {
    for i in 0..GOVERNED.len() {
        let row = &GOVERNED[i];
        if !is_governed(policy, row) {
            return Some((row.0, i));
        }
    }
    None
}

// A prefix, a location, and whether the one originates at the other.
type Origin = (&'static str, u16, bool);

const ORIGINS: [Origin; 6] = [
    ("10.0.0.0/8", 0, true),
    ("10.0.0.0/8", 2, false),
    ("10.0.0.0/8", 4, false),
    ("10.1.0.0/16", 0, false),
    ("10.1.0.0/16", 2, false),
    ("10.1.0.0/16", 4, true),
];

fn is_origin_told(net: &Net, policy: &Policy, row: &Origin) -> bool {
    match read_prefix(row.0.as_bytes()) {
        Ok(prefix) => is_origin(net, policy, prefix, Loc::new(row.1)) == row.2,
        Err(_) => false,
    }
}

fn wrong_origin(net: &Net, policy: &Policy) -> Option<Wrong> {
    for i in 0..ORIGINS.len() {
        if !is_origin_told(net, policy, &ORIGINS[i]) {
            return Some(("an origin", i));
        }
    }
    None
}

// A path, and whether the statement of 10.0.0.0/8 permits and allows it.
type Allowed = (&'static [u16], bool, bool);

const ALLOWED: [Allowed; 6] = [
    (&[2, 1], true, true),
    (&[2, 1, 0], false, false),
    (&[4, 0], false, false),
    (&[3, 2], false, false),
    (&[3, 2, 1], true, true),
    (&[2, 3, 2, 1], true, false),
];

// Whether a path is permitted and allowed as a row says.
fn is_allowed_like(
    net: &Net,
    policy: &Policy,
    prefix: Prefix,
    path: &[Loc],
    row: &Allowed,
) -> bool {
    match statement_of(policy, prefix) {
        Some(statement) => {
            alternatives(&statement.ranked) <= 64
                && is_permitted(net, policy, prefix, statement, path) == row.1
                && is_allowed(net, policy, prefix, statement, path) == row.2
        }
        None => false,
    }
}

fn is_allowed_right(
    alloc: Global,
    net: &Net,
    policy: &Policy,
    row: &Allowed,
) -> Result<bool, NoMemory> {
    let path = path(alloc, row.0)?;
    Ok(match read_prefix(b"10.0.0.0/8") {
        Ok(prefix) => is_allowed_like(net, policy, prefix, &path, row),
        Err(_) => false,
    })
}

fn wrong_path(alloc: Global, net: &Net, policy: &Policy) -> Result<Option<Wrong>, NoMemory> {
    for i in 0..ALLOWED.len() {
        if !is_allowed_right(alloc, net, policy, &ALLOWED[i])? {
            return Ok(Some(("a permitted path", i)));
        }
    }
    Ok(None)
}

// The statement of a case, whether its origins are peers, from which location on and below which one the origins are, and how
// many prefixes it has.
type CaseRow = (u32, bool, (u16, u16), usize);

const CASES: [CaseRow; 5] = [
    (1, false, (0, 2), 2),
    (3, false, (0, 2), 1),
    (2, false, (3, 4), 1),
    (1, true, (4, 6), 0),
    (3, true, (4, 6), 0),
];

fn is_case(case: &Case, row: &CaseRow) -> bool {
    case.statement == row.0
        && case.external == row.1
        && case.origins == LocSet::of_range(row.2.0, row.2.1)
        && case.prefixes.as_slice().len() == row.3
}

fn wrong_case_of(all: &[Case]) -> Option<Wrong> {
    if all.len() != CASES.len() {
        return Some(("the number of cases", all.len()));
    }
    for i in 0..all.len() {
        if !is_case(&all[i], &CASES[i]) {
            return Some(("a case", i));
        }
    }
    None
}

fn wrong_case(alloc: Global, net: &Net, policy: &Policy) -> Result<Option<Wrong>, NoMemory> {
    let list = cases(alloc, net, policy)?;
    Ok(wrong_case_of(list.cases.as_slice()))
}

// The first row of all tables over one policy that is wrong by it.
fn wrong_by(alloc: Global, net: &Net, policy: &Policy) -> Result<Option<Wrong>, NoMemory> {
    let walk = wrong_walk(alloc, net)?;
    let path = wrong_path(alloc, net, policy)?;
    let case = wrong_case(alloc, net, policy)?;
    let of_prefixes = wrong_prefix(policy).or(wrong_origin(net, policy));
    Ok(walk.or(path).or(case).or(of_prefixes))
}

/// The first row that is wrong of what one policy says of walks, paths, prefixes, origins and cases.
pub fn wrong_meaning(alloc: Global) -> Result<Option<Wrong>, NoMemory> {
    match read(alloc, Network::RowBetweenPeers, POLICY) {
        Some((net, policy)) => wrong_by(alloc, &net, &policy),
        None => Ok(Some(UNREAD)),
    }
}
