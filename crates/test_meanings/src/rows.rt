//! Networks under failures, with the routes that their routers settle on.
use crate::exit_rows::{entered, exits, exported, silent_exit};
use crate::values::{Held, Range};
use test_networks::{
    LINE_CONFIG, Network, RING_CONFIG, TRIANGLE_CONFIG, TWO_ROUTERS_CONFIG, TWO_SPINES_CONFIG,
    TWO_WAYS_CONFIG,
};

/// The tables that are tried in the setting of a row besides.
#[derive(Clone, Copy)]
pub(crate) enum Tables {
    None,
    Exits,
    Entered,
    Exported,
}

/// A network with a policy, its configuration and failures; the routes that the routers settle on; and single
/// routes in whose place the outcome isn't stable. Locations go by their numbers.
#[derive(Clone, Copy)]
pub(crate) struct Row {
    pub(crate) name: &'static str,
    pub(crate) network: Network,
    pub(crate) policy: &'static str,
    pub(crate) config: &'static str,
    pub(crate) prefix: &'static str,
    pub(crate) dead: Range,
    pub(crate) dead_links: &'static [(u16, u16)],
    pub(crate) silent: &'static [(u16, u16)],
    pub(crate) settled: &'static [Held],
    pub(crate) unstable: &'static [(u16, Held)],
    pub(crate) tables: Tables,
}

const ANY_FROM_A: &str = "originate 10.0.1.0/24 at A; 10.0.1.0/24 => any;";

const DEAD_LINK: Row = Row {
    name: "a triangle with a dead link",
    network: Network::Triangle,
    policy: ANY_FROM_A,
    config: TRIANGLE_CONFIG,
    prefix: "10.0.1.0/24",
    dead: (0, 0),
    dead_links: &[(2, 0)],
    silent: &[],
    settled: &[
        Some((&[0], 1, 0)),
        Some((&[1, 0], 1, 100)),
        Some((&[2, 1, 0], 1, 100)),
    ],
    unstable: &[
        (0, None),
        (0, Some((&[0], 1, 1))),
        (0, Some((&[0], 0, 0))),
        (1, None),
        (1, Some((&[1, 0], 1, 101))),
        (1, Some((&[1, 0], 2, 100))),
        (1, Some((&[1, 2, 1, 0], 1, 100))),
        (2, None),
        (2, Some((&[2, 0], 1, 100))),
    ],
    tables: Tables::None,
};

const TIE: Row = Row {
    name: "a tie, where C takes the longer of two routes with one preference",
    network: Network::Triangle,
    policy: ANY_FROM_A,
    config: TRIANGLE_CONFIG,
    prefix: "10.0.1.0/24",
    dead: (0, 0),
    dead_links: &[],
    silent: &[],
    settled: &[
        Some((&[0], 1, 0)),
        Some((&[1, 0], 1, 100)),
        Some((&[2, 1, 0], 1, 100)),
    ],
    unstable: &[(2, None), (1, Some((&[1, 2, 0], 1, 100)))],
    tables: Tables::None,
};

const DEAD_ORIGIN: Row = Row {
    name: "a triangle with its origin dead",
    network: Network::Triangle,
    policy: ANY_FROM_A,
    config: TRIANGLE_CONFIG,
    prefix: "10.0.1.0/24",
    dead: (0, 1),
    dead_links: &[],
    silent: &[],
    settled: &[None, None, None],
    unstable: &[(0, Some((&[0], 1, 0))), (1, Some((&[1, 0], 1, 100)))],
    tables: Tables::None,
};

const RANKED_DETOUR: Row = Row {
    name: "a detour that is ranked second",
    network: Network::Ring,
    policy: "originate 10.0.1.0/24 at D; 10.0.1.0/24 => avoid(X) >> any;",
    config: RING_CONFIG,
    prefix: "10.0.1.0/24",
    dead: (0, 0),
    dead_links: &[(0, 1)],
    silent: &[],
    settled: &[
        Some((&[0], 1, 0)),
        Some((&[1, 2, 3, 0], 2, 100)),
        Some((&[2, 3, 0], 1, 100)),
        Some((&[3, 0], 1, 101)),
    ],
    unstable: &[
        (0, None),
        (1, None),
        (1, Some((&[1, 0], 1, 101))),
        (2, None),
        (2, Some((&[2, 1, 0], 1, 100))),
        (3, None),
        (3, Some((&[3, 2, 1, 0], 2, 100))),
    ],
    tables: Tables::None,
};

const RANKED_FALLBACK: Row = Row {
    name: "a fallback path that is ranked second",
    network: Network::TwoWays,
    policy: "originate 10.0.1.0/24 at D; 10.0.1.0/24 => path(A, B, C, D) >> path(A, E, D) from A;",
    config: TWO_WAYS_CONFIG,
    prefix: "10.0.1.0/24",
    dead: (0, 0),
    dead_links: &[(1, 2)],
    silent: &[],
    settled: &[
        Some((&[0, 4, 3], 1, 100)),
        None,
        Some((&[2, 3], 1, 100)),
        Some((&[3], 1, 0)),
        Some((&[4, 3], 1, 100)),
    ],
    unstable: &[
        (0, None),
        (0, Some((&[0, 1, 2, 3], 2, 101))),
        (1, Some((&[1, 2, 3], 1, 100))),
        (2, None),
        (3, None),
        (4, None),
    ],
    tables: Tables::None,
};

const UNGOVERNED: Row = Row {
    name: "a prefix that nothing governs",
    network: Network::TwoRouters,
    policy: "originate 10.0.1.0/24 at A; originate 10.0.9.0/24 at A; 10.0.1.0/24 => any;",
    config: TWO_ROUTERS_CONFIG,
    prefix: "10.0.9.0/24",
    dead: (0, 0),
    dead_links: &[],
    silent: &[],
    settled: &[Some((&[0], 0, 0)), None],
    unstable: &[
        (0, None),
        (0, Some((&[0], 1, 0))),
        (1, Some((&[1, 0], 1, 100))),
    ],
    tables: Tables::None,
};

const DEAD_SPINE: Row = Row {
    name: "the valley-free policy with a dead router",
    network: Network::TwoSpines,
    policy: "originate 10.0.1.0/24 at T1;
10.0.1.0/24 => through(S1, S2) and notransit(T1, T3, T4) from T3, T4;",
    config: TWO_SPINES_CONFIG,
    prefix: "10.0.1.0/24",
    dead: (2, 3),
    dead_links: &[],
    silent: &[],
    settled: &[
        Some((&[0], 1, 0)),
        Some((&[1, 0], 1, 100)),
        None,
        Some((&[3, 1, 0], 1, 100)),
        Some((&[4, 3, 1, 0], 1, 100)),
        Some((&[5, 4, 3, 1, 0], 1, 100)),
        Some((&[6, 4, 3, 1, 0], 1, 100)),
    ],
    unstable: &[
        (0, None),
        (1, None),
        (2, Some((&[2, 1, 0], 1, 100))),
        (3, None),
        (4, None),
        (4, Some((&[4, 2, 1, 0], 1, 100))),
        (5, None),
        (6, Some((&[6, 4, 2, 1, 0], 1, 100))),
    ],
    tables: Tables::None,
};

const SEVERAL_ORIGINS: Row = Row {
    name: "two origins, of which one announces",
    network: Network::Line,
    policy: "originate 10.0.5.0/24 at A, D; 10.0.5.0/24 => end(A >> D);",
    config: LINE_CONFIG,
    prefix: "10.0.5.0/24",
    dead: (0, 0),
    dead_links: &[],
    silent: &[],
    settled: &[
        Some((&[0], 0, 0)),
        Some((&[1], 1, 0)),
        Some((&[2, 1], 1, 100)),
    ],
    unstable: &[
        (0, None),
        (0, Some((&[0], 1, 0))),
        (1, None),
        (1, Some((&[1, 0], 1, 100))),
        (2, None),
        (2, Some((&[2, 1, 0], 1, 100))),
    ],
    tables: Tables::None,
};

// A triangle with a dead link.
fn dead_link() -> Row {
    DEAD_LINK
}

// A triangle with a tie.
fn tie() -> Row {
    TIE
}

// A triangle with its origin dead.
fn dead_origin() -> Row {
    DEAD_ORIGIN
}

// A ring with a detour.
fn ranked_detour() -> Row {
    RANKED_DETOUR
}

// Two ways, of which one is a fallback.
fn ranked_fallback() -> Row {
    RANKED_FALLBACK
}

// A prefix that nothing governs.
fn ungoverned() -> Row {
    UNGOVERNED
}

// Two spines, one of them dead.
fn dead_spine() -> Row {
    DEAD_SPINE
}

// Two origins.
fn several_origins() -> Row {
    SEVERAL_ORIGINS
}

/// The row of this number.
pub(crate) fn nth_row(number: usize) -> Option<Row> {
    Some(match number {
        0 => dead_link(),
        1 => tie(),
        2 => dead_origin(),
        3 => exits(),
        4 => silent_exit(),
        5 => ranked_detour(),
        6 => ranked_fallback(),
        7 => ungoverned(),
        8 => dead_spine(),
        9 => several_origins(),
        10 => entered(),
        11 => exported(),
        _ => return None,
    })
}
