//! Rows over the network of two routers with a peer each.
use crate::rows::{Row, Tables};
use test_networks::{ENTERED_CONFIG, Network, TWO_EXITS_CONFIG};

// Two exits, where each router also exports to its peer what came from P1.
const EXPORTED_CONFIG: &str = "propane-config 2
class 1 0.0.0.0/0 le 32
router R1 asn 64512 id 10.255.0.1
session R2 asn 64513
import 1 tag 64513:0:1 set 64512:0:2 pref 100
import 1 tag 64513:0:2 set 64512:0:1 pref 101
export 1 tag 64512:0:1
export 1 tag 64512:0:2
peer P1 asn 1001
import 1 set 64512:0:1 pref 101
export 1 tag 64512:0:1
end
router R2 asn 64513 id 10.255.0.2
session R1 asn 64512
import 1 tag 64512:0:1 set 64513:0:2 pref 101
import 1 tag 64512:0:2 set 64513:0:1 pref 100
export 1 tag 64513:0:1
export 1 tag 64513:0:2
peer P2 asn 1002
import 1 set 64513:0:1 pref 100
export 1 tag 64513:0:2
end
";

const EXITS: Row = Row {
    name: "two exits",
    network: Network::TwoExits,
    policy: "true => exit(P1 >> P2);",
    config: TWO_EXITS_CONFIG,
    prefix: "198.51.100.0/24",
    dead: (0, 0),
    dead_links: &[],
    silent: &[],
    settled: &[Some((&[0, 2], 1, 101)), Some((&[1, 0, 2], 2, 101))],
    unstable: &[
        (0, None),
        (0, Some((&[0, 1, 3], 2, 100))),
        (0, Some((&[0, 2], 1, 100))),
        (1, None),
        (1, Some((&[1, 3], 1, 100))),
    ],
    tables: Tables::Exits,
};

const SILENT_EXIT: Row = Row {
    name: "two exits, the preferred one silent",
    network: Network::TwoExits,
    policy: "true => exit(P1 >> P2);",
    config: TWO_EXITS_CONFIG,
    prefix: "198.51.100.0/24",
    dead: (0, 0),
    dead_links: &[],
    silent: &[(0, 2)],
    settled: &[Some((&[0, 1, 3], 2, 100)), Some((&[1, 3], 1, 100))],
    unstable: &[
        (0, None),
        (0, Some((&[0, 2], 1, 101))),
        (1, None),
        (1, Some((&[1, 0, 2], 2, 101))),
    ],
    tables: Tables::None,
};

const ENTERED: Row = Row {
    name: "r2 originates a prefix, which P1 hears of over R1",
    network: Network::TwoExits,
    policy: "originate 10.0.1.0/24 at R2; 10.0.1.0/24 => enter(R1);",
    config: ENTERED_CONFIG,
    prefix: "10.0.1.0/24",
    dead: (0, 0),
    dead_links: &[],
    silent: &[],
    settled: &[Some((&[0, 1], 1, 100)), Some((&[1], 1, 0))],
    unstable: &[
        (0, None),
        (0, Some((&[0, 2], 1, 101))),
        (0, Some((&[0, 1], 0, 100))),
        (1, None),
    ],
    tables: Tables::Entered,
};

const EXPORTED: Row = Row {
    name: "the row of two exits, with lines that export to the peers what came from P1",
    network: Network::TwoExits,
    policy: "true => exit(P1 >> P2);",
    config: EXPORTED_CONFIG,
    prefix: "198.51.100.0/24",
    dead: (0, 0),
    dead_links: &[],
    silent: &[],
    settled: &[Some((&[0, 2], 1, 101)), Some((&[1, 0, 2], 2, 101))],
    unstable: &[],
    tables: Tables::Exported,
};

/// Two exits, of which P1's is preferred.
pub(crate) fn exits() -> Row {
    EXITS
}

/// The same where P1's session is silent.
pub(crate) fn silent_exit() -> Row {
    SILENT_EXIT
}

/// A prefix at R2, of which P1 hears.
pub(crate) fn entered() -> Row {
    ENTERED
}

/// Two exits that are exported to the peers.
pub(crate) fn exported() -> Row {
    EXPORTED
}
