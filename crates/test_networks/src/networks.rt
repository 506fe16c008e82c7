//! Small networks as texts. Routers have the AS numbers from 64512 on, peers those from 1001 on.

/// A small network.
#[derive(Clone, Copy)]
pub enum Network {
    /// Routers A and B, linked.
    TwoRouters,
    /// Linked routers R1 and R2, with the peer P1 at the first and P2 at the second.
    TwoExits,
    /// Routers A, B and C, each linked with each.
    Triangle,
    /// Routers D, B, X and C in a ring.
    Ring,
    /// Routers D, X, W and Y in a ring.
    WaypointRing,
    /// Routers D, X and W in a row.
    Chain,
    /// Routers A, D and C in a row.
    Line,
    /// Routers A, B, C and D in a row, a peer P at A and a peer Q at D.
    RowBetweenPeers,
    /// Routers A to E: a long way and a short one from A to D.
    TwoWays,
    /// Routers T1, A1, S1, S2, A2, T3 and T4: two ways over the middle.
    TwoSpines,
}

impl Network {
    /// The network as a text.
    pub fn text(self) -> &'static str {
        match self {
            Network::TwoRouters => TWO_ROUTERS,
            Network::TwoExits => TWO_EXITS,
            Network::Triangle => TRIANGLE,
            Network::Ring => RING,
            Network::WaypointRing => WAYPOINT_RING,
            Network::Chain => CHAIN,
            Network::Line => LINE,
            Network::RowBetweenPeers => ROW_BETWEEN_PEERS,
            Network::TwoWays => TWO_WAYS,
            Network::TwoSpines => TWO_SPINES,
        }
    }
}

const TWO_ROUTERS: &str = r#"{"routers":[{"name":"A","asn":64512,"id":"10.255.0.1"},
{"name":"B","asn":64513,"id":"10.255.0.2"}],
"peers":[],
"links":[["A","B"]]}"#;

const TWO_EXITS: &str = r#"{"routers":[{"name":"R1","asn":64512,"id":"10.255.0.1"},
{"name":"R2","asn":64513,"id":"10.255.0.2"}],
"peers":[{"name":"P1","asn":1001,"id":"192.0.2.1"},
{"name":"P2","asn":1002,"id":"192.0.2.2"}],
"links":[["R1","R2"],["R1","P1"],["R2","P2"]]}"#;

const TRIANGLE: &str = r#"{"routers":[{"name":"A","asn":64512,"id":"10.255.0.1"},
{"name":"B","asn":64513,"id":"10.255.0.2"},
{"name":"C","asn":64514,"id":"10.255.0.3"}],
"peers":[],
"links":[["A","B"],["A","C"],["B","C"]]}"#;

const RING: &str = r#"{"routers":[{"name":"D","asn":64512,"id":"10.255.0.1"},
{"name":"B","asn":64513,"id":"10.255.0.2"},
{"name":"X","asn":64514,"id":"10.255.0.3"},
{"name":"C","asn":64515,"id":"10.255.0.4"}],
"peers":[],
"links":[["D","B"],["B","X"],["X","C"],["C","D"]]}"#;

const WAYPOINT_RING: &str = r#"{"routers":[{"name":"D","asn":64512,"id":"10.255.0.1"},
{"name":"X","asn":64513,"id":"10.255.0.2"},
{"name":"W","asn":64514,"id":"10.255.0.3"},
{"name":"Y","asn":64515,"id":"10.255.0.4"}],
"peers":[],
"links":[["D","X"],["X","W"],["W","Y"],["Y","D"]]}"#;

const CHAIN: &str = r#"{"routers":[{"name":"D","asn":64512,"id":"10.255.0.1"},
{"name":"X","asn":64513,"id":"10.255.0.2"},
{"name":"W","asn":64514,"id":"10.255.0.3"}],
"peers":[],
"links":[["D","X"],["X","W"]]}"#;

const LINE: &str = r#"{"routers":[{"name":"A","asn":64512,"id":"10.255.0.1"},
{"name":"D","asn":64513,"id":"10.255.0.2"},
{"name":"C","asn":64514,"id":"10.255.0.3"}],
"peers":[],
"links":[["A","D"],["D","C"]]}"#;

const ROW_BETWEEN_PEERS: &str = r#"{"routers":[{"name":"A","asn":64512,"id":"10.255.0.1"},
{"name":"B","asn":64513,"id":"10.255.0.2"},
{"name":"C","asn":64514,"id":"10.255.0.3"},
{"name":"D","asn":64515,"id":"10.255.0.4"}],
"peers":[{"name":"P","asn":1001,"id":"192.0.2.1"},
{"name":"Q","asn":1002,"id":"192.0.2.2"}],
"links":[["A","B"],["A","P"],["B","C"],["C","D"],["D","Q"]]}"#;

const TWO_WAYS: &str = r#"{"routers":[{"name":"A","asn":64512,"id":"10.255.0.1"},
{"name":"B","asn":64513,"id":"10.255.0.2"},
{"name":"C","asn":64514,"id":"10.255.0.3"},
{"name":"D","asn":64515,"id":"10.255.0.4"},
{"name":"E","asn":64516,"id":"10.255.0.5"}],
"peers":[],
"links":[["A","B"],["B","C"],["C","D"],["A","E"],["E","D"]]}"#;

const TWO_SPINES: &str = r#"{"routers":[{"name":"T1","asn":64512,"id":"10.255.0.1"},
{"name":"A1","asn":64513,"id":"10.255.0.2"},
{"name":"S1","asn":64514,"id":"10.255.0.3"},
{"name":"S2","asn":64515,"id":"10.255.0.4"},
{"name":"A2","asn":64516,"id":"10.255.0.5"},
{"name":"T3","asn":64517,"id":"10.255.0.6"},
{"name":"T4","asn":64518,"id":"10.255.0.7"}],
"peers":[],
"links":[["T1","A1"],["A1","S1"],["A1","S2"],["S1","A2"],["S2","A2"],["A2","T3"],["A2","T4"]]}"#;
