//! The texts of runs.
use test_networks::{Network, TWO_ROUTERS_CONFIG, TWO_ROUTERS_CONFIG_1, TWO_ROUTERS_EVIDENCE};

/// Any path to a prefix at A.
pub(crate) const ANY_PATH: &str = "originate 10.0.1.0/24 at A; 10.0.1.0/24 => any;";

const REFUSED: &str = "originate 10.0.1.0/24 at D; 10.0.1.0/24 => through(W) >> any;";

const MIXED: &str = "originate 10.0.1.0/24 at T1; 10.0.1.0/24 => through(S1, S2);";

const MAPS: &str = "propane-maps 1
list 1 permit 10.0.1.0/24
router A asn 64512 id 10.255.0.1
network 10.0.1.0/24 list 1 set 64512:0:1
neighbor B asn 64513
out 10 list 1 match 64512:0:1
end
router B asn 64513 id 10.255.0.2
neighbor A asn 64512
in 10 list 1 match 64512:0:1 set 64513:0:1 pref 100
end
";

const NO_FAILURES: &str = r#"{"prefix":"10.0.1.0/24","dead":[],"dead_links":[],"silent":[]}"#;

const EVENTS: &str =
    r#"{"events":[["deliver","A","B"],["link_down","A","B"]],"prefix":"10.0.1.0/24"}"#;

const TABLES: &str =
    r#"{"routes":[{"path":["A"],"pref":0,"tag":[64512,1]},{"path":["B","A"],"pref":100,"tag":[64513,1]}]}"#;

const ONE_TABLE: &str = r#"{"routes":[{"path":["A"],"pref":0,"tag":[64512,1]},null]}"#;

/// A text of a run. Where nothing else is said it is one for two routers.
#[derive(Clone, Copy)]
pub(crate) enum Text {
    Routers,
    AnyPath,
    Config,
    /// The configuration as a text of the first edition.
    Config1,
    NoConfig,
    Evidence,
    NoEvidence,
    NoFailures,
    NoObject,
    Events,
    Tables,
    OneTable,
    Maps,
    NoMaps,
    Ring,
    /// A policy for the ring that is refused.
    RingPolicy,
    Spines,
    /// A policy for the spines that is refused.
    SpinesPolicy,
}

impl Text {
    // The text itself.
    fn text(self) -> &'static str {
        match self {
            Text::Routers => Network::TwoRouters.text(),
            Text::AnyPath => ANY_PATH,
            Text::Config => TWO_ROUTERS_CONFIG,
            Text::Config1 => TWO_ROUTERS_CONFIG_1,
            Text::NoConfig => "propane-config 2\n",
            Text::Evidence => TWO_ROUTERS_EVIDENCE,
            Text::NoEvidence => r#"{"cases":[],"version":2}"#,
            Text::NoFailures => NO_FAILURES,
            Text::NoObject => "[]",
            Text::Events => EVENTS,
            Text::Tables => TABLES,
            Text::OneTable => ONE_TABLE,
            Text::Maps => MAPS,
            Text::NoMaps => "propane-maps 1\n",
            Text::Ring => Network::WaypointRing.text(),
            Text::RingPolicy => REFUSED,
            Text::Spines => Network::TwoSpines.text(),
            Text::SpinesPolicy => MIXED,
        }
    }

    /// The bytes of the text.
    pub(crate) fn bytes(self) -> &'static [u8] {
        self.text().as_bytes()
    }
}
