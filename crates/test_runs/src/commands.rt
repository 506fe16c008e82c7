//! Every command.
use crate::texts::Text;
use propane_run::Status;

/// A run: its command, its texts, its further words, and the status with which it ends where nothing fails.
pub(crate) type Row = (
    &'static str,
    &'static [Text],
    &'static [&'static str],
    Status,
);

/// Any path for two routers.
pub(crate) const COMPILE: Row = (
    "compile",
    &[Text::Routers, Text::AnyPath],
    &[],
    Status::Done,
);

/// Each command, as it ends in each way.
pub(crate) const ROWS: [Row; 39] = [
    COMPILE,
    (
        "evidence",
        &[Text::Routers, Text::AnyPath],
        &[],
        Status::Done,
    ),
    (
        "check",
        &[Text::Routers, Text::AnyPath, Text::Config, Text::Evidence],
        &[],
        Status::Done,
    ),
    (
        "check",
        &[Text::Routers, Text::AnyPath, Text::NoConfig, Text::Evidence],
        &[],
        Status::CheckFails,
    ),
    (
        "check",
        &[Text::Routers, Text::AnyPath, Text::Config, Text::NoEvidence],
        &[],
        Status::BadInput,
    ),
    (
        "explain",
        &[Text::Routers, Text::AnyPath],
        &[],
        Status::Done,
    ),
    (
        "explain",
        &[Text::Ring, Text::RingPolicy],
        &[],
        Status::Done,
    ),
    (
        "replay",
        &[Text::Routers, Text::AnyPath, Text::NoFailures],
        &[],
        Status::Done,
    ),
    (
        "replay",
        &[Text::Routers, Text::AnyPath, Text::NoObject],
        &[],
        Status::BadInput,
    ),
    ("sample", &[], &["2"], Status::Done),
    ("help", &[], &[], Status::Done),
    ("help", &[], &["audit"], Status::Done),
    ("version", &[], &[], Status::Done),
    (
        "compile",
        &[Text::Ring, Text::RingPolicy],
        &[],
        Status::Refused,
    ),
    (
        "evidence",
        &[Text::Spines, Text::SpinesPolicy],
        &[],
        Status::Refused,
    ),
    (
        "trace",
        &[Text::Routers, Text::AnyPath, Text::Events],
        &[],
        Status::Done,
    ),
    (
        "audit",
        &[
            Text::Routers,
            Text::AnyPath,
            Text::Config,
            Text::Evidence,
            Text::NoFailures,
            Text::Tables,
        ],
        &[],
        Status::Done,
    ),
    (
        "audit",
        &[
            Text::Routers,
            Text::AnyPath,
            Text::Config,
            Text::Evidence,
            Text::NoFailures,
            Text::OneTable,
        ],
        &[],
        Status::CheckFails,
    ),
    ("migrate", &[Text::Config1], &[], Status::Done),
    ("migrate", &[Text::Config], &[], Status::BadInput),
    (
        "impact",
        &[Text::Routers, Text::AnyPath],
        &["10.0.1.0/24"],
        Status::Done,
    ),
    ("lint", &[Text::Routers, Text::AnyPath], &[], Status::Done),
    (
        "routemap",
        &[Text::Routers, Text::AnyPath],
        &[],
        Status::Done,
    ),
    (
        "routemap",
        &[Text::Ring, Text::RingPolicy],
        &[],
        Status::Refused,
    ),
    ("checkmap", &[Text::Config, Text::Maps], &[], Status::Done),
    (
        "checkmap",
        &[Text::Config, Text::NoMaps],
        &[],
        Status::CheckFails,
    ),
    ("compile", &[], &[], Status::Usage),
    (
        "drain",
        &[Text::Routers, Text::AnyPath, Text::NoFailures],
        &[],
        Status::Done,
    ),
    (
        "settle",
        &[Text::Routers, Text::AnyPath, Text::Events],
        &[],
        Status::Done,
    ),
    (
        "promises",
        &[Text::Routers, Text::AnyPath],
        &[],
        Status::Done,
    ),
    (
        "whatif",
        &[Text::Routers, Text::AnyPath, Text::NoFailures],
        &[],
        Status::Done,
    ),
    (
        "multipath",
        &[Text::Routers, Text::AnyPath, Text::NoFailures],
        &[],
        Status::Done,
    ),
    ("maps", &[Text::Config], &[], Status::Done),
    (
        "between",
        &[Text::Config, Text::Config],
        &["2"],
        Status::Done,
    ),
    (
        "renew",
        &[Text::Routers, Text::AnyPath, Text::Config],
        &[],
        Status::Done,
    ),
    (
        "renewal",
        &[Text::Routers, Text::AnyPath, Text::Config],
        &[],
        Status::Done,
    ),
    (
        "renew",
        &[Text::Routers, Text::AnyPath, Text::Config, Text::Evidence],
        &[],
        Status::Done,
    ),
    (
        "waiting",
        &[Text::Routers, Text::AnyPath, Text::Events],
        &[],
        Status::Done,
    ),
    (
        "compare",
        &[Text::Routers, Text::AnyPath, Text::AnyPath],
        &[],
        Status::Done,
    ),
];

/// Runs over two texts of policies of which one has a fault, and the line that tells in which it is.
pub(crate) const FAULTS: [(Row, &str); 2] = [
    (
        (
            "compare",
            &[Text::Routers, Text::NoObject, Text::NoObject],
            &[],
            Status::BadInput,
        ),
        "propane: old policy 2 token at 1:1\n",
    ),
    (
        (
            "compare",
            &[Text::Routers, Text::AnyPath, Text::NoObject],
            &[],
            Status::BadInput,
        ),
        "propane: new policy 2 token at 1:1\n",
    ),
];
