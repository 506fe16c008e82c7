//! Policies that are printed, and what is printed read again; the texts of a sample.
use crate::wrong::Wrong;
use input_output::NoMemory;
use net_base::Net;
use policy_base::Policy;
use policy_text::print_policy;
use sample_network::sample;
use std::alloc::Global;
use test_networks::{Network, read};

// Whether a policy is printed like this.
fn is_printed(alloc: Global, net: &Net, policy: &Policy, wanted: &str) -> Result<bool, NoMemory> {
    Ok(print_policy(alloc, policy, net)?.as_slice() == wanted.as_bytes())
}

// Whether a text is read, and printed like this.
fn prints(alloc: Global, network: Network, text: &str, wanted: &str) -> Result<bool, NoMemory> {
    match read(alloc, network, text) {
        Some((net, policy)) => is_printed(alloc, &net, &policy, wanted),
        None => Ok(false),
    }
}

const BRACKETS: &str =
    "10.0.0.0/8 le 24 or 0.0.0.0/0 le 32 => ((any) >> (drop >> (start(P1, R2) and (end(any) or (not (not internal)))))) from P2, R1;";

const FEWER_BRACKETS: &str =
    "10.0.0.0/8 le 24 or 0.0.0.0/0 le 32 => any >> (drop >> start(R2, P1) and (end(any) or not (not internal))) from R1, P2;\n";

const ENTERED: &str = "originate 10.0.1.0/24 at R2;\n10.0.1.0/24 => enter(R1);\n";

const FALLBACK: &str =
    "originate 10.0.1.0/24 at D;\n10.0.1.0/24 => path(A, B, C, D) >> path(A, E, D) from A;\n";

const GROUP: &str = "define G = { R2, R1 }; true => link(G, P1);";

const EXITS: &str = "true => exit(P1 >> P2);\n";

// A name, a network, a policy and what is printed of it.
type Row = (&'static str, Network, &'static str, &'static str);

const ROWS: [Row; 5] = [
    (
        "groups are sets",
        Network::TwoExits,
        GROUP,
        "true => link({ R1, R2 }, P1);\n",
    ),
    ("two exits", Network::TwoExits, EXITS, EXITS),
    (
        "a listener that is entered",
        Network::TwoExits,
        ENTERED,
        ENTERED,
    ),
    (
        "a ranked fallback path",
        Network::TwoWays,
        FALLBACK,
        FALLBACK,
    ),
    (
        "brackets and lists",
        Network::TwoExits,
        BRACKETS,
        FEWER_BRACKETS,
    ),
];

// Whether a policy is printed as its row says, and as itself once it was printed.
fn is_right(alloc: Global, row: &Row) -> Result<bool, NoMemory> {
    Ok(prints(alloc, row.1, row.2, row.3)? && prints(alloc, row.1, row.3, row.3)?)
}

/// The first policy of which something else is printed, or that is printed as another one once it was printed.
pub fn wrong_text(alloc: Global) -> Result<Option<Wrong>, NoMemory> {
    for i in 0..ROWS.len() {
        let row = &ROWS[i];
        if !is_right(alloc, row)? {
            return Ok(Some((row.0, i)));
        }
    }
    Ok(None)
}

// The texts of the sample of two leaves, as `bench/make leaf-spine-2` writes them.
const SAMPLE_TOPOLOGY: &str =
    r#"{"links":[["L1","S1"],["L1","S2"],["L1","S3"],["L1","S4"],["L2","S1"],["L2","S2"],["L2","S3"],["L2","S4"],["S1","W1"],["S2","W2"]],"peers":[{"asn":1001,"id":"10.255.2.1","name":"W1"},{"asn":1002,"id":"10.255.2.2","name":"W2"}],"routers":[{"asn":64512,"id":"10.255.0.1","name":"L1"},{"asn":64513,"id":"10.255.0.2","name":"L2"},{"asn":64514,"id":"10.255.1.1","name":"S1"},{"asn":64515,"id":"10.255.1.2","name":"S2"},{"asn":64516,"id":"10.255.1.3","name":"S3"},{"asn":64517,"id":"10.255.1.4","name":"S4"}]}
"#;

const SAMPLE_POLICY: &str = "originate 10.0.1.0/24 at L1;
originate 10.0.2.0/24 at L2;
10.0.1.0/24 or 10.0.2.0/24 => notransit(L1, L2);
true => exit(W1 >> W2) and notransit(L1, L2);
";

/// Whether the sample has these texts.
pub fn sample_has_its_texts(alloc: Global) -> bool {
    match sample(alloc, 2) {
        Ok((net, policy)) => {
            net.as_slice() == SAMPLE_TOPOLOGY.as_bytes()
                && policy.as_slice() == SAMPLE_POLICY.as_bytes()
        }
        Err(_) => false,
    }
}
