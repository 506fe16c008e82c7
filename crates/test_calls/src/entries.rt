//! What the entries of route maps let through.
use config_base::Route;
use input_output::NoMemory;
use map_maker::maps_of;
use net_base::{List, Loc, Net, Prefix, read_prefix};
use route_maps::{Maps, map_in, map_out};
use std::alloc::Global;
use test_networks::{ENTERED_CONFIG, Network, TWO_EXITS_CONFIG, config_of, path, read, tag};

// R1 and R2 are 0 and 1, their peers 2 and 3. A router, a neighbour, the path that begins with it, whose tag comes with it and its
// value, and what becomes of them.
type Read = (u16, u16, &'static [u16], (u16, u32), Option<(u32, u32)>);

// A router, a neighbour, the value of the router's tag, and the value that goes out.
type Sent = (u16, u16, u32, Option<u32>);

// A configuration, a prefix, and what its maps do with routes for it.
#[derive(Clone, Copy)]
struct Row {
    config: &'static str,
    prefix: &'static str,
    read: &'static [Read],
    sent: &'static [Sent],
}

// The row of this number.
fn nth_row(number: usize) -> Option<Row> {
    Some(match number {
        0 => Row {
            config: TWO_EXITS_CONFIG,
            prefix: "10.0.0.0/8",
            read: &[
                (0, 1, &[1, 3], (1, 1), Some((2, 100))),
                (0, 1, &[1, 3], (1, 2), Some((1, 101))),
                (0, 1, &[1, 3], (1, 3), None),
                (0, 1, &[1, 0, 2], (1, 2), None),
                (0, 2, &[2], (2, 0), Some((1, 101))),
                (0, 2, &[2, 1], (2, 0), None),
                (0, 3, &[3], (3, 0), None),
            ],
            sent: &[(0, 1, 1, Some(1)), (0, 1, 3, None), (0, 2, 1, None)],
        },
        1 => Row {
            config: ENTERED_CONFIG,
            prefix: "10.0.1.0/24",
            read: &[(0, 1, &[1], (1, 1), Some((1, 100)))],
            sent: &[(0, 2, 1, Some(0)), (1, 0, 1, Some(1)), (1, 3, 1, None)],
        },
        2 => Row {
            config: ENTERED_CONFIG,
            prefix: "10.0.2.0/24",
            read: &[(0, 1, &[1], (1, 1), None)],
            sent: &[(0, 2, 1, None), (1, 0, 1, None)],
        },
        _ => return None,
    })
}

fn is_read(
    alloc: Global,
    net: &Net,
    maps: &Maps,
    prefix: Prefix,
    row: &Read,
) -> Result<bool, NoMemory> {
    let path = path(alloc, row.2)?;
    let sent = tag(row.3.0, row.3.1);
    let held = map_in(
        net,
        maps,
        prefix,
        Loc::new(row.0),
        Loc::new(row.1),
        &path,
        sent,
    );
    Ok(match row.4 {
        None => held.is_none(),
        Some((value, pref)) => held == Some((tag(row.0, value), pref)),
    })
}

fn is_sent(alloc: Global, net: &Net, maps: &Maps, prefix: Prefix, row: &Sent) -> bool {
    let held = Route {
        path: List::new(alloc),
        tag: tag(row.0, row.2),
        pref: 100,
    };
    let sent = map_out(net, maps, prefix, Loc::new(row.0), Loc::new(row.1), &held);
    match row.3 {
        None => sent.is_none(),
        Some(value) => sent == Some(tag(row.0, value)),
    }
}

// Whether all routes of a row are read and sent as it says.
fn are_right(
    alloc: Global,
    net: &Net,
    maps: &Maps,
    prefix: Prefix,
    row: &Row,
) -> Result<bool, NoMemory> {
    for read in row.read {
        if !is_read(alloc, net, maps, prefix, read)? {
            return Ok(false);
        }
    }
    for sent in row.sent {
        if !is_sent(alloc, net, maps, prefix, sent) {
            return Ok(false);
        }
    }
    Ok(true)
}

// The maps of a configuration's text, where it has some.
fn maps_for(alloc: Global, text: &str) -> Option<Maps> {
    let config = config_of(alloc, text)?;
    maps_of(alloc, &config).ok()
}

fn is_right(alloc: Global, net: &Net, row: &Row) -> Result<bool, NoMemory> {
    let maps = maps_for(alloc, row.config);
    let prefix = read_prefix(row.prefix.as_bytes());
    match (maps, prefix) {
        (Some(maps), Ok(prefix)) => are_right(alloc, net, &maps, prefix, row),
        _ => Ok(false),
    }
}

// The first row that is wrong for this network.
fn wrong_for(alloc: Global, net: &Net) -> Result<Option<usize>, NoMemory> {
    for number in 0..100 {
        match nth_row(number) {
            None => return Ok(None),
            Some(row) if is_right(alloc, net, &row)? => {}
            Some(_) => return Ok(Some(number)),
        }
    }
    Ok(Some(100))
}

/// The first row whose routes the entries of the maps read or send otherwise.
pub fn wrong_entry(alloc: Global) -> Result<Option<usize>, NoMemory> {
    match read(alloc, Network::TwoExits, "true => any;") {
        Some((net, _)) => wrong_for(alloc, &net),
        None => Ok(Some(0)),
    }
}
