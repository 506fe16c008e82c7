//! What single lines say.
use crate::setting::Setting;
use crate::wrong::{UNREAD, Wrong};
use config_base::{Config, Route, class_of, export_of, import_of, own_tag};
use input_output::NoMemory;
use net_base::{List, Loc, read_prefix};
use std::alloc::Global;
use test_networks::{config_of, path, tag};

const TWO_CLASSES: &str = "propane-config 2
class 1 10.0.0.0/8 le 16
class 2 10.0.0.0/8 le 16, 10.0.0.0/8 le 24
";

// A prefix and its class.
type Class = (&'static str, Option<u32>);

const CLASSES: [Class; 5] = [
    ("10.0.0.0/8", Some(1)),
    ("10.1.0.0/16", Some(1)),
    ("10.1.1.0/24", Some(2)),
    ("10.1.1.4/30", None),
    ("11.0.0.0/8", None),
];

fn is_in_class(config: &Config, row: &Class) -> bool {
    match read_prefix(row.0.as_bytes()) {
        Ok(prefix) => class_of(config, prefix) == row.1,
        Err(_) => false,
    }
}

fn wrong_class_of(config: &Config) -> Option<Wrong> {
    for i in 0..CLASSES.len() {
        let row = &CLASSES[i];
        if !is_in_class(config, row) {
            return Some((row.0, i));
        }
    }
    None
}

/// The first prefix that has another class: classes go by first match.
pub fn wrong_class(alloc: Global) -> Option<Wrong> {
    match config_of(alloc, TWO_CLASSES) {
        Some(config) => wrong_class_of(&config),
        None => Some(UNREAD),
    }
}

// A class, a router, a neighbour and the value of the router's tag, and the value that goes out.
type Sent = (u32, u16, u16, u32, Option<u32>);

const EXPORTS: [Sent; 6] = [
    (1, 1, 0, 1, Some(1)),
    (1, 0, 2, 1, Some(0)),
    (1, 0, 2, 2, None),
    (2, 0, 2, 1, None),
    (1, 1, 3, 1, None),
    (1, 0, 1, 1, None),
];

fn is_sent(alloc: Global, setting: Setting<'_>, row: &Sent) -> bool {
    let held = Route {
        path: List::new(alloc),
        tag: tag(row.1, row.3),
        pref: 100,
    };
    let (from, to) = (Loc::new(row.1), Loc::new(row.2));
    let sent = export_of(setting.net, setting.config, row.0, from, to, &held);
    match row.4 {
        None => sent.is_none(),
        Some(value) => sent == Some(tag(row.1, value)),
    }
}

/// The first tag that goes out wrongly.
pub(crate) fn wrong_export(alloc: Global, setting: Setting<'_>) -> Option<Wrong> {
    for i in 0..EXPORTS.len() {
        if !is_sent(alloc, setting, &EXPORTS[i]) {
            return Some(("an export", i));
        }
    }
    None
}

// A class, a router, a neighbour, the path that begins with it, whose tag comes with it and its value, and what
// becomes of them.
type Read = (
    u32,
    u16,
    u16,
    &'static [u16],
    (u16, u32),
    Option<(u32, u32)>,
);

const IMPORTS: [Read; 12] = [
    (1, 0, 1, &[1, 3], (1, 1), Some((2, 100))),
    (1, 0, 1, &[1, 3], (1, 2), Some((1, 101))),
    (1, 0, 1, &[1, 3], (1, 3), None),
    (1, 0, 1, &[1, 3], (0, 1), None),
    (2, 0, 1, &[1, 3], (1, 1), None),
    (1, 0, 1, &[1, 0, 2], (1, 2), None),
    (1, 0, 2, &[2], (2, 0), Some((1, 101))),
    (1, 0, 2, &[2], (0, 1), Some((1, 101))),
    (1, 0, 2, &[2, 3], (2, 0), Some((1, 101))),
    (1, 0, 2, &[2, 1], (2, 0), None),
    (1, 0, 3, &[3], (3, 0), None),
    (1, 1, 3, &[3], (3, 0), Some((1, 100))),
];

fn is_imported(alloc: Global, setting: Setting<'_>, row: &Read) -> Result<bool, NoMemory> {
    let path = path(alloc, row.3)?;
    let (router, neighbour) = (Loc::new(row.1), Loc::new(row.2));
    let sent = tag(row.4.0, row.4.1);
    let (net, config) = (setting.net, setting.config);
    let held = import_of(net, config, row.0, router, neighbour, &path, sent);
    Ok(match row.5 {
        None => held.is_none(),
        Some((value, pref)) => held == Some((tag(row.1, value), pref)),
    })
}

/// The first tag that is read wrongly.
pub(crate) fn wrong_import(alloc: Global, setting: Setting<'_>) -> Result<Option<Wrong>, NoMemory> {
    for i in 0..IMPORTS.len() {
        if !is_imported(alloc, setting, &IMPORTS[i])? {
            return Ok(Some(("an import", i)));
        }
    }
    Ok(None)
}

// A prefix, a router, and the value of the tag of its own route. R1 has none, and no line names the other prefix.
type Own = (&'static str, u16, u32);

const OWN: [Own; 3] = [
    ("10.0.1.0/24", 1, 1),
    ("10.0.1.0/24", 0, 0),
    ("10.0.2.0/24", 1, 0),
];

fn is_own(setting: Setting<'_>, row: &Own) -> bool {
    match read_prefix(row.0.as_bytes()) {
        Ok(prefix) => {
            let own = own_tag(setting.net, setting.config, prefix, Loc::new(row.1));
            own == tag(row.1, row.2)
        }
        Err(_) => false,
    }
}

/// The first own route that is tagged wrongly.
pub(crate) fn wrong_own(setting: Setting<'_>) -> Option<Wrong> {
    for i in 0..OWN.len() {
        if !is_own(setting, &OWN[i]) {
            return Some(("the tag of an own route", i));
        }
    }
    None
}
