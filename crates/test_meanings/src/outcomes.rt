//! The outcomes of the rows, and what their lines say.
use crate::lines::{wrong_export, wrong_import, wrong_own};
use crate::offers::{wrong_entry, wrong_given, wrong_left, wrong_loop};
use crate::rows::{Row, Tables, nth_row};
use crate::setting::Setting;
use crate::values::{Held, outcome, scenario};
use crate::wrong::{UNREAD, Wrong};
use config_base::Config;
use input_output::NoMemory;
use net_base::read_prefix;
use scenarios::{Outcome, Scenario, is_stable};
use std::alloc::Global;
use test_networks::{config_of, read};

// Whether an outcome is stable.
fn settles(setting: Setting<'_>, outcome: &Outcome) -> bool {
    is_stable(
        setting.net,
        setting.policy,
        setting.config,
        setting.scenario,
        outcome,
    )
}

// Whether the routes of a row are stable where one router holds something else.
fn settles_with(
    alloc: Global,
    row: &Row,
    setting: Setting<'_>,
    other: (u16, Held),
) -> Result<bool, NoMemory> {
    let outcome = outcome(alloc, row.settled, Some(other))?;
    Ok(settles(setting, &outcome))
}

// Whether a row's routes are stable, and no single change of them is.
fn is_right(
    alloc: Global,
    row: &Row,
    setting: Setting<'_>,
    outcome: &Outcome,
) -> Result<bool, NoMemory> {
    for change in row.unstable {
        if settles_with(alloc, row, setting, *change)? {
            return Ok(false);
        }
    }
    Ok(settles(setting, outcome))
}

// The first that is wrong of the tables over two exits.
fn wrong_exit(
    alloc: Global,
    setting: Setting<'_>,
    outcome: &Outcome,
) -> Result<Option<Wrong>, NoMemory> {
    let import = wrong_import(alloc, setting)?;
    let given = wrong_given(alloc, setting, outcome)?;
    let left = wrong_left(alloc, setting)?;
    Ok(import.or(given).or(left))
}

// The first that is wrong of the tables over a prefix of which P1 hears.
fn wrong_entered(
    alloc: Global,
    setting: Setting<'_>,
    outcome: &Outcome,
) -> Result<Option<Wrong>, NoMemory> {
    let entry = wrong_entry(alloc, setting, outcome)?;
    Ok(
        entry
            .or(wrong_export(alloc, setting))
            .or(wrong_own(setting)),
    )
}

// What is wrong of a row in its setting: itself, or a row of the tables that are tried there.
fn wrong_by(
    alloc: Global,
    row: &Row,
    setting: Setting<'_>,
    outcome: &Outcome,
) -> Result<Option<Wrong>, NoMemory> {
    if !is_right(alloc, row, setting, outcome)? {
        return Ok(Some((row.name, 0)));
    }
    match row.tables {
        Tables::None => Ok(None),
        Tables::Exits => wrong_exit(alloc, setting, outcome),
        Tables::Entered => wrong_entered(alloc, setting, outcome),
        Tables::Exported => wrong_loop(alloc, setting, outcome),
    }
}

// The same where its routes aren't made yet.
fn wrong_in(alloc: Global, row: &Row, setting: Setting<'_>) -> Result<Option<Wrong>, NoMemory> {
    let outcome = outcome(alloc, row.settled, None)?;
    wrong_by(alloc, row, setting, &outcome)
}

// The same where its configuration and its scenario were made.
fn wrong_after(
    alloc: Global,
    row: &Row,
    config: &Config,
    scenario: &Scenario,
) -> Result<Option<Wrong>, NoMemory> {
    match read(alloc, row.network, row.policy) {
        Some((net, policy)) => {
            let setting = Setting {
                net: &net,
                policy: &policy,
                config,
                scenario,
            };
            wrong_in(alloc, row, setting)
        }
        None => Ok(Some(UNREAD)),
    }
}

// The same where its scenario was made.
fn wrong_under(alloc: Global, row: &Row, scenario: &Scenario) -> Result<Option<Wrong>, NoMemory> {
    match config_of(alloc, row.config) {
        Some(config) => wrong_after(alloc, row, &config, scenario),
        None => Ok(Some(UNREAD)),
    }
}

// What is wrong of a row.
fn wrong_of(alloc: Global, row: &Row) -> Result<Option<Wrong>, NoMemory> {
    let Ok(prefix) = read_prefix(row.prefix.as_bytes()) else {
        return Ok(Some(UNREAD));
    };
    let scenario = scenario(alloc, prefix, row.dead, row.dead_links, row.silent)?;
    wrong_under(alloc, row, &scenario)
}

/// The first row whose routes aren't stable, or that is stable with a single change; or the first that is wrong of what lines
/// say, and of what is given, offered and left alive, in the setting of such a row.
pub fn wrong_outcome(alloc: Global) -> Result<Option<Wrong>, NoMemory> {
    for number in 0..100 {
        let Some(row) = nth_row(number) else {
            return Ok(None);
        };
        let wrong = wrong_of(alloc, &row)?;
        if wrong.is_some() {
            return Ok(wrong);
        }
    }
    Ok(Some(("a table that doesn't end", 100)))
}
