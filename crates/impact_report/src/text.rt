//! The texts of an impact, and of what cuts change and move.
ghost use Rattle.std.specs.Prelude.{◌≡◌, IfOk, length};
ghost use Rattle.config_base.specs.Configs.{PlainConfig};
ghost use Rattle.config_base.specs.Lines.{class_of};
ghost use Rattle.impact_report.specs.Texts.{base_text as text_of_base, impact_text as text_of_impact, what_if_text as text_of_what_if};

use crate::lines::{push_base, push_counts, push_moving_rows, push_rows};
use impact_law::{Impact, SourceRank, WhatIf};
use input_output::NoMemory;
use net_base::{Net, Prefix};
use outcome_report::push_head;
use std::alloc::Global;

// The prefix and its class, and a line for each claimed source.
fn base_text(
    alloc: Global,
    net: &Net,
    prefix: Prefix,
    class: Option<usize>,
    base: &[SourceRank],
) -> Result<Vec<u8>, NoMemory>
    ensures { IfOk result (λ v. (config : PlainConfig) → class ≡ class_of config prefix → v.items ≡ text_of_base net.now config prefix base.now) }
{
    let mut text = Vec::new(alloc);
    push_head(&mut text, prefix, class)?;
    push_base(&mut text, net, base)?;
    Ok(text)
}

/// The text of an impact: the prefix and its class, a line for each claimed source, the cuts that change something, each with the sources
/// that it changes, and how many cuts there are.
pub fn impact_text(
    alloc: Global,
    net: &Net,
    prefix: Prefix,
    class: Option<usize>,
    impact: &Impact,
) -> Result<Vec<u8>, NoMemory>
    ensures { IfOk result (λ v. (config : PlainConfig) → class ≡ class_of config prefix → v.items ≡ text_of_impact net.now config prefix impact.now) }
{
    let rows = impact.rows.as_slice();
    let mut text = base_text(alloc, net, prefix, class, impact.base.as_slice())?;
    let told = push_rows(&mut text, net, rows)?;
    push_counts(&mut text, rows.len(), told)?;
    Ok(text)
}

/// The text of what cuts change and move: as that of an impact, where each cut that changes or moves something tells how many routers it
/// moves to another route, and how many to another multipath set.
pub fn what_if_text(
    alloc: Global,
    net: &Net,
    prefix: Prefix,
    class: Option<usize>,
    what_if: &WhatIf,
) -> Result<Vec<u8>, NoMemory>
    requires { length what_if.now.moves ≡ length what_if.now.impact.rows }
    ensures { IfOk result (λ v. (config : PlainConfig) → class ≡ class_of config prefix → v.items ≡ text_of_what_if net.now config prefix what_if.now) }
{
    let impact = &what_if.impact;
    let rows = impact.rows.as_slice();
    let mut text = base_text(alloc, net, prefix, class, impact.base.as_slice())?;
    let told = push_moving_rows(&mut text, net, rows, what_if.moves.as_slice())?;
    push_counts(&mut text, rows.len(), told)?;
    Ok(text)
}
