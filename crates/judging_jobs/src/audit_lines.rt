//! What is said of a verdict on tables.
ghost use Rattle.std.specs.Prelude.{◌≡◌, IfOk, codes, option_map};
ghost use Rattle.judging_jobs.specs.AuditLines.{stable_line as line_of_stability, unstable_line as line_of_failure, unstable_text, better_text, missing_text};

use input_output::NoMemory;
use net_base::{Loc, Net};
use outcome_report::push_next;
use std::alloc::Global;
use table_audit::AuditVerdict;
use text_parts::{push_bytes, push_number};

/// The line that tells that tables are stable.
pub fn stable_line(alloc: Global) -> Result<Vec<u8>, NoMemory>
    ensures { IfOk result (λ v. v.items ≡ line_of_stability) }
{
    let mut line = Vec::new(alloc);
    push_bytes(&mut line, b"stable\n")?;
    Ok(line)
}

// The line of a router that isn't stable, and a word that says why.
fn router_line(alloc: Global, net: &Net, router: Loc, why: &[u8]) -> Result<Vec<u8>, NoMemory>
    ensures { IfOk result (λ v. v.items ≡ unstable_text net.now router why.now) }
{
    let mut line = Vec::new(alloc);
    push_bytes(&mut line, b"unstable router")?;
    push_next(&mut line, net, router)?;
    push_bytes(&mut line, why)?;
    push_bytes(&mut line, b"\n")?;
    Ok(line)
}

// That a neighbour gives a higher preference.
fn better(alloc: Global, net: &Net, neighbour: Loc, pref: u32) -> Result<Vec<u8>, NoMemory>
    ensures { IfOk result (λ v. v.items ≡ better_text net.now neighbour pref) }
{
    let mut why = Vec::new(alloc);
    push_bytes(&mut why, b" better")?;
    push_next(&mut why, net, neighbour)?;
    push_bytes(&mut why, b" pref ")?;
    push_number(&mut why, u64::from(pref))?;
    Ok(why)
}

// That a neighbour gives a route, and there is none.
fn missing(alloc: Global, net: &Net, neighbour: Loc) -> Result<Vec<u8>, NoMemory>
    ensures { IfOk result (λ v. v.items ≡ missing_text net.now neighbour) }
{
    let mut why = Vec::new(alloc);
    push_bytes(&mut why, b" missing")?;
    push_next(&mut why, net, neighbour)?;
    Ok(why)
}

/// The line of the router that a verdict names, and why it isn't stable. There is none where the verdict is `Stable`.
pub fn unstable_line(
    alloc: Global,
    net: &Net,
    verdict: AuditVerdict,
) -> Result<Option<Vec<u8>>, NoMemory>
    ensures { IfOk result (λ o. option_map (λ v. v.items) o ≡ line_of_failure net.now verdict) }
{
    let line = match verdict {
        AuditVerdict::Stable => return Ok(None),
        AuditVerdict::Dead(router) => router_line(alloc, net, router, b" dead")?,
        AuditVerdict::Own(router) => router_line(alloc, net, router, b" own")?,
        AuditVerdict::NotGiven(router) => router_line(alloc, net, router, b" not-given")?,
        AuditVerdict::Better(router, neighbour, pref) => {
            router_line(alloc, net, router, &better(alloc, net, neighbour, pref)?)?
        }
        AuditVerdict::Missing(router, neighbour) => {
            router_line(alloc, net, router, &missing(alloc, net, neighbour)?)?
        }
    };
    Ok(Some(line))
}
