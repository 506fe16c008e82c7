//! What is said where nothing may take over.
ghost use Rattle.std.specs.Prelude.{◌≡◌, IfOk};
ghost use Rattle.renewal_jobs.specs.Renewing.{run_out_line as line_of};
ghost use Rattle.renewal_jobs.specs.Reusing.{other_line as line_of_other};

use input_output::NoMemory;
use std::alloc::Global;
use text_parts::{push_bytes, push_number};

/// The line of the refusal that above this preference there are too few.
pub fn run_out_line(alloc: Global, top: u32) -> Result<Vec<u8>, NoMemory>
    ensures { IfOk result (λ v. v.items ≡ line_of top) }
{
    let mut line = Vec::new(alloc);
    push_bytes(&mut line, b"propane: refused 10 preferences-run-out pref ")?;
    push_number(&mut line, u64::from(top))?;
    push_bytes(&mut line, b"\n")?;
    Ok(line)
}

/// The line of the refusal that the evidence isn't that of the old configuration.
pub fn other_line(alloc: Global) -> Result<Vec<u8>, NoMemory>
    ensures { IfOk result (λ v. v.items ≡ line_of_other) }
{
    let mut line = Vec::new(alloc);
    push_bytes(&mut line, b"propane: refused 11 other-evidence\n")?;
    Ok(line)
}
