//! What is said of maps.
ghost use Rattle.std.specs.Prelude.{◌≡◌, IfOk};
ghost use Rattle.judging_jobs.specs.MapsSaid.{too_many_lines, same_line as line_of_same, differs_line as line_of_difference};

use input_output::NoMemory;
use std::alloc::Global;
use text_parts::{push_bytes, push_number};

/// The line of the refusal that the text of maps would have so many lines.
pub fn too_many_lines_line(alloc: Global, number: u64) -> Result<Vec<u8>, NoMemory>
    ensures { IfOk result (λ v. v.items ≡ too_many_lines number) }
{
    let mut line = Vec::new(alloc);
    push_bytes(&mut line, b"propane: refused 8 too-many-lines number ")?;
    push_number(&mut line, number)?;
    push_bytes(&mut line, b"\n")?;
    Ok(line)
}

/// The line that tells that maps are those of a configuration.
pub fn same_line(alloc: Global) -> Result<Vec<u8>, NoMemory>
    ensures { IfOk result (λ v. v.items ≡ line_of_same) }
{
    let mut line = Vec::new(alloc);
    push_bytes(&mut line, b"same\n")?;
    Ok(line)
}

/// The line that tells where two texts differ first.
pub fn differs_line(alloc: Global, number: u64) -> Result<Vec<u8>, NoMemory>
    ensures { IfOk result (λ v. v.items ≡ line_of_difference number) }
{
    let mut line = Vec::new(alloc);
    push_bytes(&mut line, b"differs line ")?;
    push_number(&mut line, number)?;
    push_bytes(&mut line, b"\n")?;
    Ok(line)
}
