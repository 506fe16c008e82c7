//! Rows that are copied.
ghost use Rattle.std.specs.Prelude.{◌≡◌, ◌<◌, ℕ, IfOk};
ghost use Rattle.bit_rows.specs.Tables.{IsSameSize, has_at};
ghost use Rattle.state_simulation.specs.Held.{IsSquare};
ghost use Rattle.state_simulation.specs.Targets.{IsWide};

use bit_rows::Rows;
use input_output::NoMemory;
use std::alloc::Global;

/// A copy of these rows.
pub fn copied(alloc: Global, rows: &Rows, size: u32) -> Result<Rows, NoMemory>
    requires square { IsSquare size rows.now }
    requires wide { IsWide size rows.now.width }
    ensures size { IfOk result (λ copy. IsSameSize copy rows.now) }
    ensures bits { IfOk result (λ copy. (n b : ℕ) → n < size → has_at copy n b ≡ has_at rows.now n b) }
{
    let mut copy = Rows::new(alloc, size, size)?;
    put_rows(&mut copy, rows, size);
    Ok(copy)
}

/// Makes the first rows those of the second table.
pub fn put_rows(into: &mut Rows, rows: &Rows, size: u32)
    requires square { IsSquare size into.old }
    requires same { IsSameSize rows.now into.old }
    ensures size { IsSameSize into.new into.old }
    ensures bits { (n b : ℕ) → n < size → has_at into.new n b ≡ has_at rows.now n b }
{
    for n in 0..size {
        into.put(n, rows.row(n));
    }
}
