//! The bits that are set, one after another.
ghost use Rattle.std.specs.Prelude.{◌≡◌, ℕ, ◌+◌, ◌*◌, ◌/◌, ◌%◌, ◌==◌, ◌≤◌, ◌^◌, ◌&&◌, ◌||◌, OnOk, length};
ghost use Rattle.std.specs.Int.{bit_at};
ghost use Rattle.std.specs.List.{list_any};
ghost use Rattle.bit_rows.specs.Bits.{has};

use std::alloc::AllocError;

/// Lists the bits that are set, behind what is listed.
pub fn add_members(row: &[u64], list: &mut Vec<u32>) -> Result<(), AllocError>
    requires { 64 * length row.now ≤ 2 ^ 32 }
    ensures { OnOk result ((k : ℕ) → list_any (λ x. x == k) list.new.items ≡ (list_any (λ x. x == k) list.old.items || has row.now k)) }
{
    for i in 0..row.len() {
        add_members_of_word(i, row[i], list)?;
    }
    Ok(())
}

// Lists the bits that are set in the word at this place.
fn add_members_of_word(place: usize, word: u64, list: &mut Vec<u32>) -> Result<(), AllocError>
    requires { 64 * place + 64 ≤ 2 ^ 32 }
    ensures { OnOk result ((k : ℕ) → list_any (λ x. x == k) list.new.items ≡ (list_any (λ x. x == k) list.old.items || (k / 64 == place && bit_at word (k % 64) == 1))) }
{
    let mut left = word;
    while left != 0 {
        let bit = left.trailing_zeros();
        list.push(64 * place as u32 + bit)?;
        left &= !(1u64 << bit);
    }
    Ok(())
}
