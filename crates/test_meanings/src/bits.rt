//! Rows of bits of several lengths, against plain loops.
ghost use Rattle.std.specs.Prelude.{◌≡◌, ◌≤◌, length};

use bit_rows::{Rows, add_row, clear_row, count_outside, keep_row, outside_is_empty};
use input_output::NoMemory;
use std::alloc::Global;

// Whether a bit is set in the first row, and in the second before the first is added to it.
fn in_first(bit: u32) -> bool {
    bit % 3 == 0
}

fn in_second(bit: u32) -> bool {
    bit % 5 == 1 || bit % 64 == 63
}

// The first bit of the second row that isn't what a plain loop says.
fn wrong_bit(alloc: Global, bits: u32) -> Result<Option<u32>, NoMemory>
    requires { bits ≤ 4096 }
{
    let mut rows = Rows::new(alloc, 2, bits)?;
    for bit in 0..bits {
        if in_first(bit) {
            rows.set(0, bit);
        }
        if in_second(bit) {
            rows.set(1, bit);
        }
    }
    rows.or_row(1, 0);
    let mut count = 0;
    for bit in 0..bits {
        let is_set = in_first(bit) || in_second(bit);
        if rows.get(1, bit) != is_set {
            return Ok(Some(bit));
        }
        if is_set {
            count += 1;
        }
    }
    Ok(if rows.count(1) == count {
        None
    } else {
        Some(bits)
    })
}

/// The first of some lengths, in bits, at which a row isn't what a plain loop says.
pub fn wrong_bits(alloc: Global) -> Result<Option<usize>, NoMemory> {
    for bits in [0, 1, 63, 64, 65, 4096] {
        if wrong_bit(alloc, bits)?.is_some() {
            return Ok(Some(bits as usize));
        }
    }
    Ok(None)
}

// So many words, each of its own.
fn words(alloc: Global, count: usize, first: u64) -> Result<Vec<u64>, NoMemory> {
    let mut words = Vec::new(alloc);
    let mut word = first;
    for _ in 0..count {
        words.push(word)?;
        word = word.wrapping_mul(6_364_136_223_846_793_005).wrapping_add(1);
    }
    Ok(words)
}

// The word of a row at a place, or none of its bits past its end.
fn word(row: &[u64], at: usize) -> u64 {
    match row.get(at) {
        Some(word) => *word,
        None => 0,
    }
}

// Whether a sum has the bits of both rows.
fn is_sum(sum: &[u64], a: &[u64], b: &[u64]) -> bool {
    for i in 0..a.len() {
        if word(sum, i) != word(a, i) | word(b, i) {
            return false;
        }
    }
    true
}

// Whether a row has the bits that both have.
fn is_common(common: &[u64], a: &[u64], b: &[u64]) -> bool {
    for i in 0..a.len() {
        if word(common, i) != word(a, i) & word(b, i) {
            return false;
        }
    }
    true
}

// Whether a row has the bits of the first that the second lacks.
fn is_rest(rest: &[u64], a: &[u64], b: &[u64]) -> bool {
    for i in 0..a.len() {
        if word(rest, i) != word(a, i) & !word(b, i) {
            return false;
        }
    }
    true
}

// How many bits the first two rows have and the third lacks.
fn bits_outside(a: &[u64], b: &[u64], c: &[u64]) -> u32 {
    let mut count = 0u32;
    for i in 0..a.len() {
        let bits = word(a, i) & word(b, i) & !word(c, i);
        count = count.wrapping_add(bits.count_ones());
    }
    count
}

// Whether a row is added to another one, kept and cleared word by word.
fn are_changed(alloc: Global, a: &[u64], b: &[u64]) -> Result<bool, NoMemory>
    requires { length b.now ≡ length a.now }
{
    let mut row = a.to_vec(alloc)?;
    add_row(&mut row, b);
    let is_added = is_sum(&row, a, b);
    row.copy_from_slice(a);
    keep_row(&mut row, b);
    let is_kept = is_common(&row, a, b) && outside_is_empty(a, b, &row);
    row.copy_from_slice(a);
    clear_row(&mut row, b);
    Ok(is_added && is_kept && is_rest(&row, a, b))
}

// Whether the bits of the first two rows that the third lacks are counted.
fn are_counted(a: &[u64], b: &[u64], c: &[u64]) -> bool
    requires second { length b.now ≡ length a.now }
    requires third { length c.now ≡ length a.now }
    requires few { length a.now ≤ 64 }
{
    let count = bits_outside(a, b, c);
    count_outside(a, b, c) == count && outside_is_empty(a, b, c) == (count == 0)
}

// Whether rows of so many words are changed and counted as plain loops do it.
fn are_right(alloc: Global, count: usize) -> Result<bool, NoMemory> {
    let a = words(alloc, count, 1)?;
    let b = words(alloc, count, 2)?;
    let c = words(alloc, count, 3)?;
    if b.len() != a.len() || c.len() != a.len() || a.len() > 64 {
        return Ok(false);
    }
    Ok(are_counted(&a, &b, &c) && are_changed(alloc, &a, &b)?)
}

/// The first of some lengths, in words, at which rows aren't what a plain loop says.
pub fn wrong_words(alloc: Global) -> Result<Option<usize>, NoMemory> {
    for count in [0, 1, 2, 4, 5, 64] {
        if !are_right(alloc, count)? {
            return Ok(Some(count));
        }
    }
    Ok(None)
}

/// Whether a bit outside is found where there is one.
pub fn outside_is_told() -> bool {
    outside_is_empty(&[12], &[6], &[4]) && !outside_is_empty(&[12], &[6], &[1])
}
