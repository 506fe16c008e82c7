//! What is done with rows as wholes, four words at a time, with a plain loop for the rest. Functions that differ in the sign between
//! two words alone are each written out: so a clause names the sign, and no closure stands between it and the lanes.
ghost use Rattle.std.specs.Prelude.{◌≡◌, ◌↔◌, ℕ, ◌+◌, ◌*◌, ◌==◌, ◌<◌, ◌≤◌, ◌&&◌, ◌||◌, not, false, IsTrue, length, slice_index, bit_and, bit_or};
ghost use Rattle.std.specs.Int.{bit_not, w64};
ghost use Rattle.std.specs.List.{count_by, range_with_len};
ghost use Rattle.bit_rows.specs.Bits.{has, outside};

use std::simd::prelude::*;

/// Whether the bit is set.
pub fn is_set(row: &[u64], bit: u32) -> bool
    requires { bit < 64 * length row.now }
    ensures { result ≡ has row.now bit }
{
    (row[bit as usize / 64] >> (bit % 64)) & 1 == 1
}

/// Sets the bit.
pub fn set_bit(row: &mut [u64], bit: u32)
    requires { bit < 64 * length row.old }
    ensures len { length row.new ≡ length row.old }
    ensures bits { (b : ℕ) → has row.new b ≡ (has row.old b || b == bit) }
{
    row[bit as usize / 64] |= 1 << (bit % 64);
}

/// Sets the bits that the other row has.
pub fn add_row(row: &mut [u64], other: &[u64])
    requires { length other.now ≡ length row.old }
    ensures len { length row.new ≡ length row.old }
    ensures bits { (b : ℕ) → has row.new b ≡ (has row.old b || has other.now b) }
{
    let whole = row.len() / 4;
    for k in 0..whole {
        add_lanes(row, other, 4 * k);
    }
    for i in 4 * whole..row.len() {
        row[i] |= other[i];
    }
}

// Sets in four words from `at` on the bits that the other row has there.
fn add_lanes(row: &mut [u64], other: &[u64], at: usize)
    requires len { length other.now ≡ length row.old }
    requires room { at + 4 ≤ length row.old }
    ensures len { length row.new ≡ length row.old }
    ensures before { (j : ℕ) → j < at → slice_index row.new j ≡ slice_index row.old j }
    ensures here { (j : ℕ) → at ≤ j → j < at + 4 → slice_index row.new j ≡ bit_or (slice_index row.old j) (slice_index other.now j) }
    ensures behind { (j : ℕ) → at + 4 ≤ j → slice_index row.new j ≡ slice_index row.old j }
{
    let x = u64x4::from_slice(&row[at..]);
    let y = u64x4::from_slice(&other[at..]);
    (x | y).copy_to_slice(&mut row[at..]);
}

/// Clears the bits that the other row doesn't have.
pub fn keep_row(row: &mut [u64], other: &[u64])
    requires { length other.now ≡ length row.old }
    ensures len { length row.new ≡ length row.old }
    ensures bits { (b : ℕ) → has row.new b ≡ (has row.old b && has other.now b) }
{
    let whole = row.len() / 4;
    for k in 0..whole {
        keep_lanes(row, other, 4 * k);
    }
    for i in 4 * whole..row.len() {
        row[i] &= other[i];
    }
}

// Clears in four words from `at` on the bits that the other row doesn't have there.
fn keep_lanes(row: &mut [u64], other: &[u64], at: usize)
    requires len { length other.now ≡ length row.old }
    requires room { at + 4 ≤ length row.old }
    ensures len { length row.new ≡ length row.old }
    ensures before { (j : ℕ) → j < at → slice_index row.new j ≡ slice_index row.old j }
    ensures here { (j : ℕ) → at ≤ j → j < at + 4 → slice_index row.new j ≡ bit_and (slice_index row.old j) (slice_index other.now j) }
    ensures behind { (j : ℕ) → at + 4 ≤ j → slice_index row.new j ≡ slice_index row.old j }
{
    let x = u64x4::from_slice(&row[at..]);
    let y = u64x4::from_slice(&other[at..]);
    (x & y).copy_to_slice(&mut row[at..]);
}

/// Clears the bits that the other row has.
pub fn clear_row(row: &mut [u64], other: &[u64])
    requires { length other.now ≡ length row.old }
    ensures len { length row.new ≡ length row.old }
    ensures bits { (b : ℕ) → has row.new b ≡ (has row.old b && not (has other.now b)) }
{
    let whole = row.len() / 4;
    for k in 0..whole {
        clear_lanes(row, other, 4 * k);
    }
    for i in 4 * whole..row.len() {
        row[i] &= !other[i];
    }
}

// Clears in four words from `at` on the bits that the other row has there.
fn clear_lanes(row: &mut [u64], other: &[u64], at: usize)
    requires len { length other.now ≡ length row.old }
    requires room { at + 4 ≤ length row.old }
    ensures len { length row.new ≡ length row.old }
    ensures before { (j : ℕ) → j < at → slice_index row.new j ≡ slice_index row.old j }
    ensures here { (j : ℕ) → at ≤ j → j < at + 4 → slice_index row.new j ≡ bit_and (slice_index row.old j) (bit_not w64 (slice_index other.now j)) }
    ensures behind { (j : ℕ) → at + 4 ≤ j → slice_index row.new j ≡ slice_index row.old j }
{
    let x = u64x4::from_slice(&row[at..]);
    let y = u64x4::from_slice(&other[at..]);
    (x & !y).copy_to_slice(&mut row[at..]);
}

/// Whether each bit that is set in the first two rows is set in the third.
pub fn outside_is_empty(a: &[u64], b: &[u64], c: &[u64]) -> bool
    requires b { length b.now ≡ length a.now }
    requires c { length c.now ≡ length a.now }
    ensures { IsTrue result ↔ ((k : ℕ) → (has a.now k && (has b.now k && not (has c.now k))) ≡ false) }
{
    let whole = a.len() / 4;
    for k in 0..whole {
        if !lanes_are_inside(a, b, c, 4 * k) {
            return false;
        }
    }
    for i in 4 * whole..a.len() {
        if a[i] & b[i] & !c[i] != 0 {
            return false;
        }
    }
    true
}

// Whether in four words from `at` on each bit that is set in the first two rows is set in the third.
fn lanes_are_inside(a: &[u64], b: &[u64], c: &[u64], at: usize) -> bool
    requires b { length b.now ≡ length a.now }
    requires c { length c.now ≡ length a.now }
    requires room { at + 4 ≤ length a.now }
    ensures { IsTrue result ↔ ((j : ℕ) → at ≤ j → j < at + 4 → outside (slice_index a.now j) (slice_index b.now j) (slice_index c.now j) ≡ 0) }
{
    let x = u64x4::from_slice(&a[at..]);
    let y = u64x4::from_slice(&b[at..]);
    let z = u64x4::from_slice(&c[at..]);
    (x & y & !z).reduce_or() == 0
}

/// How many bits are set in the first two rows and not in the third.
pub fn count_outside(a: &[u64], b: &[u64], c: &[u64]) -> u32
    requires few { 64 * length a.now < 4294967296 }
    requires b { length b.now ≡ length a.now }
    requires c { length c.now ≡ length a.now }
    ensures { result ≡ count_by (λ k. has a.now k && (has b.now k && not (has c.now k))) (range_with_len 0 (64 * length a.now)) }
{
    let mut count = 0;
    for i in 0..a.len() {
        count += (a[i] & b[i] & !c[i]).count_ones();
    }
    count
}

/// How many bits are set.
pub fn count_bits(row: &[u64]) -> u32
    requires { 64 * length row.now < 4294967296 }
    ensures { result ≡ count_by (has row.now) (range_with_len 0 (64 * length row.now)) }
{
    let mut count = 0;
    for word in row {
        count += word.count_ones();
    }
    count
}
