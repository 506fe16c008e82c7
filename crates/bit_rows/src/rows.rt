//! Tables of bits.
ghost use Rattle.std.specs.Prelude.{◌≡◌, ℕ, ◌*◌, ◌==◌, ◌<◌, ◌≤◌, ◌&&◌, ◌||◌, not, false, if◌then◌else◌, IfOk, length};
ghost use Rattle.std.specs.List.{count_by, range_with_len};
ghost use Rattle.bit_rows.specs.Bits.{has};
ghost use Rattle.bit_rows.specs.declared.rows.TheConstants.{MAX_BITS};

use crate::kernels::{count_bits, is_set, keep_row, set_bit};
use input_output::NoMemory;
use std::alloc::Global;
use std::marker::Model;

/// Bits of a row: their numbers have 32 bits, and some are left over.
pub const MAX_BITS: u32 = 4_294_967_000;

/// A table of bits, 64 to a word. Each row begins with a word of its own, and bits past its last one are clear.
#[derive(Drop)]
pub struct Rows {
    count: u32,
    bits: u32,
    width: usize,
    words: Vec<u64>,
}

impl Model for Rows {
    ghost use Rattle.bit_rows.specs.Tables.{IsTable, PlainRows};

    ghost Value = { PlainRows };

    ghost view = { λ r. record { count = r.count; bits = r.bits; width = r.width; words = r.words.items } };

    ghost invariant = { λ r. IsTable (record { count = r.count; bits = r.bits; width = r.width; words = r.words.items }) };
}

impl Rows {
    ghost use Rattle.bit_rows.specs.Tables.{IsSameSize, IsTable, has_at, row_of};

    /// So many rows of so many bits, all clear.
    pub fn new(alloc: Global, rows: u32, bits: u32) -> Result<Rows, NoMemory>
        requires { bits ≤ MAX_BITS }
        ensures count { IfOk result (λ r. r.count ≡ rows) }
        ensures bits { IfOk result (λ r. r.bits ≡ bits) }
        ensures table { IfOk result IsTable }
        ensures clear { IfOk result (λ r. (row b : ℕ) → has_at r row b ≡ false) }
    {
        let width = (bits as usize).div_ceil(64);
        let words = vec![in alloc; 0; rows as usize * width]?;
        Ok(Rows {
            count: rows,
            bits,
            width,
            words,
        })
    }

    /// How many words a row takes.
    pub fn width(&self) -> usize
        ensures width { result ≡ self.now.width }
        ensures table { IsTable self.now }
    {
        self.width
    }

    /// The words of a row, 64 bits to a word.
    pub fn row(&self, row: u32) -> &[u64]
        requires { row < self.now.count }
        ensures words { result.now ≡ row_of self.now row }
        ensures width { length result.now ≡ self.now.width }
        ensures table { IsTable self.now }
    {
        let at = row as usize * self.width;
        &self.words[at..at + self.width]
    }

    /// Whether the bit of the row is set.
    pub fn get(&self, row: u32, bit: u32) -> bool
        requires row { row < self.now.count }
        requires bit { bit < self.now.bits }
        ensures { result ≡ has_at self.now row bit }
    {
        is_set(self.row(row), bit)
    }

    /// How many bits of the row are set.
    pub fn count(&self, row: u32) -> u32
        requires { row < self.now.count }
        ensures { result ≡ count_by (has_at self.now row) (range_with_len 0 self.now.bits) }
    {
        count_bits(self.row(row))
    }

    /// Sets the bit of the row.
    pub fn set(&mut self, row: u32, bit: u32)
        requires row { row < self.old.count }
        requires bit { bit < self.old.bits }
        ensures size { IsSameSize self.new self.old }
        ensures bits { (r b : ℕ) → r < self.old.count → has_at self.new r b ≡ (has_at self.old r b || (r == row && b == bit)) }
    {
        let at = row as usize * self.width;
        set_bit(&mut self.words[at..at + self.width], bit);
    }

    /// Sets the bits of one row that another row has.
    pub fn or_row(&mut self, into: u32, from: u32)
        requires into { into < self.old.count }
        requires from { from < self.old.count }
        ensures size { IsSameSize self.new self.old }
        ensures bits { (r b : ℕ) → r < self.old.count → has_at self.new r b ≡ (has_at self.old r b || (r == into && has_at self.old from b)) }
    {
        let to = into as usize * self.width;
        let at = from as usize * self.width;
        for i in 0..self.width {
            self.words[to + i] |= self.words[at + i];
        }
    }

    /// Clears the bits of the row that the mask doesn't have.
    pub fn keep(&mut self, row: u32, mask: &[u64])
        requires row { row < self.old.count }
        requires mask { length mask.now ≡ self.old.width }
        ensures size { IsSameSize self.new self.old }
        ensures bits { (r b : ℕ) → r < self.old.count → has_at self.new r b ≡ (has_at self.old r b && (not (r == row) || has mask.now b)) }
    {
        let at = row as usize * self.width;
        keep_row(&mut self.words[at..at + self.width], mask);
    }

    /// Makes the row that of these words.
    pub fn put(&mut self, row: u32, words: &[u64])
        requires row { row < self.old.count }
        requires words { length words.now ≡ self.old.width }
        requires clear { (b : ℕ) → self.old.bits ≤ b → has words.now b ≡ false }
        ensures size { IsSameSize self.new self.old }
        ensures bits { (r b : ℕ) → r < self.old.count → has_at self.new r b ≡ (if r == row then has words.now b else has_at self.old r b) }
    {
        let at = row as usize * self.width;
        self.words[at..at + self.width].copy_from_slice(words);
    }
}
