//! Rows of bits, 64 bits of a row in a word.
ghost use Rattle.std.specs.Prelude.{ℕ, ◌≡◌, ◌≢◌, ◌<◌, ◌≤◌, ◌⊎◌, ◌+◌, ◌/◌, ◌%◌, false, length, IfOk, slice_index_or};
ghost use Rattle.unroll.specs.Bits.{is_set};
ghost use Rattle.cycle_sim.specs.BitTable.{bit_in, row_words};

use sr_model::NoMemory;
use std::alloc::Global;
use std::marker::Model;

/// So many rows of so many bits, in one piece: row after row, each in whole words.
#[derive(Debug, Drop)]
pub(crate) struct BitRows {
    width: usize,
    count: usize,
    words: Vec<u64>,
}

impl Model for BitRows {
    ghost use Rattle.cycle_sim.specs.BitTable.{BitTable, HasItsWords};

    ghost Value = { BitTable };

    ghost view = { λ t. record { width = t.width; count = t.count; words = t.words.items } };

    ghost invariant = { λ t. HasItsWords (record { width = t.width; count = t.count; words = t.words.items }) };
}

impl BitRows {
    /// So many rows of bits that are 0.
    pub(crate) fn new(alloc: Global, width: usize, count: usize) -> Result<BitRows, NoMemory>
        ensures width { IfOk result (λ t. t.width ≡ width) }
        ensures count { IfOk result (λ t. t.count ≡ count) }
    {
        let Some(size) = count.checked_mul(words_for(width)) else {
            return Err(NoMemory);
        };
        match vec![in alloc; 0; size] {
            Ok(words) => Ok(BitRows {
                width,
                count,
                words,
            }),
            Err(_) => Err(NoMemory),
        }
    }

    /// How many rows there are.
    pub(crate) fn count(&self) -> usize
        ensures { result ≡ self.now.count }
    {
        self.count
    }

    /// A bit of a row.
    pub(crate) fn bit(&self, row: usize, column: usize) -> bool
        requires row { row < self.now.count }
        requires column { column < self.now.width }
        ensures { result ≡ bit_in self.now row column }
    {
        let word = self.words[row * words_for(self.width) + column / 64];
        (word >> (column % 64)) % 2 == 1
    }

    /// Replaces a row.
    pub(crate) fn set_row(&mut self, row: usize, bits: &[bool])
        requires row { row < self.old.count }
        requires bits { length bits.now ≡ self.old.width }
        ensures width { self.new.width ≡ self.old.width }
        ensures count { self.new.count ≡ self.old.count }
        ensures here { (c : ℕ) → c < length bits.now → bit_in self.new row c ≡ slice_index_or bits.now c false }
        ensures elsewhere { (r c : ℕ) → r ≢ row → c < self.old.width → bit_in self.new r c ≡ bit_in self.old r c }
    {
        let start = row * words_for(self.width);
        set_words(&mut self.words, start, bits);
    }
}

/// Puts the words of bits at a place.
fn set_words(words: &mut [u64], start: usize, bits: &[bool])
    requires room { start + row_words (length bits.now) ≤ length words.old }
    ensures size { length words.new ≡ length words.old }
    ensures here { (c : ℕ) → c < length bits.now → is_set (slice_index_or words.new (start + c / 64) 0) (c % 64) ≡ slice_index_or bits.now c false }
    ensures elsewhere { (p : ℕ) → (p < start) ⊎ (start + row_words (length bits.now) ≤ p) → slice_index_or words.new p 0 ≡ slice_index_or words.old p 0 }
{
    for k in 0..words_for(bits.len()) {
        words[start + k] = packed(bits, 64 * k);
    }
}

/// How many words so many bits take.
fn words_for(width: usize) -> usize
    ensures { result ≡ row_words width }
{
    width.div_ceil(64)
}

/// The word of up to 64 bits from this place on; those behind the end are 0.
fn packed(bits: &[bool], from: usize) -> u64
    requires { from ≤ length bits.now }
    ensures { (i : ℕ) → i < 64 → is_set result i ≡ slice_index_or bits.now (from + i) false }
{
    let mut word = 0;
    for i in 0..count_in_word(bits.len() - from) {
        word |= u64::from(bits[from + i]) << i;
    }
    word
}

/// How many of so many bits stand in one word.
pub(crate) fn count_in_word(left: usize) -> usize
    ensures few { result ≤ 64 }
    ensures within { result ≤ left }
    ensures all { (64 ≤ result) ⊎ (left ≤ result) }
{
    if left < 64 { left } else { 64 }
}

/// So many bits that are 0.
pub(crate) fn zeros(alloc: Global, count: usize) -> Result<Vec<bool>, NoMemory>
    ensures size { IfOk result (λ bits. length bits.items ≡ count) }
    ensures zero { IfOk result (λ bits. (i : ℕ) → slice_index_or bits.items i false ≡ false) }
{
    match vec![in alloc; false; count] {
        Ok(bits) => Ok(bits),
        Err(_) => Err(NoMemory),
    }
}
