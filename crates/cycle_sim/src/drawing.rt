//! Draws the bits of the inputs.
ghost use Rattle.std.specs.Prelude.{ℕ, ◌≡◌, ◌<◌, ◌+◌, false, length, IfOk, slice_index_or};
ghost use Rattle.unroll.specs.Bits.{is_set};
ghost use Rattle.dump_reader.specs.Recording.{IsCount};
ghost use Rattle.cycle_sim.specs.BitTable.{bit_in};
ghost use Rattle.cycle_sim.specs.Drawing.{AreDrawn};
ghost use Rattle.cycle_sim.specs.Words.{generator_at, word_at};

use crate::bit_rows::{BitRows, zeros};
use crate::input_bits::Stimulus;
use netlist::Netlist;
use rand_pcg::Lcg64Xsh32;
use rand_pcg::rand_core::utils::NextWord;
use sr_model::NoMemory;
use std::alloc::Global;

/// Draws the inputs' bits of so many cycles by PCG's 32-bit generator with this seed and stream 1: cycle after cycle one word for each input, in the
/// order of the inputs, whose top bit is the input's.
pub fn stimulus(alloc: Global, n: &Netlist, seed: u64, cycles: u32) -> Result<Stimulus, NoMemory>
    requires cycles { IsCount cycles }
    ensures inputs { IfOk result (λ s. s.width ≡ length n.now.inputs) }
    ensures cycles { IfOk result (λ s. s.count ≡ cycles) }
    ensures drawn { IfOk result (λ s. AreDrawn seed (length n.now.inputs) cycles (bit_in s)) }
{
    let inputs = n.inputs().len();
    let mut bits = BitRows::new(alloc, inputs, cycles as usize)?;
    let mut generator = Lcg64Xsh32::new(seed, 1);
    let mut row = zeros(alloc, inputs)?;
    for cycle in 0..cycles {
        draw(&mut generator, &mut row);
        bits.set_row(cycle as usize, row.as_slice());
    }
    Ok(Stimulus::of(bits))
}

/// Draws a row of bits from stream 1.
fn draw(generator: &mut Lcg64Xsh32, row: &mut [bool])
    ensures size { length row.new ≡ length row.old }
    ensures drawn { (seed n : ℕ) → generator.old ≡ generator_at 1 seed n → (generator.new ≡ generator_at 1 seed (n + length row.old))
        × ((j : ℕ) → j < length row.old → slice_index_or row.new j false ≡ is_set (word_at 1 seed (n + j)) 31) }
{
    for j in 0..row.len() {
        row[j] = generator.next_word() >> 31 == 1;
    }
}
