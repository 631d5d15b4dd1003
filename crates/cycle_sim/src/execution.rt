//! The simulated execution.
ghost use Rattle.std.specs.Prelude.{ℕ, ◌≡◌, ◌<◌, ◌+◌, ◌*◌, Bool, length, slice_get, IfOk};
ghost use Rattle.sr_model.specs.Dump.{is_bit};
ghost use Rattle.sr_model.specs.Limits.{chunk_count};
ghost use Rattle.sr_model.specs.Netlist.{Valuation};
ghost use Rattle.netlist.specs.Wiring.{signals_below};
ghost use Rattle.dump_reader.specs.Recording.{IsCount};
ghost use Rattle.cycle_sim.specs.BitTable.{bit_in};
ghost use Rattle.cycle_sim.specs.Simulation.{AgreeOnCells, HasWhatFollows, IsSimulated, bits_of, traced_row};
ghost use Rattle.unroll.specs.Bits.{is_set, word_for};

use crate::bit_rows::{BitRows, count_in_word};
use crate::cycles::simulated_bits;
use crate::input_bits::Stimulus;
use netlist::Netlist;
use sr_model::{Cell, NoMemory, Sequence, Sig};
use std::alloc::Global;
use std::marker::Model;
use unroll::{InChunk, PinWord};

/// An execution of a netlist: the bit of each signal in each of 1 to 8,192 cycles. A cycle's bits stand in whole words.
#[derive(Debug, Drop)]
pub struct Execution {
    bits: BitRows,
}

impl Model for Execution {
    ghost use Rattle.dump_reader.specs.Recording.{IsCount};
    ghost use Rattle.cycle_sim.specs.BitTable.{BitTable};

    ghost Value = { BitTable };

    ghost view = { λ e. e.bits };

    ghost invariant = { λ e. IsCount e.bits.count };
}

impl Execution {
    /// The bit of a cell.
    pub fn bit(&self, cell: Cell) -> bool
        requires signal { cell.sig.0 < self.now.width }
        requires cycle { cell.cycle < self.now.count }
        ensures { result ≡ bits_of self.now cell }
    {
        self.bits.bit(cell.cycle as usize, cell.sig.0 as usize)
    }

    /// How many cycles there are.
    pub fn cycles(&self) -> u32
        ensures value { result ≡ self.now.count }
        ensures count { IsCount result }
    {
        self.bits.count() as u32
    }

    /// The literals of a signal's cells in a chunk of 64 cycles, as its traced row has them.
    pub fn words_in_chunk(&self, at: InChunk) -> PinWord
        requires signal { at.sig.0 < self.now.width }
        requires chunk { at.chunk < chunk_count self.now.count }
        ensures { (bit : Bool) (i : ℕ) → i < 64 → is_set (word_for bit result) i ≡ is_bit (slice_get (traced_row (bits_of self.now) self.now.count at.sig).bits (64 * at.chunk + i)) bit }
    {
        let start = 64 * at.chunk as usize;
        let column = at.sig.0 as usize;
        let mut words = PinWord::none();
        for i in 0..count_in_word(self.bits.count() - start) {
            if self.bits.bit(start + i, column) {
                words.one |= 1 << i;
            } else {
                words.zero |= 1 << i;
            }
        }
        words
    }

    pub(crate) fn bits(&self) -> &BitRows
        ensures { result.now ≡ self.now }
    {
        &self.bits
    }
}

/// The one execution with the stimulus's bits on the inputs and 0 on each flip-flop in cycle 0.
pub fn simulate(alloc: Global, n: &Netlist, s: &Stimulus) -> Result<Execution, NoMemory>
    requires made { s.now.width ≡ length n.now.inputs }
    ensures signals { IfOk result (λ e. e.width ≡ length n.now.drivers) }
    ensures cycles { IfOk result (λ e. e.count ≡ s.now.count) }
    ensures exists { IfOk result (λ e. IsSimulated n.now s.now.count (bit_in s.now) (bits_of e)) }
    ensures one { IfOk result (λ e. (v : Valuation) → IsSimulated n.now s.now.count (bit_in s.now) v → AgreeOnCells n.now s.now.count (bits_of e) v) }
    ensures follows { IfOk result (λ e. HasWhatFollows n.now s.now.count (bits_of e)) }
{
    let signals = all_signals(alloc, n)?;
    let bits = simulated_bits(alloc, n, s, signals.as_slice())?;
    Ok(Execution { bits })
}

/// All signals, by number.
fn all_signals(alloc: Global, n: &Netlist) -> Result<Sequence<Sig>, NoMemory>
    ensures { IfOk result (λ signals. signals.items ≡ signals_below (length n.now.drivers)) }
{
    let mut signals = Sequence::with_room(alloc, n.signals() as usize)?;
    for number in 0..n.signals() {
        signals.push(Sig(number))?;
    }
    Ok(signals)
}
