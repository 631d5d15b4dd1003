//! The bits of the inputs.
ghost use Rattle.std.specs.Prelude.{◌≡◌, ◌<◌};
ghost use Rattle.dump_reader.specs.Recording.{IsCount};
ghost use Rattle.cycle_sim.specs.BitTable.{bit_in};

use crate::bit_rows::BitRows;
use std::marker::Model;

/// A bit for each input of a netlist in each of 1 to 8,192 cycles. A cycle's bits stand in whole words.
#[derive(Debug, Drop)]
pub struct Stimulus {
    bits: BitRows,
}

impl Model for Stimulus {
    ghost use Rattle.dump_reader.specs.Recording.{IsCount};
    ghost use Rattle.cycle_sim.specs.BitTable.{BitTable};

    ghost Value = { BitTable };

    ghost view = { λ s. s.bits };

    ghost invariant = { λ s. IsCount s.bits.count };
}

impl Stimulus {
    pub(crate) fn of(bits: BitRows) -> Stimulus
        requires { IsCount bits.count }
        ensures { result ≡ bits }
    {
        Stimulus { bits }
    }

    /// The bit of an input, by its place among the inputs, in a cycle.
    pub fn bit(&self, input: usize, cycle: u32) -> bool
        requires input { input < self.now.width }
        requires cycle { cycle < self.now.count }
        ensures { result ≡ bit_in self.now cycle input }
    {
        self.bits.bit(cycle as usize, input)
    }

    /// How many cycles there are.
    pub(crate) fn cycles(&self) -> u32
        ensures value { result ≡ self.now.count }
        ensures count { IsCount result }
    {
        self.bits.count() as u32
    }
}
