//! A netlist over a number of cycles, and its blocks.
ghost use Rattle.std.specs.Prelude.{ℕ, ◌≡◌, ◌+◌, ◌*◌, ◌<◌, ◌≤◌, length, IsTrue};
ghost use Rattle.sr_model.specs.Limits.{max_cycles, max_blocks, block_count};
ghost use Rattle.netlist.specs.Wiring.{driver_at, is_flip_flop};
ghost use Rattle.unroll.specs.Bits.{is_set, is_cycle};
ghost use Rattle.unroll.specs.Problem.{IsProblem, chunks_in, blocks_in, block_at, sig_at, chunk_at, is_target, IsInside};
ghost use Rattle.unroll.specs.Tasks.{task_at, goes_on_from};

use crate::bits::low_bits;
use netlist::Netlist;
use sr_model::Sig;
use std::marker::Model;

/// 64 cells: signal s in the chunk c of 64 cycles has the block `s * C + c`, where C is the number of chunks.
#[derive(Clone, Copy, Debug, PartialEq, Eq, PartialOrd, Ord, Hash)]
pub struct Block(pub u32);

/// A gate or flip-flop in a chunk of 64 cycles, by the number of its target's block. It stands for the instances of its target in these cycles.
#[derive(Clone, Copy, Debug, PartialEq, Eq, PartialOrd, Ord, Hash)]
pub struct Task(pub u32);

/// A signal in a chunk of 64 cycles: its block, or the task of the gate or flip-flop that drives it.
#[derive(Clone, Copy, Debug, PartialEq, Eq)]
pub struct InChunk {
    pub sig: Sig,
    pub chunk: u32,
}

/// A netlist over a number of cycles. It takes no memory, and none of its calls but `constant_tasks` does.
#[derive(Drop)]
pub struct Problem<'n> {
    net: &'n Netlist,
    cycles: u32,
    chunks: u32,
    blocks: u32,
}

impl<'n> Model for Problem<'n> {
    ghost use Rattle.std.specs.Prelude.{◌≡◌};
    ghost use Rattle.unroll.specs.Problem.{Unrolling, IsProblem, chunks_in, blocks_in};

    ghost Value = { Unrolling };

    ghost view = { λ p. record { circuit = p.net.now; cycles = p.cycles } };

    ghost invariant = { λ p. IsProblem (record { circuit = p.net.now; cycles = p.cycles })
        × (p.chunks ≡ chunks_in (record { circuit = p.net.now; cycles = p.cycles }))
        × (p.blocks ≡ blocks_in (record { circuit = p.net.now; cycles = p.cycles })) };
}

impl<'n> Problem<'n> {
    /// The netlist over this number of cycles.
    pub fn new(net: &'n Netlist, cycles: u32) -> Problem<'n>
        requires some_cycles { 1 ≤ cycles }
        requires few_cycles { cycles ≤ max_cycles }
        requires few_blocks { block_count (length net.now.drivers) cycles ≤ max_blocks }
        ensures { result ≡ record { circuit = net.now; cycles = cycles } }
    {
        let chunks = cycles.div_ceil(64);
        let blocks = net.signals() * chunks;
        Problem {
            net,
            cycles,
            chunks,
            blocks,
        }
    }

    /// The netlist.
    pub fn net(&self) -> &'n Netlist
        ensures net { result.now ≡ self.now.circuit }
        ensures problem { IsProblem self.now }
    {
        self.net
    }

    /// The number of cycles, 1 to `MAX_CYCLES`.
    pub fn cycles(&self) -> u32
        ensures { result ≡ self.now.cycles }
    {
        self.cycles
    }

    /// The number of chunks of 64 cycles; the last one need not be full.
    pub fn chunks(&self) -> u32
        ensures chunks { result ≡ chunks_in self.now }
        ensures few { result ≤ 128 }
    {
        self.chunks
    }

    /// The number of blocks: one for each signal and chunk.
    pub fn blocks(&self) -> u32
        ensures { result ≡ blocks_in self.now }
    {
        self.blocks
    }

    /// The block of a signal in a chunk.
    pub fn block(&self, s: Sig, chunk: u32) -> Block
        requires signal { s.0 < length self.now.circuit.drivers }
        requires chunk { chunk < chunks_in self.now }
        ensures block { result ≡ block_at self.now s chunk }
        ensures within { result.0 < blocks_in self.now }
        ensures signal { sig_at self.now result ≡ s }
        ensures chunk { chunk_at self.now result ≡ chunk }
    {
        Block(s.0 * self.chunks + chunk)
    }

    /// The task of a gate or flip-flop in a chunk.
    pub fn task(&self, target: Sig, chunk: u32) -> Task
        requires signal { target.0 < length self.now.circuit.drivers }
        requires chunk { chunk < chunks_in self.now }
        ensures task { result ≡ task_at self.now target chunk }
        ensures within { result.0 < blocks_in self.now }
    {
        Task(self.block(target, chunk).0)
    }

    /// The signal of a block.
    pub fn sig_of(&self, b: Block) -> Sig
        requires { b.0 < blocks_in self.now }
        ensures signal { result ≡ sig_at self.now b }
        ensures within { result.0 < length self.now.circuit.drivers }
    {
        Sig(b.0 / self.chunks)
    }

    /// The chunk of a block.
    pub fn chunk_of(&self, b: Block) -> u32
        requires { b.0 < blocks_in self.now }
        ensures chunk { result ≡ chunk_at self.now b }
        ensures within { result < chunks_in self.now }
    {
        b.0 % self.chunks
    }

    /// The signal and chunk of a block. The calls `*_in_chunk` take them, where the same calls by number divide.
    pub fn in_chunk(&self, b: Block) -> InChunk
        requires { b.0 < blocks_in self.now }
        ensures signal { result.sig ≡ sig_at self.now b }
        ensures chunk { result.chunk ≡ chunk_at self.now b }
        ensures inside { IsInside self.now result }
    {
        InChunk {
            sig: self.sig_of(b),
            chunk: self.chunk_of(b),
        }
    }

    /// Whether a flip-flop drives the signal.
    pub fn is_flip_flop(&self, s: Sig) -> bool
        requires { s.0 < length self.now.circuit.drivers }
        ensures { result ≡ is_flip_flop (driver_at self.now.circuit.drivers s.0) }
    {
        match self.net().kind_of(s) {
            Some(kind) => kind.is_flip_flop(),
            None => false,
        }
    }

    /// Whether the signal is that of a flip-flop, and there is a next chunk.
    pub fn goes_on(&self, at: InChunk) -> bool
        requires { IsInside self.now at }
        ensures goes_on { result ≡ goes_on_from self.now at.sig at.chunk }
        ensures next { IsTrue result → at.chunk + 1 < 128 }
    {
        let chunks = self.chunks();
        self.is_flip_flop(at.sig) && at.chunk + 1 < chunks
    }

    /// Whether a gate or flip-flop drives the block's signal, so that the block's number is that of a task.
    pub fn is_task(&self, b: Block) -> bool
        requires { b.0 < blocks_in self.now }
        ensures { result ≡ is_target self.now b }
    {
        self.net.kind_of(self.sig_of(b)).is_some()
    }

    /// Bit i is set exactly where cycle `64 * chunk + i` is one of the cycles.
    pub fn valid_bits(&self, chunk: u32) -> u64
        requires { chunk < chunks_in self.now }
        ensures { (i : ℕ) → i < 64 → is_set result i ≡ is_cycle self.now.cycles chunk i }
    {
        low_bits(self.cycles - 64 * chunk)
    }

    /// Bit i is set exactly where cycle `64 * chunk + i + 1` is one of the cycles: where bit i's cycle has a next one.
    pub fn valid_next_bits(&self, chunk: u32) -> u64
        requires { chunk < chunks_in self.now }
        ensures { (i : ℕ) → i < 64 → is_set result i ≡ is_cycle self.now.cycles chunk (i + 1) }
    {
        low_bits(self.cycles - 64 * chunk - 1)
    }
}
