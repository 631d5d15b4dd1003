//! The blocks of a task.
ghost use Rattle.std.specs.Prelude.{◌≡◌, ◌+◌, ◌<◌, ◌≤◌, ◌++◌, ◌∷◌, [], length};
ghost use Rattle.sr_model.specs.Limits.{max_gate_signals};
ghost use Rattle.unroll.specs.Problem.{IsInside};
ghost use Rattle.unroll.specs.Tasks.{IsTask, blocks_of, blocks_from, blocks_for};

use crate::problem::{Block, InChunk, Problem, Task};
use crate::words::Blocks;
use sr_model::{NoMemory, Sig};

impl<'n> Problem<'n> {
    /// Replaces the list by the blocks of the task's cells, ascending, and keeps its room: those of a gate's signals in the chunk; of a flip-flop its data pin's and its own in the
    /// chunk, and its own in the next chunk where there is one. Time is linear in their number.
    pub fn blocks_of(&self, t: Task, into: &mut Blocks)
        requires task { IsTask self.now t }
        requires room { max_gate_signals ≤ into.old.room }
        ensures blocks { into.new.items ≡ blocks_of self.now t }
        ensures few { length into.new.items ≤ max_gate_signals }
        ensures room { into.new.room ≡ into.old.room }
    {
        self.blocks_in_chunk(self.in_chunk(Block(t.0)), into)
    }

    /// The same by signal and chunk; there is no division.
    pub fn blocks_in_chunk(&self, at: InChunk, into: &mut Blocks)
        requires inside { IsInside self.now at }
        requires room { max_gate_signals ≤ into.old.room }
        ensures blocks { into.new.items ≡ blocks_from self.now at.sig at.chunk }
        ensures few { length into.new.items ≤ max_gate_signals }
        ensures room { into.new.room ≡ into.old.room }
    {
        into.clear();
        for signal in self.net().signals_of(at.sig) {
            self.push_blocks(at, *signal, into);
        }
    }

    /// Adds the blocks of one of the target's signals.
    fn push_blocks(&self, at: InChunk, signal: Sig, into: &mut Blocks)
        requires inside { IsInside self.now at }
        requires signal { signal.0 < length self.now.circuit.drivers }
        requires room { length into.old.items + length (blocks_for self.now at.sig at.chunk signal) ≤ into.old.room }
        ensures items { into.new.items ≡ into.old.items ++ blocks_for self.now at.sig at.chunk signal }
        ensures room { into.new.room ≡ into.old.room }
    {
        push_block(into, self.block(signal, at.chunk));
        if signal == at.sig && self.goes_on(at) {
            push_block(into, self.block(signal, at.chunk + 1));
        }
    }
}

/// Adds a block to a list that has room for it.
fn push_block(into: &mut Blocks, block: Block)
    requires { length into.old.items < into.old.room }
    ensures items { into.new.items ≡ into.old.items ++ block ∷ [] }
    ensures room { into.new.room ≡ into.old.room }
{
    match into.push(block) {
        Ok(()) => {}
        Err(NoMemory) => unreachable!(),
    }
}
