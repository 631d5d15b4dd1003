//! The tasks that a block is in.
ghost use Rattle.std.specs.Prelude.{◌≡◌, ◌<◌, ◌≤◌, length, slice_get, IfSome};
ghost use Rattle.netlist.specs.Wiring.{driver_at};
ghost use Rattle.unroll.specs.Problem.{blocks_in, IsInside};
ghost use Rattle.unroll.specs.Tasks.{IsTask, adjacent_tasks, adjacent_from, own_tasks};

use crate::problem::{Block, InChunk, Problem, Task};

impl<'n> Problem<'n> {
    /// The i-th of the tasks that a block is in, counted from 0; None from `adjacent_count` on. First come those of the block's own signal, where it is driven: of a
    /// flip-flop the task in the chunk before, if there is one, and the task in this chunk; then those of its other readers in this chunk, ascending.
    pub fn adjacent(&self, b: Block, i: u32) -> Option<Task>
        requires { b.0 < blocks_in self.now }
        ensures at { result ≡ slice_get (adjacent_tasks self.now b) i }
        ensures task { IfSome result (λ t. IsTask self.now t) }
    {
        self.adjacent_in_chunk(self.in_chunk(b), i)
    }

    /// How many tasks a block is in.
    pub fn adjacent_count(&self, b: Block) -> u32
        requires { b.0 < blocks_in self.now }
        ensures { result ≡ length (adjacent_tasks self.now b) }
    {
        let at = self.in_chunk(b);
        self.own_count(at) + self.net().other_readers(at.sig).len() as u32
    }

    /// The same as `adjacent` by signal and chunk; there is no division.
    pub fn adjacent_in_chunk(&self, at: InChunk, i: u32) -> Option<Task>
        requires { IsInside self.now at }
        ensures at { result ≡ slice_get (adjacent_from self.now at.sig at.chunk) i }
        ensures task { IfSome result (λ t. IsTask self.now t) }
    {
        let own = self.own_count(at);
        if i < own {
            let later = own - 1 - i;
            return Some(self.task(at.sig, at.chunk - later));
        }
        let readers = self.net().other_readers(at.sig);
        let place = (i - own) as usize;
        if place < readers.len() {
            Some(self.task(readers[place], at.chunk))
        } else {
            None
        }
    }

    /// How many tasks of the signal itself a block of it is in.
    fn own_count(&self, at: InChunk) -> u32
        requires { at.sig.0 < length self.now.circuit.drivers }
        ensures count { result ≡ length (own_tasks self.now (driver_at self.now.circuit.drivers at.sig.0) at.sig at.chunk) }
        ensures few { result ≤ 2 }
    {
        match self.net().kind_of(at.sig) {
            None => 0,
            Some(kind) if kind.is_flip_flop() && at.chunk > 0 => 2,
            Some(_) => 1,
        }
    }
}
