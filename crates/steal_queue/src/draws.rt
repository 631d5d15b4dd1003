//! What one side draws.
ghost use Rattle.std.specs.Prelude.{◌≡◌, ◌≤◌, ◌<◌, [], true, false, IfSome, IfOk, IsNone, IsSome, None, Some};
ghost use Rattle.steal_queue.specs.Rule.{nothing_drawn};
ghost use Rattle.steal_queue.specs.Sides.{Takes, new_side, done_side, gathered, one_side};

use crate::queue::Queue;
use crate::rule::Drawn;
use atomic_table::Seat;
use sr_model::NoMemory;
use std::alloc::Global;
use std::marker::Model;

/// A side's seat at the queue, and the numbers that it took, for each of which there is room.
#[derive(Drop)]
pub(crate) struct Draws {
    seat: Seat<(), Drawn>,
    took: Vec<u32>,
    chunks: u32,
    is_done: bool,
}

impl Model for Draws {
    ghost use Rattle.std.specs.Prelude.{◌≡◌, ◌≤◌, [], vec_capacity};
    ghost use Rattle.steal_queue.specs.Sides.{Side, IsSeated, deal_at};

    ghost Value = { Side };

    ghost view = { λ d. record { deal = deal_at d.seat.table_id d.chunks d.seat.me.0.sides; took = d.took.items; is_done = d.is_done } };

    ghost invariant = { λ d. (d.seat.me.1 ≡ []) × IsSeated d.seat.me.0.sides d.seat.me.0 d.took.items d.is_done × (d.chunks ≤ vec_capacity d.took) × (d.chunks ≤ 65536) };
}

impl Draws {
    /// What a side draws that has its seat.
    pub(crate) fn new(alloc: Global, chunks: u32, seat: Seat<(), Drawn>) -> Result<Draws, NoMemory>
        requires few { chunks ≤ 65536 }
        requires seat { seat.me ≡ (nothing_drawn 1, []) }
        ensures { IfOk result (λ d. d ≡ new_side (record { table_id = seat.table_id; chunks = chunks })) }
    {
        let took = Vec::with_capacity(alloc, chunks as usize).map_err(|_| NoMemory)?;
        Ok(Draws {
            seat,
            took,
            chunks,
            is_done: false,
        })
    }

    /// Draws the next number, in one atomic step. None where the queue is empty at that step.
    pub(crate) fn draw(&mut self, q: &Queue) -> Option<u32>
        requires deal { self.old.deal ≡ Some q.now.deal }
        ensures some { IfSome result (λ x. Takes q.now.deal.chunks x self.old self.new) }
        ensures none { IsNone result → self.new ≡ done_side self.old }
        ensures again { self.old.is_done ≡ true → result ≡ None }
    {
        if self.is_done {
            q.look(&mut self.seat);
            return None;
        }
        let next = q.draw(&mut self.seat);
        if next >= u64::from(self.chunks) {
            self.is_done = true;
            return None;
        }
        let number = next as u32;
        self.took.push_reserved(number);
        Some(number)
    }

    /// What it took, in order.
    pub(crate) fn took(&self) -> &[u32]
        ensures { result.now ≡ self.now.took }
    {
        self.took.as_slice()
    }

    /// Takes its seat from it.
    pub(crate) fn give_up(&mut self, q: &Queue) -> Seat<(), Drawn>
        requires deal { self.old.deal ≡ Some q.now.deal }
        ensures gathered { self.new ≡ gathered self.old }
        ensures table { result.table_id ≡ q.now.deal.table_id }
        ensures seat { result.me ≡ (one_side self.old.took self.old.is_done, []) }
    {
        q.take_over(&mut self.seat)
    }
}
