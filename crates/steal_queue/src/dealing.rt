//! The deal of a queue to its sides.
ghost use Rattle.std.specs.Prelude.{◌≡◌, ◌+◌, ◌<◌, ◌≤◌, IfOk, IsOk, [], replicate};
ghost use Rattle.steal_queue.specs.Rule.{nothing_drawn, one_less};
ghost use Rattle.steal_queue.specs.Sides.{new_side};

use crate::draws::Draws;
use crate::queue::Queue;
use crate::rule::Drawn;
use crate::sides::{Dealer, Thief};
use atomic_table::Seat;
use sr_model::NoMemory;
use std::alloc::Global;

/// A queue of the numbers below `chunks`, in order, and its sides. Each has room for all that it could take.
pub fn deal(
    alloc: Global,
    chunks: u32,
    thieves: u32,
) -> Result<(Queue, Dealer, Vec<Thief>), NoMemory>
    requires chunks { chunks ≤ 65536 }
    requires thieves { thieves ≤ 15 }
    ensures chunks { IfOk result (λ r. r.0.deal.chunks ≡ chunks) }
    ensures sides { IfOk result (λ r. r.0.sides ≡ thieves + 1) }
    ensures dealer { IfOk result (λ r. r.1 ≡ new_side r.0.deal) }
    ensures thieves { IfOk result (λ r. r.2.items ≡ replicate thieves (new_side r.0.deal)) }
{
    let (queue, mut seat) = Queue::open(alloc, chunks, thieves + 1)?;
    let others = all_thieves(alloc, &queue, chunks, thieves, &mut seat)?;
    let draws = Draws::new(alloc, chunks, seat)?;
    Ok((queue, Dealer { draws }, others))
}

/// So many sides, of one more that a seat stands for.
fn all_thieves(
    alloc: Global,
    q: &Queue,
    chunks: u32,
    count: u32,
    seat: &mut Seat<(), Drawn>,
) -> Result<Vec<Thief>, NoMemory>
    requires chunks { chunks ≡ q.now.deal.chunks }
    requires few { chunks ≤ 65536 }
    requires table { seat.old.table_id ≡ q.now.deal.table_id }
    requires unused { seat.old.me ≡ (nothing_drawn (count + 1), []) }
    ensures table { seat.new.table_id ≡ q.now.deal.table_id }
    ensures left { IsOk result → seat.new.me ≡ (nothing_drawn 1, []) }
    ensures thieves { IfOk result (λ thieves. thieves.items ≡ replicate count (new_side q.now.deal)) }
{
    let mut thieves = Vec::with_capacity(alloc, count as usize).map_err(|_| NoMemory)?;
    for _ in 0..count {
        thieves.push_reserved(thief(alloc, q, chunks, seat)?);
    }
    Ok(thieves)
}

/// One of the sides that a seat stands for.
fn thief(
    alloc: Global,
    q: &Queue,
    chunks: u32,
    seat: &mut Seat<(), Drawn>,
) -> Result<Thief, NoMemory>
    requires chunks { chunks ≡ q.now.deal.chunks }
    requires few { chunks ≤ 65536 }
    requires table { seat.old.table_id ≡ q.now.deal.table_id }
    requires many { 1 < seat.old.me.0.sides }
    requires unused { seat.old.me ≡ (nothing_drawn seat.old.me.0.sides, []) }
    ensures table { seat.new.table_id ≡ q.now.deal.table_id }
    ensures left { seat.new.me ≡ (one_less seat.old.me.0, []) }
    ensures thief { IfOk result (λ t. t ≡ new_side q.now.deal) }
{
    let its_seat = q.split(seat);
    let draws = Draws::new(alloc, chunks, its_seat)?;
    Ok(Thief { draws })
}
