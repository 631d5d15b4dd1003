//! The end of a deal.
ghost use Rattle.std.specs.Prelude.{◌≡◌, ◌⊎◌, ◌+◌, ◌<◌, ℕ, true, map, length, Some};
ghost use Rattle.std.specs.List.{All, Any, sum_by};
ghost use Rattle.steal_queue.specs.Rule.{sum_below};
ghost use Rattle.steal_queue.specs.Sides.{gathered, one_if, times_taken, once_below, sum_taken};

use crate::queue::Queue;
use crate::rule::Drawn;
use crate::sides::{Dealer, Thief};
use atomic_table::Seat;

/// The sides of a deal that is over, with the lists of what they took.
#[derive(Drop)]
pub struct Taken {
    pub dealer: Dealer,
    pub thieves: Vec<Thief>,
}

/// Ends the deal of a queue that some side found empty, and gives its sides back. Each number stands in just one of their lists, once.
pub fn gather(q: Queue, mut d: Dealer, mut ts: Vec<Thief>) -> Taken
    requires dealer { d.deal ≡ Some q.deal }
    requires done { (d.is_done ≡ true) ⊎ Any (λ t. t.is_done ≡ true) ts.items }
    requires thieves { All (λ t. t.deal ≡ Some q.deal) ts.items }
    requires all { length ts.items + 1 ≡ q.sides }
    ensures dealer { result.dealer ≡ gathered d }
    ensures thieves { result.thieves.items ≡ map gathered ts.items }
    ensures each_once { (x : ℕ) → times_taken x result.dealer result.thieves.items ≡ once_below q.deal.chunks x }
    ensures sums { (g : ℕ → ℕ) → sum_taken g result.dealer result.thieves.items ≡ sum_below g q.deal.chunks }
{
    let mut seat = d.draws.give_up(&q);
    join_all(&q, &mut seat, ts.as_mut_slice());
    q.close(seat);
    Taken {
        dealer: d,
        thieves: ts,
    }
}

/// Lets a seat stand for all that thieves stand for, too.
fn join_all(q: &Queue, seat: &mut Seat<(), Drawn>, ts: &mut [Thief])
    requires table { seat.old.table_id ≡ q.now.deal.table_id }
    requires some { 0 < seat.old.me.0.sides }
    requires thieves { All (λ t. t.deal ≡ Some q.now.deal) ts.old }
    ensures table { seat.new.table_id ≡ q.now.deal.table_id }
    ensures thieves { ts.new ≡ map gathered ts.old }
    ensures sides { seat.new.me.0.sides ≡ seat.old.me.0.sides + length ts.old }
    ensures done { seat.new.me.0.done ≡ seat.old.me.0.done + sum_by (λ t. one_if t.is_done) ts.old }
    ensures numbers { (g : ℕ → ℕ) → sum_by g seat.new.me.0.numbers ≡ sum_by g seat.old.me.0.numbers + sum_by (λ t. sum_by g t.took) ts.old }
{
    for thief in ts.iter_mut() {
        join_one(q, seat, thief);
    }
}

/// The same of one.
fn join_one(q: &Queue, seat: &mut Seat<(), Drawn>, thief: &mut Thief)
    requires table { seat.old.table_id ≡ q.now.deal.table_id }
    requires some { 0 < seat.old.me.0.sides }
    requires thief { thief.old.deal ≡ Some q.now.deal }
    ensures table { seat.new.table_id ≡ q.now.deal.table_id }
    ensures thief { thief.new ≡ gathered thief.old }
    ensures sides { seat.new.me.0.sides ≡ seat.old.me.0.sides + 1 }
    ensures done { seat.new.me.0.done ≡ seat.old.me.0.done + one_if thief.old.is_done }
    ensures numbers { (g : ℕ → ℕ) → sum_by g seat.new.me.0.numbers ≡ sum_by g seat.old.me.0.numbers + sum_by g thief.old.took }
{
    let its_seat = thief.draws.give_up(q);
    q.join(seat, its_seat);
}
