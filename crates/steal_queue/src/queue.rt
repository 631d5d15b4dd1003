//! The word that all sides share, and the atomic steps on it.
ghost use Rattle.std.specs.Prelude.{◌≡◌, ◌<◌, ◌≤◌, [], ℕ, IfOk, length};
ghost use Rattle.std.specs.List.{All, sum_by};
ghost use Rattle.steal_queue.specs.Rule.{drew, nothing_drawn, one_less, together, sum_below};

use crate::rule::{Both, DealSize, Drawn, EachOnce, Everything, OneSide};
use atomic_table::{Seat, Table};
use sr_model::NoMemory;
use std::alloc::Global;
use std::marker::{Brand, Model};

/// The numbers below so many that no side has drawn: those from the next one on, in order. The next one is a word that the sides share.
#[derive(Drop)]
pub struct Queue {
    table: Table<(), Drawn, DealSize, EachOnce, Global>,
}

impl Model for Queue {
    ghost use Rattle.std.specs.Prelude.{◌≡◌, ◌≤◌};
    ghost use Rattle.steal_queue.specs.Sides.{Dealt};

    ghost Value = { Dealt };

    ghost view = { λ q. record { deal = record { table_id = q.table.shared.table_id; chunks = q.table.shared.key.chunks }; sides = q.table.shared.key.sides } };

    ghost invariant = { λ q. (q.table.shared.table_id.words ≡ 1) × (q.table.shared.table_id.slots ≡ 0) × (q.table.shared.key.sides ≤ 16) × (q.table.shared.key.chunks ≤ 65536) };
}

impl Queue {
    /// The queue of the numbers below `chunks`, and a seat that stands for all sides.
    pub(crate) fn open(
        alloc: Global,
        chunks: u32,
        sides: u32,
    ) -> Result<(Queue, Seat<(), Drawn>), NoMemory>
        requires chunks { chunks ≤ 65536 }
        requires sides { sides ≤ 16 }
        ensures chunks { IfOk result (λ r. r.0.deal.chunks ≡ chunks) }
        ensures sides { IfOk result (λ r. r.0.sides ≡ sides) }
        ensures table { IfOk result (λ r. r.1.table_id ≡ r.0.deal.table_id) }
        ensures seat { IfOk result (λ r. r.1.me ≡ (nothing_drawn sides, [])) }
    {
        let size = DealSize { chunks, sides };
        let (table, seat) = Table::of_words(alloc, &[0], &size).map_err(|_| NoMemory)?;
        Ok((Queue { table }, seat))
    }

    /// A seat for one of the sides that this one stands for.
    pub(crate) fn split(&self, seat: &mut Seat<(), Drawn>) -> Seat<(), Drawn>
        requires table { seat.old.table_id ≡ self.now.deal.table_id }
        requires many { 1 < seat.old.me.0.sides }
        requires unused { seat.old.me ≡ (nothing_drawn seat.old.me.0.sides, []) }
        ensures table { seat.new.table_id ≡ self.now.deal.table_id }
        ensures left { seat.new.me ≡ (one_less seat.old.me.0, []) }
        ensures its_table { result.table_id ≡ self.now.deal.table_id }
        ensures right { result.me ≡ (nothing_drawn 1, []) }
    {
        self.table.shared.split_seat::<OneSide>(seat)
    }

    /// The next number, by one fetch-add: it is drawn, or the queue is empty where it is none of those below `chunks`.
    pub(crate) fn draw(&self, seat: &mut Seat<(), Drawn>) -> u64
        requires table { seat.old.table_id ≡ self.now.deal.table_id }
        requires some { 0 < seat.old.me.0.sides }
        requires undone { seat.old.me.0.done ≡ 0 }
        ensures table { seat.new.table_id ≡ seat.old.table_id }
        ensures drew { seat.new.me ≡ (drew self.now.deal.chunks result seat.old.me.0, seat.old.me.1) }
        ensures later { All (λ x. x < result) seat.old.me.0.numbers }
        ensures few { length seat.new.me.0.numbers ≤ self.now.deal.chunks }
    {
        self.table.shared.fetch_add::<Brand>(seat, 0, 1)
    }

    /// The next number, by one load, where a seat found the queue empty.
    pub(crate) fn look(&self, seat: &mut Seat<(), Drawn>) -> u64
        requires table { seat.old.table_id ≡ self.now.deal.table_id }
        requires done { 0 < seat.old.me.0.done }
        ensures table { seat.new.table_id ≡ seat.old.table_id }
        ensures same { seat.new.me ≡ seat.old.me }
        ensures empty { self.now.deal.chunks ≤ result }
    {
        self.table.shared.load::<Brand>(seat, 0)
    }

    /// A seat that takes over all that this one stands for.
    pub(crate) fn take_over(&self, seat: &mut Seat<(), Drawn>) -> Seat<(), Drawn>
        requires table { seat.old.table_id ≡ self.now.deal.table_id }
        requires free { seat.old.me.1 ≡ [] }
        requires some { 0 < seat.old.me.0.sides }
        ensures table { seat.new.table_id ≡ self.now.deal.table_id }
        ensures left { seat.new.me ≡ (nothing_drawn 0, []) }
        ensures its_table { result.table_id ≡ self.now.deal.table_id }
        ensures right { result.me ≡ seat.old.me }
    {
        self.table.shared.split_seat::<Everything>(seat)
    }

    /// Lets a seat stand for all that another stands for, too.
    pub(crate) fn join(&self, seat: &mut Seat<(), Drawn>, other: Seat<(), Drawn>)
        requires table { seat.old.table_id ≡ self.now.deal.table_id }
        requires other { other.table_id ≡ self.now.deal.table_id }
        requires free { other.me.1 ≡ [] }
        requires some { 0 < seat.old.me.0.sides }
        ensures table { seat.new.table_id ≡ self.now.deal.table_id }
        ensures both { seat.new.me ≡ (together seat.old.me.0 other.me.0, seat.old.me.1) }
    {
        self.table.shared.join_seat::<Both>(seat, other);
    }

    /// Ends a queue that was found empty, by the seat that stands for all sides: these drew each number once.
    pub(crate) fn close(self, seat: Seat<(), Drawn>)
        requires table { seat.table_id ≡ self.deal.table_id }
        requires all { seat.me.0.sides ≡ self.sides }
        requires done { 0 < seat.me.0.done }
        ensures each_once { (g : ℕ → ℕ) → sum_by g seat.me.0.numbers ≡ sum_below g self.deal.chunks }
    {
        let Queue { table } = self;
        table.close_with(seat).free();
    }
}
