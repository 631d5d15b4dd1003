//! The boundary through which a closure is taken.
ghost use Rattle.std.specs.Prelude.{◌≡◌, ◌<◌, ◌||◌, IfOk, OnOk};
ghost use Rattle.sr_model.specs.declared.cells.Cell.{Cell as AnyCell};
ghost use Rattle.sr_model.specs.Closure.{Closure, HasBoth, IsWithin, SameLits, passing};
ghost use Rattle.unroll.specs.Problem.{signals_in, unrolled};
ghost use Rattle.known_planes.specs.Planes.{has, lits, IsOf};
ghost use Rattle.known_planes.specs.Rows.{IsRow, row_has};

use crate::in_place::{planes_of_row, take_words};
use crate::planes::Planes;
use sr_model::{NoMemory, Sig};
use std::alloc::Global;
use std::thread::Threads;
use unroll::{PinWord, Problem, SignalRecords};

/// Whatever gives the closure of a set of literals. After a refusal it can be called again.
pub trait Closer {
    /// The planes with exactly the closure of the base.
    fn close<R: Threads + Sync>(
        &mut self,
        rt: &R,
        alloc: Global,
        p: &Problem,
        base: &Planes,
    ) -> Result<Planes, NoMemory>
        requires { IsOf p.now base.now }
        ensures of { IfOk result (IsOf p.now) }
        ensures closure { IfOk result (λ planes. SameLits (lits p.now planes) (Closure (unrolled p.now) (lits p.now base.now))) };

    /// The planes with exactly the closure of two sets together, of which the one is closed.
    fn close_more<R: Threads + Sync>(
        &mut self,
        rt: &R,
        alloc: Global,
        p: &Problem,
        closed: &Planes,
        added: &Planes,
    ) -> Result<Planes, NoMemory>
        requires closed_of { IsOf p.now closed.now }
        requires added_of { IsOf p.now added.now }
        requires closed { SameLits (lits p.now closed.now) (Closure (unrolled p.now) (lits p.now closed.now)) }
        ensures of { IfOk result (IsOf p.now) }
        ensures closure { IfOk result (λ planes. SameLits (lits p.now planes) (Closure (unrolled p.now) (passing (λ l. has p.now closed.now l || has p.now added.now l)))) };

    /// The planes with the closure of the base, or with the base and so much of its closure that a cell has both literals: it need not go on behind the first such cell
    /// that it meets. It takes the base, so that its planes can be closed in place.
    fn close_until_clash<R: Threads + Sync>(
        &mut self,
        rt: &R,
        alloc: Global,
        p: &Problem,
        base: Planes,
    ) -> Result<Planes, NoMemory>
        requires { IsOf p.now base }
        ensures of { IfOk result (IsOf p.now) }
        ensures above { IfOk result (λ planes. IsWithin (lits p.now base) (lits p.now planes)) }
        ensures within { IfOk result (λ planes. IsWithin (lits p.now planes) (Closure (unrolled p.now) (lits p.now base))) }
        ensures closure { IfOk result (λ planes. ((c : AnyCell) → HasBoth (lits p.now planes) c → ⊥) → SameLits (lits p.now planes) (Closure (unrolled p.now) (lits p.now base))) };

    /// Adds to closed planes, in place, what follows with these words of one signal, a pair for each chunk; a mark stays where it is. After a refusal nothing is
    /// said of the planes.
    ///
    /// It takes the records of the netlist, so that its time can go by what it adds. A closer that has nothing better takes `close_more` for it, and the words from there.
    fn close_in_place<R: Threads + Sync>(
        &mut self,
        rt: &R,
        alloc: Global,
        p: &Problem,
        records: &SignalRecords<'_>,
        planes: &mut Planes,
        sig: Sig,
        row: &[PinWord],
    ) -> Result<(), NoMemory>
        requires of { IsOf p.now planes.old }
        requires closed { SameLits (lits p.now planes.old) (Closure (unrolled p.now) (lits p.now planes.old)) }
        requires records { records.now ≡ p.now.circuit.drivers }
        requires signal { sig.0 < signals_in p.now }
        requires row { IsRow p.now row.now }
        ensures of { OnOk result (IsOf p.now planes.new) }
        ensures mark { OnOk result (planes.new.mark ≡ planes.old.mark) }
        ensures closure { OnOk result (SameLits (lits p.now planes.new) (Closure (unrolled p.now) (passing (λ l. has p.now planes.old l || row_has p.now sig row.now l)))) }
    {
        let _ = records;
        let added = planes_of_row(alloc, p, sig, row)?;
        let all = self.close_more(rt, alloc, p, planes, &added)?;
        take_words(p, planes, &all);
        Ok(())
    }
}
