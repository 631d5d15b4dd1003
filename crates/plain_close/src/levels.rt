//! The first level between a base and its closure that has both literals of a cell.
ghost use Rattle.std.specs.Prelude.{◌<◌, IfOk, IfSome, IsNone};
ghost use Rattle.sr_model.specs.declared.cells.Cell.{Cell as AnyCell};
ghost use Rattle.sr_model.specs.Closure.{Closure, HasBoth, IsClash};
ghost use Rattle.unroll.specs.Problem.{signals_in, unrolled};
ghost use Rattle.known_planes.specs.Planes.{IsOf, lits};

use crate::wavefront::{LEVELS, Wavefront};
use known_planes::Planes;
use sr_model::{Cell, NoMemory};
use std::alloc::Global;
use unroll::{Problem, SignalRecords};

/// The first cell with both literals, and the level at which it comes. Level 0 is the base, and each level adds all that the one before forces.
#[derive(Clone, Copy, Debug, PartialEq, Eq)]
pub struct Clash {
    pub cell: Cell,
    pub level: u32,
}

/// The least cell with both literals in the first level that has one; None exactly where the closure of the base has none.
///
/// It takes the memory of the planes, a bit for each signal and chunk, 20 bytes for each signal and 4 for each pin, and 28 bytes for each block that a step changes. Its time goes
/// by the tasks that wait in each level, which are those that a literal of the level before is in, and by the blocks that they change; and for each level and chunk it looks
/// through a bit for each signal.
pub fn first_clash(alloc: Global, p: &Problem, base: &Planes) -> Result<Option<Clash>, NoMemory>
    requires { IsOf p.now base.now }
    ensures some { IfOk result (λ found. IfSome found (λ clash. IsClash (unrolled p.now) (lits p.now base.now) clash.cell clash.level)) }
    ensures within { IfOk result (λ found. IfSome found (λ clash. clash.cell.sig.0 < signals_in p.now)) }
    ensures none { IfOk result (λ found. IsNone found → (c : AnyCell) → HasBoth (Closure (unrolled p.now) (lits p.now base.now)) c → ⊥) }
{
    let records = SignalRecords::new(alloc, p.net())?;
    let mut wavefront = Wavefront::new(alloc, p, &records, base)?;
    let mut level = 0;
    loop {
        let added = wavefront.advance(p, level)?;
        match wavefront.first {
            Some(clash) => return Ok(Some(clash)),
            None if added => level += LEVELS,
            None => return Ok(None),
        }
    }
}
