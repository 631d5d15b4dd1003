//! What follows from a base, level by level, each literal with the least instance that forces it.
ghost use Rattle.std.specs.Prelude.{ℕ, ◌≡◌, ◌<◌, ◌≤◌, IfOk, IfSome, OnOk};
ghost use Rattle.std.specs.List.{All};
ghost use Rattle.sr_model.specs.Limits.{max_gate_signals};
ghost use Rattle.unroll.specs.Problem.{IsProblem, chunks_in, signals_in, unrolled};
ghost use Rattle.known_planes.specs.Planes.{IsOf, PlaneSet, lits};
ghost use Rattle.plain_close.specs.Log.{IsLog};
ghost use Rattle.plain_close.specs.declared.log.Level.{Level as AnyLevel};
ghost use Rattle.plain_close.specs.Levels.{AddsListed, GoesToNext, IsLevel, Lists, LogsListed};

use crate::changes::{Added, Change, add_changes, no_changes};
use crate::chunk_tasks::force_chunk;
use crate::level_steps::{add_least, find_steps, sorted};
use crate::many_blocks::Buffers;
use crate::worklist::Worklist;
use known_planes::Planes;
use sr_model::{Cell, Lit, NoMemory, Place, Sequence};
use std::alloc::Global;
use unroll::{Problem, SignalRecords};

/// A literal, and the place of the instance that forces it. Steps are ordered by literal and then by place.
#[derive(Clone, Copy, Debug, PartialEq, Eq, PartialOrd, Ord)]
pub struct Step {
    pub lit: Lit,
    pub place: Place,
}

/// A list of steps.
pub type Steps = Sequence<Step>;

/// What follows from a base. The steps go level by level, and in a level by literal.
///
/// The clash is the least cell with both literals in the first level that has one; that level's steps are all there.
#[derive(Debug, Drop)]
pub struct Log {
    pub steps: Steps,
    pub clash: Option<Cell>,
}

/// Each literal that follows from the base and is not in it, with the least place of those whose instance forces it from the level before, up to the first level that has both
/// literals of a cell, or up to the closure.
///
/// It takes the memory of `first_clash`, 24 bytes for each step, as many more for the steps of a chunk in a level before those with one literal are dropped, and 28 bytes for each
/// block that a level changes. Its time goes by the tasks that wait in each level, the blocks that they change and the steps, which are sorted chunk by chunk; and for each level and
/// chunk it looks through a bit for each signal.
pub fn derive_log(alloc: Global, p: &Problem, base: &Planes) -> Result<Log, NoMemory>
    requires { IsOf p.now base.now }
    ensures log { IfOk result (λ log. IsLog (unrolled p.now) (lits p.now base.now) log.steps.items log.clash) }
    ensures within { IfOk result (λ log. All (λ step. step.lit.cell.sig.0 < signals_in p.now) log.steps.items) }
    ensures clash_within { IfOk result (λ log. IfSome log.clash (λ cell. cell.sig.0 < signals_in p.now)) }
{
    let records = SignalRecords::new(alloc, p.net())?;
    let mut level = Level::new(alloc, p, &records, base)?;
    let mut steps = Steps::new(alloc);
    let mut clash = base.clash(p);
    loop {
        if clash.is_some() {
            return Ok(Log { steps, clash });
        }
        let before = steps.len();
        let added = level.advance(alloc, p, &mut steps)?;
        if steps.len() == before {
            return Ok(Log { steps, clash: None });
        }
        if added.clash {
            clash = level.planes.clash(p);
        }
    }
}

/// What is known at a level, the tasks that may force more, and what is listed for the next level.
#[derive(Drop)]
struct Level<'r> {
    planes: Planes,
    worklist: Worklist<'r>,
    changes: Vec<Sequence<Change>>,
    buffers: Buffers,
}

impl<'r> Level<'r> {
    /// Level 0, which is the base.
    fn new(
        alloc: Global,
        p: &Problem,
        records: &'r SignalRecords<'r>,
        base: &Planes,
    ) -> Result<Level<'r>, NoMemory>
        requires of { IsOf p.now base.now }
        requires records { records.now ≡ p.now.circuit.drivers }
        ensures { IfOk result (IsLevel p.now base.now 0) }
    {
        Ok(Level {
            planes: base.copy(alloc)?,
            worklist: Worklist::of_planes(alloc, p, records, base)?,
            changes: no_changes(alloc, p.chunks())?,
            buffers: Buffers::new(alloc)?,
        })
    }

    /// Goes on to the next level, and logs its new literals.
    fn advance(&mut self, alloc: Global, p: &Problem, steps: &mut Steps) -> Result<Added, NoMemory>
        requires { (base : PlaneSet) × (level : ℕ) × IsLevel p.now base level self.old }
        ensures { IfOk result (λ added. (base : PlaneSet) (level : ℕ) → IsLevel p.now base level self.old
            → GoesToNext p.now base level added self.old self.new steps.old.items steps.new.items) }
    {
        self.list(p)?;
        self.log(alloc, p, steps)?;
        Ok(self.add(p))
    }

    /// Lists what the waiting tasks force.
    fn list(&mut self, p: &Problem) -> Result<(), NoMemory>
        requires { (base : PlaneSet) × (level : ℕ) × IsLevel p.now base level self.old }
        ensures { OnOk result (Lists p.now self.old self.new) }
    {
        for chunk in 0..p.chunks() {
            force_chunk(
                p,
                chunk,
                &self.planes,
                &mut self.worklist,
                &mut self.buffers,
                &mut self.changes,
            )?;
        }
        Ok(())
    }

    /// Logs what is listed.
    fn log(&self, alloc: Global, p: &Problem, steps: &mut Steps) -> Result<(), NoMemory>
        requires { (old : AnyLevel) × Lists p.now old self.now }
        ensures { OnOk result (LogsListed p.now self.now.planes (chunks_in p.now) steps.old.items steps.new.items) }
    {
        let mut found = Steps::new(alloc);
        for chunk in 0..p.chunks() {
            let changes = self.changes[chunk as usize].as_slice();
            found.clear();
            find_steps(
                p,
                self.worklist.records,
                &self.planes,
                chunk,
                changes,
                &mut found,
            )?;
            found = sorted(found);
            add_least(found.as_slice(), steps)?;
        }
        Ok(())
    }

    /// Adds what is listed.
    fn add(&mut self, p: &Problem) -> Added
        requires { (old : AnyLevel) × Lists p.now old self.old }
        ensures { AddsListed p.now self.old self.new result }
    {
        let mut all = Added {
            some: false,
            clash: false,
        };
        for chunk in 0..p.chunks() {
            let changes = self.changes[chunk as usize].as_slice();
            let added = add_changes(p, chunk, changes, &mut self.planes, &mut self.worklist);
            self.changes[chunk as usize].clear();
            all = Added {
                some: all.some | added.some,
                clash: all.clash | added.clash,
            };
        }
        all
    }
}
