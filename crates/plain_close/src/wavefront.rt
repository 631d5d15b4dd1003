//! Chunks that go on from level to level, each one after the one before it.
ghost use Rattle.std.specs.Prelude.{ℕ, ◌≡◌, ◌<◌, ◌≤◌, ◌+◌, ◌⊎◌, ◌||◌, Bool, IfOk};
ghost use Rattle.unroll.specs.Problem.{chunks_in};
ghost use Rattle.known_planes.specs.Planes.{IsOf, PlaneSet};
ghost use Rattle.plain_close.specs.Wavefront.{ComesBefore, GoesOn, IsFirst, IsUnderWay, IsWavefront, MayStep, Notes, Steps, greatest_level, levels_together, with_step};
ghost use Rattle.plain_close.specs.declared.wavefront.Wavefront.{Wavefront as AnyWavefront};

use crate::changes::{Added, Change, add_changes, no_changes};
use crate::chunk_tasks::force_chunk;
use crate::levels::Clash;
use crate::many_blocks::Buffers;
use crate::worklist::Worklist;
use known_planes::Planes;
use sr_model::{Cell, NoMemory, Sequence};
use std::alloc::Global;
use unroll::{Problem, SignalRecords};

/// So many levels all chunks go on together, before the next ones.
///
/// A chunk's words and its tasks lie near each other; so it takes several steps while they are at hand.
pub(crate) const LEVELS: u32 = 4;

/// What is known, chunk by chunk at a level, the tasks that may force more, and what is listed for the next level.
#[derive(Drop)]
pub(crate) struct Wavefront<'r> {
    planes: Planes,
    worklist: Worklist<'r>,
    changes: Vec<Sequence<Change>>,
    buffers: Buffers,
    /// The least cell with both literals in the first level that has one, of those that chunks have come to.
    pub(crate) first: Option<Clash>,
}

impl<'r> Wavefront<'r> {
    /// All chunks at level 0.
    pub(crate) fn new(
        alloc: Global,
        p: &Problem,
        records: &'r SignalRecords<'r>,
        base: &Planes,
    ) -> Result<Wavefront<'r>, NoMemory>
        requires of { IsOf p.now base.now }
        requires records { records.now ≡ p.now.circuit.drivers }
        ensures wavefront { IfOk result (IsWavefront p.now base.now (λ _. 0)) }
        ensures first { IfOk result (λ w. IsFirst p.now base.now (λ _. 0) w.first) }
    {
        Ok(Wavefront {
            planes: base.copy(alloc)?,
            worklist: Worklist::of_planes(alloc, p, records, base)?,
            changes: no_changes(alloc, p.chunks())?,
            buffers: Buffers::new(alloc)?,
            first: clash_of_base(p, base),
        })
    }

    /// All chunks, which are at one level, go on so many levels: each takes its steps one step after those of the chunk before it. Whether a literal was added.
    pub(crate) fn advance(&mut self, p: &Problem, level: u32) -> Result<bool, NoMemory>
        requires few { level + levels_together ≤ greatest_level }
        requires wavefront { (base : PlaneSet) × IsWavefront p.now base (λ _. level) self.old × IsFirst p.now base (λ _. level) self.old.first }
        ensures { IfOk result (λ some. (base : PlaneSet) → IsWavefront p.now base (λ _. level) self.old → IsFirst p.now base (λ _. level) self.old.first
            → GoesOn p.now base (λ _. level + levels_together) some self.old self.new) }
    {
        let chunks = p.chunks();
        let mut added = false;
        for time in 0..chunks + LEVELS - 1 {
            added = self.advance_at(p, level, time)? | added;
        }
        Ok(added)
    }

    /// The steps of one time: that of the chunk of this number is its first one, and each chunk before it takes one step more.
    fn advance_at(&mut self, p: &Problem, level: u32, time: u32) -> Result<bool, NoMemory>
        requires few { level + levels_together ≤ greatest_level }
        requires under_way { (base : PlaneSet) × (start : AnyWavefront) × (some : Bool) × IsUnderWay p.now base level time 0 some start self.old }
        ensures { IfOk result (λ more. (base : PlaneSet) (start : AnyWavefront) (some : Bool) → IsUnderWay p.now base level time 0 some start self.old
            → IsUnderWay p.now base level (time + 1) 0 (more || some) start self.new) }
    {
        let chunks = p.chunks();
        let mut added = false;
        for steps in 0..LEVELS {
            if steps <= time && time - steps < chunks {
                added = self.step_and_note(p, time - steps, level + steps)? | added;
            }
        }
        Ok(added)
    }

    /// A chunk goes on to the next level, and the least of its cells with both literals there is noted.
    fn step_and_note(&mut self, p: &Problem, chunk: u32, level: u32) -> Result<bool, NoMemory>
        requires few { level < greatest_level }
        requires wavefront { (base : PlaneSet) × (levels : ℕ → ℕ) × IsWavefront p.now base levels self.old × IsFirst p.now base levels self.old.first × MayStep p.now levels chunk level }
        ensures { IfOk result (λ some. (base : PlaneSet) (levels : ℕ → ℕ) → IsWavefront p.now base levels self.old → IsFirst p.now base levels self.old.first
            → MayStep p.now levels chunk level → GoesOn p.now base (with_step chunk levels) some self.old self.new) }
    {
        let added = self.step(p, chunk)?;
        if added.clash {
            self.note(p, chunk, level + 1);
        }
        Ok(added.some)
    }

    /// A chunk goes on to the next level: what its waiting tasks force is listed, and what is listed for it is added.
    fn step(&mut self, p: &Problem, chunk: u32) -> Result<Added, NoMemory>
        requires { (base : PlaneSet) × (levels : ℕ → ℕ) × (level : ℕ) × IsWavefront p.now base levels self.old × MayStep p.now levels chunk level }
        ensures first { self.new.first ≡ self.old.first }
        ensures steps { IfOk result (λ added. (base : PlaneSet) (levels : ℕ → ℕ) (level : ℕ) → IsWavefront p.now base levels self.old → MayStep p.now levels chunk level
            → Steps p.now base levels chunk added self.old self.new) }
    {
        force_chunk(
            p,
            chunk,
            &self.planes,
            &mut self.worklist,
            &mut self.buffers,
            &mut self.changes,
        )?;
        let changes = self.changes[chunk as usize].as_slice();
        let added = add_changes(p, chunk, changes, &mut self.planes, &mut self.worklist);
        self.changes[chunk as usize].clear();
        Ok(added)
    }

    /// Notes the least cell of a chunk with both literals in a level, unless another one comes first.
    fn note(&mut self, p: &Problem, chunk: u32, level: u32)
        requires of { IsOf p.now self.old.planes }
        requires chunk { chunk < chunks_in p.now }
        ensures planes { self.new.planes ≡ self.old.planes }
        ensures worklist { self.new.worklist ≡ self.old.worklist }
        ensures changes { self.new.changes ≡ self.old.changes }
        ensures buffers { self.new.buffers ≡ self.old.buffers }
        ensures first { Notes p.now self.old.planes chunk level self.old.first self.new.first }
    {
        if let Some(cell) = self.planes.clash_in_chunk(p, chunk) {
            let found = Clash { cell, level };
            self.first = Some(match self.first {
                None => found,
                Some(noted) => first_of(noted, found),
            });
        }
    }
}

/// The least cell of a base with both literals.
fn clash_of_base(p: &Problem, base: &Planes) -> Option<Clash>
    requires { IsOf p.now base.now }
    ensures { IsFirst p.now base.now (λ _. 0) result }
{
    let cell = base.clash(p)?;
    Some(Clash { cell, level: 0 })
}

/// The one that comes first: of the lower level, and in one level of the least cell.
fn first_of(noted: Clash, found: Clash) -> Clash
    ensures noted { ComesBefore result noted.level noted.cell }
    ensures found { ComesBefore result found.level found.cell }
    ensures one { (result ≡ noted) ⊎ (result ≡ found) }
{
    let earlier = if found.level != noted.level {
        found.level < noted.level
    } else if found.cell.cycle != noted.cell.cycle {
        found.cell.cycle < noted.cell.cycle
    } else {
        found.cell.sig.0 < noted.cell.sig.0
    };
    if earlier { found } else { noted }
}
