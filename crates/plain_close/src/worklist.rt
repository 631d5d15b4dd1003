//! The tasks that wait, and which of them wait once something is known.
ghost use Rattle.std.specs.Prelude.{◌≡◌, ◌≢◌, ◌<◌, IfOk, OnOk, IsTrue};
ghost use Rattle.unroll.specs.Problem.{Unrolling, IsInside, IsProblem, signals_in, chunks_in};
ghost use Rattle.unroll.specs.Tasks.{constant_tasks, task_at};
ghost use Rattle.unroll.specs.Laws.{IsWoken};
ghost use Rattle.known_planes.specs.Planes.{IsOf};
ghost use Rattle.std.specs.List.{Contains};
ghost use Rattle.plain_close.specs.Worklist.{AddsBefore, HasNone, IsSettled, IsWorklistOf, Pushed, Stirs, StirsChunk};

use known_planes::Planes;
use sr_model::{NoMemory, Sig};
use std::alloc::Global;
use unroll::{Block, InChunk, Problem, SignalRecords, WaitingTasks};

/// The tasks that wait to have a turn, beside a record for each signal.
#[derive(Drop)]
pub(crate) struct Worklist<'r> {
    pub(crate) records: &'r SignalRecords<'r>,
    pub(crate) waiting: WaitingTasks,
}

impl<'r> Worklist<'r> {
    /// No task waits.
    pub(crate) fn new(
        alloc: Global,
        p: &Problem,
        records: &'r SignalRecords<'r>,
    ) -> Result<Worklist<'r>, NoMemory>
        requires { records.now ≡ p.now.circuit.drivers }
        ensures problem { OnOk result (IsProblem p.now) }
        ensures of { IfOk result (IsWorklistOf p.now) }
        ensures none { IfOk result HasNone }
    {
        let waiting = WaitingTasks::new(alloc, p.net().signals(), p.chunks())?;
        Ok(Worklist { records, waiting })
    }

    /// The tasks wait that may force something that planes do not have.
    pub(crate) fn of_planes(
        alloc: Global,
        p: &Problem,
        records: &'r SignalRecords<'r>,
        planes: &Planes,
    ) -> Result<Worklist<'r>, NoMemory>
        requires of { IsOf p.now planes.now }
        requires records { records.now ≡ p.now.circuit.drivers }
        ensures problem { OnOk result (IsProblem p.now) }
        ensures of { IfOk result (IsWorklistOf p.now) }
        ensures settled { IfOk result (IsSettled p.now planes.now) }
    {
        let mut worklist = Worklist::new(alloc, p, records)?;
        worklist.add_constants(alloc, p)?;
        worklist.add_known(p, planes);
        Ok(worklist)
    }

    /// Lets the tasks wait that fresh bits of a block are in.
    #[inline]
    pub(crate) fn wake(&mut self, at: InChunk, fresh: u64)
        requires of { (u : Unrolling) × IsProblem u × IsWorklistOf u self.old × IsInside u at }
        ensures { (u : Unrolling) → IsProblem u → IsWorklistOf u self.old → IsInside u at → Pushed u (IsWoken u at fresh) self.old self.new }
    {
        let woken = self.records.woken(at, fresh);
        add_before(&mut self.waiting, at, woken.before);
        self.waiting.add_all(woken.here, at.chunk);
    }

    /// The same without one task of the block's chunk, by its signal.
    #[inline]
    pub(crate) fn wake_but(&mut self, at: InChunk, fresh: u64, but: Sig)
        requires of { (u : Unrolling) × IsProblem u × IsWorklistOf u self.old × IsInside u at }
        ensures { (u : Unrolling) → IsProblem u → IsWorklistOf u self.old → IsInside u at → Pushed u (λ t. IsWoken u at fresh t × (t ≢ task_at u but at.chunk)) self.old self.new }
    {
        let woken = self.records.woken(at, fresh);
        add_before(&mut self.waiting, at, woken.before);
        self.waiting.add_all_but(woken.here, at.chunk, but);
    }

    /// Lets the tasks wait that force something where nothing is known.
    fn add_constants(&mut self, alloc: Global, p: &Problem) -> Result<(), NoMemory>
        requires problem { IsProblem p.now }
        requires of { IsWorklistOf p.now self.old }
        ensures { OnOk result (Pushed p.now (Contains (constant_tasks p.now)) self.old self.new) }
    {
        let constant = p.constant_tasks(alloc)?;
        for task in constant.as_slice() {
            self.waiting.add(p.in_chunk(Block(task.0)));
        }
        Ok(())
    }

    /// Lets the tasks wait that a literal of planes is in.
    fn add_known(&mut self, p: &Problem, planes: &Planes)
        requires problem { IsProblem p.now }
        requires planes { IsOf p.now planes.now }
        requires of { IsWorklistOf p.now self.old }
        ensures { Stirs p.now planes.now self.old self.new }
    {
        for chunk in 0..p.chunks() {
            self.add_known_in(p, planes, chunk);
        }
    }

    /// Those that one of a chunk is in.
    fn add_known_in(&mut self, p: &Problem, planes: &Planes, chunk: u32)
        requires problem { IsProblem p.now }
        requires planes { IsOf p.now planes.now }
        requires of { IsWorklistOf p.now self.old }
        requires chunk { chunk < chunks_in p.now }
        ensures { StirsChunk p.now planes.now chunk (signals_in p.now) self.old self.new }
    {
        for number in 0..p.net().signals() {
            let sig = Sig(number);
            let at = InChunk { sig, chunk };
            let known = planes.word_in_chunk(p, at).known();
            if known != 0 {
                self.wake(at, known);
            }
        }
    }
}

/// Lets the task of the signal in the chunk before wait, if it is woken.
#[inline]
fn add_before(waiting: &mut WaitingTasks, at: InChunk, before: bool)
    requires signal { at.sig.0 < waiting.old.signals }
    requires chunk { at.chunk < waiting.old.chunks }
    requires later { IsTrue before → 0 < at.chunk }
    ensures { AddsBefore at before waiting.old waiting.new }
{
    if before {
        let sig = at.sig;
        let chunk = at.chunk - 1;
        waiting.add(InChunk { sig, chunk });
    }
}
