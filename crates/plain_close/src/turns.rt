//! Turns of tasks: what a task forces is added, and the tasks about it wait again.
ghost use Rattle.std.specs.Prelude.{ℕ, ◌≡◌, ◌≢◌, ◌<◌, ◌≤◌, ◌⊎◌, length, map, IfOk, OnOk, IsFalse, IsTrue, All, false};
ghost use Rattle.sr_model.specs.declared.cells.Sig.{Sig as AnySig};
ghost use Rattle.sr_model.specs.declared.cells.Cell.{Cell as AnyCell};
ghost use Rattle.sr_model.specs.Limits.{max_gate_signals};
ghost use Rattle.sr_model.specs.Closure.{Closure, HasBoth, IsWithin, SameLits, IsClosed};
ghost use Rattle.unroll.specs.Problem.{HasNoLaterBit, HaveNoLaterBit, IsInside, IsProblem, unrolled, block_in};
ghost use Rattle.unroll.specs.Tasks.{IsTaskAt, drives_itself};
ghost use Rattle.netlist.specs.Wiring.{driver_at};
ghost use Rattle.unroll.specs.Records.{HasShape};
ghost use Rattle.unroll.specs.declared.records.Shape.TheVariants as shapes;
ghost use Rattle.unroll.specs.Waiting.{Waits, waiting_measure};
ghost use Rattle.known_planes.specs.Planes.{IsOf, Joins, lits};
ghost use Rattle.plain_close.specs.Worklist.{IsWorklistOf, IsSettled};
ghost use Rattle.plain_close.specs.Turns.{Wakes, Falls, JoinsFirst, AreForced, AreInBlock, AreWordsOf, HasEach, IsOutcome, IsTurn, Between, HaveNoClash, missing_of};

use crate::few_blocks::{
    ThreeForced, TwoForced, force_flip_flop, force_last_flip_flop, force_one_pin, force_two_pins,
};
use crate::many_blocks::{Buffers, force};
use crate::worklist::Worklist;
use known_planes::Planes;
use sr_model::{NoMemory, Sig};
use unroll::{InChunk, PinWord, Problem, Shape};

/// Lets turns follow until no task waits.
pub(crate) fn turn_all(
    p: &Problem,
    planes: &mut Planes,
    worklist: &mut Worklist,
    buffers: &mut Buffers,
) -> Result<(), NoMemory>
    requires problem { IsProblem p.now }
    requires of { IsOf p.now planes.old }
    requires worklist { IsWorklistOf p.now worklist.old }
    requires settled { IsSettled p.now planes.old worklist.old }
    requires room { max_gate_signals ≤ buffers.old.blocks.room }
    ensures of { OnOk result (IsOf p.now planes.new) }
    ensures mark { OnOk result (planes.new.mark ≡ planes.old.mark) }
    ensures closure { OnOk result (SameLits (lits p.now planes.new) (Closure (unrolled p.now) (lits p.now planes.old))) }
{
    while turn_to_next(p, planes, worklist, buffers)?.has_added() {}
    Ok(())
}

/// Lets turns follow until no task waits, or one adds something and a cell of its blocks has both literals then.
pub(crate) fn turn_until_clash(
    p: &Problem,
    planes: &mut Planes,
    worklist: &mut Worklist,
    buffers: &mut Buffers,
) -> Result<(), NoMemory>
    requires problem { IsProblem p.now }
    requires of { IsOf p.now planes.old }
    requires worklist { IsWorklistOf p.now worklist.old }
    requires settled { IsSettled p.now planes.old worklist.old }
    requires room { max_gate_signals ≤ buffers.old.blocks.room }
    ensures of { OnOk result (IsOf p.now planes.new) }
    ensures above { OnOk result (IsWithin (lits p.now planes.old) (lits p.now planes.new)) }
    ensures within { OnOk result (IsWithin (lits p.now planes.new) (Closure (unrolled p.now) (lits p.now planes.old))) }
    ensures closed { OnOk result (((c : AnyCell) → HasBoth (lits p.now planes.new) c → ⊥) → SameLits (lits p.now planes.new) (Closure (unrolled p.now) (lits p.now planes.old))) }
{
    while turn_to_next(p, planes, worklist, buffers)?.goes_on() {}
    Ok(())
}

/// Takes turns until one adds something, and answers what came of it. If none does, no task waits.
fn turn_to_next(
    p: &Problem,
    planes: &mut Planes,
    worklist: &mut Worklist,
    buffers: &mut Buffers,
) -> Result<Progress, NoMemory>
    requires problem { IsProblem p.now }
    requires of { IsOf p.now planes.old }
    requires worklist { IsWorklistOf p.now worklist.old }
    requires settled { IsSettled p.now planes.old worklist.old }
    requires room { max_gate_signals ≤ buffers.old.blocks.room }
    ensures room { buffers.old.blocks.room ≤ buffers.new.blocks.room }
    ensures between { OnOk result (Between p.now planes.old planes.new worklist.new) }
    ensures fewer { IfOk result (λ progress. progress ≢ Progress.Nothing → missing_of p.now planes.new < missing_of p.now planes.old) }
    ensures closed { IfOk result (λ progress. progress ≡ Progress.Nothing → IsClosed (unrolled p.now) (lits p.now planes.new)) }
    ensures clash { IfOk result (λ progress. progress ≡ Progress.Clash → (c : AnyCell) × HasBoth (lits p.now planes.new) c) }
{
    while let Some(task) = worklist.waiting.next() {
        let turned = turn(p, task, planes, worklist, buffers)?;
        take_turned(worklist, task, turned.again);
        if turned.added {
            return Ok(turned.progress());
        }
    }
    Ok(Progress::Nothing)
}

/// Takes a task that has had its turn, unless it is to have another one.
fn take_turned(worklist: &mut Worklist, task: InChunk, again: bool)
    requires { Waits worklist.old.waiting task.sig task.chunk }
    ensures records { worklist.new.records.now ≡ worklist.old.records.now }
    ensures signals { worklist.new.waiting.signals ≡ worklist.old.waiting.signals }
    ensures chunks { worklist.new.waiting.chunks ≡ worklist.old.waiting.chunks }
    ensures kept { (s : AnySig) (c : ℕ) → Waits worklist.old.waiting s c → Waits worklist.new.waiting s c ⊎ (IsFalse again × (s ≡ task.sig) × (c ≡ task.chunk)) }
    ensures only { (s : AnySig) (c : ℕ) → Waits worklist.new.waiting s c → Waits worklist.old.waiting s c }
    ensures fewer { IsFalse again → waiting_measure worklist.new.waiting < waiting_measure worklist.old.waiting }
{
    if !again {
        worklist.waiting.remove(task);
    }
}

/// Whether a turn added something, and then: whether a cell of its task's blocks has both literals, and whether its task may force more.
#[derive(Clone, Copy)]
struct Turned {
    added: bool,
    clash: bool,
    again: bool,
}

impl Turned {
    /// Nothing was added.
    #[inline]
    fn nothing() -> Turned
        ensures added { IsFalse result.added }
        ensures clash { IsFalse result.clash }
        ensures again { IsFalse result.again }
    {
        Turned {
            added: false,
            clash: false,
            again: false,
        }
    }

    /// Something was added, or nothing, and the task may force more only where a cell of its blocks has both literals.
    #[inline]
    fn adding(added: bool, clash: bool) -> Turned
        ensures added { result.added ≡ added }
        ensures clash { IsTrue result.clash → IsTrue clash }
        ensures again { IsFalse result.again → IsTrue result.added → IsFalse clash }
        ensures nothing { IsFalse result.added → IsFalse result.again }
    {
        Turned {
            added,
            clash: added & clash,
            again: added & clash,
        }
    }

    /// What it is told as, where something was added.
    #[inline]
    fn progress(self) -> Progress
        requires { IsTrue self.added }
        ensures some { result ≢ Progress.Nothing }
        ensures clash { result ≡ Progress.Clash → IsTrue self.clash }
    {
        if self.clash {
            Progress::Clash
        } else {
            Progress::Added
        }
    }
}

/// What came of turns: the last one added something, and perhaps a cell has both literals then; or none did.
#[derive(Clone, Copy)]
enum Progress {
    Nothing,
    Added,
    Clash,
}

impl Progress {
    #[inline]
    fn has_added(self) -> bool
        ensures yes { IsTrue result → self ≢ Progress.Nothing }
        ensures no { IsFalse result → self ≡ Progress.Nothing }
    {
        match self {
            Progress::Nothing => false,
            Progress::Added | Progress::Clash => true,
        }
    }

    /// Whether something was added, and no cell has both literals.
    #[inline]
    fn goes_on(self) -> bool
        ensures yes { IsTrue result → self ≢ Progress.Nothing }
        ensures no { IsFalse result → (self ≡ Progress.Nothing) ⊎ (self ≡ Progress.Clash) }
    {
        match self {
            Progress::Added => true,
            Progress::Nothing | Progress::Clash => false,
        }
    }
}

/// The turn of a task, which waits on meanwhile.
#[inline]
fn turn(
    p: &Problem,
    task: InChunk,
    planes: &mut Planes,
    worklist: &mut Worklist,
    buffers: &mut Buffers,
) -> Result<Turned, NoMemory>
    requires problem { IsProblem p.now }
    requires of { IsOf p.now planes.old }
    requires worklist { IsWorklistOf p.now worklist.old }
    requires task { IsTaskAt p.now task }
    requires room { max_gate_signals ≤ buffers.old.blocks.room }
    ensures room { buffers.old.blocks.room ≤ buffers.new.blocks.room }
    ensures turn { IfOk result (λ turned. IsTurn p.now task turned planes.old planes.new worklist.old worklist.new) }
{
    let record = worklist.records.get(task.sig);
    match record.shape {
        Shape::TwoPins(family) => {
            let forced = force_two_pins(p, planes, task, family, record.first, record.second);
            Ok(join_three(p, task, planes, worklist, &forced))
        }
        Shape::OnePin(family) => {
            let forced = force_one_pin(p, planes, task, family, record.first);
            Ok(join_two(p, task, planes, worklist, &forced))
        }
        Shape::FlipFlop => Ok(turn_flip_flop(p, task, planes, worklist, record.first)),
        Shape::OwnPin => turn_many(p, task, true, planes, worklist, buffers),
        Shape::Other | Shape::Input => turn_many(p, task, false, planes, worklist, buffers),
    }
}

/// The turn of a flip-flop's task, whose pin is of another signal.
#[inline]
fn turn_flip_flop(
    p: &Problem,
    task: InChunk,
    planes: &mut Planes,
    worklist: &mut Worklist,
    pin: Sig,
) -> Turned
    requires problem { IsProblem p.now }
    requires of { IsOf p.now planes.old }
    requires worklist { IsWorklistOf p.now worklist.old }
    requires task { IsTaskAt p.now task }
    requires shape { (other : AnySig) × HasShape shapes.FlipFlop (driver_at p.now.circuit.drivers task.sig.0) task.sig pin other }
    ensures { IsTurn p.now task result planes.old planes.new worklist.old worklist.new }
{
    if p.goes_on(task) {
        let forced = force_flip_flop(p, planes, task, pin);
        join_forced(
            p,
            task,
            false,
            planes,
            worklist,
            &forced.in_chunks,
            &forced.out,
        )
    } else {
        let forced = force_last_flip_flop(p, planes, task, pin);
        join_forced(
            p,
            task,
            false,
            planes,
            worklist,
            &forced.in_chunks,
            &forced.out,
        )
    }
}

/// The turn of a task with any number of blocks, and whether it is that of a flip-flop that is its own pin.
fn turn_many(
    p: &Problem,
    task: InChunk,
    own_pin: bool,
    planes: &mut Planes,
    worklist: &mut Worklist,
    buffers: &mut Buffers,
) -> Result<Turned, NoMemory>
    requires problem { IsProblem p.now }
    requires of { IsOf p.now planes.old }
    requires worklist { IsWorklistOf p.now worklist.old }
    requires task { IsTaskAt p.now task }
    requires room { max_gate_signals ≤ buffers.old.blocks.room }
    requires own_pin { own_pin ≡ drives_itself p.now task.sig }
    ensures room { buffers.old.blocks.room ≤ buffers.new.blocks.room }
    ensures turn { IfOk result (λ turned. IsTurn p.now task turned planes.old planes.new worklist.old worklist.new) }
{
    force(p, task, planes, buffers)?;
    let in_chunks = buffers.in_chunks.as_slice();
    let out = buffers.out.as_slice();
    Ok(join_forced(p, task, own_pin, planes, worklist, in_chunks, out))
}

/// Joins what a task forces into its blocks. The task may force more only where that added something, and one of its cells has both literals or its flip-flop is its own pin.
#[inline]
fn join_forced(
    p: &Problem,
    task: InChunk,
    own_pin: bool,
    planes: &mut Planes,
    worklist: &mut Worklist,
    in_chunks: &[InChunk],
    out: &[PinWord],
) -> Turned
    requires problem { IsProblem p.now }
    requires of { IsOf p.now planes.old }
    requires worklist { IsWorklistOf p.now worklist.old }
    requires task { IsTaskAt p.now task }
    requires forced { AreForced p.now planes.old task in_chunks.now out.now }
    requires own_pin { own_pin ≡ drives_itself p.now task.sig }
    ensures { IsTurn p.now task result planes.old planes.new worklist.old worklist.new }
{
    let added = join_all(p, planes, worklist, in_chunks, out);
    outcome(p, planes, in_chunks, added, own_pin)
}

/// Joins what the task of a gate with one pin forces. Of each block so much is known already as the task saw there.
#[inline]
fn join_two(
    p: &Problem,
    task: InChunk,
    planes: &mut Planes,
    worklist: &mut Worklist,
    forced: &TwoForced,
) -> Turned
    requires problem { IsProblem p.now }
    requires of { IsOf p.now planes.old }
    requires worklist { IsWorklistOf p.now worklist.old }
    requires task { IsTaskAt p.now task }
    requires forced { AreForced p.now planes.old task forced.now.in_chunks forced.now.out }
    requires known { AreWordsOf p.now planes.old forced.now.in_chunks forced.now.known }
    requires other_pin { false ≡ drives_itself p.now task.sig }
    ensures { IsTurn p.now task result planes.old planes.new worklist.old worklist.new }
{
    let TwoForced {
        in_chunks,
        known,
        out,
    } = forced;
    let target = join_unknown(p, planes, worklist, in_chunks[0], known[0], out[0]);
    let pin = join_unknown(p, planes, worklist, in_chunks[1], known[1], out[1]);
    let clash = have_both(known[0], out[0]) | have_both(known[1], out[1]);
    Turned::adding(pin | target, clash)
}

/// The same of a gate with two pins.
#[inline]
fn join_three(
    p: &Problem,
    task: InChunk,
    planes: &mut Planes,
    worklist: &mut Worklist,
    forced: &ThreeForced,
) -> Turned
    requires problem { IsProblem p.now }
    requires of { IsOf p.now planes.old }
    requires worklist { IsWorklistOf p.now worklist.old }
    requires task { IsTaskAt p.now task }
    requires forced { AreForced p.now planes.old task forced.now.in_chunks forced.now.out }
    requires known { AreWordsOf p.now planes.old forced.now.in_chunks forced.now.known }
    requires other_pins { false ≡ drives_itself p.now task.sig }
    ensures { IsTurn p.now task result planes.old planes.new worklist.old worklist.new }
{
    let ThreeForced {
        in_chunks,
        known,
        out,
    } = forced;
    let target = join_unknown(p, planes, worklist, in_chunks[0], known[0], out[0]);
    let first = join_unknown(p, planes, worklist, in_chunks[1], known[1], out[1]);
    let second = join_unknown(p, planes, worklist, in_chunks[2], known[2], out[2]);
    let clash = have_both(known[0], out[0])
        | (have_both(known[1], out[1]) | have_both(known[2], out[2]));
    Turned::adding(second | (first | target), clash)
}

/// Whether a cell has both literals among the known ones and the forced ones.
#[inline]
fn have_both(known: PinWord, out: PinWord) -> bool
    ensures none { IsFalse result → (i : ℕ) → i < 64 → HasEach known out i → ⊥ }
    ensures some { IsTrue result → (i : ℕ) × (i < 64) × HasEach known out i }
{
    let both = known.union(out).both();
    both != 0
}

/// What became of a turn after which these blocks are so.
#[inline]
fn outcome(
    p: &Problem,
    planes: &Planes,
    in_chunks: &[InChunk],
    added: bool,
    own_pin: bool,
) -> Turned
    requires of { IsOf p.now planes.now }
    requires inside { All (IsInside p.now) in_chunks.now }
    ensures { IsOutcome p.now planes.now (map (block_in p.now) in_chunks.now) added own_pin result }
{
    if !added {
        return Turned::nothing();
    }
    let clash = have_clash(p, planes, in_chunks);
    Turned {
        added: true,
        clash,
        again: clash || own_pin,
    }
}

/// Whether a cell of these blocks has both literals.
#[inline]
fn have_clash(p: &Problem, planes: &Planes, in_chunks: &[InChunk]) -> bool
    requires of { IsOf p.now planes.now }
    requires inside { All (IsInside p.now) in_chunks.now }
    ensures none { IsFalse result → HaveNoClash planes.now (map (block_in p.now) in_chunks.now) }
    ensures some { IsTrue result → (c : AnyCell) × HasBoth (lits p.now planes.now) c }
{
    for at in in_chunks {
        if planes.word_in_chunk(p, *at).both() != 0 {
            return true;
        }
    }
    false
}

/// Joins words into these blocks, and answers whether something was new.
#[inline]
fn join_all(
    p: &Problem,
    planes: &mut Planes,
    worklist: &mut Worklist,
    in_chunks: &[InChunk],
    out: &[PinWord],
) -> bool
    requires problem { IsProblem p.now }
    requires of { IsOf p.now planes.old }
    requires worklist { IsWorklistOf p.now worklist.old }
    requires inside { All (IsInside p.now) in_chunks.now }
    requires out { length out.now ≡ length in_chunks.now }
    requires later { HaveNoLaterBit p.now (map (block_in p.now) in_chunks.now) out.now }
    ensures wakes { Wakes p.now planes.old planes.new worklist.old worklist.new }
    ensures falls { Falls p.now result planes.old planes.new worklist.old worklist.new }
    ensures joins { JoinsFirst (map (block_in p.now) in_chunks.now) out.now (length in_chunks.now) planes.old planes.new }
{
    let mut added = false;
    for index in 0..in_chunks.len() {
        added = join(p, planes, worklist, in_chunks[index], out[index]) | added;
    }
    added
}

/// Joins words into a block of which so much is known; if that is all, it reads no more of it.
#[inline]
fn join_unknown(
    p: &Problem,
    planes: &mut Planes,
    worklist: &mut Worklist,
    at: InChunk,
    known: PinWord,
    words: PinWord,
) -> bool
    requires problem { IsProblem p.now }
    requires of { IsOf p.now planes.old }
    requires worklist { IsWorklistOf p.now worklist.old }
    requires inside { IsInside p.now at }
    requires no_later { HasNoLaterBit p.now.cycles at.chunk words }
    requires known { AreInBlock p.now planes.old at known }
    ensures wakes { Wakes p.now planes.old planes.new worklist.old worklist.new }
    ensures falls { Falls p.now result planes.old planes.new worklist.old worklist.new }
    ensures joins { Joins (block_in p.now at) words planes.old planes.new }
{
    let fresh = words.without(known).known();
    if fresh == 0 {
        return false;
    }
    join(p, planes, worklist, at, words)
}

/// Joins words into a block. Where that changes it, all tasks that the new bits are in wait; the answer is whether it did.
pub(crate) fn join(
    p: &Problem,
    planes: &mut Planes,
    worklist: &mut Worklist,
    at: InChunk,
    words: PinWord,
) -> bool
    requires problem { IsProblem p.now }
    requires of { IsOf p.now planes.old }
    requires worklist { IsWorklistOf p.now worklist.old }
    requires inside { IsInside p.now at }
    requires no_later { HasNoLaterBit p.now.cycles at.chunk words }
    ensures wakes { Wakes p.now planes.old planes.new worklist.old worklist.new }
    ensures falls { Falls p.now result planes.old planes.new worklist.old worklist.new }
    ensures joins { Joins (block_in p.now at) words planes.old planes.new }
{
    let fresh = planes.new_in_chunk(p, at, words);
    if fresh == 0 {
        return false;
    }
    planes.add_in_chunk(p, at, words);
    worklist.wake(at, fresh);
    true
}
