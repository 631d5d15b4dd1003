//! What the waiting tasks of a chunk force, listed before it is added.
ghost use Rattle.std.specs.Prelude.{◌≡◌, ◌<◌, ◌≤◌, IsFalse, OnOk, length, map};
ghost use Rattle.std.specs.List.{All};
ghost use Rattle.sr_model.specs.declared.cells.Sig.{Sig as AnySig};
ghost use Rattle.sr_model.specs.Limits.{max_gate_signals};
ghost use Rattle.netlist.specs.Wiring.{driver_at};
ghost use Rattle.unroll.specs.Problem.{HaveNoLaterBit, IsInside, IsProblem, block_in, chunks_in};
ghost use Rattle.unroll.specs.Records.{HasShape};
ghost use Rattle.unroll.specs.declared.records.Shape.TheVariants as shapes;
ghost use Rattle.unroll.specs.Tasks.{IsTaskAt, drives_itself};
ghost use Rattle.known_planes.specs.Planes.{IsOf};
ghost use Rattle.plain_close.specs.Worklist.{IsWorklistOf};
ghost use Rattle.plain_close.specs.Turns.{AreForced};
ghost use Rattle.plain_close.specs.Changes.{AreKnown, ForcesChunk, ForcesTask, HaveNoClashWith, ListsNew};

use crate::changes::Change;
use crate::few_blocks::{
    ThreeForced, TwoForced, force_flip_flop, force_last_flip_flop, force_one_pin, force_two_pins,
};
use crate::many_blocks::{Buffers, force};
use crate::worklist::Worklist;
use known_planes::Planes;
use sr_model::{NoMemory, Sequence, Sig};
use unroll::{InChunk, PinWord, Problem, Shape, SignalRecord};

/// Takes each task that waits in a chunk, and lists what it forces from the planes and is not known: by the chunk of its block.
pub(crate) fn force_chunk(
    p: &Problem,
    chunk: u32,
    planes: &Planes,
    worklist: &mut Worklist,
    buffers: &mut Buffers,
    changes: &mut [Sequence<Change>],
) -> Result<(), NoMemory>
    requires problem { IsProblem p.now }
    requires of { IsOf p.now planes.now }
    requires worklist { IsWorklistOf p.now worklist.old }
    requires chunk { chunk < chunks_in p.now }
    requires room { max_gate_signals ≤ buffers.old.blocks.room }
    requires size { length changes.old ≡ chunks_in p.now }
    ensures room { OnOk result (max_gate_signals ≤ buffers.new.blocks.room) }
    ensures forces { OnOk result (ForcesChunk p.now planes.now chunk worklist.old worklist.new changes.old changes.new) }
{
    let mut from = 0;
    while let Some(sig) = worklist.waiting.take_from(chunk, from) {
        let signal = worklist.records.get(sig);
        force_task(p, InChunk { sig, chunk }, signal, planes, buffers, changes)?;
        from = sig.0;
    }
    Ok(())
}

/// Lists what a task forces, by the record of its signal.
#[inline]
fn force_task(
    p: &Problem,
    task: InChunk,
    signal: SignalRecord,
    planes: &Planes,
    buffers: &mut Buffers,
    changes: &mut [Sequence<Change>],
) -> Result<(), NoMemory>
    requires problem { IsProblem p.now }
    requires of { IsOf p.now planes.now }
    requires task { IsTaskAt p.now task }
    requires signal { HasShape signal.shape (driver_at p.now.circuit.drivers task.sig.0) task.sig signal.first signal.second }
    requires room { max_gate_signals ≤ buffers.old.blocks.room }
    requires size { length changes.old ≡ chunks_in p.now }
    ensures room { OnOk result (max_gate_signals ≤ buffers.new.blocks.room) }
    ensures forces { OnOk result (ForcesTask p.now planes.now task changes.old changes.new) }
{
    match signal.shape {
        Shape::TwoPins(family) => {
            let ThreeForced { in_chunks, out, .. } = force_two_pins(
                p,
                planes,
                task,
                family,
                signal.first,
                signal.second,
            );
            list_forced(p, task, false, planes, &in_chunks, &out, changes)
        }
        Shape::OnePin(family) => {
            let TwoForced { in_chunks, out, .. } = force_one_pin(
                p,
                planes,
                task,
                family,
                signal.first,
            );
            list_forced(p, task, false, planes, &in_chunks, &out, changes)
        }
        Shape::FlipFlop => list_flip_flop(p, task, signal.first, planes, changes),
        Shape::OwnPin => list_many(p, task, true, planes, buffers, changes),
        Shape::Other | Shape::Input => list_many(p, task, false, planes, buffers, changes),
    }
}

/// Of a flip-flop's task, whose pin is of another signal.
#[inline]
fn list_flip_flop(
    p: &Problem,
    task: InChunk,
    pin: Sig,
    planes: &Planes,
    changes: &mut [Sequence<Change>],
) -> Result<(), NoMemory>
    requires problem { IsProblem p.now }
    requires of { IsOf p.now planes.now }
    requires task { IsTaskAt p.now task }
    requires shape { (other : AnySig) × HasShape shapes.FlipFlop (driver_at p.now.circuit.drivers task.sig.0) task.sig pin other }
    requires size { length changes.old ≡ chunks_in p.now }
    ensures { OnOk result (ForcesTask p.now planes.now task changes.old changes.new) }
{
    if p.goes_on(task) {
        let ThreeForced { in_chunks, out, .. } = force_flip_flop(p, planes, task, pin);
        list_forced(p, task, false, planes, &in_chunks, &out, changes)
    } else {
        let TwoForced { in_chunks, out, .. } = force_last_flip_flop(p, planes, task, pin);
        list_forced(p, task, false, planes, &in_chunks, &out, changes)
    }
}

/// Of a task with any number of blocks, and whether it is that of a flip-flop that is its own pin.
fn list_many(
    p: &Problem,
    task: InChunk,
    own_pin: bool,
    planes: &Planes,
    buffers: &mut Buffers,
    changes: &mut [Sequence<Change>],
) -> Result<(), NoMemory>
    requires problem { IsProblem p.now }
    requires of { IsOf p.now planes.now }
    requires task { IsTaskAt p.now task }
    requires room { max_gate_signals ≤ buffers.old.blocks.room }
    requires own_pin { own_pin ≡ drives_itself p.now task.sig }
    requires size { length changes.old ≡ chunks_in p.now }
    ensures room { buffers.old.blocks.room ≤ buffers.new.blocks.room }
    ensures forces { OnOk result (ForcesTask p.now planes.now task changes.old changes.new) }
{
    force(p, task, planes, buffers)?;
    let in_chunks = buffers.in_chunks.as_slice();
    let out = buffers.out.as_slice();
    list_forced(p, task, own_pin, planes, in_chunks, out, changes)
}

/// Lists what of all that a task forces is not known. The task is to wait again if its flip-flop is its own pin, if a cell of its blocks has both literals then, or if the
/// block is of the next chunk.
#[inline]
fn list_forced(
    p: &Problem,
    task: InChunk,
    own_pin: bool,
    planes: &Planes,
    in_chunks: &[InChunk],
    out: &[PinWord],
    changes: &mut [Sequence<Change>],
) -> Result<(), NoMemory>
    requires of { IsOf p.now planes.now }
    requires task { IsTaskAt p.now task }
    requires forced { AreForced p.now planes.now task in_chunks.now out.now }
    requires own_pin { own_pin ≡ drives_itself p.now task.sig }
    requires size { length changes.old ≡ chunks_in p.now }
    ensures { OnOk result (ForcesTask p.now planes.now task changes.old changes.new) }
{
    if !are_new(p, planes, in_chunks, out) {
        return Ok(());
    }
    let again = own_pin || would_clash(p, planes, in_chunks, out);
    list_new(p, task, again, planes, in_chunks, out, changes)
}

/// Whether words of these blocks have a literal that is not known.
#[inline]
fn are_new(p: &Problem, planes: &Planes, in_chunks: &[InChunk], out: &[PinWord]) -> bool
    requires of { IsOf p.now planes.now }
    requires inside { All (IsInside p.now) in_chunks.now }
    requires out { length out.now ≡ length in_chunks.now }
    requires later { HaveNoLaterBit p.now (map (block_in p.now) in_chunks.now) out.now }
    ensures { IsFalse result → AreKnown planes.now (map (block_in p.now) in_chunks.now) out.now }
{
    for index in 0..in_chunks.len() {
        if planes.new_in_chunk(p, in_chunks[index], out[index]) != 0 {
            return true;
        }
    }
    false
}

/// Whether a cell of these blocks has both literals with the words.
#[inline]
fn would_clash(p: &Problem, planes: &Planes, in_chunks: &[InChunk], out: &[PinWord]) -> bool
    requires of { IsOf p.now planes.now }
    requires inside { All (IsInside p.now) in_chunks.now }
    requires out { length out.now ≡ length in_chunks.now }
    ensures { IsFalse result → HaveNoClashWith planes.now (map (block_in p.now) in_chunks.now) out.now }
{
    for index in 0..in_chunks.len() {
        let words = planes.word_in_chunk(p, in_chunks[index]).union(out[index]);
        if words.both() != 0 {
            return true;
        }
    }
    false
}

/// Lists what of the words is not known, by the chunk of its block.
#[inline]
fn list_new(
    p: &Problem,
    task: InChunk,
    again: bool,
    planes: &Planes,
    in_chunks: &[InChunk],
    out: &[PinWord],
    changes: &mut [Sequence<Change>],
) -> Result<(), NoMemory>
    requires of { IsOf p.now planes.now }
    requires inside { All (IsInside p.now) in_chunks.now }
    requires out { length out.now ≡ length in_chunks.now }
    requires size { length changes.old ≡ chunks_in p.now }
    ensures { OnOk result (ListsNew p.now planes.now task again (map (block_in p.now) in_chunks.now) out.now changes.old changes.new) }
{
    for index in 0..in_chunks.len() {
        let at = in_chunks[index];
        let words = out[index].without(planes.word_in_chunk(p, at));
        if words.known() != 0 {
            changes[at.chunk as usize].push(Change {
                sig: at.sig,
                words,
                cause: task.sig,
                again: again | (at.chunk != task.chunk),
            })?;
        }
    }
    Ok(())
}
