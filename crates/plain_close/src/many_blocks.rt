//! What a task with any number of blocks forces from planes.
ghost use Rattle.std.specs.Prelude.{◌≡◌, ◌<◌, ◌≤◌, ◌++◌, ◌∷◌, [], IfOk, OnOk, List};
ghost use Rattle.sr_model.specs.Limits.{max_gate_signals};
ghost use Rattle.unroll.specs.declared.problem.Block.{Block as AnyBlock};
ghost use Rattle.unroll.specs.Problem.{IsInside, IsProblem, signals_in, block_in};
ghost use Rattle.unroll.specs.Tasks.{IsTaskAt, blocks_from, blocks_for};
ghost use Rattle.known_planes.specs.Planes.{IsOf};
ghost use Rattle.plain_close.specs.Turns.{Sees, AreForced};

use gate_rules::forced_in_chunk;
use known_planes::Planes;
use sr_model::{MAX_GATE_SIGNALS, NoMemory, Sequence, Sig};
use std::alloc::Global;
use unroll::{Blocks, InChunk, PinWord, PinWords, Problem};

/// Room for the blocks of any task: their signals and chunks, their words, and what is forced there.
#[derive(Drop)]
pub(crate) struct Buffers {
    blocks: Blocks,
    pub(crate) in_chunks: Sequence<InChunk>,
    view: PinWords,
    pub(crate) out: PinWords,
}

impl Buffers {
    /// Room for the blocks that a task has at most.
    pub(crate) fn new(alloc: Global) -> Result<Buffers, NoMemory>
        ensures { IfOk result (λ buffers. max_gate_signals ≤ buffers.blocks.room) }
    {
        Ok(Buffers {
            blocks: Blocks::with_room(alloc, MAX_GATE_SIGNALS)?,
            in_chunks: Sequence::with_room(alloc, MAX_GATE_SIGNALS)?,
            view: PinWords::with_room(alloc, MAX_GATE_SIGNALS)?,
            out: PinWords::with_room(alloc, MAX_GATE_SIGNALS)?,
        })
    }
}

/// Puts the blocks of a task, and what it forces there from their words, into the buffers.
pub(crate) fn force(
    p: &Problem,
    task: InChunk,
    planes: &Planes,
    buffers: &mut Buffers,
) -> Result<(), NoMemory>
    requires of { IsOf p.now planes.now }
    requires task { IsTaskAt p.now task }
    requires room { max_gate_signals ≤ buffers.old.blocks.room }
    ensures room { buffers.old.blocks.room ≤ buffers.new.blocks.room }
    ensures forced { OnOk result (AreForced p.now planes.now task buffers.new.in_chunks.items buffers.new.out.items) }
{
    see(p, task, planes, buffers)?;
    forced_in_chunk(p, task, &buffers.blocks, &buffers.view, &mut buffers.out);
    Ok(())
}

/// Puts the blocks of a task, and their words, into the buffers.
fn see(p: &Problem, task: InChunk, planes: &Planes, buffers: &mut Buffers) -> Result<(), NoMemory>
    requires of { IsOf p.now planes.now }
    requires inside { IsInside p.now task }
    requires room { max_gate_signals ≤ buffers.old.blocks.room }
    ensures room { buffers.old.blocks.room ≤ buffers.new.blocks.room }
    ensures problem { OnOk result (IsProblem p.now) }
    ensures blocks { OnOk result (buffers.new.blocks.items ≡ blocks_from p.now task.sig task.chunk) }
    ensures sees { OnOk result (Sees p.now planes.now (blocks_from p.now task.sig task.chunk) buffers.new.in_chunks.items buffers.new.view.items buffers.new.out.items) }
{
    p.blocks_in_chunk(task, &mut buffers.blocks);
    buffers.in_chunks.clear();
    buffers.view.clear();
    buffers.out.clear();
    for sig in p.net().signals_of(task.sig) {
        see_signal(p, task, *sig, planes, buffers)?;
    }
    Ok(())
}

/// Adds the blocks of one of the task's signals.
#[inline]
fn see_signal(
    p: &Problem,
    task: InChunk,
    sig: Sig,
    planes: &Planes,
    buffers: &mut Buffers,
) -> Result<(), NoMemory>
    requires of { IsOf p.now planes.now }
    requires inside { IsInside p.now task }
    requires signal { sig.0 < signals_in p.now }
    ensures blocks { buffers.new.blocks ≡ buffers.old.blocks }
    ensures sees { OnOk result ((blocks : List AnyBlock) → Sees p.now planes.now blocks buffers.old.in_chunks.items buffers.old.view.items buffers.old.out.items
        → Sees p.now planes.now (blocks ++ blocks_for p.now task.sig task.chunk sig) buffers.new.in_chunks.items buffers.new.view.items buffers.new.out.items) }
{
    let chunk = task.chunk;
    see_block(p, InChunk { sig, chunk }, planes, buffers)?;
    if sig == task.sig && p.goes_on(task) {
        let chunk = chunk + 1;
        see_block(p, InChunk { sig, chunk }, planes, buffers)?;
    }
    Ok(())
}

/// Adds a block and its words.
#[inline]
fn see_block(
    p: &Problem,
    at: InChunk,
    planes: &Planes,
    buffers: &mut Buffers,
) -> Result<(), NoMemory>
    requires of { IsOf p.now planes.now }
    requires inside { IsInside p.now at }
    ensures blocks { buffers.new.blocks ≡ buffers.old.blocks }
    ensures sees { OnOk result ((blocks : List AnyBlock) → Sees p.now planes.now blocks buffers.old.in_chunks.items buffers.old.view.items buffers.old.out.items
        → Sees p.now planes.now (blocks ++ block_in p.now at ∷ []) buffers.new.in_chunks.items buffers.new.view.items buffers.new.out.items) }
{
    buffers.in_chunks.push(at)?;
    buffers.view.push(planes.word_in_chunk(p, at))?;
    buffers.out.push(PinWord::none())
}
