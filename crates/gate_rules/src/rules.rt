//! What a task forces, and what of it is new.
ghost use Rattle.std.specs.Prelude.{ℕ, ◌≡◌, ◌<◌, ◌&&◌, Bool, not, length};
ghost use Rattle.unroll.specs.Problem.{HaveNoLaterBit};
ghost use Rattle.unroll.specs.Tasks.{IsTask, IsTaskAt, task_in, blocks_of, blocks_from};
ghost use Rattle.gate_rules.specs.Forced.{IsForcedExactly, IsForcedExactlyIn, IsNewExactly, bit_at_place};
ghost use Rattle.gate_rules.specs.Ticks.{ticked};

use crate::flip_flops::force_flip_flop;
use crate::gates::force_gate;
use crate::tally::Tally;
use unroll::{Block, Blocks, InChunk, PinWords, Problem, Task};

/// What a task forces from the literals that its blocks' words have, known literals among it: a bit of `out` is set exactly where its literal is forced at an
/// instance of the task. `blocks` are the task's, and `view` and `out` have the words of each.
///
/// It takes a few operations of words for each block, and no memory. A known literal is forced wherever some row has it: not the literal that a constant gate
/// excludes, and not a cell of the blocks that belongs to no instance of the task.
pub fn forced(p: &Problem, t: Task, blocks: &Blocks, view: &PinWords, out: &mut PinWords)
    requires task { IsTask p.now t }
    requires blocks { blocks.now.items ≡ blocks_of p.now t }
    requires view { length view.now.items ≡ length blocks.now.items }
    requires out { length out.old.items ≡ length blocks.now.items }
    ensures size { length out.new.items ≡ length blocks.now.items }
    ensures room { out.new.room ≡ out.old.room }
    ensures forced { IsForcedExactly p.now t blocks.now.items view.now.items out.new.items }
    ensures later { HaveNoLaterBit p.now blocks.now.items out.new.items }
{
    forced_in_chunk(p, p.in_chunk(Block(t.0)), blocks, view, out)
}

/// The same by signal and chunk; there is no division.
pub fn forced_in_chunk(
    p: &Problem,
    at: InChunk,
    blocks: &Blocks,
    view: &PinWords,
    out: &mut PinWords,
)
    requires task { IsTaskAt p.now at }
    requires blocks { blocks.now.items ≡ blocks_from p.now at.sig at.chunk }
    requires view { length view.now.items ≡ length blocks.now.items }
    requires out { length out.old.items ≡ length blocks.now.items }
    ensures size { length out.new.items ≡ length blocks.now.items }
    ensures room { out.new.room ≡ out.old.room }
    ensures forced { IsForcedExactly p.now (task_in p.now at) blocks.now.items view.now.items out.new.items }
    ensures later { HaveNoLaterBit p.now blocks.now.items out.new.items }
{
    forced_in_cycles_in_chunk(p, at, u64::MAX, blocks, view, out)
}

/// What a task forces at its instances in the cycles of a mask: as `forced`, of these instances alone. Bit i of the mask is that of cycle `64 * chunk + i` of the
/// task's chunk, and an instance is in the cycle of its place, which is its pins'.
///
/// So the mask `1 << (cycle % 64)` asks for the instance at one place. Bits of cycles without an instance ask for nothing. It costs what `forced` costs.
pub fn forced_in_cycles(
    p: &Problem,
    t: Task,
    mask: u64,
    blocks: &Blocks,
    view: &PinWords,
    out: &mut PinWords,
)
    requires task { IsTask p.now t }
    requires blocks { blocks.now.items ≡ blocks_of p.now t }
    requires view { length view.now.items ≡ length blocks.now.items }
    requires out { length out.old.items ≡ length blocks.now.items }
    ensures size { length out.new.items ≡ length blocks.now.items }
    ensures room { out.new.room ≡ out.old.room }
    ensures forced { IsForcedExactlyIn p.now t mask blocks.now.items view.now.items out.new.items }
    ensures later { HaveNoLaterBit p.now blocks.now.items out.new.items }
{
    forced_in_cycles_in_chunk(p, p.in_chunk(Block(t.0)), mask, blocks, view, out)
}

/// The same by signal and chunk; there is no division.
pub fn forced_in_cycles_in_chunk(
    p: &Problem,
    at: InChunk,
    mask: u64,
    blocks: &Blocks,
    view: &PinWords,
    out: &mut PinWords,
)
    requires task { IsTaskAt p.now at }
    requires blocks { blocks.now.items ≡ blocks_from p.now at.sig at.chunk }
    requires view { length view.now.items ≡ length blocks.now.items }
    requires out { length out.old.items ≡ length blocks.now.items }
    ensures size { length out.new.items ≡ length blocks.now.items }
    ensures room { out.new.room ≡ out.old.room }
    ensures forced { IsForcedExactlyIn p.now (task_in p.now at) mask blocks.now.items view.now.items out.new.items }
    ensures later { HaveNoLaterBit p.now blocks.now.items out.new.items }
{
    if p.is_flip_flop(at.sig) {
        force_flip_flop(p, at, mask, blocks, view, out)
    } else {
        force_gate(p, at, mask, blocks, view, out)
    }
}

/// What a task forces that is not known yet: a bit of `out` is set exactly where its literal is forced at an instance of the task and is not in `view`.
/// The tally counts one application.
pub fn apply<T: Tally>(
    p: &Problem,
    t: Task,
    blocks: &Blocks,
    view: &PinWords,
    out: &mut PinWords,
    tally: &mut T,
)
    requires task { IsTask p.now t }
    requires blocks { blocks.now.items ≡ blocks_of p.now t }
    requires view { length view.now.items ≡ length blocks.now.items }
    requires out { length out.old.items ≡ length blocks.now.items }
    ensures size { length out.new.items ≡ length blocks.now.items }
    ensures room { out.new.room ≡ out.old.room }
    ensures new { IsNewExactly p.now t blocks.now.items view.now.items out.new.items }
    ensures later { HaveNoLaterBit p.now blocks.now.items out.new.items }
    ensures tally { T.number tally.new ≡ ticked (T.number tally.old) }
{
    apply_in_chunk(p, p.in_chunk(Block(t.0)), blocks, view, out, tally)
}

/// The same by signal and chunk; there is no division.
pub fn apply_in_chunk<T: Tally>(
    p: &Problem,
    at: InChunk,
    blocks: &Blocks,
    view: &PinWords,
    out: &mut PinWords,
    tally: &mut T,
)
    requires task { IsTaskAt p.now at }
    requires blocks { blocks.now.items ≡ blocks_from p.now at.sig at.chunk }
    requires view { length view.now.items ≡ length blocks.now.items }
    requires out { length out.old.items ≡ length blocks.now.items }
    ensures size { length out.new.items ≡ length blocks.now.items }
    ensures room { out.new.room ≡ out.old.room }
    ensures new { IsNewExactly p.now (task_in p.now at) blocks.now.items view.now.items out.new.items }
    ensures later { HaveNoLaterBit p.now blocks.now.items out.new.items }
    ensures tally { T.number tally.new ≡ ticked (T.number tally.old) }
{
    tally.tick();
    forced_in_chunk(p, at, blocks, view, out);
    take_out(view, out);
}

/// Takes the literals of one list of words out of the other.
fn take_out(view: &PinWords, out: &mut PinWords)
    requires { length view.now.items ≡ length out.old.items }
    ensures size { length out.new.items ≡ length out.old.items }
    ensures room { out.new.room ≡ out.old.room }
    ensures taken { (j i : ℕ) (bit : Bool) → j < length view.now.items → i < 64
        → bit_at_place out.new.items j bit i ≡ (bit_at_place out.old.items j bit i && not (bit_at_place view.now.items j bit i)) }
{
    for j in 0..view.len() {
        let words = out.as_slice()[j].without(view.as_slice()[j]);
        out.set(j, words);
    }
}
