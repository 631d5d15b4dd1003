//! What a flip-flop forces: its data pin in a cycle and the flip-flop itself one cycle later have the same bit.
ghost use Rattle.std.specs.Prelude.{ℕ, List, Bool, ◌≡◌, ◌+◌, ◌<◌, ◌≤◌, ◌↔◌, ◌&&◌, ◌∷◌, [], true, length, IsTrue};
ghost use Rattle.sr_model.specs.declared.gates.Kind.TheVariants.{Dff};
ghost use Rattle.sr_model.specs.Netlist.{Driven};
ghost use Rattle.netlist.specs.Wiring.{driver_at, is_flip_flop};
ghost use Rattle.unroll.specs.Bits.{is_set, word_for};
ghost use Rattle.unroll.specs.Problem.{IsInside, block_at, block_in};
ghost use Rattle.unroll.specs.Tasks.{task_in, blocks_from};
ghost use Rattle.gate_rules.specs.Forced.{ForcedInCycles, words_of, view_has, bit_at_place, lit_at_place};
ghost use Rattle.gate_rules.specs.FlipFlopBits.{data_pin, is_shared, is_bit_of};

use unroll::{Block, Blocks, InChunk, PinWord, PinWords, Problem};

/// The blocks that have the cells of a flip-flop in a chunk: its data pin's and its own in the chunk, and its own in the next chunk.
///
/// In the last chunk `next` is another signal's block, or none: only the instance of bit 63 has a cell there, and the last chunk has no such instance.
#[derive(Clone, Copy)]
struct CellBlocks {
    pin: Block,
    own: Block,
    next: Block,
}

impl CellBlocks {
    /// Those of a flip-flop in a chunk.
    fn new(p: &Problem, at: InChunk) -> CellBlocks
        requires inside { IsInside p.now at }
        requires flip_flop { is_flip_flop (driver_at p.now.circuit.drivers at.sig.0) ≡ true }
        ensures driver { driver_at p.now.circuit.drivers at.sig.0 ≡ Driven Dff (data_pin (driver_at p.now.circuit.drivers at.sig.0) ∷ []) }
        ensures pin { result.pin ≡ block_at p.now (data_pin (driver_at p.now.circuit.drivers at.sig.0)) at.chunk }
        ensures own { result.own ≡ block_in p.now at }
        ensures next { result.next.0 ≡ result.own.0 + 1 }
    {
        let pin = p.net().pins_of(at.sig)[0];
        let own = p.block(at.sig, at.chunk);
        CellBlocks {
            pin: p.block(pin, at.chunk),
            own,
            next: Block(own.0 + 1),
        }
    }

    /// A bit for each instance, by the cycle of its data pin: the literals that are known of either of its cells, and so forced of both.
    fn shared(self, valid: u64, blocks: &Blocks, view: &PinWords) -> PinWord
        requires { length view.now.items ≡ length blocks.now.items }
        ensures { (i : ℕ) (bit : Bool) → i < 64 → is_set (word_for bit result) i
            ≡ is_shared (word_for bit (words_of blocks.now.items view.now.items self.pin)) (word_for bit (words_of blocks.now.items view.now.items self.own)) (word_for bit (words_of blocks.now.items view.now.items self.next)) valid i }
    {
        let pin = words_beside(blocks, view, self.pin);
        let own = words_beside(blocks, view, self.own);
        let next = words_beside(blocks, view, self.next);
        shared_words(pin, own, next, valid)
    }

    /// The literals that are so forced in a block. One block is both `pin` and `own` where the flip-flop is its own data pin.
    fn words_for(self, block: Block, shared: PinWord) -> PinWord
        ensures { (i : ℕ) (bit : Bool) → i < 64 → is_set (word_for bit result) i ≡ is_bit_of self block (word_for bit shared) i }
    {
        PinWord {
            zero: self.bits_for(block, shared.zero),
            one: self.bits_for(block, shared.one),
        }
    }

    /// The same for one literal. As the flip-flop's own cell, bit 0 of `own` belongs to the chunk before, or is free.
    #[tactic(auto, using(crate::proofs::Words::is_set_or, crate::proofs::FlipFlopWords::later, crate::proofs::FlipFlopWords::carried))]
    fn bits_for(self, block: Block, shared: u64) -> u64
        ensures { (i : ℕ) → i < 64 → is_set result i ≡ is_bit_of self block shared i }
    {
        let pin = only_if(block == self.pin, shared);
        let own = only_if(block == self.own, shared << 1);
        let next = only_if(block == self.next, shared >> 63);
        pin | (own | next)
    }
}

/// These bits where the condition holds, and no bit where it doesn't.
#[tactic(auto, using(crate::proofs::Words::is_set_zero))]
fn only_if(condition: bool, bits: u64) -> u64
    ensures { (i : ℕ) → is_set result i ≡ (condition && is_set bits i) }
{
    if condition { bits } else { 0 }
}

/// The words that stand beside a block, with no bit set where it is not in the list.
fn words_beside(blocks: &Blocks, view: &PinWords, block: Block) -> PinWord
    requires { length view.now.items ≡ length blocks.now.items }
    ensures { result ≡ words_of blocks.now.items view.now.items block }
{
    let words = view.as_slice();
    for (place, other) in blocks.as_slice().iter().enumerate() {
        if *other == block {
            return words[place];
        }
    }
    PinWord::none()
}

/// A bit for each instance, by the cycle of its data pin: the literals that are known of the data pin, or of the flip-flop one cycle later.
#[inline]
pub(crate) fn shared_words(pin: PinWord, own: PinWord, next: PinWord, valid: u64) -> PinWord
    ensures { (i : ℕ) (bit : Bool) → i < 64 → is_set (word_for bit result) i ≡ is_shared (word_for bit pin) (word_for bit own) (word_for bit next) valid i }
{
    PinWord {
        zero: shared_bits(pin.zero, own.zero, next.zero, valid),
        one: shared_bits(pin.one, own.one, next.one, valid),
    }
}

/// The same of one literal.
#[inline]
#[tactic(auto, using(crate::proofs::FlipFlopWords::shared_set))]
fn shared_bits(pin: u64, own: u64, next: u64, valid: u64) -> u64
    ensures { (i : ℕ) → i < 64 → is_set result i ≡ is_shared pin own next valid i }
{
    (pin | ((own >> 1) | (next << 63))) & valid
}

/// What a flip-flop forces in the cycles of a mask of a chunk: the words of each of its blocks are set to the literals that are forced there.
///
/// The instances of the chunk are those whose data pin is in it; the last cycle has none. There is no division.
pub(crate) fn force_flip_flop(
    p: &Problem,
    at: InChunk,
    mask: u64,
    blocks: &Blocks,
    view: &PinWords,
    out: &mut PinWords,
)
    requires inside { IsInside p.now at }
    requires flip_flop { is_flip_flop (driver_at p.now.circuit.drivers at.sig.0) ≡ true }
    requires blocks { blocks.now.items ≡ blocks_from p.now at.sig at.chunk }
    requires view { length view.now.items ≡ length blocks.now.items }
    requires out { length out.old.items ≡ length blocks.now.items }
    ensures size { length out.new.items ≡ length blocks.now.items }
    ensures room { out.new.room ≡ out.old.room }
    ensures forced { (j i : ℕ) (bit : Bool) → j < length blocks.now.items → i < 64
        → IsTrue (bit_at_place out.new.items j bit i) ↔ ForcedInCycles p.now (task_in p.now at) mask (view_has p.now blocks.now.items view.now.items) (lit_at_place p.now blocks.now.items j bit i) }
{
    let cells = CellBlocks::new(p, at);
    let shared = cells.shared(p.valid_next_bits(at.chunk) & mask, blocks, view);
    for (place, block) in blocks.as_slice().iter().enumerate() {
        out.set(place, cells.words_for(*block, shared));
    }
}
