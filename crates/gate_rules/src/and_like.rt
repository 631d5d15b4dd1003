//! What a gate that only asks whether all its pins have one bit forces: AND, NAND, OR, NOR, NOT, BUF and the flip-flop.
ghost use Rattle.std.specs.Prelude.{ℕ, ◌≡◌, ◌<◌, ◌≤◌, ◌↔◌, ◌&&◌, ◌||◌, Bool, true, false, not, IsTrue, List, length, slice_index_or};
ghost use Rattle.sr_model.specs.declared.cells.Cell.{Cell};
ghost use Rattle.sr_model.specs.declared.cells.Lit.{Lit};
ghost use Rattle.sr_model.specs.AndLike.{IsAndLike};
ghost use Rattle.sr_model.specs.Netlist.{Instance};
ghost use Rattle.sr_model.specs.Closure.{Forces, passing, lit};
ghost use Rattle.unroll.specs.Bits.{is_set, word_for};
ghost use Rattle.gate_rules.specs.Lanes.{words_at_place, IsLane};
ghost use Rattle.gate_rules.specs.AndLikeBits.{ArePinWords, WordForced};

use unroll::{PinWord, PinWords};

/// A gate whose target has the bit `target` where each pin has `pins`, and the other bit elsewhere.
#[derive(Clone, Copy)]
pub(crate) struct AndLike {
    pub(crate) pins: bool,
    pub(crate) target: bool,
}

/// What a gate's pins say together in 64 cycles: where one at least lacks the literal `pins`, where two at least do, and where one has the other literal.
#[derive(Clone, Copy)]
struct PinBits {
    lacking: u64,
    lacking_two: u64,
    other: u64,
}

/// What the pins say with one pin more.
#[tactic(auto, using(crate::proofs::Words::is_set_or, crate::proofs::Words::is_set_and, crate::proofs::Words::is_set_not))]
fn with_pin(found: PinBits, pins: bool, word: PinWord) -> PinBits
    ensures lacking { (lane : ℕ) → lane < 64 → is_set result.lacking lane ≡ (is_set found.lacking lane || not (is_set (word_for pins word) lane)) }
    ensures lacking_two { (lane : ℕ) → lane < 64 → is_set result.lacking_two lane ≡ (is_set found.lacking_two lane || (is_set found.lacking lane && not (is_set (word_for pins word) lane))) }
    ensures other { (lane : ℕ) → lane < 64 → is_set result.other lane ≡ (is_set found.other lane || is_set (word_for (not pins) word) lane) }
{
    let lacks = !word.word(pins);
    PinBits {
        lacking: found.lacking | lacks,
        lacking_two: found.lacking_two | (found.lacking & lacks),
        other: found.other | word.word(!pins),
    }
}

/// What the words but the target's say together.
#[tactic(auto, using(crate::proofs::Words::is_set_zero))]
fn read_pins(pins: bool, target: usize, view: &[PinWord]) -> PinBits
    ensures { ArePinWords pins target view.now (length view.now) result.lacking result.lacking_two result.other }
{
    let mut found = PinBits {
        lacking: 0,
        lacking_two: 0,
        other: 0,
    };
    for (place, word) in view.iter().enumerate() {
        if place != target {
            found = with_pin(found, pins, *word);
        }
    }
    found
}

/// What is forced of the target: what is known there, and its one literal where no pin lacks `pins`, the other where a pin has the other.
#[tactic(auto, using(crate::proofs::Words::is_set_or, crate::proofs::Words::is_set_and, crate::proofs::Words::is_set_not))]
fn force_target(gate: AndLike, valid: u64, found: PinBits, word: PinWord) -> PinWord
    ensures own { (lane : ℕ) → lane < 64 → is_set (word_for gate.target result) lane ≡ ((is_set (word_for gate.target word) lane || not (is_set found.lacking lane)) && is_set valid lane) }
    ensures other { (lane : ℕ) → lane < 64 → is_set (word_for (not gate.target) result) lane ≡ ((is_set (word_for (not gate.target) word) lane || is_set found.other lane) && is_set valid lane) }
{
    let own = word.word(gate.target) | !found.lacking;
    let other = word.word(!gate.target) | found.other;
    PinWord::of(gate.target, own & valid, other & valid)
}

/// What is forced of a pin: what is known there, `pins` where the target has its `target`, and the other literal where the target has its other
/// and no other pin lacks `pins`.
#[tactic(auto, using(crate::proofs::Words::is_set_or, crate::proofs::Words::is_set_and, crate::proofs::Words::is_set_not))]
fn force_pin(gate: AndLike, valid: u64, found: PinBits, target: PinWord, word: PinWord) -> PinWord
    ensures own { (lane : ℕ) → lane < 64 → is_set (word_for gate.pins result) lane ≡ ((is_set (word_for gate.pins word) lane || is_set (word_for gate.target target) lane) && is_set valid lane) }
    ensures other { (lane : ℕ) → lane < 64 → is_set (word_for (not gate.pins) result) lane
        ≡ ((is_set (word_for (not gate.pins) word) lane
        || (is_set (word_for (not gate.target) target) lane && (not (is_set found.lacking_two lane) && (not (is_set found.lacking lane) || not (is_set (word_for gate.pins word) lane))))) && is_set valid lane) }
{
    let has = word.word(gate.pins);
    let others_have = !found.lacking_two & (!found.lacking | !has);
    let own = has | target.word(gate.target);
    let other = word.word(!gate.pins) | (target.word(!gate.target) & others_have);
    PinWord::of(gate.pins, own & valid, other & valid)
}

/// What is forced of the cell at a place.
fn force_place(
    gate: AndLike,
    target: usize,
    valid: u64,
    view: &[PinWord],
    found: PinBits,
    place: usize,
) -> PinWord
    requires target { target < length view.now }
    requires found { ArePinWords gate.pins target view.now (length view.now) found.lacking found.lacking_two found.other }
    requires place { place < length view.now }
    ensures forced { WordForced gate.pins gate.target target valid view.now place result }
    ensures invalid { (lane : ℕ) (bit : Bool) → lane < 64 → is_set valid lane ≡ false → is_set (word_for bit result) lane ≡ false }
{
    if place == target {
        force_target(gate, valid, found, view[target])
    } else {
        force_pin(gate, valid, found, view[target], view[place])
    }
}

/// What the gate forces in 64 cycles: the words of each cell are set to the literals that are known of it or that the gate forces, in the cycles of `valid`.
///
/// `target` is the place of the target among the words. Both passes take a few operations of words for each cell.
pub(crate) fn force_and_like(
    gate: AndLike,
    target: usize,
    valid: u64,
    view: &[PinWord],
    out: &mut PinWords,
)
    requires target { target < length view.now }
    requires size { length out.old.items ≡ length view.now }
    ensures size { length out.new.items ≡ length view.now }
    ensures room { out.new.room ≡ out.old.room }
    ensures forced { (lane : ℕ) (i : Instance) (cells : List Cell) (known : Lit → Bool) → lane < 64 → is_set valid lane ≡ true → IsAndLike gate.pins gate.target i → 2 ≤ length cells
        → IsLane i cells target known lane view.now → (j : ℕ) (d : Cell) (bit : Bool) → j < length cells
        → IsTrue (is_set (word_for bit (words_at_place out.new.items j)) lane) ↔ Forces i (passing known) (lit (slice_index_or cells j d) bit) }
    ensures invalid { (lane j : ℕ) (bit : Bool) → lane < 64 → is_set valid lane ≡ false → is_set (word_for bit (words_at_place out.new.items j)) lane ≡ false }
{
    let found = read_pins(gate.pins, target, view);
    for place in 0..view.len() {
        out.set(place, force_place(gate, target, valid, view, found, place));
    }
}
