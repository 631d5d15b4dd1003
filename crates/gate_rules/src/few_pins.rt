//! What a task with few pins forces, of the words of its target and pins: no lists, and a few operations.
//!
//! Each word operation takes 64 instances at once. A gate with one pin passes each literal on, turned where it inverts; one with two pins asks what two of its cells leave the third.
ghost use Rattle.std.specs.Prelude.{ℕ, ◌≡◌, ◌-◌, ◌<◌, ◌==◌, ◌&&◌, ◌||◌, Bool, nat_lt, not};
ghost use Rattle.sr_model.specs.declared.gates.Family.TheVariants as families;
ghost use Rattle.sr_model.specs.XorLike.{plus};
ghost use Rattle.unroll.specs.Bits.{word_for};
ghost use Rattle.gate_rules.specs.FewPins.{ForceAs, ForceNewAs, OfTwoPins, OfOnePin, OfFlipFlop, OfLastFlipFlop};
ghost use Rattle.gate_rules.specs.FewPinBits.{AreWithout, inverts, literal, sum_has};
ghost use Rattle.gate_rules.specs.Ticks.{ticked};

use crate::and_like::AndLike;
use crate::flip_flops::shared_words;
use crate::tally::Tally;
use sr_model::Family;
use unroll::PinWord;

/// What a gate with one pin, of another signal, forces: of the target and of the pin, known literals among it.
#[inline]
pub fn forced_one_pin(family: Family, known: [PinWord; 2]) -> [PinWord; 2]
    ensures { OfOnePin family (ForceAs known result) }
{
    let inverting = inverts(family);
    let either = known[1].union(turned(known[0], inverting));
    [turned(either, inverting), either]
}

/// Whether such a gate has the other bit than its pin.
#[inline]
fn inverts(family: Family) -> bool
    ensures { result ≡ inverts family }
{
    match family {
        Family::AndLike { pins, target } => pins != target,
        Family::Parity { inverted } => inverted,
    }
}

/// The same of a gate with two pins, of two other signals: of the target, the first pin and the second one.
#[inline]
pub fn forced_two_pins(family: Family, known: [PinWord; 3]) -> [PinWord; 3]
    ensures { OfTwoPins family (ForceAs known result) }
{
    match family {
        Family::AndLike { pins, target } => and_like_pair(AndLike { pins, target }, known),
        Family::Parity { inverted } => parity_pair(inverted, known),
    }
}

/// Of a gate that asks whether both pins have one bit.
#[inline]
fn and_like_pair(gate: AndLike, known: [PinWord; 3]) -> [PinWord; 3]
    ensures { OfTwoPins (families.AndLike gate.pins gate.target) (ForceAs known result) }
{
    [
        pair_target(gate, known[0], known[1], known[2]),
        pair_pin(gate, known[0], known[1], known[2]),
        pair_pin(gate, known[0], known[2], known[1]),
    ]
}

/// Its target: what is known there, its one literal where both pins have `pins`, the other where one has the other.
#[inline]
#[tactic(auto, using(crate::proofs::Words::is_set_or, crate::proofs::Words::is_set_and))]
fn pair_target(gate: AndLike, target: PinWord, first: PinWord, second: PinWord) -> PinWord
    ensures own { (i : ℕ) → literal result i gate.target ≡ (literal target i gate.target || (literal first i gate.pins && literal second i gate.pins)) }
    ensures other { (i : ℕ) → literal result i (not gate.target) ≡ (literal target i (not gate.target) || (literal first i (not gate.pins) || literal second i (not gate.pins))) }
{
    let own = target.word(gate.target) | (first.word(gate.pins) & second.word(gate.pins));
    let other = target.word(!gate.target) | (first.word(!gate.pins) | second.word(!gate.pins));
    PinWord::of(gate.target, own, other)
}

/// A pin: what is known there, `pins` where the target has its `target`, and the other literal where the target has its other and the other pin has `pins`.
#[inline]
#[tactic(auto, using(crate::proofs::Words::is_set_or, crate::proofs::Words::is_set_and))]
fn pair_pin(gate: AndLike, target: PinWord, pin: PinWord, other_pin: PinWord) -> PinWord
    ensures own { (i : ℕ) → literal result i gate.pins ≡ (literal pin i gate.pins || literal target i gate.target) }
    ensures other { (i : ℕ) → literal result i (not gate.pins) ≡ (literal pin i (not gate.pins) || (literal target i (not gate.target) && literal other_pin i gate.pins)) }
{
    let own = pin.word(gate.pins) | target.word(gate.target);
    let other = pin.word(!gate.pins) | (target.word(!gate.target) & other_pin.word(gate.pins));
    PinWord::of(gate.pins, own, other)
}

/// Of a gate whose target has the sum of both pins: with the target turned where it inverts, each of the three has the sum of the other two.
#[inline]
fn parity_pair(inverted: bool, known: [PinWord; 3]) -> [PinWord; 3]
    ensures { OfTwoPins (families.Parity inverted) (ForceAs known result) }
{
    let target = turned(known[0], inverted);
    [
        turned(with_sum(target, known[1], known[2]), inverted),
        with_sum(known[1], target, known[2]),
        with_sum(known[2], target, known[1]),
    ]
}

/// The literals with those of the sum of two others.
#[inline]
#[tactic(auto, using(crate::proofs::FewPinWords::with_sum_bits))]
fn with_sum(words: PinWord, a: PinWord, b: PinWord) -> PinWord
    ensures { (i : ℕ) (bit : Bool) → literal result i bit ≡ (literal words i bit || sum_has (literal a i) (literal b i) bit) }
{
    PinWord {
        zero: words.zero | ((a.zero & b.zero) | (a.one & b.one)),
        one: words.one | ((a.zero & b.one) | (a.one & b.zero)),
    }
}

/// The words, each in the other's place if they turn.
#[inline]
#[tactic(auto, using(crate::proofs::FewPinWords::turned_words))]
fn turned(words: PinWord, turn: bool) -> PinWord
    ensures { (bit : Bool) → word_for bit result ≡ word_for (plus turn bit) words }
{
    PinWord::of(turn, words.zero, words.one)
}

/// The same of a flip-flop whose pin is of another signal, over two chunks: of its own words in the task's chunk, the pin's, and its own in the next chunk. Bit i of
/// `valid` is set where the task's cycle i has a next one (`Problem::valid_next_bits`).
#[inline]
pub fn forced_flip_flop(valid: u64, known: [PinWord; 3]) -> [PinWord; 3]
    ensures { OfFlipFlop valid (ForceAs known result) }
{
    let shared = shared_words(known[1], known[0], known[2], valid);
    [later(shared), shared, carried(shared)]
}

/// The same in the last chunk: of its own words and of the pin's.
#[inline]
pub fn forced_last_flip_flop(valid: u64, known: [PinWord; 2]) -> [PinWord; 2]
    ensures { OfLastFlipFlop valid (ForceAs known result) }
{
    let shared = shared_words(known[1], known[0], PinWord::none(), valid);
    [later(shared), shared]
}

/// One cycle later in the chunk.
#[inline]
#[tactic(auto, using(crate::proofs::FewPinWords::later_bits))]
fn later(shared: PinWord) -> PinWord
    ensures { (i : ℕ) (bit : Bool) → i < 64 → literal result i bit ≡ (nat_lt 0 i && literal shared (i - 1) bit) }
{
    PinWord {
        zero: shared.zero << 1,
        one: shared.one << 1,
    }
}

/// In the next chunk, whose first cycle is the one after the last of the chunk.
#[inline]
#[tactic(auto, using(crate::proofs::FewPinWords::carried_bits))]
fn carried(shared: PinWord) -> PinWord
    ensures { (i : ℕ) (bit : Bool) → i < 64 → literal result i bit ≡ ((i == 0) && literal shared 63 bit) }
{
    PinWord {
        zero: shared.zero >> 63,
        one: shared.one >> 63,
    }
}

/// What of all that `forced_one_pin` gives is not known yet. The tally counts one application; so do the ones below.
#[inline]
pub fn apply_one_pin<T: Tally>(family: Family, known: [PinWord; 2], tally: &mut T) -> [PinWord; 2]
    ensures new { OfOnePin family (ForceNewAs known result) }
    ensures tally { T.number tally.new ≡ ticked (T.number tally.old) }
{
    tally.tick();
    new_of_two(forced_one_pin(family, known), known)
}

/// The same of `forced_two_pins`.
#[inline]
pub fn apply_two_pins<T: Tally>(family: Family, known: [PinWord; 3], tally: &mut T) -> [PinWord; 3]
    ensures new { OfTwoPins family (ForceNewAs known result) }
    ensures tally { T.number tally.new ≡ ticked (T.number tally.old) }
{
    tally.tick();
    new_of_three(forced_two_pins(family, known), known)
}

/// The same of `forced_flip_flop`.
#[inline]
pub fn apply_flip_flop<T: Tally>(valid: u64, known: [PinWord; 3], tally: &mut T) -> [PinWord; 3]
    ensures new { OfFlipFlop valid (ForceNewAs known result) }
    ensures tally { T.number tally.new ≡ ticked (T.number tally.old) }
{
    tally.tick();
    new_of_three(forced_flip_flop(valid, known), known)
}

/// The same of `forced_last_flip_flop`.
#[inline]
pub fn apply_last_flip_flop<T: Tally>(
    valid: u64,
    known: [PinWord; 2],
    tally: &mut T,
) -> [PinWord; 2]
    ensures new { OfLastFlipFlop valid (ForceNewAs known result) }
    ensures tally { T.number tally.new ≡ ticked (T.number tally.old) }
{
    tally.tick();
    new_of_two(forced_last_flip_flop(valid, known), known)
}

/// What of the words is not known.
#[inline]
fn new_of_two(words: [PinWord; 2], known: [PinWord; 2]) -> [PinWord; 2]
    ensures { AreWithout known words result }
{
    [words[0].without(known[0]), words[1].without(known[1])]
}

/// The same of three.
#[inline]
fn new_of_three(words: [PinWord; 3], known: [PinWord; 3]) -> [PinWord; 3]
    ensures { AreWithout known words result }
{
    [
        words[0].without(known[0]),
        words[1].without(known[1]),
        words[2].without(known[2]),
    ]
}
