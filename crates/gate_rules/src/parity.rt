//! What a gate forces whose target has the parity of its pins, or the other bit.
//!
//! The cells that count are the target and those that stand an odd number of times among the pins; the bits of the other pins cancel out.
//! A literal of a cell that counts follows where each other cell that counts has a known literal, and one of them has both or their bits leave this literal alone.
ghost use Rattle.std.specs.Prelude.{ℕ, List, Bool, ◌≡◌, ◌≢◌, ◌<◌, ◌≤◌, ◌||◌, ◌&&◌, ◌∷◌, ◌↔◌, true, false, length, nat_lt, slice_index_or, IsTrue};
ghost use Rattle.sr_model.specs.declared.cells.Cell.{Cell};
ghost use Rattle.sr_model.specs.declared.cells.Lit.{Lit};
ghost use Rattle.sr_model.specs.Netlist.{Instance};
ghost use Rattle.sr_model.specs.Closure.{Forces, passing, lit};
ghost use Rattle.sr_model.specs.XorLike.{is_odd, IsXorLike};
ghost use Rattle.unroll.specs.Bits.{is_set, word_for};
ghost use Rattle.gate_rules.specs.Lanes.{words_at_place, IsLane};
ghost use Rattle.gate_rules.specs.OddPlaces.{has_none, has_both, counts, counted, is_lone, others_known, others_both, others_value, settles, place_bit, parity_bit, IsOddBits};
ghost use mathlib.Core.Bool.{beq};

use unroll::{PinWord, PinWords};

/// The cycles in which no literal is there.
#[tactic(auto, using(crate::proofs::Words::is_set_not))]
fn no_literal(pin: PinWord) -> u64
    ensures { (lane : ℕ) → lane < 64 → is_set result lane ≡ has_none lane pin }
{
    !pin.known()
}

/// Whether the cell at place j counts.
fn place_counts(j: usize, target: usize, odd: &[bool]) -> bool
    requires { j < length odd.now }
    ensures { result ≡ counts target odd.now j }
{
    j == target || odd[j]
}

/// What the cells that count have together, a bit for each cycle.
#[derive(Clone, Copy)]
struct OddBits {
    /// One cell at least has no known literal.
    missing: u64,
    /// Two at least have none.
    missing_twice: u64,
    /// One cell at least has both literals.
    both: u64,
    /// Two at least have both.
    both_twice: u64,
    /// An odd number of cells has the literal 1.
    ones: u64,
    /// No cell but the target counts, in all cycles.
    lone: bool,
}

impl OddBits {
    /// The same with one cell more.
    fn with(self, pin: PinWord, is_target: bool) -> OddBits
        ensures tally { (lane : ℕ) (pins : List PinWord) → lane < 64 → IsOddBits lane pins self → IsOddBits lane (pin ∷ pins) result }
        ensures lone { result.lone ≡ (is_target && self.lone) }
    {
        let none = no_literal(pin);
        let both = pin.both();
        OddBits {
            missing: self.missing | none,
            missing_twice: self.missing_twice | (self.missing & none),
            both: self.both | both,
            both_twice: self.both_twice | (self.both & both),
            ones: self.ones ^ pin.one,
            lone: is_target && self.lone,
        }
    }

    /// The cycles in which each cell but this one, which is counted, has a known literal.
    #[tactic(auto, using(crate::proofs::Words::is_set_and, crate::proofs::Words::is_set_or, crate::proofs::Words::is_set_not, crate::proofs::LaneWords::none_else))]
    fn others_known(self, pin: PinWord) -> u64
        ensures { (lane : ℕ) (pins : List PinWord) → lane < 64 → IsOddBits lane pins self → is_set result lane ≡ others_known lane pins pin }
    {
        !self.missing_twice & (!self.missing | no_literal(pin))
    }

    /// The cycles in which some cell but this one has both literals.
    #[tactic(auto, using(crate::proofs::Words::is_set_and, crate::proofs::Words::is_set_or, crate::proofs::Words::is_set_not, crate::proofs::LaneWords::one_else))]
    fn others_both(self, pin: PinWord) -> u64
        ensures { (lane : ℕ) (pins : List PinWord) → lane < 64 → IsOddBits lane pins self → is_set result lane ≡ others_both lane pins pin }
    {
        let both = pin.both();
        self.both_twice | (self.both & !both)
    }

    /// The bits that the literals 1 of the cells but this one leave it.
    #[tactic(auto, using(crate::proofs::Words::is_set_xor, crate::proofs::LaneWords::not_xor, crate::proofs::LaneWords::plus_comm))]
    fn others_value(self, inverted: bool, pin: PinWord) -> u64
        ensures { (lane : ℕ) (pins : List PinWord) → lane < 64 → IsOddBits lane pins self → is_set result lane ≡ others_value inverted lane pins pin }
    {
        let even = self.ones ^ pin.one;
        if inverted { !even } else { even }
    }

    /// The literals of a cell that counts, where another one does.
    #[tactic(auto, using(crate::proofs::LaneWords::settled_words))]
    fn literals(self, inverted: bool, pin: PinWord) -> PinWord
        ensures { (lane : ℕ) (pins : List PinWord) (bit : Bool) → lane < 64 → IsOddBits lane pins self
            → is_set (word_for bit result) lane ≡ (is_set (word_for bit pin) lane || settles inverted lane pins pin bit) }
    {
        let known = self.others_known(pin);
        let both = self.others_both(pin);
        let value = self.others_value(inverted, pin);
        PinWord {
            zero: pin.zero | (known & (both | !value)),
            one: pin.one | (known & (both | value)),
        }
    }
}

/// What the cells that count have together.
fn odd_bits_of(target: usize, odd: &[bool], view: &[PinWord]) -> OddBits
    requires { length odd.now ≡ length view.now }
    ensures tally { (lane : ℕ) → lane < 64 → IsOddBits lane (counted target odd.now view.now) result }
    ensures lone { result.lone ≡ is_lone target odd.now (length view.now) }
{
    let mut tally = OddBits {
        missing: 0,
        missing_twice: 0,
        both: 0,
        both_twice: 0,
        ones: 0,
        lone: true,
    };
    for j in 0..view.len() {
        if place_counts(j, target, odd) {
            tally = tally.with(view[j], j == target);
        }
    }
    tally
}

/// The literals of the target, where no pin counts: the parity of its pins is 0.
#[tactic(auto, using(crate::proofs::LaneWords::lone_bits))]
fn lone_literals(inverted: bool) -> PinWord
    ensures { (lane : ℕ) (bit : Bool) → lane < 64 → is_set (word_for bit result) lane ≡ beq inverted bit }
{
    PinWord::of(inverted, u64::MAX, 0)
}

/// The literals of one cell; one that doesn't count has what is known of it.
fn literals_at(tally: OddBits, inverted: bool, counts: bool, pin: PinWord) -> PinWord
    ensures { (lane : ℕ) (pins : List PinWord) (bit : Bool) → lane < 64 → IsOddBits lane pins tally
        → is_set (word_for bit result) lane ≡ place_bit inverted lane pins counts tally.lone pin bit }
{
    if !counts {
        pin
    } else if tally.lone {
        lone_literals(inverted)
    } else {
        tally.literals(inverted, pin)
    }
}

/// What a gate forces in 64 cycles whose target has the parity of its pins, or the other bit where it is inverted.
///
/// `target` is the target's place among the words, and `odd` says of each other place whether its signal stands an odd number of times among the pins.
/// The cost is two walks over the words.
pub(crate) fn force_parity(
    inverted: bool,
    target: usize,
    odd: &[bool],
    valid: u64,
    view: &[PinWord],
    out: &mut PinWords,
)
    requires target { target < length view.now }
    requires odd { length odd.now ≡ length view.now }
    requires size { length out.old.items ≡ length view.now }
    ensures size { length out.new.items ≡ length view.now }
    ensures room { out.new.room ≡ out.old.room }
    ensures forced { (lane : ℕ) (i : Instance) (cells : List Cell) (known : Lit → Bool) → lane < 64 → is_set valid lane ≡ true → IsXorLike inverted i
        → IsLane i cells target known lane view.now
        → ((j : ℕ) (d : Cell) → j < length cells → j ≢ target → slice_index_or odd.now j false ≡ is_odd (slice_index_or cells j d) i.pins)
        → (j : ℕ) (d : Cell) (bit : Bool) → j < length cells
        → IsTrue (is_set (word_for bit (words_at_place out.new.items j)) lane) ↔ Forces i (passing known) (lit (slice_index_or cells j d) bit) }
    ensures invalid { (lane j : ℕ) (bit : Bool) → lane < 64 → is_set valid lane ≡ false → is_set (word_for bit (words_at_place out.new.items j)) lane ≡ false }
{
    let tally = odd_bits_of(target, odd, view);
    for j in 0..view.len() {
        let literals = literals_at(tally, inverted, place_counts(j, target, odd), view[j]);
        out.set(j, literals.within(valid));
    }
}
