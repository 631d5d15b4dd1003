//! The words of blocks, and lists of blocks, tasks and words.
ghost use Rattle.std.specs.Prelude.{ℕ, ◌≡◌, ◌<◌, ◌&&◌, ◌||◌, Bool, false, true, not};
ghost use Rattle.unroll.specs.Bits.{is_set, word_for, no_words, union_of};

use crate::bits::is_set;
use crate::problem::{Block, Task};
use sr_model::Sequence;

/// The two words of a block: bit i of `zero` says that the literal 0 of the cell in cycle `64 * chunk + i` is there, and bit i of `one` that its literal 1 is.
#[derive(Clone, Copy, Debug, PartialEq, Eq)]
pub struct PinWord {
    pub zero: u64,
    pub one: u64,
}

impl PinWord {
    /// No literal.
    #[inline]
    #[tactic(auto, using(crate::proofs::PinWords::none_bits))]
    pub fn none() -> PinWord
        ensures words { result ≡ no_words }
        ensures bits { (bit : Bool) (i : ℕ) → is_set (word_for bit result) i ≡ false }
    {
        PinWord { zero: 0, one: 0 }
    }

    /// The words whose literals of one bit are these, and whose literals of the other bit are those.
    #[inline]
    pub fn of(bit: bool, own: u64, other: u64) -> PinWord
        ensures own { word_for bit result ≡ own }
        ensures other { word_for (not bit) result ≡ other }
    {
        if bit {
            PinWord {
                zero: other,
                one: own,
            }
        } else {
            PinWord {
                zero: own,
                one: other,
            }
        }
    }

    /// The literals of a bit.
    #[inline]
    pub fn word(self, bit: bool) -> u64
        ensures { result ≡ word_for bit self }
    {
        if bit { self.one } else { self.zero }
    }

    /// Whether a literal is there.
    #[inline]
    pub fn has(self, bit: bool, i: u32) -> bool
        requires { i < 64 }
        ensures { result ≡ is_set (word_for bit self) i }
    {
        is_set(self.word(bit), i)
    }

    /// The literals of either.
    #[inline]
    #[tactic(auto, using(crate::proofs::PinWords::union_bits))]
    pub fn union(self, other: PinWord) -> PinWord
        ensures words { result ≡ union_of self other }
        ensures bits { (bit : Bool) (i : ℕ) → is_set (word_for bit result) i ≡ (is_set (word_for bit self) i || is_set (word_for bit other) i) }
    {
        PinWord {
            zero: self.zero | other.zero,
            one: self.one | other.one,
        }
    }

    /// The literals that the other one does not have.
    #[inline]
    #[tactic(auto, using(crate::proofs::PinWords::without_bits))]
    pub fn without(self, other: PinWord) -> PinWord
        ensures { (bit : Bool) (i : ℕ) → i < 64 → is_set (word_for bit result) i ≡ (is_set (word_for bit self) i && not (is_set (word_for bit other) i)) }
    {
        PinWord {
            zero: self.zero & !other.zero,
            one: self.one & !other.one,
        }
    }

    /// The literals in the cycles of a mask.
    #[inline]
    #[tactic(auto, using(crate::proofs::PinWords::within_bits))]
    pub fn within(self, mask: u64) -> PinWord
        ensures { (bit : Bool) (i : ℕ) → is_set (word_for bit result) i ≡ (is_set (word_for bit self) i && is_set mask i) }
    {
        PinWord {
            zero: self.zero & mask,
            one: self.one & mask,
        }
    }

    /// The cycles in which both literals are there.
    #[inline]
    #[tactic(auto, using(crate::proofs::WordBits::is_set_and))]
    pub fn both(self) -> u64
        ensures { (i : ℕ) → is_set result i ≡ (is_set self.zero i && is_set self.one i) }
    {
        self.zero & self.one
    }

    /// The cycles in which a literal is there.
    #[inline]
    #[tactic(auto, using(crate::proofs::WordBits::is_set_or))]
    pub fn known(self) -> u64
        ensures { (i : ℕ) → is_set result i ≡ (is_set self.zero i || is_set self.one i) }
    {
        self.zero | self.one
    }
}

/// A list of blocks.
pub type Blocks = Sequence<Block>;

/// A list of tasks.
pub type Tasks = Sequence<Task>;

/// A list of the words of blocks.
pub type PinWords = Sequence<PinWord>;
