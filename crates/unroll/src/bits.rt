//! Bits of words.
ghost use Rattle.std.specs.Prelude.{ℕ, ◌≡◌, ◌<◌, nat_lt};
ghost use Rattle.unroll.specs.Bits.{is_set};

/// The word whose lowest `count` bits are set; from 64 on all are.
pub(crate) fn low_bits(count: u32) -> u64
    ensures { (i : ℕ) → i < 64 → is_set result i ≡ nat_lt i count }
{
    if count < 64 {
        (1 << count) - 1
    } else {
        u64::MAX
    }
}

/// Whether bit i of the word is set.
#[inline]
#[tactic(auto, using(crate::proofs::WordBits::tested))]
pub fn is_set(word: u64, i: u32) -> bool
    requires { i < 64 }
    ensures { result ≡ is_set word i }
{
    (word >> i) & 1 == 1
}
