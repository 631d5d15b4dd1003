//! The kinds of gate and flip-flop, and what a gate gives.
ghost use Rattle.std.specs.Prelude.{◌≡◌, ◌↔◌, IsTrue, length};
ghost use Rattle.sr_model.specs.Gate.{value, all_one, some_one, odd_one, is_flip_flop_kind, family_of, IsPinCount};

use crate::limits::MAX_GATE_PINS;

/// What drives a signal: a gate, or a D flip-flop.
#[derive(Clone, Copy, Debug, PartialEq, Eq)]
pub enum Kind {
    And,
    Nand,
    Or,
    Nor,
    Xor,
    Xnor,
    Not,
    Buf,
    Dff,
}

/// How the target's bit follows from the pins' bits.
#[derive(Clone, Copy, Debug, PartialEq, Eq)]
pub enum Family {
    /// The bit `target` where each pin has the bit `pins`, and the other bit elsewhere.
    AndLike { pins: bool, target: bool },
    /// The parity of the pins, or the other bit where it is inverted.
    Parity { inverted: bool },
}

impl Kind {
    /// Whether it is the flip-flop, whose target has the bit of its pin one cycle later.
    pub fn is_flip_flop(self) -> bool
        ensures { result ≡ is_flip_flop_kind self }
    {
        matches!(self, Kind::Dff)
    }

    /// How the target's bit follows from the pins' bits.
    pub fn family(self) -> Family
        ensures { result ≡ family_of self }
    {
        let (pins, target) = match self {
            Kind::Xor => return Family::Parity { inverted: false },
            Kind::Xnor => return Family::Parity { inverted: true },
            Kind::And | Kind::Buf | Kind::Dff => (true, true),
            Kind::Nand | Kind::Not => (true, false),
            Kind::Or => (false, false),
            Kind::Nor => (false, true),
        };
        Family::AndLike { pins, target }
    }

    /// Whether it may have so many pins.
    pub fn may_have(self, pins: usize) -> bool
        ensures { IsTrue result ↔ IsPinCount self pins }
    {
        match self {
            Kind::And | Kind::Nand | Kind::Or | Kind::Nor | Kind::Xor | Kind::Xnor => {
                1 <= pins && pins <= MAX_GATE_PINS
            }
            Kind::Not | Kind::Buf | Kind::Dff => pins == 1,
        }
    }
}

/// The bit that a gate gives to its target, where its pins have these bits, from left to right. A repeated pin counts each time.
/// A flip-flop gives the bit of its pin, one cycle later.
///
/// It reads each bit once at most, and takes no memory.
pub fn eval(kind: Kind, bits: &[bool]) -> bool
    requires { IsPinCount kind (length bits.now) }
    ensures { result ≡ value kind bits.now }
{
    match kind {
        Kind::And => all_are_one(bits),
        Kind::Nand => !all_are_one(bits),
        Kind::Or => some_is_one(bits),
        Kind::Nor => !some_is_one(bits),
        Kind::Xor => odd_are_one(bits),
        Kind::Xnor => !odd_are_one(bits),
        Kind::Not => !bits[0],
        Kind::Buf | Kind::Dff => bits[0],
    }
}

fn all_are_one(bits: &[bool]) -> bool
    ensures { result ≡ all_one bits.now }
{
    bits.iter().all(|bit| *bit)
}

fn some_is_one(bits: &[bool]) -> bool
    ensures { result ≡ some_one bits.now }
{
    bits.iter().any(|bit| *bit)
}

fn odd_are_one(bits: &[bool]) -> bool
    ensures { result ≡ odd_one bits.now }
{
    bits.iter().filter(|bit| **bit).count() % 2 == 1
}
