//! What always holds of the shared word and of what the sides know.

use atomic_table::{Join, Play, Split, TableRule};
use std::marker::Brand;

/// How many numbers are dealt, and to how many sides.
#[derive(Drop)]
pub struct DealSize {
    pub chunks: u32,
    pub sides: u32,
}

/// What a seat knows. It is for the proof alone: no value of it is made.
pub struct Drawn {
    /// How many sides it stands for.
    pub sides: u64,
    /// How many draws of these found the queue empty and raised the word.
    pub done: u64,
    /// The numbers that these drew, in order.
    pub numbers: [u64; 0],
}

/// Each number below the word is drawn, once.
pub struct EachOnce;

impl TableRule<(), Drawn, DealSize> for EachOnce {
    ghost use Rattle.steal_queue.specs.Rule.{IsDealt, all_sides};

    ghost holds = { IsDealt };

    ghost first = { all_sides };
}

/// Each step picks what it tells.
impl Play<(), Drawn> for Brand {
    ghost then = { λ _ _ _ _. Unit {0} };
}

/// A side that has drawn nothing gets a seat of its own.
pub(crate) struct OneSide;

impl Split<Drawn> for OneSide {
    ghost use Rattle.steal_queue.specs.Rule.{one_less, nothing_drawn};

    ghost left = { one_less };

    ghost right = { λ _. nothing_drawn 1 };
}

/// A new seat takes over all that a seat stands for.
pub(crate) struct Everything;

impl Split<Drawn> for Everything {
    ghost use Rattle.steal_queue.specs.Rule.{nothing_drawn};

    ghost left = { λ _. nothing_drawn 0 };

    ghost right = { λ v. v };
}

/// A seat takes over all that another stands for.
pub(crate) struct Both;

impl Join<Drawn> for Both {
    ghost use Rattle.steal_queue.specs.Rule.{together, nothing_drawn};

    ghost both = { together };

    ghost spent = { nothing_drawn 0 };
}
