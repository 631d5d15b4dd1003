//! How many values are known for each one that was traced.
ghost use Rattle.std.specs.Prelude.{◌≡◌, ◌≤◌};
ghost use Rattle.ratio.specs.Ratio.{in_thousandths};

use std::marker::Model;

/// Two counts of flip-flop cells, each at most 65,536 signals times 8,192 cycles: how many values are known, and how many of them were traced.
///
/// It is the state restoration ratio of Ko and Nicolici, counted over flip-flops alone.
#[derive(Clone, Copy, Debug, PartialEq, Eq)]
pub struct Ratio {
    known: u64,
    traced: u64,
}

impl Model for Ratio {
    ghost use Rattle.std.specs.Prelude.{◌≤◌};
    ghost use Rattle.ratio.specs.Ratio.{Counts};

    ghost Value = { Counts };

    ghost view = { λ r. record { known = r.known; traced = r.traced } };

    ghost inverse = { λ c. record { known = c.known; traced = c.traced } };

    ghost invariant = { λ r. (r.known ≤ 536870912) × (r.traced ≤ 536870912) };
}

impl Ratio {
    pub fn new(known: u64, traced: u64) -> Ratio
        requires known { known ≤ 536870912 }
        requires traced { traced ≤ 536870912 }
        ensures known { result.known ≡ known }
        ensures traced { result.traced ≡ traced }
    {
        Ratio { known, traced }
    }

    /// How many values are known.
    pub fn known(&self) -> u64
        ensures value { result ≡ self.now.known }
        ensures few { result ≤ 536870912 }
    {
        self.known
    }

    /// How many values were traced.
    pub fn traced(&self) -> u64
        ensures value { result ≡ self.now.traced }
        ensures few { result ≤ 536870912 }
    {
        self.traced
    }

    /// A thousand times the known over the traced, rounded down; none where nothing was traced.
    pub fn thousandths(&self) -> Option<u64>
        ensures value { result ≡ in_thousandths self.now.known self.now.traced }
    {
        (self.known * 1000).checked_div(self.traced)
    }
}
