//! Counts of rule applications.
ghost use Rattle.std.specs.Prelude.{◌≡◌, ◌≤◌, ℕ};
ghost use Rattle.gate_rules.specs.Ticks.{greatest_number, ticked};

use std::marker::Model;

/// Counts rule applications. Its count stands still at the greatest u64.
pub trait Tally {
    ghost use Rattle.std.specs.Prelude.{ℕ, ◌≤◌};
    ghost use Rattle.gate_rules.specs.Ticks.{greatest_number};

    /// How many were counted.
    ghost number: { Self → ℕ };

    /// Counts one more.
    fn tick(&mut self)
        ensures { number self.new ≡ ticked (number self.old) };

    /// The number is at most the greatest u64.
    ghost few: { (tally : Self) → number tally ≤ greatest_number };
}

/// A count that begins at 0.
#[derive(Debug, Drop)]
pub struct Count {
    number: u64,
    ghost few: { number ≤ greatest_number },
}

impl Model for Count {
    ghost use Rattle.gate_rules.specs.Ticks.{Counted};

    ghost Value = { Counted };

    ghost view = { λ c. record { number = c.number; few = c.few } };
}

impl Count {
    /// Nothing was counted yet.
    pub fn new() -> Count
        ensures { result.number ≡ 0 }
    {
        Count { number: 0 }
    }

    /// How many were counted.
    pub fn number(&self) -> u64
        ensures { result ≡ self.now.number }
    {
        self.number
    }
}

impl Tally for Count {
    ghost use Rattle.std.specs.Prelude.{ℕ};

    ghost number = { λ c. c.number };

    ghost few = { λ c. c.few };

    fn tick(&mut self) {
        self.number = self.number.saturating_add(1);
    }
}
