//! Inputs that are read by name, one at a time.
ghost use Rattle.std.specs.Prelude.{◌≡◌, ◌<◌, ◌≤◌, ℕ, Bool, false, IsTrue, List, length, take, IfOk, OnOk, OnErr, Option, Some, IfSome, IsSome};
ghost use Rattle.std.specs.Io.KnownBytes.{Consumes, IsAtEnd};
ghost use Rattle.sr_outside.specs.Counts.{count_after, IsCounted};
ghost use Rattle.sr_outside.specs.Told.{Held, held_name, MayFail, IsLastShaky};

/// A call on the outside failed.
#[derive(Clone, Copy, Debug, PartialEq, Eq)]
pub struct Failed;

/// Inputs that are read by name, one at a time. No call changes what is held or what is shaky.
pub trait Inputs {
    /// The bytes of each name, none for a name that is not held.
    ghost held: { Self → Option Held };

    /// Whether an input is started and none of its reads has failed. It is always told.
    ghost live: { Self → Bool };

    /// The bytes of the started input that were not read. Told where `held` is and an input is live.
    ghost left: { Self → Option (List ℕ) };

    /// The names of which some call is to fail. Told where `held` is.
    ghost shaky: { Self → Option (List ℕ → Bool) };

    /// The name of the last start, or none where that name is not held. Told where `held` is.
    ghost last: { Self → Option (Option (List ℕ)) };

    /// The number of starts made, failed ones too. It stands still at the greatest u64.
    ghost starts: { Self → ℕ };

    /// The number of bytes that reads have given since the last start. It stands still at the greatest u64.
    ghost taken: { Self → ℕ };

    /// The number of calls that failed, or more. It never falls.
    ghost faults: { Self → ℕ };

    /// Starts the input of this name, from its first byte, and gives up the one that was started before.
    /// A name that is not held is a fault.
    fn start(&mut self, name: &str) -> Result<(), Failed>
        ensures live_ok { OnOk result (IsTrue (live self.new)) }
        ensures live_err { OnErr result (live self.new ≡ false) }
        ensures held_ok { OnOk result (IfSome (held self.old) (λ bytes_of.
            IsSome (bytes_of name.now))) }
        ensures left { OnOk result (IfSome (held self.old) (λ bytes_of.
            left self.new ≡ bytes_of name.now)) }

        // One start is counted, whatever the answer.
        ensures starts { starts self.new ≡ count_after (starts self.old) 1 }
        ensures taken { taken self.new ≡ 0 }
        ensures last { IfSome (held self.old) (λ bytes_of.
            last self.new ≡ Some (held_name bytes_of name.now)) }

        // It fails only where a fault is counted, and where told only on a name that is not held or is shaky.
        ensures counted { OnErr result (IsCounted (faults self.old) (faults self.new)) }
        ensures cause { OnErr result (MayFail (held self.old) (shaky self.old) name.now) }
        ensures uncounted { OnOk result (faults self.new ≡ faults self.old) }
        ensures never_falls { faults self.old ≤ faults self.new }

        ensures held { held self.new ≡ held self.old }
        ensures shaky { shaky self.new ≡ shaky self.old };

    /// Reads some of the bytes that are left into the front of a buffer, and answers how many. None for a buffer
    /// that is not empty is the end.
    fn read(&mut self, into: &mut [u8]) -> Result<usize, Failed>
        requires { IsTrue (live self.old) }

        ensures live_ok { OnOk result (IsTrue (live self.new)) }
        ensures live_err { OnErr result (live self.new ≡ false) }
        ensures bound { IfOk result (λ count. count ≤ length into.new) }
        ensures left { IfOk result (λ count.
            Consumes (left self.old) (left self.new) (take count into.new)) }
        ensures end { IfOk result (λ count.
            count ≡ 0 → 0 < length into.new → IsAtEnd (left self.new)) }

        ensures taken_ok { IfOk result (λ count.
            taken self.new ≡ count_after (taken self.old) count) }
        ensures taken_err { OnErr result (taken self.new ≡ taken self.old) }
        ensures starts { starts self.new ≡ starts self.old }
        ensures last { last self.new ≡ last self.old }

        // It fails only where a fault is counted, and where told only where the started name is shaky.
        ensures counted { OnErr result (IsCounted (faults self.old) (faults self.new)) }
        ensures cause { OnErr result
            (IsLastShaky (held self.old) (shaky self.old) (last self.old)) }
        ensures uncounted { OnOk result (faults self.new ≡ faults self.old) }
        ensures never_falls { faults self.old ≤ faults self.new }

        ensures held { held self.new ≡ held self.old }
        ensures shaky { shaky self.new ≡ shaky self.old };

    /// Where it is told what is held, it is told what is shaky.
    ghost tells_shaky: { (inputs : Self) → IsSome (held inputs) → IsSome (shaky inputs) };

    /// Where it is told what is held, it is told what was started last.
    ghost tells_last: { (inputs : Self) → IsSome (held inputs) → IsSome (last inputs) };

    /// Where it is told what is held, it is told what is left of a live input.
    ghost tells_left: { (inputs : Self)
        → IsSome (held inputs) → IsTrue (live inputs) → IsSome (left inputs) };
}
