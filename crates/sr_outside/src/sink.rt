//! What is written to.
ghost use Rattle.std.specs.Prelude.{◌≡◌, ◌<◌, ◌≤◌, ℕ, List, length, take, IfOk, OnOk, OnErr, Option};
ghost use Rattle.std.specs.Io.KnownBytes.{append_known};
ghost use Rattle.sr_outside.specs.Counts.{IsCounted};
ghost use Rattle.sr_outside.specs.Told.{IsFull, FitsRoom};

use crate::inputs::Failed;

/// What is written to, a piece at a time. No call changes its room.
pub trait Sink {
    /// The bytes taken so far.
    ghost written: { Self → Option (List ℕ) };

    /// The length that `written` can reach.
    ghost room: { Self → Option ℕ };

    /// The number of calls that failed, or more. It never falls.
    ghost faults: { Self → ℕ };

    /// Takes some of the piece, from its front and at least one byte, and answers how many.
    fn put(&mut self, piece: &[u8]) -> Result<usize, Failed>
        requires { 0 < length piece.now }

        ensures some { IfOk result (λ count. 0 < count) }
        ensures bound { IfOk result (λ count. count ≤ length piece.now) }
        ensures appended { IfOk result (λ count.
            written self.new ≡ append_known (written self.old) (take count piece.now)) }
        ensures not_appended { OnErr result (written self.new ≡ written self.old) }

        // It fails only where a fault is counted, and where told only where the room is used up.
        ensures counted { OnErr result (IsCounted (faults self.old) (faults self.new)) }
        ensures full { OnErr result (IsFull (written self.new) (room self.new)) }
        ensures uncounted { OnOk result (faults self.new ≡ faults self.old) }
        ensures never_falls { faults self.old ≤ faults self.new }

        ensures within { FitsRoom (written self.new) (room self.new) }
        ensures room { room self.new ≡ room self.old };
}
