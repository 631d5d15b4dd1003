//! Reading an input whole.
ghost use Rattle.std.specs.Prelude.{◌≡◌, ◌↔◌, ◌+◌, ◌<◌, ◌≤◌, IsTrue, length, IfOk, OnOk, IsErrOf, Some, IfSome, IsNone};
ghost use Rattle.sr_outside.specs.Counts.{count_after, IsCounted};
ghost use Rattle.sr_outside.specs.Told.{held_name, IsLastShaky, IsSteady};

use crate::inputs::{Failed, Inputs};
use sr_model::Bytes;
use std::alloc::{AllocError, Global};

/// So many bytes are asked for at a time, so a reading takes at most so many past its limit.
pub const PIECE: usize = 65536;

/// Why an input was not read whole.
#[derive(Clone, Copy, Debug, PartialEq, Eq)]
pub enum ReadRefusal {
    /// Its start or one of its reads failed.
    Fault,
    /// It has more bytes than the limit.
    TooLong,
    /// Memory was refused.
    NoMemory,
}

/// All bytes of the input of this name, at most `limit` of them.
///
/// It reads on to the end, or until more than `limit` bytes were taken. Beside the bytes it takes memory for one
/// piece of 64 KiB, after the start.
pub fn read_whole<I: Inputs>(
    alloc: Global,
    inputs: &mut I,
    name: &str,
    limit: u64,
) -> Result<Bytes, ReadRefusal>
    // It makes one start, of this name, whatever the answer.
    ensures starts { I.starts inputs.new ≡ count_after (I.starts inputs.old) 1 }
    ensures last { IfSome (I.held inputs.old) (λ bytes_of.
        I.last inputs.new ≡ Some (held_name bytes_of name.now)) }

    ensures bytes { IfOk result (λ text.
        IfSome (I.held inputs.old) (λ bytes_of. bytes_of name.now ≡ Some text.items)) }
    ensures within { IfOk result (λ text. length text.items ≤ limit) }
    ensures all_taken { IfOk result (λ text. I.taken inputs.new ≡ length text.items) }

    // A fault is answered only where one was counted, and where one was counted there is no other answer.
    ensures fault { IsErrOf result ReadRefusal.Fault
        → IsCounted (I.faults inputs.old) (I.faults inputs.new) }
    ensures rose { I.faults inputs.old < I.faults inputs.new → IsErrOf result ReadRefusal.Fault }
    ensures uncounted { OnOk result (I.faults inputs.new ≡ I.faults inputs.old) }
    ensures never_falls { I.faults inputs.old ≤ I.faults inputs.new }
    ensures not_held { IfSome (I.held inputs.old) (λ bytes_of.
        IsNone (bytes_of name.now) → IsErrOf result ReadRefusal.Fault) }
    ensures steady { IsSteady (I.held inputs.old) (I.shaky inputs.old) name.now
        → (¬ (IsErrOf result ReadRefusal.Fault)) × (I.faults inputs.new ≡ I.faults inputs.old) }

    ensures too_long { IsErrOf result ReadRefusal.TooLong ↔ (limit < I.taken inputs.new) }
    ensures long_name { IsErrOf result ReadRefusal.TooLong
        → IfSome (I.held inputs.old) (λ bytes_of.
        IfSome (bytes_of name.now) (λ bytes. limit < length bytes)) }

    // It stops as soon as more than the limit were taken.
    ensures stops { I.taken inputs.new ≤ limit + PIECE }

    ensures held { I.held inputs.new ≡ I.held inputs.old }
    ensures shaky { I.shaky inputs.new ≡ I.shaky inputs.old }
{
    match inputs.start(name) {
        Ok(()) => read_rest(alloc, inputs, limit),
        Err(Failed) => Err(ReadRefusal::Fault),
    }
}

// Reads what is left of the input that was just started.
fn read_rest<I: Inputs>(alloc: Global, inputs: &mut I, limit: u64) -> Result<Bytes, ReadRefusal>
    requires live { IsTrue (I.live inputs.old) }
    requires taken { I.taken inputs.old ≡ 0 }

    ensures bytes { IfOk result (λ text. IfSome (I.left inputs.old) (λ bytes. bytes ≡ text.items)) }
    ensures within { IfOk result (λ text. length text.items ≤ limit) }
    ensures all_taken { IfOk result (λ text. I.taken inputs.new ≡ length text.items) }
    ensures too_long { IsErrOf result ReadRefusal.TooLong ↔ (limit < I.taken inputs.new) }
    ensures long_input { IsErrOf result ReadRefusal.TooLong → IfSome (I.left inputs.old) (λ bytes.
        limit < length bytes) }

    ensures stops { I.taken inputs.new ≤ limit + PIECE }

    ensures fault { IsErrOf result ReadRefusal.Fault
        → IsCounted (I.faults inputs.old) (I.faults inputs.new) }
    ensures rose { I.faults inputs.old < I.faults inputs.new → IsErrOf result ReadRefusal.Fault }
    ensures never_falls { I.faults inputs.old ≤ I.faults inputs.new }
    ensures cause { IsErrOf result ReadRefusal.Fault
        → IsLastShaky (I.held inputs.old) (I.shaky inputs.old) (I.last inputs.old) }

    ensures starts { I.starts inputs.new ≡ I.starts inputs.old }
    ensures last { I.last inputs.new ≡ I.last inputs.old }
    ensures held { I.held inputs.new ≡ I.held inputs.old }
    ensures shaky { I.shaky inputs.new ≡ I.shaky inputs.old }
{
    let mut piece = match zeros(alloc, PIECE) {
        Ok(piece) => piece,
        Err(AllocError) => return Err(ReadRefusal::NoMemory),
    };
    let mut bytes = Vec::new(alloc);
    loop {
        let count = match inputs.read(&mut piece) {
            Ok(count) => count,
            Err(Failed) => return Err(ReadRefusal::Fault),
        };
        if count == 0 {
            return Ok(Bytes::from_vec(bytes));
        }
        if count as u64 > limit - bytes.len() as u64 {
            return Err(ReadRefusal::TooLong);
        }
        match bytes.extend_from_slice(&piece[..count]) {
            Ok(()) => {}
            Err(AllocError) => return Err(ReadRefusal::NoMemory),
        }
    }
}

// So many bytes 0.
fn zeros(alloc: Global, len: usize) -> Result<Vec<u8>, AllocError>
    ensures { IfOk result (λ bytes. length bytes.items ≡ len) }
{
    vec![in alloc; 0u8; len]
}
