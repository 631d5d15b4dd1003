//! Writing a piece whole.
ghost use Rattle.std.specs.Prelude.{◌≡◌, ◌<◌, ◌≤◌, [], IsOk, IsErr, OnOk, OnErr};
ghost use Rattle.std.specs.Io.KnownBytes.{append_known};
ghost use Rattle.sr_outside.specs.Counts.{IsCounted};
ghost use Rattle.sr_outside.specs.Told.{AppendsPart, IsFull};

use crate::inputs::Failed;
use crate::sink::Sink;

/// A sink took only a part of what was to be written.
#[derive(Clone, Copy, Debug, PartialEq, Eq)]
pub struct WriteFault;

/// Writes the whole piece, in as few puts as the sink allows. It takes no memory.
pub fn write_all<K: Sink>(sink: &mut K, piece: &[u8]) -> Result<(), WriteFault>
    ensures written { OnOk result (K.written sink.new
        ≡ append_known (K.written sink.old) piece.now) }
    ensures part { OnErr result (AppendsPart (K.written sink.old) (K.written sink.new) piece.now) }
    ensures full { OnErr result (IsFull (K.written sink.new) (K.room sink.new)) }

    // A fault is answered only where one was counted, and where one was counted there is no other answer.
    ensures fault { OnErr result (IsCounted (K.faults sink.old) (K.faults sink.new)) }
    ensures rose { K.faults sink.old < K.faults sink.new → IsErr result }
    ensures uncounted { OnOk result (K.faults sink.new ≡ K.faults sink.old) }
    ensures never_falls { K.faults sink.old ≤ K.faults sink.new }

    ensures empty { piece.now ≡ [] → IsOk result × (sink.new ≡ sink.old) }
    ensures room { K.room sink.new ≡ K.room sink.old }
{
    let mut done = 0;
    while done < piece.len() {
        match sink.put(&piece[done..]) {
            Ok(count) => done += count,
            Err(Failed) => return Err(WriteFault),
        }
    }
    Ok(())
}
