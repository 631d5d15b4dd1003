//! Writing a text whole or piece by piece, and putting texts into bytes.
ghost use Rattle.std.specs.Prelude.{◌≡◌, ◌≤◌, ◌+◌, ◌++◌, length, take};
ghost use Rattle.std.specs.Fmt.{decimal};
ghost use Rattle.report.specs.Joined.{joined};
ghost use Rattle.report.specs.Writes.{Writes};

use itoa::Buffer;
use sr_outside::{Sink, WriteFault, write_all};

/// Writes the text, in as few puts as the sink allows. It takes no memory.
pub(crate) fn write_text<K: Sink>(out: &mut K, text: &[u8]) -> Result<(), WriteFault>
    ensures { Writes K.written K.room K.faults out.old out.new result text.now }
{
    write_all(out, text)
}

/// Writes the pieces, one after another.
pub(crate) fn write_pieces<K: Sink>(out: &mut K, pieces: &[&[u8]]) -> Result<(), WriteFault>
    ensures { Writes K.written K.room K.faults out.old out.new result (joined pieces.now) }
{
    for piece in pieces {
        match write_text(out, piece) {
            Ok(()) => {}
            Err(WriteFault) => return Err(WriteFault),
        }
    }
    Ok(())
}

/// The decimal form of a number, in the buffer's room.
pub(crate) fn digits(buffer: &mut Buffer, number: u64) -> &[u8]
    ensures { result.now ≡ decimal number }
{
    buffer.format(number).as_bytes()
}

/// Puts a text into the bytes from `start` on, and answers where it ends.
pub(crate) fn put_text(text: &[u8], bytes: &mut [u8], start: usize) -> usize
    requires { start + length text.now ≤ length bytes.old }
    ensures end { result ≡ start + length text.now }
    ensures size { length bytes.new ≡ length bytes.old }
    ensures text { take result bytes.new ≡ take start bytes.old ++ text.now }
{
    let end = start + text.len();
    bytes[start..end].copy_from_slice(text);
    end
}
