//! The lines of a certificate.
ghost use Rattle.std.specs.Prelude.{◌≡◌, ◌<◌, ◌≤◌, ◌+◌, ◌++◌, All, IfOk, length, take};
ghost use Rattle.std.specs.List.{flat_map};
ghost use Rattle.std.specs.Fmt.{decimal};
ghost use Rattle.sr_text.specs.Lines.{with_line_feed};
ghost use Rattle.certificates.specs.Logs.{IsClashIn, IsStepIn, fact_of, facts_of};
ghost use Rattle.certificates.specs.Printed.{at_cycle, cert_text, fact_line, head_line, last_line};
ghost use Rattle.report.specs.Buffers.{Puts};
ghost use Rattle.report.specs.Writes.{Writes};

use crate::pieces::{put_text, write_text};
use crate::row_buf::RowBuf;
use netlist::Netlist;
use plain_close::{Log, Step};
use sr_model::{Cell, Sig};
use sr_outside::{Sink, WriteFault};
use sr_text::write_u64;

/// Bytes of the longest line: two names of 255 bytes, two numbers of 20, and 9 more.
const LINE: usize = 559;

/// Writes the certificate of a log: the first line, a line for each step, and the last one.
///
/// As many lines as fit into the buffer are put at once; the text is not held. It takes no memory.
pub fn write_certificate<K: Sink>(
    n: &Netlist,
    log: &Log,
    buf: &mut RowBuf,
    out: &mut K,
) -> Result<(), WriteFault>
    requires steps { All (IsStepIn (length n.now.drivers)) log.now.steps.items }
    requires clash { IsClashIn (length n.now.drivers) log.now.clash }
    ensures { Writes K.written K.room K.faults out.old out.new result (cert_text n.now.names (facts_of log.now.steps.items) log.now.clash) }
{
    let bytes = buf.bytes();
    let put = put_steps(n, log.steps.as_slice(), bytes, out)?;
    let start = write_if_full(bytes, put, out)?;
    let end = put_last(n, log.clash, bytes, start);
    write_text(out, &bytes[..end])
}

/// Puts the first line and those of the steps, and answers how many bytes of them are left to write.
fn put_steps<K: Sink>(
    n: &Netlist,
    steps: &[Step],
    bytes: &mut [u8],
    out: &mut K,
) -> Result<usize, WriteFault>
    requires steps { All (IsStepIn (length n.now.drivers)) steps.now }
    requires room { length bytes.old ≡ 8449 }
    ensures size { length bytes.new ≡ 8449 }
    ensures puts { Puts K.written K.room K.faults out.old out.new result bytes.new
        (with_line_feed head_line ++ flat_map (λ step. with_line_feed (fact_line n.now.names (fact_of step))) steps.now) }
{
    let mut end = put_text(b"srcert 1\n", bytes, 0);
    for step in steps {
        end = write_if_full(bytes, end, out)?;
        end = put_step(n, *step, bytes, end);
    }
    Ok(end)
}

/// Writes so many bytes where no line has room behind them, and answers how many are left to write.
fn write_if_full<K: Sink>(bytes: &[u8], end: usize, out: &mut K) -> Result<usize, WriteFault>
    requires size { length bytes.now ≡ 8449 }
    requires within { end ≤ length bytes.now }
    ensures puts { Puts K.written K.room K.faults out.old out.new result bytes.now (take end bytes.now) }
    ensures room { IfOk result (λ left. left + 559 ≤ length bytes.now) }
{
    if bytes.len() - end >= LINE {
        return Ok(end);
    }
    write_text(out, &bytes[..end])?;
    Ok(0)
}

/// Puts the line of a step into the bytes from `start` on, and answers where it ends.
fn put_step(n: &Netlist, step: Step, bytes: &mut [u8], start: usize) -> usize
    requires signals { IsStepIn (length n.now.drivers) step }
    requires room { start + 559 ≤ length bytes.old }
    ensures within { result ≤ length bytes.new }
    ensures size { length bytes.new ≡ length bytes.old }
    ensures text { take result bytes.new ≡ take start bytes.old ++ with_line_feed (fact_line n.now.names (fact_of step)) }
{
    let by: &'static [u8] = if step.lit.bit { b" 1 by " } else { b" 0 by " };
    let named = put_cell(n, step.lit.cell.sig, step.lit.cell.cycle, bytes, start);
    let forced = put_text(by, bytes, named);
    let placed = put_cell(n, step.place.target, step.place.cycle, bytes, forced);
    put_text(b"\n", bytes, placed)
}

/// Puts the last line into the bytes from `start` on, and answers where it ends.
fn put_last(n: &Netlist, clash: Option<Cell>, bytes: &mut [u8], start: usize) -> usize
    requires signal { IsClashIn (length n.now.drivers) clash }
    requires room { start + 559 ≤ length bytes.old }
    ensures within { result ≤ length bytes.new }
    ensures text { take result bytes.new ≡ take start bytes.old ++ with_line_feed (last_line n.now.names clash) }
{
    let Some(cell) = clash else {
        return put_text(b"end\n", bytes, start);
    };
    let told = put_text(b"contradiction ", bytes, start);
    let named = put_cell(n, cell.sig, cell.cycle, bytes, told);
    put_text(b"\n", bytes, named)
}

/// Puts a signal's name and a cycle into the bytes from `start` on, and answers where they end.
fn put_cell(n: &Netlist, sig: Sig, cycle: u32, bytes: &mut [u8], start: usize) -> usize
    requires signal { sig.0 < length n.now.drivers }
    requires room { start + 276 ≤ length bytes.old }
    ensures short { result ≤ start + 276 }
    ensures size { length bytes.new ≡ length bytes.old }
    ensures text { take result bytes.new ≡ take start bytes.old ++ at_cycle n.now.names sig cycle }
{
    let named = put_text(n.name(sig), bytes, start);
    let spaced = put_text(b" ", bytes, named);
    put_number(cycle, bytes, spaced)
}

/// Puts a number into the bytes from `start` on, and answers where it ends.
fn put_number(number: u32, bytes: &mut [u8], start: usize) -> usize
    requires { start + 20 ≤ length bytes.old }
    ensures short { result ≤ start + 20 }
    ensures size { length bytes.new ≡ length bytes.old }
    ensures text { take result bytes.new ≡ take start bytes.old ++ decimal number }
{
    let mut digits = [0; 20];
    let len = write_u64(u64::from(number), &mut digits);
    put_text(&digits[..len], bytes, start)
}
