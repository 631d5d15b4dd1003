//! What is written of a certificate that is accepted.
ghost use Rattle.certificates.specs.Logs.{IsClashIn};
ghost use Rattle.std.specs.Prelude.{length};
ghost use Rattle.report.specs.Check.{accepted_line, checked_text};
ghost use Rattle.report.specs.Writes.{Writes};

use crate::clash::write_clash;
use crate::pieces::{digits, write_pieces};
use itoa::Buffer;
use netlist::Netlist;
use sr_model::Cell;
use sr_outside::{Sink, WriteFault};

/// Writes that a certificate of so many facts is accepted, and behind it the contradiction with which it ends, if so. It takes no memory.
pub fn write_checked<K: Sink>(
    n: &Netlist,
    facts: u64,
    clash: Option<Cell>,
    out: &mut K,
) -> Result<(), WriteFault>
    requires { IsClashIn (length n.now.drivers) clash }
    ensures { Writes K.written K.room K.faults out.old out.new result (checked_text n.now facts clash) }
{
    write_accepted(facts, out)?;
    match clash {
        Some(cell) => write_clash(n, cell, out),
        None => Ok(()),
    }
}

/// Writes that a certificate of so many facts is accepted. It takes no memory.
pub fn write_accepted<K: Sink>(count: u64, out: &mut K) -> Result<(), WriteFault>
    ensures { Writes K.written K.room K.faults out.old out.new result (accepted_line count) }
{
    let start: &[u8] = b"accepted ";
    let end: &[u8] = b"\n";
    let mut buffer = Buffer::new();
    let number = digits(&mut buffer, count);
    write_pieces(out, &[start, number, end])
}
