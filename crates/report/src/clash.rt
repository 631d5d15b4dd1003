//! The line of a contradiction.
ghost use Rattle.std.specs.Prelude.{◌<◌, length};
ghost use Rattle.report.specs.Clash.{clash_line};
ghost use Rattle.report.specs.Writes.{Writes};

use crate::pieces::{digits, write_pieces};
use itoa::Buffer;
use netlist::Netlist;
use sr_model::Cell;
use sr_outside::{Sink, WriteFault};

/// Writes that both literals of the cell are known. It takes no memory.
pub fn write_clash<K: Sink>(n: &Netlist, cell: Cell, out: &mut K) -> Result<(), WriteFault>
    requires { cell.sig.0 < length n.now.drivers }
    ensures { Writes K.written K.room K.faults out.old out.new result (clash_line n.now cell) }
{
    let start: &[u8] = b"contradiction ";
    let space: &[u8] = b" ";
    let end: &[u8] = b"\n";
    let mut buffer = Buffer::new();
    let number = digits(&mut buffer, u64::from(cell.cycle));
    write_pieces(out, &[start, n.name(cell.sig), space, number, end])
}
