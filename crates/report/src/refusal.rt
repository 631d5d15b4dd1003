//! Why nothing is written but one line, and that line.
ghost use Rattle.std.specs.Prelude.{map};
ghost use Rattle.std.specs.String.{string_bytes};
ghost use Rattle.report.specs.Refusals.{AreThere, refusal_line};
ghost use Rattle.report.specs.Writes.{Writes};

use crate::pieces::write_text;
use crate::refusal_lines::{
    write_bench_refusal, write_cert_refusal, write_dump_refusal, write_fault, write_net_refusal,
    write_too_long,
};
use crate::word_lines::{write_many_cells, write_name, write_width_over, write_word_refusal};
use bench_reader::BenchRefusal;
use certificates::CertRefusal;
use dump_reader::DumpRefusal;
use netlist::NetRefusal;
use sr_outside::{Sink, WriteFault};

/// Which input is spoken of.
#[derive(Clone, Copy, Debug, PartialEq, Eq)]
pub enum Part {
    Netlist,
    Dump,
    Certificate,
}

/// Why the words are refused.
#[derive(Clone, Copy, Debug, PartialEq, Eq)]
pub enum WordRefusal {
    /// They have none of the commands' shapes.
    Usage,
    /// A number is none that its key takes. The word is the first such one, by its place among the words.
    Number { place: u32 },
}

/// Why nothing but one line is written. A place is one among the words, and an item one among the names of the list that the word at the place
/// has; both count from 0.
#[derive(Debug, Drop)]
pub enum Refusal {
    /// The netlist's text is refused.
    Bench(BenchRefusal),
    /// The netlist's statements are refused.
    Net(NetRefusal),
    /// The dump's text is refused.
    Dumped(DumpRefusal),
    /// The certificate is refused.
    Cert(CertRefusal),
    /// The words are refused.
    Words(WordRefusal),
    /// An input has too many bytes.
    TooLong(Part),
    /// An input was not read.
    Fault(Part),
    /// The words ask for too many cells.
    CellsByWords { product: u64 },
    /// More flip-flops are asked for than there are.
    WidthOver { flip_flops: u32 },
    /// A name of the list is that of no signal.
    TraceUnknown { place: u32, item: u32 },
    /// A name of the list stands before in the list.
    TraceTwice { place: u32, item: u32 },
    /// Memory was refused.
    NoMemory,
}

/// Writes the line of the refusal. It takes no memory.
pub fn write_refusal<K: Sink>(r: &Refusal, words: &[String], out: &mut K) -> Result<(), WriteFault>
    requires { AreThere (map string_bytes words.now) r.now }
    ensures { Writes K.written K.room K.faults out.old out.new result (refusal_line (map string_bytes words.now) r.now) }
{
    let unknown: &'static [u8] = b"srestore: words: 26 unknown trace ";
    let twice: &'static [u8] = b"srestore: words: 27 trace twice ";
    match r {
        Refusal::Bench(refusal) => write_bench_refusal(out, refusal),
        Refusal::Net(refusal) => write_net_refusal(out, refusal),
        Refusal::Dumped(refusal) => write_dump_refusal(out, refusal),
        Refusal::Cert(refusal) => write_cert_refusal(out, refusal),
        Refusal::Words(refusal) => write_word_refusal(out, words, *refusal),
        Refusal::TooLong(part) => write_too_long(out, *part),
        Refusal::Fault(part) => write_fault(out, *part),
        Refusal::CellsByWords { product } => write_many_cells(out, *product),
        Refusal::WidthOver { flip_flops } => write_width_over(out, *flip_flops),
        Refusal::TraceUnknown { place, item } => write_name(out, unknown, words, *place, *item),
        Refusal::TraceTwice { place, item } => write_name(out, twice, words, *place, *item),
        Refusal::NoMemory => write_text(out, b"srestore: no memory\n"),
    }
}
