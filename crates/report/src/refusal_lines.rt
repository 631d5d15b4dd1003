//! The lines of the refusals of a netlist, a dump and a certificate.
ghost use Rattle.std.specs.Prelude.{◌≡◌, ◌++◌, codes};
ghost use Rattle.std.specs.Fmt.{decimal};
ghost use Rattle.report.specs.InputRefusals.{name_of, too_long_line, refused_line, bench_line, net_line, dump_line, cert_line, fault_line};
ghost use Rattle.report.specs.Writes.{Writes};

use crate::pieces::{digits, write_pieces, write_text};
use crate::refusal::Part;
use bench_reader::BenchRefusal;
use certificates::CertRefusal;
use dump_reader::DumpRefusal;
use itoa::Buffer;
use netlist::NetRefusal;
use sr_outside::{Sink, WriteFault};

impl Part {
    fn name(self) -> &'static [u8]
        ensures { result.now ≡ name_of self }
    {
        match self {
            Part::Netlist => b"netlist",
            Part::Dump => b"dump",
            Part::Certificate => b"certificate",
        }
    }
}

/// Writes why a netlist's text is refused.
pub(crate) fn write_bench_refusal<K: Sink>(
    out: &mut K,
    refusal: &BenchRefusal,
) -> Result<(), WriteFault>
    ensures { Writes K.written K.room K.faults out.old out.new result (bench_line refusal.now) }
{
    match *refusal {
        BenchRefusal::Syntax { line } => {
            write_refused_line(out, Part::Netlist, line, b": 1 syntax\n")
        }
        BenchRefusal::NameLong { line } => {
            write_refused_line(out, Part::Netlist, line, b": 2 name too long\n")
        }
        BenchRefusal::UnknownKind { line } => {
            write_refused_line(out, Part::Netlist, line, b": 3 unknown kind\n")
        }
        BenchRefusal::WrongPins { line } => {
            write_refused_line(out, Part::Netlist, line, b": 4 wrong number of pins\n")
        }
        BenchRefusal::NoMemory => write_text(out, b"srestore: no memory\n"),
    }
}

/// Writes why a netlist's statements are refused.
pub(crate) fn write_net_refusal<K: Sink>(
    out: &mut K,
    refusal: &NetRefusal,
) -> Result<(), WriteFault>
    ensures { Writes K.written K.room K.faults out.old out.new result (net_line refusal.now) }
{
    match refusal {
        NetRefusal::TooManySignals { line } => {
            write_refused_line(out, Part::Netlist, *line, b": 5 too many signals\n")
        }
        NetRefusal::TooManyPins { line } => {
            write_refused_line(out, Part::Netlist, *line, b": 6 too many pins\n")
        }
        NetRefusal::TwoDrivers { line } => {
            write_refused_line(out, Part::Netlist, *line, b": 7 two drivers\n")
        }
        NetRefusal::NoDriver { name } => write_no_driver(out, name.as_slice()),
        NetRefusal::Loop { name, length } => write_loop(out, name.as_slice(), *length),
        NetRefusal::NoMemory => write_text(out, b"srestore: no memory\n"),
    }
}

/// Writes why a dump's text is refused.
pub(crate) fn write_dump_refusal<K: Sink>(
    out: &mut K,
    refusal: &DumpRefusal,
) -> Result<(), WriteFault>
    ensures { Writes K.written K.room K.faults out.old out.new result (dump_line refusal.now) }
{
    match *refusal {
        DumpRefusal::Head { line } => {
            write_refused_line(out, Part::Dump, line, b": 10 bad head\n")
        }
        DumpRefusal::Cycles { line } => {
            write_refused_line(out, Part::Dump, line, b": 11 bad cycles\n")
        }
        DumpRefusal::RowSyntax { line } => {
            write_refused_line(out, Part::Dump, line, b": 12 bad row\n")
        }
        DumpRefusal::UnknownSignal { line } => {
            write_refused_line(out, Part::Dump, line, b": 13 unknown signal\n")
        }
        DumpRefusal::TwiceNamed { line } => {
            write_refused_line(out, Part::Dump, line, b": 14 signal named twice\n")
        }
        DumpRefusal::RowLength { line } => {
            write_refused_line(out, Part::Dump, line, b": 15 row length\n")
        }
        DumpRefusal::BadBit { line } => {
            write_refused_line(out, Part::Dump, line, b": 16 bad bit\n")
        }
        DumpRefusal::TooManyCells { line, product } => write_too_many_cells(out, line, product),
        DumpRefusal::NoMemory => write_text(out, b"srestore: no memory\n"),
    }
}

/// Writes why a certificate is refused.
pub(crate) fn write_cert_refusal<K: Sink>(
    out: &mut K,
    refusal: &CertRefusal,
) -> Result<(), WriteFault>
    ensures { Writes K.written K.room K.faults out.old out.new result (cert_line refusal.now) }
{
    match *refusal {
        CertRefusal::CertHead { line } => {
            write_refused_line(out, Part::Certificate, line, b": 18 bad head\n")
        }
        CertRefusal::CertSyntax { line } => {
            write_refused_line(out, Part::Certificate, line, b": 19 syntax\n")
        }
        CertRefusal::CertCell { line } => {
            write_refused_line(out, Part::Certificate, line, b": 20 no such cell\n")
        }
        CertRefusal::NotForced { line } => {
            write_refused_line(out, Part::Certificate, line, b": 21 not forced\n")
        }
        CertRefusal::NoMemory => write_text(out, b"srestore: no memory\n"),
    }
}

/// Writes that an input has too many bytes.
pub(crate) fn write_too_long<K: Sink>(out: &mut K, part: Part) -> Result<(), WriteFault>
    ensures { Writes K.written K.room K.faults out.old out.new result (too_long_line part) }
{
    let start: &[u8] = b"srestore: ";
    let why: &[u8] = b": 24 too long\n";
    write_pieces(out, &[start, part.name(), why])
}

/// Writes that an input was not read.
pub(crate) fn write_fault<K: Sink>(out: &mut K, part: Part) -> Result<(), WriteFault>
    ensures { Writes K.written K.room K.faults out.old out.new result (fault_line part) }
{
    let start: &[u8] = b"srestore: read fault ";
    let end: &[u8] = b"\n";
    write_pieces(out, &[start, part.name(), end])
}

/// Writes that a line of an input is refused, and why.
fn write_refused_line<K: Sink>(
    out: &mut K,
    part: Part,
    line: u64,
    why: &'static [u8],
) -> Result<(), WriteFault>
    ensures { Writes K.written K.room K.faults out.old out.new result (refused_line part line why.now) }
{
    let start: &[u8] = b"srestore: ";
    let at: &[u8] = b" line ";
    let mut buffer = Buffer::new();
    let number = digits(&mut buffer, line);
    write_pieces(out, &[start, part.name(), at, number, why])
}

/// Writes that a dump has too many cells.
fn write_too_many_cells<K: Sink>(out: &mut K, line: u64, product: u64) -> Result<(), WriteFault>
    ensures { Writes K.written K.room K.faults out.old out.new result (dump_line (DumpRefusal.TooManyCells line product)) }
{
    let start: &[u8] = b"srestore: dump line ";
    let why: &[u8] = b": 17 too many cells ";
    let end: &[u8] = b"\n";
    let mut line_buffer = Buffer::new();
    let line_digits = digits(&mut line_buffer, line);
    let mut buffer = Buffer::new();
    let number = digits(&mut buffer, product);
    write_pieces(out, &[start, line_digits, why, number, end])
}

/// Writes that nothing drives a signal.
fn write_no_driver<K: Sink>(out: &mut K, name: &[u8]) -> Result<(), WriteFault>
    ensures { Writes K.written K.room K.faults out.old out.new result (codes "srestore: netlist: 8 no driver " ++ name.now ++ codes "\n") }
{
    let start: &[u8] = b"srestore: netlist: 8 no driver ";
    let end: &[u8] = b"\n";
    write_pieces(out, &[start, name, end])
}

/// Writes that gates drive each other in a loop.
fn write_loop<K: Sink>(out: &mut K, name: &[u8], length: u32) -> Result<(), WriteFault>
    ensures { Writes K.written K.room K.faults out.old out.new result (codes "srestore: netlist: 9 loop " ++ name.now ++ codes " " ++ decimal length ++ codes "\n") }
{
    let start: &[u8] = b"srestore: netlist: 9 loop ";
    let space: &[u8] = b" ";
    let end: &[u8] = b"\n";
    let mut buffer = Buffer::new();
    let number = digits(&mut buffer, u64::from(length));
    write_pieces(out, &[start, name, space, number, end])
}
