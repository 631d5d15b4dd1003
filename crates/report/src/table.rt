//! What is known of the signals, as a table.
ghost use Rattle.std.specs.Prelude.{◌≡◌, ◌<◌, ◌≤◌, ◌+◌, ◌++◌, length, take};
ghost use Rattle.sr_model.specs.Limits.{max_cells};
ghost use Rattle.sr_model.specs.Decisions.{IsConsistent};
ghost use Rattle.sr_text.specs.Numbers.{put_front};
ghost use Rattle.netlist.specs.Wiring.{flip_flops, signals_below};
ghost use Rattle.dump_reader.specs.Print.{bit_character};
ghost use Rattle.ratio.specs.Ratio.{in_thousandths};
ghost use Rattle.unroll.specs.Bits.{is_set};
ghost use Rattle.unroll.specs.Problem.{signals_in};
ghost use Rattle.known_planes.specs.Planes.{IsOf, has, lits};
ghost use Rattle.dump_reader.specs.Head.{head_text};
ghost use Rattle.report.specs.Rows.{row_line, row_lines, cells_text, word_bit, word_text};
ghost use Rattle.report.specs.Table.{ratio_line, ratio_text, shown, table_text};
ghost use Rattle.report.specs.Writes.{Writes};

use crate::pieces::{digits, put_text, write_pieces, write_text};
use crate::ratio_text::put_ratio;
use crate::row_buf::RowBuf;
use dump_reader::HEAD_START;
use itoa::Buffer;
use known_planes::Planes;
use ratio::Ratio;
use sr_model::Sig;
use sr_outside::{Sink, WriteFault};
use unroll::{InChunk, PinWord, Problem};

/// Writes the table of the known literals: a row for each signal in ascending number, or for each flip-flop, with `0`, `1` or `x` for each cycle, and the line with
/// the ratio of the known flip-flop cells to those that were traced.
///
/// Each row is made in the buffer and put at once. It takes no memory.
pub fn write_table<K: Sink>(
    p: &Problem,
    planes: &Planes,
    traced: u64,
    all: bool,
    buf: &mut RowBuf,
    out: &mut K,
) -> Result<(), WriteFault>
    requires of { IsOf p.now planes.now }
    requires no_clash { IsConsistent (lits p.now planes.now) }
    requires traced { traced ≤ max_cells }
    ensures { Writes K.written K.room K.faults out.old out.new result (table_text p.now.circuit p.now.cycles (has p.now planes.now) traced all) }
{
    write_head(p, out)?;
    write_rows(p, planes, all, buf, out)?;
    write_ratio_line(planes.count_known_flip_flops(p), traced, out)
}

/// Writes the lines before the rows.
fn write_head<K: Sink>(p: &Problem, out: &mut K) -> Result<(), WriteFault>
    ensures { Writes K.written K.room K.faults out.old out.new result (head_text p.now.cycles) }
{
    let end: &[u8] = b"\n";
    let mut buffer = Buffer::new();
    let cycles = digits(&mut buffer, u64::from(p.cycles()));
    write_pieces(out, &[HEAD_START, cycles, end])
}

/// Writes the rows of all signals or of the flip-flops, in ascending number.
fn write_rows<K: Sink>(
    p: &Problem,
    planes: &Planes,
    all: bool,
    buf: &mut RowBuf,
    out: &mut K,
) -> Result<(), WriteFault>
    requires { IsOf p.now planes.now }
    ensures { Writes K.written K.room K.faults out.old out.new result (row_lines p.now.circuit p.now.cycles (has p.now planes.now) (shown p.now.circuit all)) }
{
    if all {
        write_all_rows(p, planes, buf, out)
    } else {
        write_flip_flop_rows(p, planes, buf, out)
    }
}

/// Writes the rows of all signals, in ascending number.
fn write_all_rows<K: Sink>(
    p: &Problem,
    planes: &Planes,
    buf: &mut RowBuf,
    out: &mut K,
) -> Result<(), WriteFault>
    requires { IsOf p.now planes.now }
    ensures { Writes K.written K.room K.faults out.old out.new result (row_lines p.now.circuit p.now.cycles (has p.now planes.now) (signals_below (signals_in p.now))) }
{
    for number in 0..p.net().signals() {
        write_row(p, planes, Sig(number), buf, out)?;
    }
    Ok(())
}

/// Writes the rows of the flip-flops, in ascending number.
fn write_flip_flop_rows<K: Sink>(
    p: &Problem,
    planes: &Planes,
    buf: &mut RowBuf,
    out: &mut K,
) -> Result<(), WriteFault>
    requires { IsOf p.now planes.now }
    ensures { Writes K.written K.room K.faults out.old out.new result (row_lines p.now.circuit p.now.cycles (has p.now planes.now) (flip_flops p.now.circuit.drivers)) }
{
    for sig in p.net().flip_flops() {
        write_row(p, planes, *sig, buf, out)?;
    }
    Ok(())
}

/// Writes the row of a signal.
fn write_row<K: Sink>(
    p: &Problem,
    planes: &Planes,
    sig: Sig,
    buf: &mut RowBuf,
    out: &mut K,
) -> Result<(), WriteFault>
    requires of { IsOf p.now planes.now }
    requires signal { sig.0 < signals_in p.now }
    ensures { Writes K.written K.room K.faults out.old out.new result (row_line p.now.circuit p.now.cycles (has p.now planes.now) sig) }
{
    let bytes = buf.bytes();
    let len = fill_row(p, planes, sig, bytes);
    write_text(out, &bytes[..len])
}

/// Puts the row of a signal at the front of the bytes, and answers its length.
fn fill_row(p: &Problem, planes: &Planes, sig: Sig, bytes: &mut [u8]) -> usize
    requires of { IsOf p.now planes.now }
    requires signal { sig.0 < signals_in p.now }
    requires room { length bytes.old ≡ 8449 }
    ensures within { result ≤ length bytes.new }
    ensures text { take result bytes.new ≡ row_line p.now.circuit p.now.cycles (has p.now planes.now) sig }
{
    let named = put_text(p.net().name(sig), bytes, 0);
    let spaced = put_text(b" ", bytes, named);
    let filled = fill_cells(p, planes, sig, bytes, spaced);
    put_text(b"\n", bytes, filled)
}

/// Puts a character for each cycle of a signal into the bytes from `start` on, and answers where they end. It goes by whole words, of 64 cycles each.
fn fill_cells(p: &Problem, planes: &Planes, sig: Sig, bytes: &mut [u8], start: usize) -> usize
    requires of { IsOf p.now planes.now }
    requires signal { sig.0 < signals_in p.now }
    requires room { start + p.now.cycles ≤ length bytes.old }
    ensures end { result ≡ start + p.now.cycles }
    ensures size { length bytes.new ≡ length bytes.old }
    ensures text { take result bytes.new ≡ take start bytes.old ++ cells_text (has p.now planes.now) sig p.now.cycles }
{
    let cycles = p.cycles();
    for chunk in 0..p.chunks() {
        let words = planes.word_in_chunk(p, InChunk { sig, chunk });
        let first = 64 * chunk;
        let count = (cycles - first).min(64);
        fill_chunk(words, count, bytes, start + first as usize);
    }
    start + cycles as usize
}

/// Puts a character for each of the first cycles of a chunk into the bytes from `start` on.
fn fill_chunk(words: PinWord, count: u32, bytes: &mut [u8], start: usize)
    requires count { count ≤ 64 }
    requires room { start + count ≤ length bytes.old }
    ensures size { length bytes.new ≡ length bytes.old }
    ensures text { take (start + count) bytes.new ≡ take start bytes.old ++ word_text words count }
{
    put_text(&characters(words)[..count as usize], bytes, start);
}

/// The characters of the 64 cycles of a chunk. They are made in an array, whose length is known, and not in the row, so that many are made at once.
fn characters(words: PinWord) -> [u8; 64]
    ensures { result ≡ word_text words 64 }
{
    let mut characters = [b'x'; 64];
    for i in 0..64_u32 {
        characters[i as usize] = character(words, i);
    }
    characters
}

/// The character of cycle i of a chunk. Both bits are taken first, so that there is no branch.
fn character(words: PinWord, i: u32) -> u8
    requires { i < 64 }
    ensures { result ≡ bit_character (word_bit words i) }
{
    match (words.has(false, i), words.has(true, i)) {
        (true, _) => b'0',
        (false, true) => b'1',
        (false, false) => b'x',
    }
}

/// Writes how many flip-flop cells were traced and are known, and their ratio.
fn write_ratio_line<K: Sink>(known: u64, traced: u64, out: &mut K) -> Result<(), WriteFault>
    requires known { known ≤ max_cells }
    requires traced { traced ≤ max_cells }
    ensures { Writes K.written K.room K.faults out.old out.new result (ratio_line traced known) }
{
    let mut traced_buffer = Buffer::new();
    let mut known_buffer = Buffer::new();
    let mut ratio_digits = [0; 24];
    let traced_digits = digits(&mut traced_buffer, traced);
    let known_digits = digits(&mut known_buffer, known);
    let ratio_len = put_ratio(&Ratio::new(known, traced), &mut ratio_digits);
    let traced_is: &[u8] = b"# traced ";
    let known_is: &[u8] = b" known ";
    let ratio_is: &[u8] = b" ratio ";
    let end: &[u8] = b"\n";
    write_pieces(
        out,
        &[
            traced_is,
            traced_digits,
            known_is,
            known_digits,
            ratio_is,
            &ratio_digits[..ratio_len],
            end,
        ],
    )
}
