//! Reads a dump.
ghost use Rattle.std.specs.Prelude.{◌≡◌, ◌↔◌, ◌+◌, ◌<◌, ℕ, IsTrue, List, length, Some, OnOk, IfOk, IfErr, All};
ghost use Rattle.sr_text.specs.Lines.{past, rest_of};
ghost use Rattle.dump_reader.specs.Tokens.{HasTwoTokens};
ghost use Rattle.dump_reader.specs.Grammar.{IsHead, IsCyclesLine, Spells};
ghost use Rattle.dump_reader.specs.Refusal.{IsRefusal};
ghost use Rattle.dump_reader.specs.Reading.{ReadsHead, ReadsCycles, IsHeadRefusal, IsCyclesRefusal};

use crate::dump::Dump;
use crate::head::{CYCLES, FORMAT, VERSION};
use crate::lines::two_tokens;
use crate::refusal::DumpRefusal;
use crate::row::read_row;
use netlist::Netlist;
use sr_model::{MAX_BLOCKS, MAX_CYCLES, block_count};
use sr_text::{TextLines, read_u64};
use std::alloc::Global;

/// The dump of a text: the line `srdump 1`, the line `cycles T` with T from 1 to 8,192, and rows of a signal's name and T characters. The
/// characters are `0`, `1`, and `x` or `X` for a cell that is not given, from the first cycle on. No signal has two rows.
///
/// A line is cut at its first `#`. Tabs, spaces and carriage returns stand round its tokens, and a line that is empty then is passed over. The
/// blocks, each of up to 64 cycles of one signal, are 4,194,304 at most.
///
/// The time is linear in the bytes, apart from looking up a name for each row by `find`, and memory is taken for many rows at once.
pub fn read_dump(alloc: Global, n: &Netlist, bytes: &[u8]) -> Result<Dump, DumpRefusal>
    ensures dump { IfOk result (λ d. Spells n.now.names (length n.now.drivers) bytes.now d) }
    ensures signals { IfOk result (λ d. All (λ row. row.sig.0 < length n.now.drivers) d.rows) }
    ensures refusal { IfErr result (IsRefusal n.now.names (length n.now.drivers) bytes.now) }
{
    let mut lines = TextLines::new(bytes);
    read_head(&mut lines)?;
    let cycles = read_cycles(&mut lines, n.signals())?;
    let mut dump = Dump::new(alloc, cycles);
    let mut cells = Vec::new(alloc);
    while let Some((line, text)) = lines.next() {
        let sig = read_row(n, &dump, line, text, &mut cells)?;
        dump.add_row(sig, cells.as_slice())?;
    }
    Ok(dump)
}

/// Reads the first line.
fn read_head(lines: &mut TextLines) -> Result<(), DumpRefusal>
    ensures head { OnOk result (ReadsHead (rest_of lines.old) (rest_of lines.new)) }
    ensures past { past lines.new ≡ past lines.old }
    ensures refusal { IfErr result (IsHeadRefusal (past lines.old) (rest_of lines.old)) }
{
    let Some((line, text)) = lines.next() else {
        return Err(DumpRefusal::Head {
            line: lines.passed() + 1,
        });
    };
    if !is_head(text) {
        return Err(DumpRefusal::Head { line });
    }
    Ok(())
}

/// Reads the line of the cycles, of a netlist with so many signals.
pub(crate) fn read_cycles(lines: &mut TextLines, signals: u32) -> Result<u32, DumpRefusal>
    ensures cycles { IfOk result (λ cycles. ReadsCycles signals cycles (rest_of lines.old) (rest_of lines.new)) }
    ensures refusal { IfErr result (IsCyclesRefusal signals (past lines.old) (rest_of lines.old)) }
{
    let Some((line, text)) = lines.next() else {
        return Err(DumpRefusal::Cycles {
            line: lines.passed() + 1,
        });
    };
    let Some(cycles) = cycles_of(text) else {
        return Err(DumpRefusal::Cycles { line });
    };
    let product = block_count(signals, cycles);
    if product > MAX_BLOCKS {
        return Err(DumpRefusal::TooManyCells { line, product });
    }
    Ok(cycles)
}

fn is_head(text: &[u8]) -> bool
    ensures { IsTrue result ↔ IsHead text.now }
{
    match two_tokens(text) {
        Some((word, version)) => word == FORMAT && version == VERSION,
        None => false,
    }
}

/// The number of cycles that a line gives.
fn cycles_of(text: &[u8]) -> Option<u32>
    ensures { (cycles : ℕ) → (result ≡ Some cycles) ↔ IsCyclesLine cycles text.now }
{
    let (word, number) = two_tokens(text)?;
    if word != CYCLES {
        return None;
    }
    let cycles = read_u64(number)?;
    if cycles == 0 || cycles > MAX_CYCLES {
        return None;
    }
    Some(cycles as u32)
}
