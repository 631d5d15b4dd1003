//! Reads one row of a dump.
ghost use Rattle.std.specs.Prelude.{◌≡◌, ℕ, IsTrue, false, length, map, option_map, Some, IfOk, IfErr, IsSome, Contains};
ghost use Rattle.std.specs.List.{All};
ghost use Rattle.dump_reader.specs.Recording.{recorded, row_of, tri_bit};
ghost use Rattle.dump_reader.specs.Grammar.{StatesRow, bit_read};
ghost use Rattle.dump_reader.specs.Refusal.{IsRowRefusal};

use crate::dump::{Dump, Tri};
use crate::lines::two_tokens;
use crate::refusal::DumpRefusal;
use netlist::Netlist;
use sr_model::{NoMemory, Sig};
use std::alloc::AllocFailed;

/// The signal of the row that a line states, which is not one of the dump's; its cells are put in place of those given.
pub(crate) fn read_row(
    n: &Netlist,
    dump: &Dump,
    line: u64,
    text: &[u8],
    cells: &mut Vec<Tri>,
) -> Result<Sig, DumpRefusal>
    ensures row { IfOk result (λ sig. StatesRow n.now.names dump.now.cycles text.now (row_of sig cells.new.items)) }
    ensures new_signal { IfOk result (λ sig. ¬ Contains (recorded dump.now.rows) sig) }
    ensures refusal { IfErr result (IsRowRefusal n.now.names dump.now.cycles dump.now.rows line text.now) }
{
    let Some((name, characters)) = two_tokens(text) else {
        return Err(DumpRefusal::RowSyntax { line });
    };
    let Some(sig) = n.find(name) else {
        return Err(DumpRefusal::UnknownSignal { line });
    };
    if dump.has_row(sig) {
        return Err(DumpRefusal::TwiceNamed { line });
    }
    if characters.len() != dump.cycles() as usize {
        return Err(DumpRefusal::RowLength { line });
    }
    if !read_cells(characters, cells)? {
        return Err(DumpRefusal::BadBit { line });
    }
    Ok(sig)
}

/// Puts the cells of these characters in place of those given. Whether each character is that of a cell.
fn read_cells(characters: &[u8], cells: &mut Vec<Tri>) -> Result<bool, NoMemory>
    ensures cells { IfOk result (λ whole. IsTrue whole → map bit_read characters.now ≡ map (λ cell. Some (tri_bit cell)) cells.new.items) }
    ensures none { IfOk result (λ whole. whole ≡ false → ¬ All (λ c. IsSome (bit_read c)) characters.now) }
{
    cells.clear();
    for character in characters {
        let Some(cell) = read_cell(*character) else {
            return Ok(false);
        };
        match cells.push(cell) {
            Ok(()) => {}
            Err(AllocFailed { value: _ }) => return Err(NoMemory),
        }
    }
    Ok(true)
}

fn read_cell(character: u8) -> Option<Tri>
    ensures { option_map tri_bit result ≡ bit_read character }
{
    match character {
        b'0' => Some(Tri::Zero),
        b'1' => Some(Tri::One),
        b'x' | b'X' => Some(Tri::X),
        _ => None,
    }
}
