//! Prints a dump.
ghost use Rattle.std.specs.Prelude.{◌≡◌, ◌<◌, ◌++◌, ◌∷◌, [], List, ℕ, length, map, OnOk, IfOk};
ghost use Rattle.std.specs.List.{All};
ghost use Rattle.std.specs.Fmt.{decimal};
ghost use Rattle.dump_reader.specs.Recording.{tri_bit};
ghost use Rattle.dump_reader.specs.Print.{bit_character, printed};

use crate::dump::{Dump, Tri};
use crate::head::HEAD_START;
use netlist::Netlist;
use sr_model::{Bytes, NoMemory, Sequence};
use sr_text::write_u64;
use std::alloc::{AllocError, AllocFailed, Global};

/// The text of a dump: `srdump 1`, `cycles T`, and for each row in order its signal's name, one space and T characters `0`, `1` or `x`. Each
/// line ends with a line feed.
///
/// The time is linear in the text's length, and memory is taken for many rows at once.
pub fn print_dump(alloc: Global, n: &Netlist, d: &Dump) -> Result<Bytes, NoMemory>
    requires { All (λ row. row.sig.0 < length n.now.drivers) d.now.rows }
    ensures { IfOk result (λ text. text.items ≡ printed n.now.names d.now) }
{
    let mut text = Vec::new(alloc);
    push_text(&mut text, HEAD_START)?;
    push_number(&mut text, d.cycles())?;
    for i in 0..d.row_count() {
        push_row(&mut text, n.name(d.row_sig(i)), d.row_bits(i))?;
    }
    Ok(Sequence::from_vec(text))
}

/// A number and a line feed.
fn push_number(text: &mut Vec<u8>, number: u32) -> Result<(), NoMemory>
    ensures { OnOk result (text.new.items ≡ text.old.items ++ (decimal number ++ 10 ∷ [])) }
{
    let mut digits = [0; 20];
    let len = write_u64(u64::from(number), &mut digits);
    push_text(text, &digits[..len])?;
    push_text(text, b"\n")
}

/// A row's name, a space, its characters and a line feed.
fn push_row(text: &mut Vec<u8>, name: &[u8], cells: &[Tri]) -> Result<(), NoMemory>
    ensures { OnOk result (text.new.items ≡ text.old.items ++ (name.now ++ 32 ∷ [] ++ map (λ cell. bit_character (tri_bit cell)) cells.now ++ 10 ∷ [])) }
{
    push_text(text, name)?;
    push_text(text, b" ")?;
    for cell in cells {
        push_byte(text, character_of(*cell))?;
    }
    push_byte(text, b'\n')
}

fn push_text(text: &mut Vec<u8>, more: &[u8]) -> Result<(), NoMemory>
    ensures { OnOk result (text.new.items ≡ text.old.items ++ more.now) }
{
    match text.extend_from_slice(more) {
        Ok(()) => Ok(()),
        Err(AllocError) => Err(NoMemory),
    }
}

fn push_byte(text: &mut Vec<u8>, byte: u8) -> Result<(), NoMemory>
    ensures { OnOk result (text.new.items ≡ text.old.items ++ byte ∷ []) }
{
    match text.push(byte) {
        Ok(()) => Ok(()),
        Err(AllocFailed { value: _ }) => Err(NoMemory),
    }
}

fn character_of(cell: Tri) -> u8
    ensures { result ≡ bit_character (tri_bit cell) }
{
    match cell {
        Tri::Zero => b'0',
        Tri::One => b'1',
        Tri::X => b'x',
    }
}
