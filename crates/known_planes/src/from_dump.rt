//! The literals of a dump.
ghost use Rattle.std.specs.Prelude.{ℕ, ◌≡◌, ◌<◌, ◌≤◌, ◌==◌, ◌&&◌, ◌||◌, Bool, None, IfOk, All, length, map, slice_get};
ghost use Rattle.sr_model.specs.declared.cells.Lit.{Lit};
ghost use Rattle.sr_model.specs.Dump.{dump_has, is_bit};
ghost use Rattle.dump_reader.specs.Recording.{tri_bit};
ghost use Rattle.unroll.specs.Bits.{is_set, word_for};
ghost use Rattle.unroll.specs.Problem.{signals_in};
ghost use Rattle.known_planes.specs.Planes.{has, IsOf};

use crate::planes::Planes;
use dump_reader::{Dump, Tri};
use sr_model::{NoMemory, Sig};
use std::alloc::Global;
use unroll::{InChunk, PinWord, Problem};

/// The planes with the literals of a dump. Time is linear in the blocks and in the dump's cells.
pub fn seed(alloc: Global, p: &Problem, d: &Dump) -> Result<Planes, NoMemory>
    requires cycles { d.now.cycles ≡ p.now.cycles }
    requires signals { All (λ row. row.sig.0 < signals_in p.now) d.now.rows }
    ensures of { IfOk result (IsOf p.now) }
    ensures literals { IfOk result (λ planes. (l : Lit) → has p.now planes l ≡ dump_has d.now.rows l) }
    ensures mark { IfOk result (λ planes. planes.mark ≡ None) }
{
    let mut planes = Planes::empty(alloc, p)?;
    for row in 0..d.row_count() {
        join_row(&mut planes, p, d.row_sig(row), d.row_bits(row));
    }
    Ok(planes)
}

/// Adds the literals of a signal's cells, one for each cycle.
fn join_row(planes: &mut Planes, p: &Problem, s: Sig, cells: &[Tri])
    requires of { IsOf p.now planes.old }
    requires signal { s.0 < signals_in p.now }
    requires cells { length cells.now ≡ p.now.cycles }
    ensures of { IsOf p.now planes.new }
    ensures literals { (l : Lit) → has p.now planes.new l ≡ (has p.now planes.old l || ((s.0 == l.cell.sig.0) && is_bit (slice_get (map tri_bit cells.now) l.cell.cycle) l.bit)) }
    ensures mark { planes.new.mark ≡ planes.old.mark }
{
    for chunk in 0..p.chunks() {
        let start = 64 * chunk as usize;
        let end = cells.len().min(start + 64);
        let words = words_of(&cells[start..end]);
        planes.add_in_chunk(p, InChunk { sig: s, chunk }, words);
    }
}

/// The literals of up to 64 cells.
fn words_of(cells: &[Tri]) -> PinWord
    requires { length cells.now ≤ 64 }
    ensures { (bit : Bool) (i : ℕ) → is_set (word_for bit result) i ≡ is_bit (slice_get (map tri_bit cells.now) i) bit }
{
    let mut words = PinWord::none();
    for (i, cell) in cells.iter().enumerate() {
        match cell {
            Tri::Zero => words.zero |= 1 << i,
            Tri::One => words.one |= 1 << i,
            Tri::X => {}
        }
    }
    words
}
