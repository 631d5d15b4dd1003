//! Planes of one row, and planes that take the words of others.
ghost use Rattle.std.specs.Prelude.{◌≡◌, ◌<◌, IfOk};
ghost use Rattle.sr_model.specs.declared.cells.Lit.{Lit};
ghost use Rattle.unroll.specs.Problem.{signals_in};
ghost use Rattle.known_planes.specs.Planes.{has, IsOf};
ghost use Rattle.known_planes.specs.Rows.{IsRow, row_has};

use crate::planes::Planes;
use sr_model::{NoMemory, Sig};
use std::alloc::Global;
use unroll::{Block, InChunk, PinWord, Problem};

/// The planes with the literals of a row alone.
pub(crate) fn planes_of_row(
    alloc: Global,
    p: &Problem,
    sig: Sig,
    row: &[PinWord],
) -> Result<Planes, NoMemory>
    requires signal { sig.0 < signals_in p.now }
    requires row { IsRow p.now row.now }
    ensures of { IfOk result (IsOf p.now) }
    ensures literals { IfOk result (λ planes. (l : Lit) → has p.now planes l ≡ row_has p.now sig row.now l) }
{
    let mut planes = Planes::empty(alloc, p)?;
    for (chunk, words) in row.iter().enumerate() {
        let chunk = chunk as u32;
        planes.set_in_chunk(p, InChunk { sig, chunk }, *words);
    }
    Ok(planes)
}

/// Replaces the words of each block where those of other planes differ.
pub(crate) fn take_words(p: &Problem, planes: &mut Planes, from: &Planes)
    requires of { IsOf p.now planes.old }
    requires from { IsOf p.now from.now }
    ensures of { IsOf p.now planes.new }
    ensures mark { planes.new.mark ≡ planes.old.mark }
    ensures literals { (l : Lit) → has p.now planes.new l ≡ has p.now from.now l }
{
    for b in 0..p.blocks() {
        let words = from.word(Block(b));
        if planes.word(Block(b)) != words {
            planes.set(p, Block(b), words);
        }
    }
}
