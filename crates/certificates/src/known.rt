//! The literals that are known so far, and what they force at one place.
ghost use Rattle.std.specs.Prelude.{ℕ, ◌≡◌, ◌↔◌, ◌⊎◌, ◌<◌, ◌≤◌, All, IfOk, IfSome, IsNone, IsTrue, OnOk, length, slice_index_or};
ghost use Rattle.std.specs.List.{Contains};
ghost use Rattle.sr_model.specs.declared.cells.Lit.{Lit as AnyLit};
ghost use Rattle.sr_model.specs.Closure.{ForcesAt};
ghost use Rattle.sr_model.specs.Dump.{dump_has};
ghost use Rattle.unroll.specs.Problem.{IsInside, IsProblem, signals_in, unrolled};
ghost use Rattle.known_planes.specs.Planes.{has, lits};
ghost use Rattle.certificates.specs.declared.claim.Claim.TheVariants as claims;
ghost use Rattle.certificates.specs.Known.{IsAnswer, IsCellIn, IsKept, IsThere, Sees};
ghost use Rattle.certificates.specs.Validity.{Holds};

use crate::claim::{Claim, Fact};
use dump_reader::Dump;
use gate_rules::forced_in_cycles_in_chunk;
use known_planes::{Planes, Seen, seed};
use sr_model::{Lit, MAX_GATE_SIGNALS, NoMemory, Sequence};
use std::alloc::Global;
use unroll::{Block, Blocks, InChunk, PinWord, PinWords, Problem};

/// The known literals, and room for the blocks of a gate or flip-flop: what is known there, and what is forced.
#[derive(Drop)]
pub(crate) struct Known {
    planes: Planes,
    blocks: Blocks,
    view: PinWords,
    out: PinWords,
}

impl Known {
    /// The literals of a dump.
    pub(crate) fn new(alloc: Global, p: &Problem, d: &Dump) -> Result<Known, NoMemory>
        requires problem { IsProblem p.now }
        requires cycles { d.now.cycles ≡ p.now.cycles }
        requires signals { All (λ row. row.sig.0 < signals_in p.now) d.now.rows }
        ensures kept { IfOk result (IsKept p.now) }
        ensures literals { IfOk result (λ known. (l : AnyLit) → has p.now known.planes l ≡ dump_has d.now.rows l) }
    {
        Ok(Known {
            planes: seed(alloc, p, d)?,
            blocks: Sequence::with_room(alloc, MAX_GATE_SIGNALS)?,
            view: Sequence::with_room(alloc, MAX_GATE_SIGNALS)?,
            out: Sequence::with_room(alloc, MAX_GATE_SIGNALS)?,
        })
    }

    /// Whether a claim is true of the known literals.
    pub(crate) fn bears_out(&mut self, p: &Problem, claim: Claim) -> Result<bool, NoMemory>
        requires kept { IsKept p.now self.old }
        requires there { IsThere p.now claim }
        ensures kept { OnOk result (IsKept p.now self.new) }
        ensures planes { self.new.planes ≡ self.old.planes }
        ensures holds { IfOk result (λ holds. IsTrue holds ↔ Holds (unrolled p.now) (lits p.now self.old.planes) claim) }
    {
        match claim {
            Claim::Forced(fact) => self.forces(p, fact),
            Claim::End => Ok(true),
            Claim::Contradiction(cell) => Ok(self.planes.bit(p, cell) == Seen::Both),
        }
    }

    /// Whether they force the literal at the place, by one rule that is asked for one cycle.
    fn forces(&mut self, p: &Problem, fact: Fact) -> Result<bool, NoMemory>
        requires kept { IsKept p.now self.old }
        requires there { IsThere p.now (claims.Forced fact) }
        ensures kept { OnOk result (IsKept p.now self.new) }
        ensures planes { self.new.planes ≡ self.old.planes }
        ensures forces { IfOk result (λ forces. IsTrue forces ↔ ForcesAt (unrolled p.now) (lits p.now self.old.planes) fact.place fact.lit) }
    {
        let sig = fact.place.target;
        let chunk = fact.place.cycle / 64;
        let task = InChunk { sig, chunk };
        self.see(p, task)?;
        let mask = 1 << (fact.place.cycle % 64);
        forced_in_cycles_in_chunk(p, task, mask, &self.blocks, &self.view, &mut self.out);
        Ok(self.is_out(p, fact.lit))
    }

    /// Puts the blocks of a task beside their words.
    fn see(&mut self, p: &Problem, task: InChunk) -> Result<(), NoMemory>
        requires kept { IsKept p.now self.old }
        requires inside { IsInside p.now task }
        ensures kept { OnOk result (IsKept p.now self.new) }
        ensures planes { self.new.planes ≡ self.old.planes }
        ensures sees { OnOk result (Sees p.now task self.new) }
    {
        p.blocks_in_chunk(task, &mut self.blocks);
        self.view.clear();
        self.out.clear();
        for i in 0..self.blocks.len() {
            let block = self.blocks.as_slice()[i];
            self.view.push(self.planes.word(block))?;
            self.out.push(PinWord::none())?;
        }
        Ok(())
    }

    /// Whether a literal is among those that are forced.
    fn is_out(&self, p: &Problem, l: Lit) -> bool
        requires cell { IsCellIn p.now l.cell }
        requires out { length self.now.out.items ≡ length self.now.blocks.items }
        ensures { IsAnswer p.now self.now.blocks.items self.now.out.items l result }
    {
        let block = p.block(l.cell.sig, l.cell.cycle / 64);
        match find(self.blocks.as_slice(), block) {
            Some(place) => self.out.as_slice()[place].has(l.bit, l.cell.cycle % 64),
            None => false,
        }
    }

    /// Adds a literal.
    pub(crate) fn add(&mut self, p: &Problem, l: Lit)
        requires kept { IsKept p.now self.old }
        requires cell { IsCellIn p.now l.cell }
        ensures kept { IsKept p.now self.new }
        ensures literals { (m : AnyLit) → IsTrue (has p.now self.new.planes m) ↔ (IsTrue (has p.now self.old.planes m) ⊎ (l ≡ m)) }
    {
        let sig = l.cell.sig;
        let chunk = l.cell.cycle / 64;
        let word = 1 << (l.cell.cycle % 64);
        let words = PinWord::of(l.bit, word, 0);
        self.planes.add_in_chunk(p, InChunk { sig, chunk }, words);
    }
}

/// The place of a block among others.
fn find(blocks: &[Block], block: Block) -> Option<usize>
    ensures within { IfSome result (λ place. place < length blocks.now) }
    ensures at { IfSome result (λ place. slice_index_or blocks.now place block ≡ block) }
    ensures none { IsNone result → ¬ Contains blocks.now block }
{
    blocks.iter().position(|other| other.0 == block.0)
}
