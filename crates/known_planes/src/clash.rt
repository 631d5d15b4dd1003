//! Cells of which planes have both literals.
ghost use Rattle.std.specs.Prelude.{ℕ, ◌≡◌, ◌<◌, ◌≤◌, ◌↔◌, ◌*◌, ◌+◌, ◌/◌, IfSome, IsNone, IsTrue, false, true, slice_index_or};
ghost use Rattle.sr_model.specs.declared.cells.Cell.{Cell as AnyCell};
ghost use Rattle.sr_model.specs.Closure.{HasBoth, IsLeastClash};
ghost use Rattle.unroll.specs.Bits.{is_set};
ghost use Rattle.unroll.specs.Problem.{chunks_in, signals_in};
ghost use Rattle.known_planes.specs.Planes.{IsOf, lits};
ghost use Rattle.known_planes.specs.Clash.{has_both_at, lits_in_chunk};

use crate::planes::Planes;
use sr_model::{Cell, Sig};
use unroll::Problem;

impl Planes {
    /// The least cell, by cycle and then by signal, with both literals; None exactly where no cell has both. It goes by whole words.
    pub fn clash(&self, p: &Problem) -> Option<Cell>
        requires { IsOf p.now self.now }
        ensures some { IfSome result (IsLeastClash (lits p.now self.now)) }
        ensures within { IfSome result (λ c. c.sig.0 < signals_in p.now) }
        ensures none { IsNone result → (c : AnyCell) → HasBoth (lits p.now self.now) c → ⊥ }
    {
        for chunk in 0..p.chunks() {
            if let Some(cell) = self.clash_in_chunk(p, chunk) {
                return Some(cell);
            }
        }
        None
    }

    /// The least of the chunk's cells with both literals; None exactly where none of them has both.
    pub fn clash_in_chunk(&self, p: &Problem, chunk: u32) -> Option<Cell>
        requires of { IsOf p.now self.now }
        requires chunk { chunk < chunks_in p.now }
        ensures some { IfSome result (IsLeastClash (lits_in_chunk p.now self.now chunk)) }
        ensures within { IfSome result (λ c. c.sig.0 < signals_in p.now) }
        ensures none { IsNone result → (c : AnyCell) → c.cycle / 64 ≡ chunk → HasBoth (lits p.now self.now) c → ⊥ }
    {
        prove!(chunk < p.chunks());
        let both = self.both_in_chunk(chunk);
        if both == 0 {
            return None;
        }
        let i = both.trailing_zeros();
        let sig = self.first_with_both(chunk, i)?;
        Some(Cell {
            cycle: 64 * chunk + i,
            sig,
        })
    }

    /// Bit i is set exactly where some signal has it in both words of the chunk.
    fn both_in_chunk(&self, chunk: u32) -> u64
        requires { chunk < self.now.chunks }
        ensures { (i : ℕ) → IsTrue (is_set result i) ↔ ((s : ℕ) × (s < self.now.signals) × IsTrue (has_both_at self.now s chunk i)) }
    {
        let mut both = 0;
        for s in 0..self.signals() {
            let words = self.pair(Sig(s), chunk);
            both |= words.both();
        }
        both
    }

    /// The first signal that has bit i in both words of the chunk.
    fn first_with_both(&self, chunk: u32, i: u32) -> Option<Sig>
        requires chunk { chunk < self.now.chunks }
        requires bit { i < 64 }
        ensures some { IfSome result (λ s. (s.0 < self.now.signals) × IsTrue (has_both_at self.now s.0 chunk i) × ((t : ℕ) → t < s.0 → has_both_at self.now t chunk i ≡ false)) }
        ensures none { IsNone result → (t : ℕ) → t < self.now.signals → has_both_at self.now t chunk i ≡ false }
    {
        for s in 0..self.signals() {
            let words = self.pair(Sig(s), chunk);
            if words.has(false, i) && words.has(true, i) {
                return Some(Sig(s));
            }
        }
        None
    }
}
