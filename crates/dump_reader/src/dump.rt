//! A dump: what was recorded of some signals over a number of cycles.
ghost use Rattle.std.specs.Prelude.{◌≡◌, ◌↔◌, ◌<◌, ◌≤◌, ◌∷◌, ◌++◌, [], ℕ, length, map, Some, OnOk, OnErr, option_map, Contains, IsTrue};
ghost use Rattle.std.specs.List.{slice_get};
ghost use Rattle.std.specs.Vec.{vec_len, vec_capacity};
ghost use Rattle.sr_model.specs.Limits.{max_cycles};
ghost use Rattle.dump_reader.specs.Kept.{is_marked};

use sr_model::{NoMemory, Sig};
use std::alloc::{AllocError, Global};
use std::marker::Model;

/// What a dump says of a cell: its bit, or nothing.
#[derive(Clone, Copy, Debug, PartialEq, Eq)]
pub enum Tri {
    Zero,
    One,
    X,
}

/// Some signals over a number of cycles: 1 to 8,192 cycles, and rows of a signal and a cell for each cycle. No signal has two rows.
///
/// It takes a byte for each cell, four for each row, and one for each signal up to the last that has a row.
#[derive(Debug, Drop)]
pub struct Dump {
    cycles: u32,
    sigs: Vec<Sig>,
    /// The cells of the first row, then of the second, and so on.
    cells: Vec<Tri>,
    /// Whether a signal has a row, by its number, up to the last that has one.
    marks: Vec<bool>,
}

impl Model for Dump {
    ghost use Rattle.dump_reader.specs.Recording.{Recording};
    ghost use Rattle.dump_reader.specs.Kept.{rows_of};
    ghost use Rattle.dump_reader.specs.Kept.{IsKept};

    ghost Value = { Recording };

    ghost view = { λ d. record { cycles = d.cycles; rows = rows_of d.cycles d.sigs.items d.cells.items } };

    ghost invariant = { λ d. IsKept d.cycles d.sigs.items d.cells.items d.marks.items };
}

impl Dump {
    ghost use Rattle.dump_reader.specs.Recording.{IsCount, IsRecording, recorded, tri_bit, row_of};

    /// A dump of so many cycles and no row. It takes no memory.
    pub fn new(alloc: Global, cycles: u32) -> Dump
        requires { IsCount cycles }
        ensures cycles { result.cycles ≡ cycles }
        ensures rows { result.rows ≡ [] }
    {
        Dump {
            cycles,
            sigs: Vec::new(alloc),
            cells: Vec::new(alloc),
            marks: Vec::new(alloc),
        }
    }

    /// Adds the row of a signal that has none, with a cell for each cycle from the first on. After a refusal the dump is as it was.
    ///
    /// The time is linear in the cells, and memory is taken for many rows at once.
    pub fn add_row(&mut self, sig: Sig, bits: &[Tri]) -> Result<(), NoMemory>
        requires new_signal { ¬ Contains (recorded self.old.rows) sig }
        requires full { length bits.now ≡ self.old.cycles }
        ensures cycles { self.new.cycles ≡ self.old.cycles }
        ensures rows { OnOk result (self.new.rows ≡ self.old.rows ++ row_of sig bits.now ∷ []) }
        ensures unchanged { OnErr result (self.new ≡ self.old) }
    {
        reserve_mark(&mut self.marks, sig)?;
        reserve_sig(&mut self.sigs)?;
        match self.cells.extend_from_slice(bits) {
            Ok(()) => {}
            Err(AllocError) => return Err(NoMemory),
        }
        // There is room, so it is not refused.
        let _ = self.sigs.push(sig);
        self.marks[sig.0 as usize] = true;
        Ok(())
    }

    /// Whether the signal has a row. It takes constant time.
    pub fn has_row(&self, sig: Sig) -> bool
        ensures { IsTrue result ↔ Contains (recorded self.now.rows) sig }
    {
        let mark = self.marks.get(sig.0 as usize).copied();
        mark.unwrap_or(false)
    }

    /// How many cycles it has.
    pub fn cycles(&self) -> u32
        ensures value { result ≡ self.now.cycles }
        ensures recording { IsRecording self.now }
    {
        self.cycles
    }

    /// How many rows it has.
    pub fn row_count(&self) -> usize
        ensures { result ≡ length self.now.rows }
    {
        self.sigs.len()
    }

    /// The signal of row i, counted from 0.
    pub fn row_sig(&self, i: usize) -> Sig
        requires { i < length self.now.rows }
        ensures { option_map (λ row. row.sig) (slice_get self.now.rows i) ≡ Some result }
    {
        self.sigs[i]
    }

    /// The cells of row i, counted from 0: one for each cycle.
    pub fn row_bits(&self, i: usize) -> &[Tri]
        requires { i < length self.now.rows }
        ensures cells { option_map (λ row. row.bits) (slice_get self.now.rows i) ≡ Some (map tri_bit result.now) }
        ensures len { length result.now ≡ self.now.cycles }
        ensures few { length result.now ≤ max_cycles }
    {
        let cycles = self.cycles as usize;
        let start = i * cycles;
        &self.cells[start..start + cycles]
    }
}

/// Makes room for the mark of a signal, without setting it.
fn reserve_mark(marks: &mut Vec<bool>, sig: Sig) -> Result<(), NoMemory>
    ensures room { OnOk result (sig.0 < length marks.new.items) }
    ensures same { (i : ℕ) → is_marked marks.new.items i ≡ is_marked marks.old.items i }
{
    let place = sig.0 as usize;
    if place < marks.len() {
        return Ok(());
    }
    match marks.resize(place + 1, false) {
        Ok(()) => Ok(()),
        Err(AllocError) => Err(NoMemory),
    }
}

/// Makes room for one more signal.
fn reserve_sig(sigs: &mut Vec<Sig>) -> Result<(), NoMemory>
    ensures items { sigs.new.items ≡ sigs.old.items }
    ensures room { OnOk result (vec_len sigs.new < vec_capacity sigs.new) }
{
    match sigs.reserve(1) {
        Ok(()) => Ok(()),
        Err(AllocError) => Err(NoMemory),
    }
}
