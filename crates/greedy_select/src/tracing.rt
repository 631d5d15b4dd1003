//! What is known with the trace of one signal more.
ghost use Rattle.std.specs.Prelude.{ℕ, ◌≡◌, ◌<◌, ◌≤◌, ◌+◌, ◌*◌, ◌⊎◌, ◌↔◌, List, [], ◌∷◌, ◌++◌, length, slice_index_or, IfOk, IsTrue, OnOk};
ghost use Rattle.std.specs.List.{All, Contains};
ghost use Rattle.sr_model.specs.declared.cells.Lit.{Lit};
ghost use Rattle.sr_model.specs.declared.cells.Sig.{Sig as AnySig};
ghost use Rattle.sr_model.specs.Closure.{IsWithin, passing};
ghost use Rattle.sr_model.specs.Dump.{dump_has};
ghost use Rattle.sr_model.specs.Limits.{block_count, max_blocks, max_signals};
ghost use Rattle.netlist.specs.Wiring.{flip_flops};
ghost use Rattle.unroll.specs.Problem.{signals_in};
ghost use Rattle.cycle_sim.specs.Simulation.{bits_of, traced_rows};
ghost use Rattle.known_planes.specs.Counts.{known_count};
ghost use Rattle.known_planes.specs.Planes.{has, lits, IsOf};
ghost use Rattle.known_planes.specs.Rows.{IsRow, row_has};
ghost use Rattle.greedy_select.specs.Picks.{IsBest, IsNameBefore};
ghost use Rattle.greedy_select.specs.Ranking.{Gains, HasKnown};

use cycle_sim::Execution;
use known_planes::{Closer, Planes};
use netlist::Netlist;
use ratio::Ratio;
use sr_model::{NoMemory, Sig};
use std::alloc::Global;
use std::thread::Threads;
use unroll::{InChunk, PinWord, PinWords, Problem, SignalRecords};

/// An execution whose signals are traced, with its netlist.
#[derive(Drop)]
pub(crate) struct Tracing<'a, 'n> {
    p: Problem<'n>,
    e: &'a Execution,
    records: SignalRecords<'n>,
    ghost few_signals: { length p.circuit.drivers ≤ max_signals },
    ghost signals: { e.now.width ≡ length p.circuit.drivers },
    ghost cycles: { e.now.count ≡ p.cycles },
    ghost drivers: { records ≡ p.circuit.drivers },
}

/// A signal, and how many more flip-flop cells are known with its trace.
#[derive(Clone, Copy)]
struct Candidate {
    sig: Sig,
    gained: u64,
}

impl<'a, 'n> Tracing<'a, 'n> {
    /// An execution of a netlist. Memory is linear in the netlist's signals and pins.
    pub(crate) fn new(
        alloc: Global,
        n: &'n Netlist,
        e: &'a Execution,
    ) -> Result<Tracing<'a, 'n>, NoMemory>
        requires signals { e.now.width ≡ length n.now.drivers }
        requires cells { block_count (length n.now.drivers) e.now.count ≤ max_blocks }
        ensures problem { IfOk result (λ tracing. tracing.p ≡ record { circuit = n.now; cycles = e.now.count }) }
        ensures execution { IfOk result (λ tracing. tracing.e.now ≡ e.now) }
    {
        let p = Problem::new(n, e.cycles());
        let records = SignalRecords::new(alloc, p.net())?;
        Ok(Tracing { p, e, records })
    }

    pub(crate) fn net(&self) -> &'n Netlist
        ensures { result.now ≡ self.now.p.circuit }
    {
        self.p.net()
    }

    /// Adds to the planes what is known with the trace of a signal more, and moves the mark.
    pub(crate) fn add<R: Threads + Sync, C: Closer>(
        &self,
        rt: &R,
        alloc: Global,
        closer: &mut C,
        planes: &mut Planes,
        sig: Sig,
    ) -> Result<(), NoMemory>
        requires known { (sigs : List AnySig) × HasKnown self.now.p (bits_of self.now.e.now) sigs planes.old }
        requires signal { sig.0 < signals_in self.now.p }
        ensures { OnOk result ((sigs : List AnySig) → HasKnown self.now.p (bits_of self.now.e.now) sigs planes.old → HasKnown self.now.p (bits_of self.now.e.now) (sigs ++ sig ∷ []) planes.new) }
    {
        let row = self.row(alloc, sig)?;
        closer.close_in_place(
            rt,
            alloc,
            &self.p,
            &self.records,
            planes,
            sig,
            row.as_slice(),
        )?;
        planes.keep();
        Ok(())
    }

    /// The place of the best of some signals: the one with whose trace the most flip-flop cells are known, and of several such the one whose name is the least by its bytes.
    pub(crate) fn best<R: Threads + Sync, C: Closer>(
        &self,
        rt: &R,
        alloc: Global,
        closer: &mut C,
        planes: &mut Planes,
        sigs: &[Sig],
    ) -> Result<usize, NoMemory>
        requires known { (picked : List AnySig) × HasKnown self.now.p (bits_of self.now.e.now) picked planes.old }
        requires some { 0 < length sigs.now }
        requires signals { All (λ (s : AnySig). s.0 < signals_in self.now.p) sigs.now }
        ensures planes { OnOk result (planes.new ≡ planes.old) }
        ensures place { IfOk result (λ place. place < length sigs.now) }
        ensures best { IfOk result (λ place. (picked : List AnySig) → HasKnown self.now.p (bits_of self.now.e.now) picked planes.old
            → (count : ℕ) × IsBest self.now.p.circuit self.now.p.cycles (bits_of self.now.e.now) picked (Contains sigs.now) (slice_index_or sigs.now place (record { 0 = 0 })) count) }
    {
        let mut place = 0;
        let mut best = self.candidate(rt, alloc, closer, planes, sigs[0])?;
        for next in 1..sigs.len() {
            let other = self.candidate(rt, alloc, closer, planes, sigs[next])?;
            if self.is_better(other, best) {
                place = next;
                best = other;
            }
        }
        Ok(place)
    }

    /// Tries a signal: its trace is added to the planes, and they are put back.
    fn candidate<R: Threads + Sync, C: Closer>(
        &self,
        rt: &R,
        alloc: Global,
        closer: &mut C,
        planes: &mut Planes,
        sig: Sig,
    ) -> Result<Candidate, NoMemory>
        requires known { (picked : List AnySig) × HasKnown self.now.p (bits_of self.now.e.now) picked planes.old }
        requires signal { sig.0 < signals_in self.now.p }
        ensures planes { OnOk result (planes.new ≡ planes.old) }
        ensures signal { IfOk result (λ candidate. candidate.sig ≡ sig) }
        ensures gained { IfOk result (Gains self.now.p (bits_of self.now.e.now) planes.old) }
    {
        let row = self.row(alloc, sig)?;
        if self.is_known(planes, sig, row.as_slice()) {
            return Ok(Candidate { sig, gained: 0 });
        }
        closer.close_in_place(
            rt,
            alloc,
            &self.p,
            &self.records,
            planes,
            sig,
            row.as_slice(),
        )?;
        let gained = planes.go_back(&self.p);
        Ok(Candidate { sig, gained })
    }

    /// Whether more is known with the one than with the other, or as much and its name is less.
    fn is_better(&self, one: Candidate, other: Candidate) -> bool
        requires one { one.sig.0 < signals_in self.now.p }
        requires other { other.sig.0 < signals_in self.now.p }
        ensures { IsTrue result ↔ ((other.gained < one.gained) ⊎ ((one.gained ≡ other.gained) × IsNameBefore self.now.p.circuit one.sig other.sig)) }
    {
        if one.gained == other.gained {
            let name = self.net().name(one.sig);
            name.cmp(&self.net().name(other.sig)).is_lt()
        } else {
            one.gained > other.gained
        }
    }

    /// The words of a signal, by chunk.
    fn row(&self, alloc: Global, sig: Sig) -> Result<PinWords, NoMemory>
        requires { sig.0 < signals_in self.now.p }
        ensures row { IfOk result (λ row. IsRow self.now.p row.items) }
        ensures literals { IfOk result (λ row. (l : Lit) → row_has self.now.p sig row.items l ≡ dump_has (traced_rows (bits_of self.now.e.now) self.now.p.cycles (sig ∷ [])) l) }
    {
        let mut row = PinWords::with_room(alloc, self.p.chunks() as usize)?;
        for chunk in 0..self.p.chunks() {
            row.push(self.e.words_in_chunk(InChunk { sig, chunk }))?;
        }
        Ok(row)
    }

    /// Whether the planes have all literals of a signal's words.
    fn is_known(&self, planes: &Planes, sig: Sig, row: &[PinWord]) -> bool
        requires of { IsOf self.now.p planes.now }
        requires signal { sig.0 < signals_in self.now.p }
        requires row { IsRow self.now.p row.now }
        ensures { IsTrue result → IsWithin (passing (row_has self.now.p sig row.now)) (lits self.now.p planes.now) }
    {
        for chunk in 0..self.p.chunks() {
            if planes.new_in_chunk(&self.p, InChunk { sig, chunk }, row[chunk as usize]) != 0 {
                return false;
            }
        }
        true
    }

    /// How many flip-flop cells the planes have, over those of so many traces.
    pub(crate) fn ratio(&self, planes: &Planes, traces: usize) -> Ratio
        requires of { IsOf self.now.p planes.now }
        requires traces { traces ≤ length (flip_flops self.now.p.circuit.drivers) }
        ensures known { result.known ≡ known_count self.now.p.circuit self.now.p.cycles (has self.now.p planes.now) }
        ensures traced { result.traced ≡ traces * self.now.p.cycles }
    {
        let known = planes.count_known_flip_flops(&self.p);
        Ratio::new(known, traces as u64 * u64::from(self.e.cycles()))
    }
}
