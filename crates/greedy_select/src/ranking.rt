//! The greedy ranking: one flip-flop after another, each the one with which the most is known.
ghost use Rattle.std.specs.Prelude.{◌≡◌, ◌<◌, ◌≤◌, ◌+◌, [], length, IfOk, OnOk};
ghost use Rattle.sr_model.specs.Limits.{block_count, max_blocks};
ghost use Rattle.sr_model.specs.Closure.{SameLits};
ghost use Rattle.sr_model.specs.Dump.{Known};
ghost use Rattle.netlist.specs.Circuit.{IsCircuit};
ghost use Rattle.netlist.specs.Wiring.{flip_flops};
ghost use Rattle.unroll.specs.Problem.{unrolled};
ghost use Rattle.known_planes.specs.Planes.{lits, IsOf};
ghost use Rattle.cycle_sim.specs.Simulation.{bits_of};
ghost use Rattle.greedy_select.specs.Picks.{AreGreedy};
ghost use Rattle.greedy_select.specs.Ranking.{IsRanking};

use crate::picks::{Pick, Picks};
use crate::tracing::Tracing;
use cycle_sim::Execution;
use known_planes::{Closer, Planes};
use netlist::Netlist;
use sr_model::{NoMemory, Sig};
use std::alloc::Global;
use std::thread::Threads;
use unroll::Problem;

/// Picks so many flip-flops of a netlist for tracing, by what is known from their bits in an execution. Each is, of those not picked yet, the one with which and with the earlier ones
/// the most flip-flop cells are known, and of several such the one whose name is the least by its bytes. Its ratio is that count over the cells of the picks so far.
///
/// Each candidate is closed in place from the closure of the earlier picks, and taken back; one whose bits are known already is not closed. It takes the memory of planes with a
/// mark and of the records of the netlist, beside what the closer takes.
pub fn select<R: Threads + Sync, C: Closer>(
    rt: &R,
    alloc: Global,
    n: &Netlist,
    e: &Execution,
    width: u32,
    closer: &mut C,
) -> Result<Picks, NoMemory>
    requires signals { e.now.width ≡ length n.now.drivers }
    requires width { width ≤ length (flip_flops n.now.drivers) }
    requires cells { block_count (length n.now.drivers) e.now.count ≤ max_blocks }
    ensures width { IfOk result (λ picks. length picks.items ≡ width) }
    ensures picks { IfOk result (λ picks. AreGreedy n.now e.now.count (bits_of e.now) [] picks.items) }
{
    let p = Problem::new(n, e.cycles());
    // before the records of the netlist are made and the mark is set: a closer takes memory for records of its own
    let mut ranking = Ranking::new(rt, alloc, closer, &p)?;
    let tracing = Tracing::new(alloc, n, e)?;
    ranking.planes.set_mark(alloc)?;
    for _ in 0..width {
        ranking.pick_next(rt, alloc, &tracing, closer)?;
    }
    Ok(ranking.picks)
}

/// The flip-flops that are picked and those that are left.
#[derive(Drop)]
struct Ranking {
    /// What is known from the traces of the picked ones, with the mark at it.
    planes: Planes,
    picks: Picks,
    left: Vec<Sig>,
}

impl Ranking {
    /// None is picked, and the planes have no mark.
    fn new<R: Threads + Sync, C: Closer>(
        rt: &R,
        alloc: Global,
        closer: &mut C,
        p: &Problem,
    ) -> Result<Ranking, NoMemory>
        ensures of { IfOk result (λ ranking. IsOf p.now ranking.planes) }
        ensures known { IfOk result (λ ranking. SameLits (lits p.now ranking.planes) (Known (unrolled p.now) [])) }
        ensures picks { IfOk result (λ ranking. ranking.picks.items ≡ []) }
        ensures left { IfOk result (λ ranking. ranking.left.items ≡ flip_flops p.now.circuit.drivers) }
    {
        let left = flip_flops_of(alloc, p.net())?;
        Ok(Ranking {
            planes: untraced(rt, alloc, closer, p)?,
            picks: Picks::new(alloc),
            left,
        })
    }

    /// Picks the best of those that are left.
    fn pick_next<R: Threads + Sync, C: Closer>(
        &mut self,
        rt: &R,
        alloc: Global,
        tracing: &Tracing,
        closer: &mut C,
    ) -> Result<(), NoMemory>
        requires ranking { IsRanking tracing.now.p (bits_of tracing.now.e.now) self.old }
        requires left { length self.old.picks.items < length (flip_flops tracing.now.p.circuit.drivers) }
        ensures ranking { OnOk result (IsRanking tracing.now.p (bits_of tracing.now.e.now) self.new) }
        ensures picks { OnOk result (length self.new.picks.items ≡ length self.old.picks.items + 1) }
    {
        let left = self.left.as_slice();
        let place = tracing.best(rt, alloc, closer, &mut self.planes, left)?;
        let sig = self.left.remove(place);
        tracing.add(rt, alloc, closer, &mut self.planes, sig)?;
        let ratio = tracing.ratio(&self.planes, self.picks.len() + 1);
        self.picks.push(Pick { sig, ratio })
    }
}

/// The planes with what is known where nothing is traced. No cell has both literals there, so the planes can be closed where they lie.
fn untraced<R: Threads + Sync, C: Closer>(
    rt: &R,
    alloc: Global,
    closer: &mut C,
    p: &Problem,
) -> Result<Planes, NoMemory>
    requires { IsCircuit p.now.circuit }
    ensures of { IfOk result (IsOf p.now) }
    ensures known { IfOk result (λ planes. SameLits (lits p.now planes) (Known (unrolled p.now) [])) }
{
    closer.close_until_clash(rt, alloc, p, Planes::empty(alloc, p)?)
}

/// The flip-flops of a netlist.
fn flip_flops_of(alloc: Global, n: &Netlist) -> Result<Vec<Sig>, NoMemory>
    ensures { IfOk result (λ sigs. sigs.items ≡ flip_flops n.now.drivers) }
{
    Vec::from_slice(alloc, n.flip_flops()).map_err(|_| NoMemory)
}
