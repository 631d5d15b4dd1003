//! The bits of signals as a dump.
ghost use Rattle.std.specs.Prelude.{◌≡◌, ◌≢◌, ◌<◌, ◌≤◌, ℕ, All, Some, length, map, IfOk, OnOk};
ghost use Rattle.std.specs.List.{AllPairs, range_with_len};
ghost use Rattle.sr_model.specs.declared.cells.Sig.{Sig as AnySig};
ghost use Rattle.sr_model.specs.Netlist.{Valuation};
ghost use Rattle.dump_reader.specs.Recording.{IsCount, tri_bit};
ghost use Rattle.cycle_sim.specs.BitTable.{bit_in};
ghost use Rattle.cycle_sim.specs.Simulation.{IsSimulated, bits_of, traced_rows};

use crate::bit_rows::BitRows;
use crate::cycles::simulated_bits;
use crate::execution::Execution;
use crate::input_bits::Stimulus;
use dump_reader::{Dump, Tri};
use netlist::Netlist;
use sr_model::{NoMemory, Sequence, Sig};
use std::alloc::Global;

/// The dump of these signals' bits in an execution, a row for each in this order.
pub fn trace_of(alloc: Global, e: &Execution, sigs: &[Sig]) -> Result<Dump, NoMemory>
    requires signals { All (λ (s : AnySig). s.0 < e.now.width) sigs.now }
    requires once { AllPairs (λ a b. a ≢ b) sigs.now }
    ensures cycles { IfOk result (λ d. d.cycles ≡ e.now.count) }
    ensures rows { IfOk result (λ d. d.rows ≡ traced_rows (bits_of e.now) e.now.count sigs.now) }
{
    let mut dump = Dump::new(alloc, e.cycles());
    let mut cells = Sequence::with_room(alloc, e.cycles() as usize)?;
    for sig in sigs {
        fill(e.bits(), sig.0 as usize, &mut cells)?;
        dump.add_row(*sig, cells.as_slice())?;
    }
    Ok(dump)
}

/// The dump of these signals' bits in the simulated execution. Of the other signals it keeps no bits but those of one cycle.
pub fn simulate_trace(
    alloc: Global,
    n: &Netlist,
    s: &Stimulus,
    sigs: &[Sig],
) -> Result<Dump, NoMemory>
    requires made { s.now.width ≡ length n.now.inputs }
    requires signals { All (λ (sig : AnySig). sig.0 < length n.now.drivers) sigs.now }
    requires once { AllPairs (λ a b. a ≢ b) sigs.now }
    ensures cycles { IfOk result (λ d. d.cycles ≡ s.now.count) }
    ensures rows { IfOk result (λ d. (v : Valuation) × IsSimulated n.now s.now.count (bit_in s.now) v × (d.rows ≡ traced_rows v s.now.count sigs.now)) }
{
    let bits = simulated_bits(alloc, n, s, sigs)?;
    let mut dump = Dump::new(alloc, s.cycles());
    let mut cells = Sequence::with_room(alloc, s.cycles() as usize)?;
    for j in 0..sigs.len() {
        fill(&bits, j, &mut cells)?;
        dump.add_row(sigs[j], cells.as_slice())?;
    }
    Ok(dump)
}

/// Puts the bits of a column into the cells of a row.
fn fill(bits: &BitRows, column: usize, cells: &mut Sequence<Tri>) -> Result<(), NoMemory>
    requires column { column < bits.now.width }
    ensures { OnOk result (map tri_bit cells.new.items ≡ map (λ cycle. Some (bit_in bits.now cycle column)) (range_with_len 0 bits.now.count)) }
{
    cells.clear();
    for cycle in 0..bits.count() {
        cells.push(tri(bits.bit(cycle, column)))?;
    }
    Ok(())
}

fn tri(bit: bool) -> Tri
    ensures { tri_bit result ≡ Some bit }
{
    if bit { Tri::One } else { Tri::Zero }
}
