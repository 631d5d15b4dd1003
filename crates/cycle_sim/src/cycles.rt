//! The bits of all signals, cycle after cycle.
ghost use Rattle.std.specs.Prelude.{◌≡◌, ◌<◌, ◌≤◌, ◌+◌, ℕ, true, false, length, All, IfOk, slice_index_or};
ghost use Rattle.std.specs.List.{Contains};
ghost use Rattle.sr_model.specs.declared.cells.Sig.{Sig as AnySig};
ghost use Rattle.sr_model.specs.Netlist.{Valuation, cell_at};
ghost use Rattle.netlist.specs.Circuit.{IsCircuit};
ghost use Rattle.netlist.specs.Wiring.{driver_at, is_flip_flop, is_gate, flip_flops};
ghost use Rattle.dump_reader.specs.Recording.{IsCount};
ghost use Rattle.cycle_sim.specs.BitTable.{BitTable, bit_in};
ghost use Rattle.cycle_sim.specs.Simulation.{IsSimulated};
ghost use Rattle.cycle_sim.specs.Frames.{AllRight, AreGates, AreRight, IsState, StayRight, in_frame};

use crate::bit_rows::{BitRows, zeros};
use crate::gates::{Gate, gate_bit, gates_in_order};
use crate::input_bits::Stimulus;
use netlist::Netlist;
use sr_model::{NoMemory, Sequence, Sig};
use std::alloc::Global;

/// The simulated bits of these signals: a row for each cycle.
///
/// Beside them it takes a byte for each signal and flip-flop, and 20 for each gate. The time is linear in the pins of gates times cycles.
pub(crate) fn simulated_bits(
    alloc: Global,
    n: &Netlist,
    s: &Stimulus,
    kept: &[Sig],
) -> Result<BitRows, NoMemory>
    requires made { s.now.width ≡ length n.now.inputs }
    requires kept { All (λ (sig : AnySig). sig.0 < length n.now.drivers) kept.now }
    ensures width { IfOk result (λ t. t.width ≡ length kept.now) }
    ensures count { IfOk result (λ t. t.count ≡ s.now.count) }
    ensures circuit { IfOk result (λ t. IsCircuit n.now × IsCount t.count) }
    ensures bits { IfOk result (λ t. (v : Valuation) → IsSimulated n.now s.now.count (bit_in s.now) v → (cycle j : ℕ) → cycle < t.count → j < length kept.now
        → bit_in t cycle j ≡ v (cell_at cycle (slice_index_or kept.now j (record { 0 = 0 })))) }
{
    let mut frame = zeros(alloc, n.signals() as usize)?;
    let gates = gates_in_order(alloc, n)?;
    let mut state = zeros(alloc, n.flip_flops().len())?;
    let mut row = zeros(alloc, kept.len())?;
    let mut bits = BitRows::new(alloc, kept.len(), s.cycles() as usize)?;
    for cycle in 0..s.cycles() {
        next_cycle(n, s, cycle, gates.as_slice(), &mut frame, &mut state);
        keep(&frame, kept, &mut row);
        bits.set_row(cycle as usize, row.as_slice());
    }
    Ok(bits)
}

/// Sets the frame to the bits of a cycle, of which the state is known, and the state to that of the next cycle.
fn next_cycle(
    n: &Netlist,
    s: &Stimulus,
    cycle: u32,
    gates: &[Gate],
    frame: &mut [bool],
    state: &mut [bool],
)
    requires circuit { IsCircuit n.now }
    requires made { s.now.width ≡ length n.now.inputs }
    requires cycle { cycle < s.now.count }
    requires gates { AreGates n.now gates.now }
    requires frame { length frame.old ≡ length n.now.drivers }
    requires state { IsState n.now s.now cycle state.old }
    requires size { length state.old ≡ length (flip_flops n.now.drivers) }
    ensures frame_size { length frame.new ≡ length frame.old }
    ensures state_size { length state.new ≡ length state.old }
    ensures all { AllRight n.now s.now cycle frame.new }
    ensures state { cycle + 1 < s.now.count → IsState n.now s.now (cycle + 1) state.new }
{
    set_inputs(n, s, cycle, frame);
    set_flip_flops(n, state, frame);
    set_gates(n, gates, frame);
    next_state(n, frame, state);
}

/// Sets the inputs.
fn set_inputs(n: &Netlist, s: &Stimulus, cycle: u32, frame: &mut [bool])
    requires circuit { IsCircuit n.now }
    requires made { s.now.width ≡ length n.now.inputs }
    requires cycle { cycle < s.now.count }
    requires frame { length frame.old ≡ length n.now.drivers }
    ensures size { length frame.new ≡ length frame.old }
    ensures inputs { AreRight n.now s.now cycle frame.new (Contains n.now.inputs) }
{
    let inputs = n.inputs();
    for j in 0..inputs.len() {
        frame[inputs[j].0 as usize] = s.bit(j, cycle);
    }
}

/// Sets the flip-flops.
fn set_flip_flops(n: &Netlist, state: &[bool], frame: &mut [bool])
    requires size { length state.now ≡ length (flip_flops n.now.drivers) }
    requires frame { length frame.old ≡ length n.now.drivers }
    ensures size { length frame.new ≡ length frame.old }
    ensures kept { (s : BitTable) (cycle : ℕ) → IsState n.now s cycle state.now → StayRight n.now s cycle frame.old frame.new }
    ensures flip_flops { (s : BitTable) (cycle : ℕ) → IsState n.now s cycle state.now → AreRight n.now s cycle frame.new (λ sig. is_flip_flop (driver_at n.now.drivers sig.0) ≡ true) }
{
    let flip_flops = n.flip_flops();
    for j in 0..flip_flops.len() {
        frame[flip_flops[j].0 as usize] = state[j];
    }
}

/// Sets the gates, each after those that drive its pins.
fn set_gates(n: &Netlist, gates: &[Gate], frame: &mut [bool])
    requires circuit { IsCircuit n.now }
    requires gates { AreGates n.now gates.now }
    requires frame { length frame.old ≡ length n.now.drivers }
    ensures size { length frame.new ≡ length frame.old }
    ensures all { (s : BitTable) (cycle : ℕ) → cycle < s.count → AreRight n.now s cycle frame.old (λ sig. is_gate (driver_at n.now.drivers sig.0) ≡ false) → AllRight n.now s cycle frame.new }
{
    for gate in gates {
        frame[gate.target.0 as usize] = gate_bit(n, frame, gate);
    }
}

/// Sets the state to what the flip-flops have in the next cycle, if there is one.
fn next_state(n: &Netlist, frame: &[bool], state: &mut [bool])
    requires circuit { IsCircuit n.now }
    requires frame { length frame.now ≡ length n.now.drivers }
    requires size { length state.old ≡ length (flip_flops n.now.drivers) }
    ensures size { length state.new ≡ length state.old }
    ensures state { (s : BitTable) (cycle : ℕ) → AllRight n.now s cycle frame.now → cycle + 1 < s.count → IsState n.now s (cycle + 1) state.new }
{
    let flip_flops = n.flip_flops();
    for j in 0..flip_flops.len() {
        state[j] = frame[n.pins_of(flip_flops[j])[0].0 as usize];
    }
}

/// Copies the bits of these signals.
fn keep(frame: &[bool], kept: &[Sig], row: &mut [bool])
    requires kept { All (λ (sig : AnySig). sig.0 < length frame.now) kept.now }
    requires size { length row.old ≡ length kept.now }
    ensures size { length row.new ≡ length row.old }
    ensures bits { (j : ℕ) → j < length kept.now → slice_index_or row.new j false ≡ in_frame frame.now (slice_index_or kept.now j (record { 0 = 0 })) }
{
    for j in 0..kept.len() {
        row[j] = frame[kept[j].0 as usize];
    }
}
