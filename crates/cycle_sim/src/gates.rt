//! Gates made ready for many cycles.
ghost use Rattle.std.specs.Prelude.{◌≡◌, ◌<◌, ◌≤◌, ◌∷◌, [], Bool, true, false, All, map, length, IfOk, slice_index_or};
ghost use Rattle.std.specs.List.{count_by};
ghost use Rattle.sr_model.specs.declared.cells.Sig.{Sig as AnySig};
ghost use Rattle.sr_model.specs.Gate.{IsPinCount, value};
ghost use Rattle.netlist.specs.Circuit.{IsCircuit};
ghost use Rattle.netlist.specs.Wiring.{driver_at, is_gate};
ghost use Rattle.cycle_sim.specs.Frames.{AreGates, IsGate, bit_by_count, in_frame, output_index, value_by};

use netlist::Netlist;
use sr_model::{Family, Kind, NoMemory, Sequence, Sig, eval};
use std::alloc::Global;

/// A gate: of one or two pins by what it gives for their bits, a lone pin standing twice; a wide one has more.
#[derive(Clone, Copy, Debug, PartialEq, Eq)]
pub(crate) struct Gate {
    pub(crate) target: Sig,
    pub(crate) first: Sig,
    pub(crate) second: Sig,
    /// What it gives where the first pin and the second are 0 and 0, 1 and 0, 0 and 1, and 1 and 1.
    pub(crate) outputs: [bool; 4],
    pub(crate) wide: bool,
}

/// The gates of a netlist in its order, in which each stands behind those that drive its pins.
pub(crate) fn gates_in_order(alloc: Global, n: &Netlist) -> Result<Sequence<Gate>, NoMemory>
    requires circuit { IsCircuit n.now }
    ensures { IfOk result (λ gates. AreGates n.now gates.items) }
{
    let order = n.order();
    let mut gates = Sequence::with_room(alloc, order.len())?;
    for target in order {
        gates.push(gate_of(n, *target))?;
    }
    Ok(gates)
}

/// The gate of a signal.
fn gate_of(n: &Netlist, target: Sig) -> Gate
    requires circuit { IsCircuit n.now }
    requires target { target.0 < length n.now.drivers }
    requires driven { is_gate (driver_at n.now.drivers target.0) ≡ true }
    ensures target { result.target ≡ target }
    ensures gate { IsGate n.now result }
{
    let pins = n.pins_of(target);
    let Some(kind) = n.kind_of(target) else {
        return wide_gate(target);
    };
    match pins.len() {
        1 => Gate {
            target,
            first: pins[0],
            second: pins[0],
            outputs: lone_outputs(kind),
            wide: false,
        },
        2 => Gate {
            target,
            first: pins[0],
            second: pins[1],
            outputs: pair_outputs(kind),
            wide: false,
        },
        _ => wide_gate(target),
    }
}

/// A gate that is looked up in the netlist each time.
fn wide_gate(target: Sig) -> Gate
    ensures target { result.target ≡ target }
    ensures first { result.first ≡ target }
    ensures second { result.second ≡ target }
    ensures wide { result.wide ≡ true }
{
    Gate {
        target,
        first: target,
        second: target,
        outputs: [false; 4],
        wide: true,
    }
}

/// What a gate of one pin gives.
fn lone_outputs(kind: Kind) -> [bool; 4]
    requires { IsPinCount kind 1 }
    ensures { (b : Bool) → slice_index_or result (output_index b b) false ≡ value kind (b ∷ []) }
{
    [eval(kind, &[false]), false, false, eval(kind, &[true])]
}

/// What a gate of two pins gives.
fn pair_outputs(kind: Kind) -> [bool; 4]
    requires { IsPinCount kind 2 }
    ensures { (a b : Bool) → slice_index_or result (output_index a b) false ≡ value kind (a ∷ b ∷ []) }
{
    [
        eval(kind, &[false, false]),
        eval(kind, &[true, false]),
        eval(kind, &[false, true]),
        eval(kind, &[true, true]),
    ]
}

/// What a gate gives in a frame.
pub(crate) fn gate_bit(n: &Netlist, frame: &[bool], gate: &Gate) -> bool
    requires circuit { IsCircuit n.now }
    requires gate { IsGate n.now gate.now }
    requires frame { length frame.now ≡ length n.now.drivers }
    ensures { result ≡ value_by (driver_at n.now.drivers gate.now.target.0) (in_frame frame.now) }
{
    if gate.wide {
        return wide_bit(n, frame, gate.target);
    }
    let first = usize::from(frame[gate.first.0 as usize]);
    let second = usize::from(frame[gate.second.0 as usize]);
    gate.outputs[first + 2 * second]
}

/// What a gate of any number of pins gives in a frame, by how many of them are 1.
fn wide_bit(n: &Netlist, frame: &[bool], target: Sig) -> bool
    requires circuit { IsCircuit n.now }
    requires target { target.0 < length n.now.drivers }
    requires driven { is_gate (driver_at n.now.drivers target.0) ≡ true }
    requires frame { length frame.now ≡ length n.now.drivers }
    ensures { result ≡ value_by (driver_at n.now.drivers target.0) (in_frame frame.now) }
{
    let pins = n.pins_of(target);
    let ones = ones_among(frame, pins);
    match n.kind_of(target) {
        Some(kind) => bit_by_count(kind.family(), ones, pins.len()),
        None => false,
    }
}

/// What a gate of a family gives, where so many of its pins are 1.
fn bit_by_count(family: Family, ones: usize, pins: usize) -> bool
    ensures { result ≡ bit_by_count family ones pins }
{
    match family {
        Family::AndLike { pins: bit, target } => {
            let each = ones == if bit { pins } else { 0 };
            each == target
        }
        Family::Parity { inverted } => (ones % 2 == 1) != inverted,
    }
}

/// How many of the pins are 1 in a frame.
fn ones_among(frame: &[bool], pins: &[Sig]) -> usize
    requires pins { All (λ (pin : AnySig). pin.0 < length frame.now) pins.now }
    ensures { result ≡ count_by (in_frame frame.now) pins.now }
{
    let mut ones = 0;
    for pin in pins {
        ones += usize::from(frame[pin.0 as usize]);
    }
    ones
}
