//! A netlist that keeps all rules.
ghost use Rattle.std.specs.Prelude.{◌≡◌, ◌<◌, ◌≤◌, length, slice_get, Some, IfSome, IsNone, IfOk, IfErr, OnOk, All, Contains};
ghost use Rattle.sr_model.specs.Limits.{max_gate_signals, max_signals};
ghost use Rattle.sr_model.specs.Declaration.{declared, declarations_of};
ghost use Rattle.netlist.specs.Checks.{IsRefusal};
ghost use Rattle.netlist.specs.Circuit.{IsCircuit, IsNetlist, circuit_of};
ghost use Rattle.netlist.specs.Numbering.{IsStatement};
ghost use Rattle.netlist.specs.Ranks.{IsOrder};
ghost use Rattle.netlist.specs.Wiring.{driver_at, kind_of, pins_of, readers, other_readers, signals_of, pin_parities, flip_flops, ArePinPlaces};

use crate::checks::NetRefusal;
use crate::loops::{Loop, gate_order};
use crate::names::NameTable;
use crate::numbers::number;
use crate::wiring::Wiring;
use sr_model::{Kind, Sig, Statements, to_bytes};
use std::alloc::Global;
use std::marker::Model;

/// A netlist: each signal is driven once, gates drive each other in no loop, and gates and flip-flops have as many pins as their kinds may have.
///
/// Signals are numbered from 0 by the first mentions of their names. Contracts see the names and drivers by number, the inputs and the outputs.
#[derive(Drop)]
pub struct Netlist {
    names: NameTable,
    wiring: Wiring,
    input_sigs: Vec<Sig>,
    output_sigs: Vec<Sig>,
    gate_sigs: Vec<Sig>,
}

impl Model for Netlist {
    ghost use Rattle.netlist.specs.Circuit.{Circuit, IsCircuit};
    ghost use Rattle.netlist.specs.Ranks.{IsOrder};

    ghost Value = { Circuit };

    ghost view = { λ n. record { names = n.names; drivers = n.wiring; inputs = n.input_sigs.items; outputs = n.output_sigs.items } };

    ghost invariant = { λ n. IsCircuit (record { names = n.names; drivers = n.wiring; inputs = n.input_sigs.items; outputs = n.output_sigs.items })
        × IsOrder n.wiring n.gate_sigs.items };
}

/// The netlist of the statements of a text, or why they are none.
///
/// The refusals are tried in the order of `NetRefusal`, each over all statements, whose memory is given back as soon as no rule looks at them any more.
/// Time and memory are linear in the statements, their pins and the bytes of their names. Names that were made to collide in a hash table take longer:
/// up to the square of their number.
pub fn build(alloc: Global, s: Statements) -> Result<Netlist, NetRefusal>
    requires { All IsStatement (declared s) }
    ensures netlist { OnOk result (IsNetlist (declared s)) }
    ensures circuit { IfOk result (λ n. n ≡ circuit_of (declared s)) }
    ensures refusal { IfErr result (IsRefusal (declarations_of s)) }
{
    let numbering = number(alloc, s)?;
    let wiring = Wiring::new(alloc, numbering.nodes, numbering.pins)?;
    match gate_order(alloc, &wiring)? {
        Ok(gate_sigs) => Ok(Netlist {
            names: numbering.names,
            wiring,
            input_sigs: numbering.inputs,
            output_sigs: numbering.outputs,
            gate_sigs,
        }),
        Err(Loop { name: sig, length }) => {
            let name = to_bytes(alloc, numbering.names.get(sig.0 as usize))?;
            Err(NetRefusal::Loop { name, length })
        }
    }
}

impl Netlist {
    /// How many signals there are.
    pub fn signals(&self) -> u32
        ensures count { result ≡ length self.now.drivers }
        ensures few { result ≤ max_signals }
        ensures circuit { IsCircuit self.now }
    {
        self.wiring.signals()
    }

    /// The bytes of a signal's name: 255 at most.
    pub fn name(&self, s: Sig) -> &[u8]
        requires { s.0 < length self.now.drivers }
        ensures name { slice_get self.now.names s.0 ≡ Some result.now }
        ensures short { length result.now ≤ 255 }
    {
        self.names.get(s.0 as usize)
    }

    /// The signal of a name, None exactly where no signal has it. Time is linear in the bytes of the name, unless names were made to collide:
    /// then up to the number of names.
    pub fn find(&self, name: &[u8]) -> Option<Sig>
        ensures some { IfSome result (λ s. slice_get self.now.names s.0 ≡ Some name.now) }
        ensures none { IsNone result → ¬ Contains self.now.names name.now }
    {
        self.names.find(name)
    }

    /// The inputs, in the order of their INPUT lines.
    pub fn inputs(&self) -> &[Sig]
        ensures { result.now ≡ self.now.inputs }
    {
        &self.input_sigs
    }

    /// The outputs, each once, in the order of their first OUTPUT lines.
    pub fn outputs(&self) -> &[Sig]
        ensures { result.now ≡ self.now.outputs }
    {
        &self.output_sigs
    }

    /// The signals that flip-flops drive, ascending.
    pub fn flip_flops(&self) -> &[Sig]
        ensures { result.now ≡ flip_flops self.now.drivers }
    {
        self.wiring.flip_flops()
    }

    /// The kind of gate, or flip-flop, that drives a signal; None for an input.
    pub fn kind_of(&self, s: Sig) -> Option<Kind>
        requires { s.0 < length self.now.drivers }
        ensures { result ≡ kind_of (driver_at self.now.drivers s.0) }
    {
        self.wiring.kind_of(s)
    }

    /// The pins of the gate or flip-flop that drives a signal, from left to right; none for an input.
    pub fn pins_of(&self, s: Sig) -> &[Sig]
        requires { s.0 < length self.now.drivers }
        ensures { result.now ≡ pins_of (driver_at self.now.drivers s.0) }
    {
        self.wiring.pins_of(s)
    }

    /// The signals whose gate or flip-flop has the signal among its pins, each once, ascending.
    pub fn readers(&self, s: Sig) -> &[Sig]
        requires { s.0 < length self.now.drivers }
        ensures { result.now ≡ readers self.now.drivers s }
    {
        self.wiring.readers(s)
    }

    /// The signals whose gate or flip-flop has the signal among its pins, other than the signal itself, each once, ascending.
    pub fn other_readers(&self, s: Sig) -> &[Sig]
        requires { s.0 < length self.now.drivers }
        ensures { result.now ≡ other_readers self.now.drivers s }
    {
        self.wiring.other_readers(s)
    }

    /// The signals of the gate or flip-flop that drives a signal: that signal and its pins, each once, ascending; none for an input.
    pub fn signals_of(&self, s: Sig) -> &[Sig]
        requires { s.0 < length self.now.drivers }
        ensures signals { result.now ≡ signals_of self.now.drivers s }
        ensures few { length result.now ≤ max_gate_signals }
    {
        self.wiring.signals_of(s)
    }

    /// For each of `signals_of`, in its order, whether it stands an odd number of times among the pins of the gate or flip-flop that drives the signal.
    pub fn pin_parities(&self, s: Sig) -> &[bool]
        requires { s.0 < length self.now.drivers }
        ensures { result.now ≡ pin_parities self.now.drivers s }
    {
        self.wiring.pin_parities(s)
    }

    /// For each pin of the gate or flip-flop that drives a signal, from left to right, its place among `signals_of`.
    pub fn pin_places(&self, s: Sig) -> &[u16]
        requires { s.0 < length self.now.drivers }
        ensures { ArePinPlaces self.now.drivers s result.now }
    {
        self.wiring.pin_places(s)
    }

    /// The signals that gates drive, by rank and then by number: inputs and flip-flops have rank 0, and a gate has one more than the greatest rank of its pins.
    pub fn order(&self) -> &[Sig]
        ensures { IsOrder self.now.drivers result.now }
    {
        &self.gate_sigs
    }
}
