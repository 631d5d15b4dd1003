//! The pins and readers of each signal in flat arrays.
ghost use Rattle.std.specs.Prelude.{◌≡◌, ◌<◌, ◌≤◌, List, length, IfOk};
ghost use Rattle.std.specs.List.{All};
ghost use Rattle.sr_model.specs.Limits.{max_signals};
ghost use Rattle.netlist.specs.Wiring.{driver_at, kind_of, pins_of, readers, other_readers, signals_of, pin_parities, flip_flops, is_flip_flop, ArePinPlaces, IsWired};
ghost use Rattle.netlist.specs.Nodes.{IsNodeWithin, driver_of, drivers_from};
ghost use Rattle.sr_model.specs.declared.cells.Sig.{Sig as AnySig};

use crate::lists::SigLists;
use crate::parities::parities_beside;
use crate::pin_places::{PinPlaces, pin_places};
use crate::readers::{keep_others, reader_entries};
use crate::signals::signal_entries;
use sr_model::{Kind, NoMemory, Sequence, Sig};
use std::alloc::Global;
use std::marker::Model;

/// Where a signal's pins lie in the flat list of pins: from `first_pin` on, `pin_count` of them. An input has no kind and no pins.
#[derive(Clone, Copy)]
pub(crate) struct Node {
    pub(crate) kind: Option<Kind>,
    pub(crate) first_pin: u32,
    pub(crate) pin_count: u32,
}

impl Node {
    fn is_flip_flop(&self) -> bool
        ensures { (pins : List AnySig) → result ≡ is_flip_flop (driver_of pins self.now) }
    {
        self.kind.is_some_and(|kind| kind.is_flip_flop())
    }
}

/// The pins and readers of each signal in flat arrays; contracts see the list of drivers.
#[derive(Drop)]
pub(crate) struct Wiring {
    nodes: Vec<Node>,
    pins: Vec<Sig>,
    readers: SigLists,
    other_readers: SigLists,
    signals: SigLists,
    /// Beside the lists of signals.
    parities: Vec<bool>,
    places: PinPlaces,
    flip_flop_sigs: Vec<Sig>,
}

impl Model for Wiring {
    ghost use Rattle.std.specs.Prelude.{List};
    ghost use Rattle.sr_model.specs.Netlist.{Driver};
    ghost use Rattle.netlist.specs.Nodes.{drivers_from};
    ghost use Rattle.netlist.specs.Indexed.{IsIndexed};

    ghost Value = { List Driver };

    ghost view = { λ w. drivers_from w.pins.items w.nodes.items };

    ghost invariant = { λ w. IsIndexed w.pins.items w.nodes.items w.readers w.other_readers w.signals w.parities.items w.places.starts.items w.places.places.items w.flip_flop_sigs.items };
}

impl Wiring {
    /// The netlist of these nodes and pins.
    ///
    /// Time is linear in the number of signals and pins. Besides what it is given it keeps 37 bytes a signal, 15 a pin and eight a flip-flop at most,
    /// and while it runs it takes sixteen more a signal and eight more a pin.
    pub(crate) fn new(alloc: Global, nodes: Vec<Node>, pins: Vec<Sig>) -> Result<Wiring, NoMemory>
        requires nodes { All (IsNodeWithin (length pins.items)) nodes.items }
        requires pins { All (λ pin. pin.0 < length nodes.items) pins.items }
        requires few { length nodes.items ≤ max_signals }
        ensures { IfOk result (λ w. w ≡ drivers_from pins.items nodes.items) }
    {
        let flip_flop_sigs = flip_flops_of(alloc, &nodes)?;
        let mut entries = reader_entries(alloc, &nodes, &pins)?.into_vec();
        let readers = SigLists::new(alloc, &entries, nodes.len())?;
        keep_others(&mut entries);
        let other_readers = SigLists::new(alloc, &entries, nodes.len())?;
        drop(entries);
        let entries = signal_entries(alloc, &nodes, &pins, &readers)?;
        let signals = SigLists::new(alloc, entries.as_slice(), nodes.len())?;
        let parities = parities_beside(alloc, &nodes, &pins, &signals)?;
        let places = pin_places(alloc, &nodes, &pins, &signals)?;
        Ok(Wiring {
            nodes,
            pins,
            readers,
            other_readers,
            signals,
            parities,
            places,
            flip_flop_sigs,
        })
    }

    /// How many signals there are.
    pub(crate) fn signals(&self) -> u32
        ensures count { result ≡ length self.now }
        ensures few { result ≤ max_signals }
        ensures wired { IsWired self.now }
    {
        self.nodes.len() as u32
    }

    /// The kind of gate, or flip-flop, that drives the signal; None for an input.
    pub(crate) fn kind_of(&self, s: Sig) -> Option<Kind>
        requires { s.0 < length self.now }
        ensures { result ≡ kind_of (driver_at self.now s.0) }
    {
        self.nodes[s.0 as usize].kind
    }

    /// The pins of the gate or flip-flop that drives the signal, from left to right; none for an input.
    pub(crate) fn pins_of(&self, s: Sig) -> &[Sig]
        requires { s.0 < length self.now }
        ensures { result.now ≡ pins_of (driver_at self.now s.0) }
    {
        pins_at(self.nodes[s.0 as usize], &self.pins)
    }

    /// The signals whose gate or flip-flop reads the signal, each once, ascending.
    pub(crate) fn readers(&self, s: Sig) -> &[Sig]
        requires { s.0 < length self.now }
        ensures { result.now ≡ readers self.now s }
    {
        self.readers.get(s)
    }

    /// The signals whose gate or flip-flop reads the signal, other than the signal itself, each once, ascending.
    pub(crate) fn other_readers(&self, s: Sig) -> &[Sig]
        requires { s.0 < length self.now }
        ensures { result.now ≡ other_readers self.now s }
    {
        self.other_readers.get(s)
    }

    /// The signals of the gate or flip-flop that drives the signal, the signal among them, each once, ascending; none for an input.
    pub(crate) fn signals_of(&self, s: Sig) -> &[Sig]
        requires { s.0 < length self.now }
        ensures { result.now ≡ signals_of self.now s }
    {
        self.signals.get(s)
    }

    /// For each of `signals_of`, in its order, whether it stands an odd number of times among the pins.
    pub(crate) fn pin_parities(&self, s: Sig) -> &[bool]
        requires { s.0 < length self.now }
        ensures { result.now ≡ pin_parities self.now s }
    {
        self.signals.beside(s, &self.parities)
    }

    /// For each of the pins, from left to right, its place among `signals_of`.
    pub(crate) fn pin_places(&self, s: Sig) -> &[u16]
        requires { s.0 < length self.now }
        ensures { ArePinPlaces self.now s result.now }
    {
        let start = self.places.starts[s.0 as usize];
        &self.places.places[start..start + self.pins_of(s).len()]
    }

    /// The signals that a flip-flop drives, ascending.
    pub(crate) fn flip_flops(&self) -> &[Sig]
        ensures { result.now ≡ flip_flops self.now }
    {
        &self.flip_flop_sigs
    }
}

/// A node's pins, from left to right.
pub(crate) fn pins_at(node: Node, pins: &[Sig]) -> &[Sig]
    requires { IsNodeWithin (length pins.now) node }
    ensures { result.now ≡ pins_of (driver_of pins.now node) }
{
    let first = node.first_pin as usize;
    &pins[first..first + node.pin_count as usize]
}

/// The signals that a flip-flop drives, ascending.
fn flip_flops_of(alloc: Global, nodes: &[Node]) -> Result<Vec<Sig>, NoMemory>
    requires few { length nodes.now ≤ max_signals }
    ensures { IfOk result (λ sigs. (pins : List AnySig) → sigs.items ≡ flip_flops (drivers_from pins nodes.now)) }
{
    let mut sigs = Sequence::new(alloc);
    for (s, node) in nodes.iter().enumerate() {
        if node.is_flip_flop() {
            sigs.push(Sig(s as u32))?;
        }
    }
    Ok(sigs.into_vec())
}
