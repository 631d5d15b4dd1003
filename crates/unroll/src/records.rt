//! What a turn of a task needs to know of each signal, in one place.
ghost use Rattle.std.specs.Prelude.{◌≡◌, ◌<◌, ◌++◌, ◌∷◌, [], if◌then◌else◌, length, IfOk, OnOk};
ghost use Rattle.netlist.specs.Circuit.{IsCircuit};
ghost use Rattle.netlist.specs.Wiring.{driver_at, is_driven, pins_of};
ghost use Rattle.unroll.specs.Records.{HasShape, adjacent_signals, pin_or, wakes_before, woken_signals};

use crate::bits::is_set;
use crate::problem::InChunk;
use netlist::Netlist;
use sr_model::{Family, NoMemory, Sequence, Sig, Sigs};
use std::alloc::Global;
use std::marker::Model;

/// How a signal is driven.
#[derive(Clone, Copy, Debug, PartialEq, Eq)]
pub enum Shape {
    Input,
    /// By a gate with one pin, of another signal.
    OnePin(Family),
    /// By a gate with two pins, of two other signals.
    TwoPins(Family),
    /// By a flip-flop, whose pin is of another signal.
    FlipFlop,
    /// By a flip-flop that is its own pin.
    OwnPin,
    /// By a gate with more pins, or with two of one signal.
    Other,
}

/// How a signal is driven, by which pins, and where the signals adjacent to it stand.
#[derive(Clone, Copy, Debug, PartialEq, Eq)]
pub struct SignalRecord {
    pub shape: Shape,
    pub first: Sig,
    pub second: Sig,
    start: u32,
    count: u32,
}

/// A record for each signal of a netlist, made once, so that a turn reads one place for each signal of its task.
#[derive(Drop)]
pub struct SignalRecords<'n> {
    net: &'n Netlist,
    records: Vec<SignalRecord>,
    adjacent: Vec<Sig>,
}

impl<'n> Model for SignalRecords<'n> {
    ghost use Rattle.std.specs.Prelude.{◌≡◌, List, length};
    ghost use Rattle.sr_model.specs.Netlist.{Driver};
    ghost use Rattle.unroll.specs.Records.{AreRecordsOf};

    ghost Value = { List Driver };

    ghost view = { λ r. r.net.now.drivers };

    ghost invariant = { λ r. AreRecordsOf r.net.now.drivers r.adjacent.items r.records.items × (length r.records.items ≡ length r.net.now.drivers) };
}

impl<'n> SignalRecords<'n> {
    /// The records of a netlist. Time and memory are linear in its signals and pins.
    pub fn new(alloc: Global, net: &'n Netlist) -> Result<SignalRecords<'n>, NoMemory>
        ensures { IfOk result (λ records. records ≡ net.now.drivers) }
    {
        let signals = net.signals();
        let mut records = Sequence::with_room(alloc, signals as usize)?;
        let mut adjacent = Sigs::new(alloc);
        for number in 0..signals {
            let s = Sig(number);
            let start = adjacent.len();
            push_adjacent(net, s, &mut adjacent)?;
            let count = adjacent.len() - start;
            records.push(record_of(net, s, start as u32, count as u32))?;
        }
        Ok(SignalRecords {
            net,
            records: records.into_vec(),
            adjacent: adjacent.into_vec(),
        })
    }

    /// The record of a signal.
    #[inline]
    pub fn get(&self, s: Sig) -> SignalRecord
        requires { s.0 < length self.now }
        ensures { HasShape result.shape (driver_at self.now s.0) s result.first result.second }
    {
        self.records[s.0 as usize]
    }

    /// The signals whose tasks in a chunk a block of the signal in the chunk is in: its own first, where it is driven, and then those of its other readers, ascending.
    #[inline]
    pub fn adjacent(&self, s: Sig) -> &[Sig]
        requires { s.0 < length self.now }
        ensures { result.now ≡ adjacent_signals self.now s }
    {
        let record = &self.records[s.0 as usize];
        let start = record.start as usize;
        &self.adjacent[start..start + record.count as usize]
    }

    /// The tasks that have a cell of the bits which are fresh in a signal's block. A flip-flop's bit 0 is in its task of the chunk before, and the others are in that of the chunk,
    /// where they all are if the flip-flop is its own pin.
    #[inline]
    pub fn woken(&self, at: InChunk, fresh: u64) -> Woken<'_>
        requires { at.sig.0 < length self.now }
        ensures before { result.before ≡ wakes_before self.now at.sig at.chunk fresh }
        ensures here { result.here.now ≡ woken_signals self.now at.sig fresh }
    {
        let adjacent = self.adjacent(at.sig);
        let before = at.chunk > 0 && is_set(fresh, 0);
        let shape = self.records[at.sig.0 as usize].shape;
        if matches!(shape, Shape::FlipFlop) {
            Woken {
                before,
                here: if fresh <= 1 { &adjacent[1..] } else { adjacent },
            }
        } else if matches!(shape, Shape::OwnPin) {
            Woken {
                before,
                here: adjacent,
            }
        } else {
            Woken {
                before: false,
                here: adjacent,
            }
        }
    }
}

/// The tasks that wait once bits of a block are fresh.
#[derive(Clone, Copy)]
pub struct Woken<'a> {
    /// That of the block's own signal in the chunk before.
    pub before: bool,
    /// Those of these signals in the block's chunk.
    pub here: &'a [Sig],
}

/// Adds the signals that are adjacent to one.
fn push_adjacent(net: &Netlist, s: Sig, adjacent: &mut Sigs) -> Result<(), NoMemory>
    requires { s.0 < length net.now.drivers }
    ensures { OnOk result (adjacent.new.items ≡ adjacent.old.items ++ adjacent_signals net.now.drivers s) }
{
    push_own(net, s, adjacent)?;
    for reader in net.other_readers(s) {
        adjacent.push(*reader)?;
    }
    Ok(())
}

/// Adds the signal itself, where it is driven.
fn push_own(net: &Netlist, s: Sig, adjacent: &mut Sigs) -> Result<(), NoMemory>
    requires { s.0 < length net.now.drivers }
    ensures { OnOk result (adjacent.new.items ≡ adjacent.old.items ++ (if is_driven (driver_at net.now.drivers s.0) then s ∷ [] else [])) }
{
    if net.kind_of(s).is_some() {
        adjacent.push(s)
    } else {
        Ok(())
    }
}

/// The record of a signal, whose adjacent signals stand from a place on.
fn record_of(net: &Netlist, s: Sig, start: u32, count: u32) -> SignalRecord
    requires circuit { IsCircuit net.now }
    requires signal { s.0 < length net.now.drivers }
    ensures shape { HasShape result.shape (driver_at net.now.drivers s.0) s result.first result.second }
    ensures start { result.start ≡ start }
    ensures count { result.count ≡ count }
{
    let pins = net.pins_of(s);
    let shape = shape_of(net, s);
    let first = if pins.len() > 0 { pins[0] } else { s };
    let second = if pins.len() > 1 { pins[1] } else { s };
    SignalRecord {
        shape,
        first,
        second,
        start,
        count,
    }
}

/// How a signal is driven.
fn shape_of(net: &Netlist, s: Sig) -> Shape
    requires circuit { IsCircuit net.now }
    requires signal { s.0 < length net.now.drivers }
    ensures { HasShape result (driver_at net.now.drivers s.0) s (pin_or s (pins_of (driver_at net.now.drivers s.0)) 0) (pin_or s (pins_of (driver_at net.now.drivers s.0)) 1) }
{
    let Some(kind) = net.kind_of(s) else {
        return Shape::Input;
    };
    let pins = net.pins_of(s);
    if kind.is_flip_flop() {
        return if pins[0] == s {
            Shape::OwnPin
        } else {
            Shape::FlipFlop
        };
    }
    if pins.len() == 1 && pins[0] != s {
        return Shape::OnePin(kind.family());
    }
    if pins.len() == 2 && pins[0] != s && pins[1] != s && pins[0] != pins[1] {
        return Shape::TwoPins(kind.family());
    }
    Shape::Other
}
