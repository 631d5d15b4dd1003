//! Where the pins of each gate and flip-flop stand among its signals.
ghost use Rattle.std.specs.Prelude.{ℕ, ◌≡◌, ◌<◌, ◌≤◌, ◌++◌, List, Some, length, map, slice_get, slice_index, IfOk, OnOk};
ghost use Rattle.std.specs.List.{All, Contains};
ghost use Rattle.sr_model.specs.Limits.{max_signals};
ghost use Rattle.netlist.specs.Wiring.{signals_of};
ghost use Rattle.netlist.specs.Nodes.{IsNodeWithin, drivers_from};
ghost use Rattle.netlist.specs.Indexed.{AreListsOf, ArePlaces};
ghost use Rattle.sr_model.specs.declared.cells.Sig.{Sig as AnySig};

use crate::lists::SigLists;
use crate::wiring::{Node, pins_at};
use sr_model::{NoMemory, Sequence, Sig};
use std::alloc::Global;

/// The places of the pins of each signal's gate or flip-flop among its signals, those of signal 0 first.
#[derive(Drop)]
pub(crate) struct PinPlaces {
    /// Where those of each signal begin.
    pub(crate) starts: Vec<usize>,
    pub(crate) places: Vec<u16>,
}

/// The places of all pins among the signals of their gates and flip-flops.
///
/// It goes over the lists and the pins once. It keeps eight bytes a signal and two a pin, and while it runs it takes two more a signal.
pub(crate) fn pin_places(
    alloc: Global,
    nodes: &[Node],
    pins: &[Sig],
    signal_lists: &SigLists,
) -> Result<PinPlaces, NoMemory>
    requires nodes { All (IsNodeWithin (length pins.now)) nodes.now }
    requires pins { All (λ pin. pin.0 < length nodes.now) pins.now }
    requires few { length nodes.now ≤ max_signals }
    requires signals { AreListsOf (length nodes.now) signal_lists.now (signals_of (drivers_from pins.now nodes.now)) }
    ensures { IfOk result (λ p. ArePlaces (drivers_from pins.now nodes.now) (length nodes.now) p.starts.items p.places.items) }
{
    let mut starts = Sequence::with_room(alloc, nodes.len())?;
    let mut places = Sequence::with_room(alloc, pins.len())?;
    let mut place_of = vec![in alloc; 0; nodes.len()].map_err(|_| NoMemory)?;
    for (target, node) in nodes.iter().enumerate() {
        starts.push(places.len())?;
        note_places(&mut place_of, signal_lists.get(Sig(target as u32)));
        push_places(&mut places, &place_of, pins_at(*node, pins))?;
    }
    Ok(PinPlaces {
        starts: starts.into_vec(),
        places: places.into_vec(),
    })
}

/// Notes for each of the signals a place at which it stands among them.
fn note_places(place_of: &mut [u16], signals: &[Sig])
    requires signals { All (λ s. s.0 < length place_of.old) signals.now }
    requires few { length signals.now ≤ max_signals }
    ensures size { length place_of.new ≡ length place_of.old }
    ensures places { (s : AnySig) → Contains signals.now s → slice_get signals.now (slice_index place_of.new s.0) ≡ Some s }
{
    for (place, s) in signals.iter().enumerate() {
        place_of[s.0 as usize] = place as u16;
    }
}

/// Adds the places that are noted for the pins.
fn push_places(places: &mut Sequence<u16>, place_of: &[u16], pins: &[Sig]) -> Result<(), NoMemory>
    requires { All (λ pin. pin.0 < length place_of.now) pins.now }
    ensures { OnOk result (places.new.items ≡ places.old.items ++ map (λ pin. slice_index place_of.now pin.0) pins.now) }
{
    for pin in pins {
        places.push(place_of[pin.0 as usize])?;
    }
    Ok(())
}
