//! Which signals stand an odd number of times among the pins of each gate and flip-flop.
ghost use Rattle.std.specs.Prelude.{ℕ, ◌≡◌, ◌<◌, ◌≤◌, ◌++◌, if◌then◌else◌, true, false, length, map, slice_index_or, IfOk, OnOk};
ghost use Rattle.std.specs.List.{All};
ghost use Rattle.sr_model.specs.Limits.{max_signals};
ghost use Rattle.netlist.specs.Wiring.{signals_of, pin_parities};
ghost use Rattle.netlist.specs.Nodes.{IsNodeWithin, drivers_from};
ghost use Rattle.netlist.specs.Entries.{has_sig, is_odd_in, AreMarksOf};
ghost use Rattle.netlist.specs.Indexed.{AreListsOf};

use crate::lists::SigLists;
use crate::wiring::{Node, pins_at};
use sr_model::{NoMemory, Sequence, Sig};
use std::alloc::Global;

/// The marks beside the lists of signals: whether each signal stands an odd number of times among the pins of the list's gate or flip-flop.
///
/// It goes over the pins once and over the lists twice. It keeps a byte a signal and a byte a pin, and while it runs it takes one more a signal.
pub(crate) fn parities_beside(
    alloc: Global,
    nodes: &[Node],
    pins: &[Sig],
    signal_lists: &SigLists,
) -> Result<Vec<bool>, NoMemory>
    requires nodes { All (IsNodeWithin (length pins.now)) nodes.now }
    requires pins { All (λ pin. pin.0 < length nodes.now) pins.now }
    requires few { length nodes.now ≤ max_signals }
    requires signals { AreListsOf (length nodes.now) signal_lists.now (signals_of (drivers_from pins.now nodes.now)) }
    ensures { IfOk result (λ marks. AreMarksOf signal_lists.now marks.items (pin_parities (drivers_from pins.now nodes.now))) }
{
    let mut marks = Sequence::with_room(alloc, pins.len() + nodes.len())?;
    let mut odd = vec![in alloc; false; nodes.len()].map_err(|_| NoMemory)?;
    for (target, node) in nodes.iter().enumerate() {
        let signals = signal_lists.get(Sig(target as u32));
        push_parities(&mut marks, &mut odd, pins_at(*node, pins), signals)?;
    }
    Ok(marks.into_vec())
}

/// Adds whether each of the signals stands an odd number of times among the pins, all of which are among the signals. No signal has a mark before and
/// after it.
fn push_parities(
    marks: &mut Sequence<bool>,
    odd: &mut [bool],
    pins: &[Sig],
    signals: &[Sig],
) -> Result<(), NoMemory>
    requires signals { All (λ s. s.0 < length odd.old) signals.now }
    requires pins { All (λ pin. pin.0 < length odd.old) pins.now }
    requires all { (s : ℕ) → has_sig pins.now s ≡ true → has_sig signals.now s ≡ true }
    requires clear { (s : ℕ) → slice_index_or odd.old s false ≡ false }
    ensures marks { OnOk result (marks.new.items ≡ marks.old.items ++ map (λ s. is_odd_in pins.now s.0) signals.now) }
    ensures size { OnOk result (length odd.new ≡ length odd.old) }
    ensures clear { OnOk result ((s : ℕ) → slice_index_or odd.new s false ≡ false) }
{
    toggle(odd, pins);
    push_marks(marks, odd, signals)?;
    clear(odd, signals);
    Ok(())
}

/// Turns over the signal's mark at each pin.
fn toggle(odd: &mut [bool], pins: &[Sig])
    requires pins { All (λ pin. pin.0 < length odd.old) pins.now }
    requires clear { (s : ℕ) → slice_index_or odd.old s false ≡ false }
    ensures size { length odd.new ≡ length odd.old }
    ensures odd { (s : ℕ) → slice_index_or odd.new s false ≡ is_odd_in pins.now s }
{
    for pin in pins {
        let mark = &mut odd[pin.0 as usize];
        *mark = !*mark;
    }
}

/// Adds the marks of the signals, in order.
fn push_marks(marks: &mut Sequence<bool>, odd: &[bool], signals: &[Sig]) -> Result<(), NoMemory>
    requires { All (λ s. s.0 < length odd.now) signals.now }
    ensures { OnOk result (marks.new.items ≡ marks.old.items ++ map (λ s. slice_index_or odd.now s.0 false) signals.now) }
{
    for s in signals {
        marks.push(odd[s.0 as usize])?;
    }
    Ok(())
}

/// Takes the marks of the signals away.
fn clear(odd: &mut [bool], signals: &[Sig])
    requires { All (λ s. s.0 < length odd.old) signals.now }
    ensures size { length odd.new ≡ length odd.old }
    ensures odd { (s : ℕ) → slice_index_or odd.new s false ≡ (if has_sig signals.now s then false else slice_index_or odd.old s false) }
{
    for s in signals {
        odd[s.0 as usize] = false;
    }
}
