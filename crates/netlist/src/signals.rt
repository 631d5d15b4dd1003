//! The signals of each gate and flip-flop.
ghost use Rattle.std.specs.Prelude.{ℕ, ◌≡◌, ◌<◌, ◌≤◌, ◌++◌, ◌∷◌, [], if◌then◌else◌, length, IfOk, OnOk};
ghost use Rattle.std.specs.List.{All};
ghost use Rattle.sr_model.specs.Limits.{max_signals};
ghost use Rattle.netlist.specs.Wiring.{readers, signals_of, is_driven};
ghost use Rattle.netlist.specs.Nodes.{drivers_from, driver_by};
ghost use Rattle.netlist.specs.Entries.{items_in};
ghost use Rattle.netlist.specs.Indexed.{AreListsOf};

use crate::lists::{Entry, SigLists, push_item};
use crate::wiring::Node;
use sr_model::{NoMemory, Sequence, Sig};
use std::alloc::{AllocError, AllocFailed, Global};

/// The entries of the lists of signals, by the readers of each signal: a signal is in the lists of its readers, and in its own where a gate or
/// flip-flop drives it. The signals are ascending.
///
/// It goes over the nodes and the readers once. It takes eight bytes a pin and eight a signal, and while it runs twelve a signal.
pub(crate) fn signal_entries(
    alloc: Global,
    nodes: &[Node],
    pins: &[Sig],
    reader_lists: &SigLists,
) -> Result<Sequence<Entry>, NoMemory>
    requires readers { AreListsOf (length nodes.now) reader_lists.now (readers (drivers_from pins.now nodes.now)) }
    requires few { length nodes.now ≤ max_signals }
    ensures signals { IfOk result (λ found. (t : ℕ) → items_in found.items t ≡ signals_of (drivers_from pins.now nodes.now) (record { 0 = t })) }
    ensures lists { IfOk result (λ found. All (λ r. r.list.0 < length nodes.now) found.items) }
{
    let mut found = Sequence::with_room(alloc, pins.len() + nodes.len())?;
    let mut last_items = vec![in alloc; None; nodes.len()].map_err(|_| NoMemory)?;
    let mut lists = Vec::with_capacity(alloc, nodes.len() + 1).map_err(|_| NoMemory)?;
    for (signal, node) in nodes.iter().enumerate() {
        let signal = Sig(signal as u32);
        lists.clear();
        push_lists(&mut lists, node, signal, reader_lists.get(signal))?;
        push_item(&mut found, &mut last_items, signal, &lists)?;
    }
    Ok(found)
}

/// Adds the lists that a signal is in: those of its readers, and its own where a gate or flip-flop drives it.
fn push_lists(
    lists: &mut Vec<Sig>,
    node: &Node,
    signal: Sig,
    readers: &[Sig],
) -> Result<(), NoMemory>
    ensures { OnOk result (lists.new.items ≡ lists.old.items ++ readers.now ++ (if is_driven (driver_by node.now.kind []) then signal ∷ [] else [])) }
{
    match lists.extend_from_slice(readers) {
        Ok(()) => {}
        Err(AllocError) => return Err(NoMemory),
    }
    if node.kind.is_none() {
        return Ok(());
    }
    match lists.push(signal) {
        Ok(()) => Ok(()),
        Err(AllocFailed { value: _ }) => Err(NoMemory),
    }
}
