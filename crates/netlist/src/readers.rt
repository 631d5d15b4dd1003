//! The readers of each signal.
ghost use Rattle.std.specs.Prelude.{ℕ, ◌≡◌, ◌<◌, ◌≤◌, ◌==◌, not, length, IfOk};
ghost use Rattle.std.specs.List.{All, filter};
ghost use Rattle.sr_model.specs.Limits.{max_signals};
ghost use Rattle.netlist.specs.Wiring.{readers};
ghost use Rattle.netlist.specs.Nodes.{IsNodeWithin, drivers_from};
ghost use Rattle.netlist.specs.Entries.{items_in};

use crate::lists::{Entry, push_item};
use crate::wiring::{Node, pins_at};
use sr_model::{NoMemory, Sequence, Sig};
use std::alloc::Global;

/// The entries of the lists of readers: each gate and flip-flop is in the lists of its pins, once in each. The readers are ascending.
///
/// It goes over the nodes and the pins once. It takes eight bytes a pin, and while it runs eight a signal.
pub(crate) fn reader_entries(
    alloc: Global,
    nodes: &[Node],
    pins: &[Sig],
) -> Result<Sequence<Entry>, NoMemory>
    requires nodes { All (IsNodeWithin (length pins.now)) nodes.now }
    requires pins { All (λ pin. pin.0 < length nodes.now) pins.now }
    requires few { length nodes.now ≤ max_signals }
    ensures readers { IfOk result (λ found. (s : ℕ) → items_in found.items s ≡ readers (drivers_from pins.now nodes.now) (record { 0 = s })) }
    ensures pins { IfOk result (λ found. All (λ r. r.list.0 < length nodes.now) found.items) }
{
    let mut found = Sequence::with_room(alloc, pins.len())?;
    let mut last_items = vec![in alloc; None; nodes.len()].map_err(|_| NoMemory)?;
    for (reader, node) in nodes.iter().enumerate() {
        push_item(
            &mut found,
            &mut last_items,
            Sig(reader as u32),
            pins_at(*node, pins),
        )?;
    }
    Ok(found)
}

/// Leaves out each entry whose list is that of the item itself.
pub(crate) fn keep_others(entries: &mut Vec<Entry>)
    ensures { entries.new.items ≡ filter (λ r. not (r.item.0 == r.list.0)) entries.old.items }
{
    entries.retain(|entry| entry.item.0 != entry.list.0);
}
