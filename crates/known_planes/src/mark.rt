//! What changed since a mark was set.
ghost use Rattle.std.specs.Prelude.{◌≡◌, ◌≤◌, ◌*◌, ◌++◌, [], length, option_to_list, IfOk, IfSome};
ghost use Rattle.sr_model.specs.Limits.{chunk_count, max_cycles, max_signals};
ghost use Rattle.known_planes.specs.Marks.{IsAmong, Notes};

use crate::layout::place_among;
use sr_model::NoMemory;
use std::alloc::Global;
use std::marker::Model;
use unroll::{InChunk, PinWord};

/// The words of a block before they were replaced.
#[derive(Clone, Copy)]
pub(crate) struct Change {
    pub(crate) at: InChunk,
    pub(crate) before: PinWord,
}

/// The blocks that were changed, each with its first words, and for each block whether it was. There is room for each block, so that no change is refused.
#[derive(Drop)]
pub(crate) struct Mark {
    changes: Vec<Change>,
    changed: Vec<bool>,
    signals: u32,
    chunks: u32,
}

impl Model for Mark {
    ghost use Rattle.known_planes.specs.Marks.{Noted, IsNotedOnce};

    ghost Value = { Noted };

    ghost view = { λ m. record { signals = m.signals; chunks = m.chunks; changes = m.changes.items } };

    ghost invariant = { λ m. IsNotedOnce (record { signals = m.signals; chunks = m.chunks; changes = m.changes.items }) m.changes.cap m.changed.items };
}

impl Mark {
    /// Nothing is changed yet.
    pub(crate) fn new(alloc: Global, signals: u32, chunks: u32) -> Result<Mark, NoMemory>
        requires signals { signals ≤ max_signals }
        requires chunks { chunks ≤ chunk_count max_cycles }
        ensures { IfOk result (λ mark. mark ≡ record { signals = signals; chunks = chunks; changes = [] }) }
    {
        let blocks = signals as usize * chunks as usize;
        let changes = Vec::with_capacity(alloc, blocks).map_err(|_| NoMemory)?;
        let changed = vec![in alloc; false; blocks].map_err(|_| NoMemory)?;
        Ok(Mark {
            changes,
            changed,
            signals,
            chunks,
        })
    }

    /// Notes the first change of a block, and no later one.
    pub(crate) fn note(&mut self, change: Change)
        requires { IsAmong self.old.signals self.old.chunks change.at }
        ensures signals { self.new.signals ≡ self.old.signals }
        ensures chunks { self.new.chunks ≡ self.old.chunks }
        ensures changes { Notes change self.old.changes self.new.changes }
        ensures few { length self.new.changes ≤ self.new.signals * self.new.chunks }
    {
        let order = place_among(self.signals, change.at.sig, change.at.chunk) / 2;
        if !self.changed[order] {
            self.changed[order] = true;
            self.changes.push_reserved(change);
        }
    }

    /// Takes the last change from the list.
    pub(crate) fn pop(&mut self) -> Option<Change>
        ensures signals { self.new.signals ≡ self.old.signals }
        ensures chunks { self.new.chunks ≡ self.old.chunks }
        ensures changes { self.old.changes ≡ self.new.changes ++ option_to_list result }
        ensures none { result ≡ None → self.new.changes ≡ [] }
        ensures among { IfSome result (λ change. IsAmong self.old.signals self.old.chunks change.at) }
    {
        let change = self.changes.pop()?;
        let order = place_among(self.signals, change.at.sig, change.at.chunk) / 2;
        self.changed[order] = false;
        Some(change)
    }

    /// Forgets all changes. Its time goes by how many there are.
    pub(crate) fn clear(&mut self)
        ensures { self.new ≡ record { signals = self.old.signals; chunks = self.old.chunks; changes = [] } }
    {
        while self.pop().is_some() {}
    }
}
