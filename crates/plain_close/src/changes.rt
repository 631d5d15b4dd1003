//! New literals that are listed by chunk, and then added to planes.
ghost use Rattle.std.specs.Prelude.{ℕ, ◌≡◌, ◌≢◌, ◌<◌, ◌⊎◌, ◌++◌, ◌∷◌, [], IsFalse, IfOk, OnOk, length};
ghost use Rattle.sr_model.specs.declared.cells.Sig.{Sig as AnySig};
ghost use Rattle.std.specs.List.{Contains};
ghost use Rattle.unroll.specs.Problem.{Unrolling, IsInside, IsProblem};
ghost use Rattle.unroll.specs.Laws.{IsWoken};
ghost use Rattle.unroll.specs.Tasks.{task_at};
ghost use Rattle.known_planes.specs.Planes.{IsOf, has};
ghost use Rattle.plain_close.specs.Worklist.{IsWorklistOf, Pushed};
ghost use Rattle.plain_close.specs.Changes.{AddsChange, AddsChanges, IsChange, IsOwnChange, changes_in};
ghost use Rattle.plain_close.specs.declared.changes.Change.{Change as AnyChange};

use crate::worklist::Worklist;
use known_planes::Planes;
use sr_model::{NoMemory, Sequence, Sig};
use std::alloc::Global;
use unroll::{InChunk, PinWord, Problem};

/// New literals of a signal in a chunk.
#[derive(Clone, Copy)]
pub(crate) struct Change {
    pub(crate) sig: Sig,
    pub(crate) words: PinWord,
    /// The signal of the task that forces them, which is of the same chunk where it does not wait again.
    pub(crate) cause: Sig,
    /// Whether that task is to wait again once they are added.
    pub(crate) again: bool,
}

/// A list of changes for each chunk, none of them in it.
pub(crate) fn no_changes(alloc: Global, chunks: u32) -> Result<Vec<Sequence<Change>>, NoMemory>
    ensures size { IfOk result (λ lists. length lists.items ≡ chunks) }
    ensures none { IfOk result (λ lists. (at : ℕ) → changes_in lists.items at ≡ []) }
{
    let mut lists = Sequence::with_room(alloc, chunks as usize)?;
    for _ in 0..chunks {
        lists.push(Sequence::new(alloc))?;
    }
    Ok(lists.into_vec())
}

/// Whether something was added, and whether a cell has both literals since.
#[derive(Clone, Copy)]
pub(crate) struct Added {
    pub(crate) some: bool,
    pub(crate) clash: bool,
}

/// Adds changes of a chunk's blocks to planes. The tasks that new bits are in wait, but not the one that forces them itself unless it is to wait again.
pub(crate) fn add_changes(
    p: &Problem,
    chunk: u32,
    changes: &[Change],
    planes: &mut Planes,
    worklist: &mut Worklist,
) -> Added
    requires problem { IsProblem p.now }
    requires of { IsOf p.now planes.old }
    requires worklist { IsWorklistOf p.now worklist.old }
    requires changes { (change : AnyChange) → Contains changes.now change → IsChange p.now chunk change × (IsFalse change.again → IsOwnChange p.now (has p.now planes.old) chunk change) }
    ensures { AddsChanges p.now chunk changes.now result planes.old planes.new worklist.old worklist.new }
{
    let mut added = Added {
        some: false,
        clash: false,
    };
    for change in changes {
        added = add_change(p, chunk, *change, planes, worklist, added);
    }
    added
}

/// Adds one of them.
#[inline]
fn add_change(
    p: &Problem,
    chunk: u32,
    change: Change,
    planes: &mut Planes,
    worklist: &mut Worklist,
    added: Added,
) -> Added
    requires problem { IsProblem p.now }
    requires of { IsOf p.now planes.old }
    requires worklist { IsWorklistOf p.now worklist.old }
    requires change { IsChange p.now chunk change }
    ensures { AddsChange p.now chunk change added result planes.old planes.new worklist.old worklist.new }
{
    let sig = change.sig;
    let at = InChunk { sig, chunk };
    let fresh = planes.new_in_chunk(p, at, change.words);
    if fresh == 0 {
        return added;
    }
    planes.add_in_chunk(p, at, change.words);
    wake(worklist, at, fresh, change);
    let both = planes.word_in_chunk(p, at).both();
    Added {
        some: true,
        clash: added.clash | (both != 0),
    }
}

/// Lets the tasks wait that fresh bits of a change are in, but not the one that forces it unless that one is to wait again.
#[inline]
fn wake(worklist: &mut Worklist, at: InChunk, fresh: u64, change: Change)
    requires of { (u : Unrolling) × IsProblem u × IsWorklistOf u worklist.old × IsInside u at }
    ensures { (u : Unrolling) → IsProblem u → IsWorklistOf u worklist.old → IsInside u at → Pushed u (λ t. IsWoken u at fresh t × (IsFalse change.again → t ≢ task_at u change.cause at.chunk)) worklist.old worklist.new }
{
    if change.again {
        worklist.wake(at, fresh);
    } else {
        worklist.wake_but(at, fresh, change.cause);
    }
}
