//! Tasks that wait, over 8,300 signals, which are 130 words with three words of marks, and four chunks.
ghost use Rattle.std.specs.Prelude.{◌≡◌, ◌<◌, IfOk, All};
ghost use Rattle.sr_model.specs.declared.cells.Sig.{Sig as AnySig};

use crate::{InChunk, WaitingTasks};
use sr_model::{NoMemory, Sig};
use std::alloc::Global;
use std::process::Abort;
use std::test::Fail;

fn over_8300(alloc: Global) -> Result<WaitingTasks, NoMemory>
    ensures signals { IfOk result (λ q. q.signals ≡ 8300) }
    ensures chunks { IfOk result (λ q. q.chunks ≡ 4) }
{
    WaitingTasks::new(alloc, 8300, 4)
}

/// Lets tasks wait, each a signal and a chunk.
fn add(rt: &impl Abort, waiting: &mut WaitingTasks, tasks: &[(u32, u32)])
    requires signals { waiting.old.signals ≡ 8300 }
    requires chunks { waiting.old.chunks ≡ 4 }
    ensures signals { waiting.new.signals ≡ 8300 }
    ensures chunks { waiting.new.chunks ≡ 4 }
{
    for (sig, chunk) in tasks {
        assert!(rt; *sig < 8300 && *chunk < 4);
        let task = InChunk {
            sig: Sig(*sig),
            chunk: *chunk,
        };
        waiting.add(task);
    }
}

/// The next task, which is taken out.
fn taken(waiting: &mut WaitingTasks) -> Option<(u32, u32)>
    ensures signals { waiting.new.signals ≡ waiting.old.signals }
    ensures chunks { waiting.new.chunks ≡ waiting.old.chunks }
{
    let at = waiting.next()?;
    waiting.remove(at);
    Some((at.sig.0, at.chunk))
}

/// Takes tasks out, which come in this order.
fn take(rt: &impl Abort, waiting: &mut WaitingTasks, tasks: &[(u32, u32)])
    requires signals { waiting.old.signals ≡ 8300 }
    requires chunks { waiting.old.chunks ≡ 4 }
    ensures signals { waiting.new.signals ≡ 8300 }
    ensures chunks { waiting.new.chunks ≡ 4 }
{
    for task in tasks {
        assert_eq!(rt; taken(waiting), Some(*task));
    }
}

/// Up to the last word and down to the first, with the tasks that are added on the way ahead of the sweep and behind it.
#[test]
fn signals_go_up_and_down(rt: HostRuntime) -> Result<(), Fail> {
    let mut waiting = over_8300(rt.alloc())?;
    add(&rt, &mut waiting, &[(3, 0), (70, 0), (130, 0)]);
    take(&rt, &mut waiting, &[(3, 0), (70, 0), (130, 0)]);
    add(&rt, &mut waiting, &[(4, 0), (80, 0), (129, 0), (131, 0)]);
    take(&rt, &mut waiting, &[(131, 0), (129, 0), (80, 0)]);
    add(&rt, &mut waiting, &[(75, 0), (81, 0), (199, 0)]);
    take(&rt, &mut waiting, &[(75, 0), (4, 0), (81, 0), (199, 0)]);
    assert_eq!(rt; taken(&mut waiting), None);
    Ok(())
}

/// Where the words of the tasks lie far apart, so that some words of marks are 0, or end between two of them.
#[test]
fn words_lie_far_apart(rt: HostRuntime) -> Result<(), Fail> {
    let mut waiting = over_8300(rt.alloc())?;
    add(&rt, &mut waiting, &[(5, 0), (4096, 0), (8299, 0)]);
    take(&rt, &mut waiting, &[(5, 0), (4096, 0), (8299, 0)]);
    add(&rt, &mut waiting, &[(0, 0), (4095, 0), (8255, 0)]);
    take(&rt, &mut waiting, &[(8255, 0), (4095, 0), (0, 0)]);
    add(&rt, &mut waiting, &[(8299, 3), (2, 3)]);
    take_from(&rt, &mut waiting, &[(3, 3, Some(8299)), (3, 3, None)]);
    take(&rt, &mut waiting, &[(2, 3)]);
    assert_eq!(rt; taken(&mut waiting), None);
    Ok(())
}

#[test]
fn chunks_go_up_and_down(rt: HostRuntime) -> Result<(), Fail> {
    let mut waiting = over_8300(rt.alloc())?;
    add(&rt, &mut waiting, &[(199, 2), (5, 2), (64, 1)]);
    take(&rt, &mut waiting, &[(64, 1), (5, 2)]);
    add(&rt, &mut waiting, &[(7, 0), (8, 1), (9, 3)]);
    take(&rt, &mut waiting, &[(199, 2), (9, 3), (8, 1)]);
    add(&rt, &mut waiting, &[(0, 3)]);
    take(&rt, &mut waiting, &[(7, 0), (0, 3)]);
    assert_eq!(rt; taken(&mut waiting), None);
    Ok(())
}

/// Takes out signals of chunks from a number on, which are these.
fn take_from(rt: &impl Abort, waiting: &mut WaitingTasks, cases: &[(u32, u32, Option<u32>)])
    requires signals { waiting.old.signals ≡ 8300 }
    requires chunks { waiting.old.chunks ≡ 4 }
    ensures signals { waiting.new.signals ≡ 8300 }
    ensures chunks { waiting.new.chunks ≡ 4 }
{
    for (chunk, from, wanted) in cases {
        assert!(rt; *chunk < 4);
        let found = waiting.take_from(*chunk, *from).map(|sig| sig.0);
        assert_eq!(rt; found, *wanted, "{chunk} {from}");
    }
}

#[test]
fn the_next_signal_is_taken(rt: HostRuntime) -> Result<(), Fail> {
    let mut waiting = over_8300(rt.alloc())?;
    add(&rt, &mut waiting, &[(0, 2), (63, 2), (64, 2), (130, 2)]);
    add(&rt, &mut waiting, &[(199, 2), (7, 1)]);
    let cases = [
        (2, 64, Some(64)),
        (2, 65, Some(130)),
        (2, 131, Some(199)),
        (2, 131, None),
        (2, 8300, None),
        (2, 1000000, None),
        (2, 1, Some(63)),
        (2, 0, Some(0)),
        (2, 0, None),
        (1, 8, None),
        (1, 7, Some(7)),
        (0, 0, None),
    ];
    take_from(&rt, &mut waiting, &cases);
    add(&rt, &mut waiting, &[(65, 2)]);
    take_from(&rt, &mut waiting, &[(2, 0, Some(65)), (2, 66, None)]);
    Ok(())
}

#[test]
fn one_is_left_out(rt: HostRuntime) -> Result<(), Fail> {
    let mut waiting = over_8300(rt.alloc())?;
    add(&rt, &mut waiting, &[(66, 3)]);
    waiting.add_all(&[Sig(70), Sig(0), Sig(70)], 1);
    waiting.add_all_but(&[Sig(65), Sig(2), Sig(66)], 3, Sig(65));
    waiting.add_all_but(&[Sig(66), Sig(3)], 3, Sig(66));
    take(&rt, &mut waiting, &[(0, 1), (70, 1)]);
    take(&rt, &mut waiting, &[(2, 3), (3, 3), (66, 3)]);
    assert_eq!(rt; taken(&mut waiting), None);
    Ok(())
}
