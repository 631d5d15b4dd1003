//! The tasks and blocks of a small netlist.
use super::{built, drive};
use crate::{Block, Blocks, Problem, Task};
use netlist::Netlist;
use sr_model::{Kind, MAX_GATE_SIGNALS, Statement, to_bytes};
use std::alloc::Global;
use std::process::Abort;
use std::test::Fail;

/// Signals q 0, g 1, a 2, s 3, x 4 and y 5.
fn small(rt: &impl Abort, alloc: Global) -> Result<Netlist, Fail> {
    let rows = [
        drive(alloc, b"q", Kind::Dff, &[b"g"])?,
        drive(alloc, b"g", Kind::Nand, &[b"a", b"q", b"a"])?,
        drive(alloc, b"s", Kind::Dff, &[b"s"])?,
        drive(alloc, b"x", Kind::Xor, &[b"a", b"a"])?,
        drive(alloc, b"y", Kind::Xnor, &[b"q", b"a", b"q"])?,
        Statement::Input(to_bytes(alloc, b"a")?),
    ];
    built(rt, alloc, rows)
}

/// 130 cycles are three chunks.
fn over_130<'n>(rt: &impl Abort, net: &'n Netlist) -> Problem<'n> {
    assert!(rt; net.signals() == 6);
    Problem::new(net, 130)
}

#[test]
fn blocks_go_by_signal_and_chunk(rt: HostRuntime) -> Result<(), Fail> {
    let net = small(&rt, rt.alloc())?;
    let problem = over_130(&rt, &net);
    assert_eq!(rt;
        (problem.cycles(), problem.chunks(), problem.blocks()),
        (130, 3, 18)
    );
    assert_eq!(rt; problem.net().signals(), 6);
    let g = Block(5);
    assert_eq!(rt;
        (problem.sig_of(g).0, problem.chunk_of(g), problem.is_task(g)),
        (1, 2, true)
    );
    assert_eq!(rt; problem.block(problem.sig_of(g), 2), g);
    assert_eq!(rt; problem.task(problem.sig_of(g), 2), Task(5));
    assert!(rt; !problem.is_task(Block(7)), "an input");
    assert_eq!(rt;
        (problem.valid_bits(0), problem.valid_bits(2)),
        (u64::MAX, 3)
    );
    Ok(())
}

#[test]
fn tasks_have_their_blocks(rt: HostRuntime) -> Result<(), Fail> {
    let net = small(&rt, rt.alloc())?;
    let problem = over_130(&rt, &net);
    // a flip-flop over two chunks and in the last one, gates, one that drives itself
    let cases: [(u32, &[u32]); 7] = [
        (0, &[0, 1, 3]),
        (2, &[2, 5]),
        (4, &[1, 4, 7]),
        (9, &[9, 10]),
        (11, &[11]),
        (14, &[8, 14]),
        (16, &[1, 7, 16]),
    ];
    for (task, numbers) in cases {
        let mut blocks = Blocks::with_room(rt.alloc(), MAX_GATE_SIGNALS)?;
        assert!(rt; task < problem.blocks() && problem.is_task(Block(task)));
        problem.blocks_of(Task(task), &mut blocks);
        assert!(rt;
            blocks
                .as_slice()
                .iter()
                .map(|block| block.0)
                .eq(numbers.iter().copied()),
            "{task}"
        );
    }
    Ok(())
}

#[test]
fn blocks_are_in_their_tasks(rt: HostRuntime) -> Result<(), Fail> {
    let net = small(&rt, rt.alloc())?;
    let problem = over_130(&rt, &net);
    let cases: [(u32, &[u32]); 7] = [
        (0, &[0, 3, 15]),
        (1, &[0, 1, 4, 16]),
        (5, &[5, 2]),
        (7, &[4, 13, 16]),
        (9, &[9]),
        (10, &[9, 10]),
        (12, &[12]),
    ];
    for (block, numbers) in cases {
        assert!(rt; block < problem.blocks());
        let block = Block(block);
        assert_eq!(rt; problem.adjacent_count(block) as usize, numbers.len());
        for (i, number) in numbers.iter().enumerate() {
            assert_eq!(rt;
                problem.adjacent(block, i as u32),
                Some(Task(*number)),
                "{block:?} {i}"
            );
        }
        assert_eq!(rt; problem.adjacent(block, numbers.len() as u32), None);
    }
    let constant = problem.constant_tasks(rt.alloc())?;
    assert_eq!(rt;
        constant.as_slice(),
        [Task(12), Task(13), Task(14)].as_slice()
    );
    Ok(())
}
