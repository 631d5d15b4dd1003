//! Flip-flops over two chunks and in the last one, bit by bit.
use super::few_pins::check_flip_flop;
use super::net_of;
use crate::{forced, forced_in_cycles};
use netlist::Netlist;
use sr_model::{Kind, MAX_GATE_SIGNALS};
use std::alloc::Global;
use std::process::Abort;
use std::test::Fail;
use unroll::{Block, Blocks, PinWord, PinWords, Problem, Task};

const CYCLES: u32 = 130;

/// All cycles of a chunk, the last one alone, and some.
const MASKS: [u64; 3] = [u64::MAX, 1 << 63, 0x8000_0f0f_5555_0001];

/// A word that looks like noise.
fn noise(seed: u64) -> u64 {
    let mut word = seed.wrapping_mul(0x9e37_79b9_7f4a_7c15) ^ 0x1234_5678_9abc_def1;
    word ^= word << 13;
    word ^= word >> 7;
    word ^= word << 17;
    word
}

/// Whether a block's words have the literal of a cycle.
fn has(
    problem: &Problem<'_>,
    blocks: &Blocks,
    words: &PinWords,
    cell: (u32, u32),
    bit: bool,
) -> bool {
    let (signal, cycle) = cell;
    for (block, word) in blocks.as_slice().iter().zip(words.as_slice()) {
        if block.0 < problem.blocks()
            && problem.sig_of(*block).0 == signal
            && problem.chunk_of(*block) == cycle / 64
        {
            let word = if bit { word.one } else { word.zero };
            return (word >> (cycle % 64)) & 1 == 1;
        }
    }
    false
}

/// Whether the bit of a cell follows at an instance of the chunk in a cycle of the mask: from the pin's in the same cycle, or the target's in the next one.
fn follows(
    problem: &Problem<'_>,
    blocks: &Blocks,
    view: &PinWords,
    (chunk, mask): (u32, u64),
    pin: u32,
    cell: (u32, u32),
    bit: bool,
) -> bool {
    let (signal, cycle) = cell;
    for from in [cycle, cycle.saturating_sub(1)] {
        let next = from.wrapping_add(1);
        let there = from / 64 == chunk && next < CYCLES && (mask >> (from % 64)) & 1 == 1;
        let on = (signal == pin && cycle == from) || (signal == 0 && cycle == next);
        let known = has(problem, blocks, view, (pin, from), bit)
            || has(problem, blocks, view, (0, next), bit);
        if there && on && known {
            return true;
        }
    }
    false
}

/// Words that look like noise, for each block; none of a cycle that is not there.
fn noise_for(alloc: Global, problem: &Problem<'_>, blocks: &Blocks) -> Result<PinWords, Fail> {
    let mut view = PinWords::new(alloc);
    for block in blocks.as_slice() {
        view.push(noise_at(problem, *block))?;
    }
    Ok(view)
}

fn noise_at(problem: &Problem<'_>, block: Block) -> PinWord {
    let mut valid = 0;
    if block.0 < problem.blocks() {
        valid = problem.valid_bits(problem.chunk_of(block));
    }
    let number = u64::from(block.0);
    PinWord {
        zero: noise(number) & valid,
        one: noise(number ^ 128) & valid,
    }
}

fn blocks_in(
    rt: &impl Abort,
    alloc: Global,
    problem: &Problem<'_>,
    chunk: u32,
) -> Result<Blocks, Fail> {
    assert!(rt; chunk < problem.blocks());
    assert!(rt; problem.is_task(Block(chunk)));
    let mut blocks = Blocks::with_room(alloc, MAX_GATE_SIGNALS)?;
    problem.blocks_of(Task(chunk), &mut blocks);
    Ok(blocks)
}

/// What the calls set of the flip-flop's task in a chunk: `forced` of all cycles, and the other one of those of a mask.
fn forced_words(
    rt: &impl Abort,
    alloc: Global,
    problem: &Problem<'_>,
    (chunk, mask): (u32, u64),
    view: &PinWords,
) -> Result<PinWords, Fail> {
    assert!(rt; chunk < problem.blocks());
    assert!(rt; problem.is_task(Block(chunk)));
    let mut blocks = Blocks::with_room(alloc, MAX_GATE_SIGNALS)?;
    problem.blocks_of(Task(chunk), &mut blocks);
    let mut out = noise_for(alloc, problem, &blocks)?;
    assert!(rt; view.len() == blocks.len());
    assert!(rt; out.len() == blocks.len());
    if mask == u64::MAX {
        forced(problem, Task(chunk), &blocks, view, &mut out);
    } else {
        forced_in_cycles(problem, Task(chunk), mask, &blocks, view, &mut out);
    }
    Ok(out)
}

fn check_chunk(
    rt: &impl Abort,
    alloc: Global,
    problem: &Problem<'_>,
    (chunk, mask): (u32, u64),
    pin: u32,
) -> Result<(), Fail> {
    let blocks = blocks_in(rt, alloc, problem, chunk)?;
    let view = noise_for(alloc, problem, &blocks)?;
    let out = forced_words(rt, alloc, problem, (chunk, mask), &view)?;
    if mask == u64::MAX && pin != 0 {
        assert!(rt; chunk < problem.chunks());
        let valid = problem.valid_next_bits(chunk);
        check_flip_flop(rt, valid, view.as_slice(), out.as_slice());
    }
    for cycle in 0..192 {
        for cell in [(0, cycle), (pin, cycle)] {
            for bit in [false, true] {
                let due = follows(problem, &blocks, &view, (chunk, mask), pin, cell, bit);
                assert_eq!(rt;
                    has(problem, &blocks, &out, cell, bit),
                    due,
                    "{chunk} {mask:x} {cell:?} {bit}"
                );
            }
        }
    }
    Ok(())
}

fn check(rt: &impl Abort, alloc: Global, net: &Netlist, pin: u32) -> Result<(), Fail> {
    assert!(rt; net.signals() <= 2);
    let problem = Problem::new(net, CYCLES);
    for chunk in 0..3 {
        for mask in MASKS {
            check_chunk(rt, alloc, &problem, (chunk, mask), pin)?;
        }
    }
    Ok(())
}

#[test]
fn flip_flops_force_what_their_cycles_say(rt: HostRuntime) -> Result<(), Fail> {
    let net = net_of(&rt, rt.alloc(), (b"q", Kind::Dff, &[b"d"]), &[b"d"])?;
    check(&rt, rt.alloc(), &net, 1)?;
    let net = net_of(&rt, rt.alloc(), (b"q", Kind::Dff, &[b"q"]), &[])?;
    check(&rt, rt.alloc(), &net, 0)
}
