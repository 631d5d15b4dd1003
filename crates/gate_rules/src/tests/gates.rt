//! Gates of up to four pins, in every state of every cell.
//!
//! A state has two bits a cell, for its literals 0 and 1; a row has one bit a cell. Cell 0 is the target, and the others are the pins' signals.
use super::few_pins::check_gate;
use super::net_of;
use crate::{Count, apply, forced, forced_in_cycles};
use netlist::Netlist;
use sr_model::{Kind, MAX_GATE_SIGNALS, Sig};
use std::alloc::Global;
use std::process::Abort;
use std::test::Fail;
use unroll::{Block, Blocks, PinWord, PinWords, Problem, Task};

/// The cells of the pins, from left to right.
const PINS: [&[u32]; 14] = [
    &[1],
    &[1, 1],
    &[1, 2],
    &[1, 1, 1],
    &[1, 1, 2],
    &[1, 2, 1],
    &[1, 2, 3],
    &[1, 1, 1, 1],
    &[1, 1, 1, 2],
    &[1, 1, 2, 2],
    &[1, 2, 1, 2],
    &[1, 1, 2, 3],
    &[1, 2, 3, 3],
    &[1, 2, 3, 4],
];

const KINDS: [Kind; 8] = [
    Kind::And,
    Kind::Nand,
    Kind::Or,
    Kind::Nor,
    Kind::Xor,
    Kind::Xnor,
    Kind::Not,
    Kind::Buf,
];

fn name_of(cell: u32) -> &'static [u8] {
    match cell {
        0 => b"z",
        1 => b"a",
        2 => b"b",
        3 => b"c",
        _ => b"d",
    }
}

/// How many cells there are: the target and the pins' signals, which are numbered from 1 as they come.
fn cells_of(pins: &[u32]) -> u32 {
    let most = pins.iter().copied().max().unwrap_or(0);
    most.min(4) + 1
}

/// Whether the target's bit is the value of the pins' bits.
fn is_row(kind: Kind, pins: &[u32], row: u32) -> bool {
    let ones = pins.iter().filter(|pin| has_one(row, **pin)).count();
    let value = match kind {
        Kind::And => ones == pins.len(),
        Kind::Nand => ones != pins.len(),
        Kind::Or | Kind::Buf | Kind::Dff => ones > 0,
        Kind::Nor | Kind::Not => ones == 0,
        Kind::Xor => ones % 2 == 1,
        Kind::Xnor => ones % 2 == 0,
    };
    has_one(row, 0) == value
}

fn has_one(row: u32, cell: u32) -> bool {
    (row >> cell.min(4)) & 1 == 1
}

/// The literals of a row, two bits a cell.
fn literals_of(cells: u32, row: u32) -> u32 {
    let mut literals = 0;
    for cell in 0..cells.min(5) {
        literals |= (if has_one(row, cell) { 2 } else { 1 }) << (2 * cell);
    }
    literals
}

/// The literals of each row of a gate.
fn rows_of(alloc: Global, kind: Kind, pins: &[u32], cells: u32) -> Result<Vec<u32>, Fail> {
    let mut rows = Vec::new(alloc);
    for row in 0..1 << cells.min(5) {
        if is_row(kind, pins, row) {
            rows.push(literals_of(cells, row))?;
        }
    }
    Ok(rows)
}

/// What a state forces, by its parts: what is common to all rows that agree with a part, for each part with which some row agrees.
fn plain_walk(rows: &[u32], known: u32) -> u32 {
    let mut forced = 0;
    for part in 0..=known {
        if part & !known == 0 {
            forced |= common(rows, part);
        }
    }
    forced
}

/// The literals that all rows have that agree with a part; none where no row does.
fn common(rows: &[u32], part: u32) -> u32 {
    let mut literals = u32::MAX;
    let mut agrees = false;
    for row in rows {
        if part & !*row == 0 {
            literals &= *row;
            agrees = true;
        }
    }
    if agrees { literals } else { 0 }
}

/// The words of a cell in 64 states that follow each other.
fn words_of(first: u32, cell: u32) -> PinWord {
    let mut words = PinWord { zero: 0, one: 0 };
    for lane in 0..64 {
        let state = first.wrapping_add(lane) >> (2 * cell.min(4));
        words.zero |= u64::from(state & 1) << lane;
        words.one |= u64::from((state >> 1) & 1) << lane;
    }
    words
}

/// The literals that the words have in one of the states.
fn state_at(words: &[PinWord], lane: u32) -> u32 {
    let lane = lane.min(63);
    let mut state = 0;
    for (cell, word) in words.iter().enumerate() {
        let shift = 2 * cell.min(4) as u32;
        if (word.zero >> lane) & 1 == 1 {
            state |= 1 << shift;
        }
        if (word.one >> lane) & 1 == 1 {
            state |= 2 << shift;
        }
    }
    state
}

/// The words of all cells in 64 states that follow each other.
fn view_of(alloc: Global, first: u32, cells: u32) -> Result<PinWords, Fail> {
    let mut view = PinWords::new(alloc);
    for cell in 0..cells {
        view.push(words_of(first, cell))?;
    }
    Ok(view)
}

/// What `forced` sets, from the words of all cells.
fn forced_words(
    rt: &impl Abort,
    alloc: Global,
    problem: &Problem<'_>,
    view: &PinWords,
) -> Result<PinWords, Fail> {
    assert!(rt; problem.blocks() > 0);
    assert!(rt; problem.is_task(Block(0)));
    let mut blocks = Blocks::with_room(alloc, MAX_GATE_SIGNALS)?;
    problem.blocks_of(Task(0), &mut blocks);
    let mut out = view_of(alloc, 0, problem.blocks())?;
    assert!(rt; view.len() == blocks.len());
    assert!(rt; out.len() == blocks.len());
    forced(problem, Task(0), &blocks, view, &mut out);
    Ok(out)
}

/// What `forced_in_cycles` sets in the cycles of a mask.
fn masked_words(
    rt: &impl Abort,
    alloc: Global,
    problem: &Problem<'_>,
    mask: u64,
    view: &PinWords,
) -> Result<PinWords, Fail> {
    assert!(rt; problem.blocks() > 0);
    assert!(rt; problem.is_task(Block(0)));
    let mut blocks = Blocks::with_room(alloc, MAX_GATE_SIGNALS)?;
    problem.blocks_of(Task(0), &mut blocks);
    let mut out = view_of(alloc, 0, problem.blocks())?;
    assert!(rt; view.len() == blocks.len());
    assert!(rt; out.len() == blocks.len());
    forced_in_cycles(problem, Task(0), mask, &blocks, view, &mut out);
    Ok(out)
}

/// What `apply` sets, and that it counts one application.
fn new_words(
    rt: &impl Abort,
    alloc: Global,
    problem: &Problem<'_>,
    view: &PinWords,
) -> Result<PinWords, Fail> {
    assert!(rt; problem.blocks() > 0);
    assert!(rt; problem.is_task(Block(0)));
    let mut blocks = Blocks::with_room(alloc, MAX_GATE_SIGNALS)?;
    problem.blocks_of(Task(0), &mut blocks);
    let mut out = view_of(alloc, 0, problem.blocks())?;
    assert!(rt; view.len() == blocks.len());
    assert!(rt; out.len() == blocks.len());
    let mut tally = Count::new();
    apply(problem, Task(0), &blocks, view, &mut out, &mut tally);
    assert!(rt; tally.number() == 1);
    Ok(out)
}

fn gate(rt: &impl Abort, alloc: Global, kind: Kind, pins: &[u32]) -> Result<Netlist, Fail> {
    let mut names = Vec::new(alloc);
    for pin in pins {
        names.push(name_of(*pin))?;
    }
    let mut inputs = Vec::new(alloc);
    for cell in 1..cells_of(pins) {
        inputs.push(name_of(cell))?;
    }
    net_of(rt, alloc, (name_of(0), kind, &names), &inputs)
}

/// A cycle in three.
const MASK: u64 = 0x9249_2492_4924_9249;

/// The calls beside the plain walk, in 64 states.
fn check_states(
    rt: &impl Abort,
    alloc: Global,
    problem: &Problem<'_>,
    (kind, rows): (Kind, &[u32]),
    first: u32,
    cells: u32,
) -> Result<(), Fail> {
    let view = view_of(alloc, first, cells)?;
    let all = forced_words(rt, alloc, problem, &view)?;
    let new = new_words(rt, alloc, problem, &view)?;
    let masked = masked_words(rt, alloc, problem, MASK, &view)?;
    let net = problem.net();
    assert!(rt; net.signals() > 0);
    if net.pins_of(Sig(0)).len() + 1 == view.len() {
        check_gate(rt, kind, &view, &all, &new);
    }
    let states = 1u32 << (2 * cells.min(5));
    for lane in 0..64u32 {
        let known = first.wrapping_add(lane) % states;
        let due = plain_walk(rows, known);
        assert_eq!(rt; state_at(all.as_slice(), lane), due, "{rows:?} {known}");
        let asked = (MASK >> lane) & 1 == 1;
        assert_eq!(rt;
            state_at(masked.as_slice(), lane),
            if asked { due } else { 0 },
            "{rows:?} {known}"
        );
        assert_eq!(rt;
            state_at(new.as_slice(), lane),
            due & !known,
            "{rows:?} {known}"
        );
    }
    Ok(())
}

fn check(rt: &impl Abort, alloc: Global, kind: Kind, pins: &[u32]) -> Result<(), Fail> {
    let net = gate(rt, alloc, kind, pins)?;
    let cells = cells_of(pins);
    assert!(rt; net.signals() == cells);
    assert!(rt; net.signals() <= 5);
    let problem = Problem::new(&net, 64);
    let rows = rows_of(alloc, kind, pins, cells)?;
    for block in 0..16 {
        if 64 * block < 1u32 << (2 * cells.min(5)) {
            check_states(rt, alloc, &problem, (kind, &rows), 64 * block, cells)?;
        }
    }
    Ok(())
}

#[test]
fn gates_force_what_the_rows_say(rt: HostRuntime) -> Result<(), Fail> {
    for kind in KINDS {
        for pins in PINS {
            if pins.len() == 1 || !matches!(kind, Kind::Not | Kind::Buf) {
                check(&rt, rt.alloc(), kind, pins)?;
            }
        }
    }
    Ok(())
}
