//! Tables and contradictions over more than 64 cycles.
use super::{RESTORE, RESTORE_ALL, expect_run, held};
use std::alloc::{AllocError, Global};
use std::process::Abort;
use std::test::*;
use std::thread::Threads;

/// Three inverters in a row behind an input.
const INVERTERS: &[u8] = b"INPUT(a)\nb = NOT(a)\nc = NOT(b)\nd = NOT(c)\n";

const ONE: &[u8] = b"INPUT(a)\nq = DFF(a)\n";

/// A row: its name, the character that stands in most cycles, and the cycles with others.
type Row<'r> = (&'r str, u8, &'r [(usize, u8)]);

/// A dump's head and rows, and this behind it.
fn text_of(
    alloc: Global,
    cycles: usize,
    rows: &[Row<'_>],
    last: &str,
) -> Result<Vec<u8>, AllocError> {
    let mut text = format!(in alloc; "srdump 1\ncycles {cycles}\n")?.into_bytes();
    for (name, most, others) in rows {
        text.extend_from_slice(name.as_bytes())?;
        text.push(b' ')?;
        for cycle in 0..cycles {
            text.push(character(cycle, *most, others))?;
        }
        text.push(b'\n')?;
    }
    text.extend_from_slice(last.as_bytes())?;
    Ok(text)
}

/// The character of a cycle.
fn character(cycle: usize, most: u8, others: &[(usize, u8)]) -> u8 {
    match others.iter().find(|(other, _)| *other == cycle) {
        Some((_, character)) => *character,
        None => most,
    }
}

/// What these words write, over so many cycles: these rows and this last line.
fn expect_rows(
    rt: &(impl Abort + Threads + Sync),
    alloc: Global,
    words: &[&str],
    netlist: &[u8],
    cycles: usize,
    dump: &[Row<'_>],
    want: (&[Row<'_>], &str),
) -> Result<(), Fail> {
    let (rows, last) = want;
    let dump = text_of(alloc, cycles, dump, "")?;
    let table = text_of(alloc, cycles, rows, last)?;
    let mut inputs = held(alloc, netlist, &dump)?;
    expect_run(rt, alloc, words, &mut inputs, 1000, (&table, 0))
}

#[test]
fn over_the_end_of_a_chunk(rt: HostRuntime) -> Result<(), Fail> {
    let alloc = rt.alloc();
    // back, and with the rows of all signals
    let dump: &[Row<'_>] = &[("q", b'x', &[(64, b'1')])];
    let last = "# traced 1 known 1 ratio 1.000\n";
    expect_rows(&rt, alloc, &RESTORE, ONE, 65, dump, (dump, last))?;
    let all: &[Row<'_>] = &[("a", b'x', &[(63, b'1')]), ("q", b'x', &[(64, b'1')])];
    expect_rows(&rt, alloc, &RESTORE_ALL, ONE, 65, dump, (all, last))?;
    // forward
    let apart: &[u8] = b"INPUT(a)\nINPUT(b)\np = DFF(a)\nq = DFF(b)\n";
    let dump: &[Row<'_>] = &[("a", b'1', &[(62, b'0'), (63, b'x'), (64, b'0')])];
    let rows: &[Row<'_>] = &[
        ("p", b'1', &[(0, b'x'), (63, b'0'), (64, b'x'), (65, b'0')]),
        ("q", b'x', &[]),
    ];
    let last = "# traced 0 known 64 ratio -\n";
    expect_rows(&rt, alloc, &RESTORE, apart, 66, dump, (rows, last))?;
    // a flip-flop that drives itself, over four chunks
    let own: &[u8] = b"Q = DFF(Q)\n";
    let dump: &[Row<'_>] = &[("Q", b'x', &[(130, b'1')])];
    let rows: &[Row<'_>] = &[("Q", b'1', &[])];
    let last = "# traced 1 known 200 ratio 200.000\n";
    expect_rows(&rt, alloc, &RESTORE, own, 200, dump, (rows, last))
}

/// A later cycle at level 1 comes before an earlier one at level 2.
#[test]
fn contradiction_of_the_first_level(rt: HostRuntime) -> Result<(), Fail> {
    let alloc = rt.alloc();
    let rows: &[Row<'_>] = &[
        ("d", b'x', &[(0, b'0'), (65, b'1')]),
        ("a", b'x', &[(0, b'0')]),
        ("b", b'x', &[(65, b'0')]),
    ];
    let dump = text_of(alloc, 66, rows, "")?;
    for words in [RESTORE.as_slice(), RESTORE_ALL.as_slice()] {
        let mut inputs = held(alloc, INVERTERS, &dump)?;
        let line: &[u8] = b"contradiction c 65\n";
        expect_run(&rt, alloc, words, &mut inputs, 100, (line, 1))?;
    }
    Ok(())
}
