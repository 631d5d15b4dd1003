//! Whole runs of `certify` and `check`.
use super::{
    CERTIFICATE, CERTIFY, CHECK, DUMP, GATES, SEVENTEEN, certified, expect_run, held, words_of,
};
use crate::run;
use sr_outside::{MemInputs, MemSink};
use std::alloc::Global;
use std::process::Abort;
use std::test::*;
use std::thread::Threads;

/// Of `SEVENTEEN` over two cycles, one flip-flop in both.
const ONE_ROW: &[u8] = b"srdump 1\ncycles 2\nG5 11\n";

/// What follows from `ONE_ROW`: three facts, then four, then three.
const TEN_FACTS: &[u8] =
    b"srcert 1\nG10 0 1 by G5 0\nG11 0 0 by G11 0\nG11 1 0 by G11 1\nG17 0 1 by G17 0\nG14 0 0 by G10 0\nG17 1 1 by G17 1\nG6 1 0 by G6 0\nG0 0 1 by G14 0\nG8 0 0 by G8 0\nG8 1 0 by G8 1\nend\n";

/// Of `SEVENTEEN` over two cycles, two rows that no execution has.
const CLASH: &[u8] = b"srdump 1\ncycles 2\nG5 1x\nG6 x1\n";

/// The clash of `CLASH`, and the whole level that has it.
const TWO_FACTS: &[u8] = b"srcert 1\nG11 0 0 by G11 0\nG11 0 1 by G6 0\ncontradiction G11 0\n";

/// Runs `certify` of `SEVENTEEN` and the dump.
fn expect_certified(
    rt: &(impl Abort + Threads + Sync),
    alloc: Global,
    dump: &[u8],
    want: (&[u8], u8),
) -> Result<(), Fail> {
    let mut inputs = held(alloc, SEVENTEEN, dump)?;
    expect_run(rt, alloc, &CERTIFY, &mut inputs, 1000, want)
}

/// Runs `check` of `SEVENTEEN`, the dump and the certificate.
fn expect_checked(
    rt: &(impl Abort + Threads + Sync),
    alloc: Global,
    dump: &[u8],
    certificate: &[u8],
    want: (&[u8], u8),
) -> Result<(), Fail> {
    let mut inputs = certified(alloc, SEVENTEEN, dump, certificate)?;
    expect_run(rt, alloc, &CHECK, &mut inputs, 1000, want)
}

/// The lines of `TEN_FACTS` with one in another place, or changed.
fn replaced(alloc: Global, old: &[u8], new: &[u8]) -> Result<Vec<u8>, Fail> {
    let mut text = Vec::new(alloc);
    for place in 0..TEN_FACTS.len() {
        if let Some(rest) = TEN_FACTS[place..].strip_prefix(old) {
            text.extend_from_slice(&TEN_FACTS[..place])?;
            text.extend_from_slice(new)?;
            text.extend_from_slice(rest)?;
            return Ok(text);
        }
    }
    Ok(text)
}

#[test]
fn certified_and_checked(rt: HostRuntime) -> Result<(), Fail> {
    let alloc = rt.alloc();
    expect_certified(&rt, alloc, ONE_ROW, (TEN_FACTS, 0))?;
    expect_checked(&rt, alloc, ONE_ROW, TEN_FACTS, (b"accepted 10\n", 0))?;
    expect_certified(&rt, alloc, CLASH, (TWO_FACTS, 1))?;
    let both: &[u8] = b"accepted 2\ncontradiction G11 0\n";
    expect_checked(&rt, alloc, CLASH, TWO_FACTS, (both, 1))?;
    // a dump from which nothing follows
    let nothing: &[u8] = b"srdump 1\ncycles 2\n";
    expect_certified(&rt, alloc, nothing, (b"srcert 1\nend\n", 0))?;
    expect_checked(
        &rt,
        alloc,
        nothing,
        b"srcert 1\nend\n",
        (b"accepted 0\n", 0),
    )?;
    // a whole level is written, and the contradiction is that of its least cell
    let own: &[u8] = b"srdump 1\ncycles 1\nG14 1\nG0 1\n";
    let level: &[u8] =
        b"srcert 1\nG0 0 0 by G14 0\nG10 0 0 by G10 0\nG14 0 0 by G14 0\ncontradiction G0 0\n";
    expect_certified(&rt, alloc, own, (level, 1))?;
    expect_checked(
        &rt,
        alloc,
        own,
        level,
        (b"accepted 3\ncontradiction G0 0\n", 1),
    )?;
    // that of another cell is one too, and a part of the level is enough
    let other: &[u8] = b"srcert 1\nG14 0 0 by G14 0\ncontradiction G14 0\n";
    expect_checked(
        &rt,
        alloc,
        own,
        other,
        (b"accepted 1\ncontradiction G14 0\n", 1),
    )
}

#[test]
fn another_spelling(rt: HostRuntime) -> Result<(), Fail> {
    let alloc = rt.alloc();
    // a line twice, one behind the other
    let twice = replaced(
        alloc,
        b"G10 0 1 by G5 0\n",
        b"G10 0 1 by G5 0\nG10 0 1 by G5 0\n",
    )?;
    expect_checked(&rt, alloc, ONE_ROW, &twice, (b"accepted 11\n", 0))?;
    // comments, blanks, a carriage return, and no line feed at the end
    let spaced = replaced(
        alloc,
        b"G10 0 1 by G5 0\n",
        b"# a comment\n\n \t G10  0 1\tby G5 0 # forced\r\n",
    )?;
    expect_checked(&rt, alloc, ONE_ROW, &spaced, (b"accepted 10\n", 0))?;
    let cut = &TEN_FACTS[..TEN_FACTS.len() - 1];
    expect_checked(&rt, alloc, ONE_ROW, cut, (b"accepted 10\n", 0))?;
    // a front of the facts
    let front: &[u8] = b"srcert 1\nG10 0 1 by G5 0\nend\n";
    expect_checked(&rt, alloc, ONE_ROW, front, (b"accepted 1\n", 0))
}

/// Each with the first bad line, and the least number within it.
#[test]
fn damaged(rt: HostRuntime) -> Result<(), Fail> {
    let alloc = rt.alloc();
    let cases: [(&[u8], &[u8], &[u8]); 16] = [
        (b"srcert 1\n", b"", b" line 1: 18 bad head\n"),
        (b"srcert 1\n", b"srcert 2\n", b" line 1: 18 bad head\n"),
        (b"end\n", b"", b" line 12: 19 syntax\n"),
        (b"end\n", b"end\nend\n", b" line 13: 19 syntax\n"),
        (b"end\n", b"end 1\n", b" line 12: 19 syntax\n"),
        (
            b"end\n",
            b"contradiction G11 0\n",
            b" line 12: 21 not forced\n",
        ),
        (
            b"G14 0 0 by G10",
            b"G14 00 0 by G10",
            b" line 6: 19 syntax\n",
        ),
        (
            b"G14 0 0 by G10",
            b"G14 0 x by G10",
            b" line 6: 19 syntax\n",
        ),
        (
            b"G14 0 0 by G10",
            b"G14 0 0 in G10",
            b" line 6: 19 syntax\n",
        ),
        (b"G14 0 0 by G10", b"G14 0 0 G10", b" line 6: 19 syntax\n"),
        (
            b"G14 0 0 by G10",
            b"zz 0 0 by G10",
            b" line 6: 20 no such cell\n",
        ),
        (
            b"G14 0 0 by G10",
            b"G14 2 0 by G10",
            b" line 6: 20 no such cell\n",
        ),
        // an input has no instance, and a flip-flop none in the last cycle
        (
            b"G14 0 0 by G10",
            b"G14 0 0 by G0",
            b" line 6: 20 no such cell\n",
        ),
        (
            b"G10 0 1 by G5 0",
            b"G10 0 1 by G5 1",
            b" line 2: 20 no such cell\n",
        ),
        (
            b"G14 0 0 by G10",
            b"G14 0 1 by G10",
            b" line 6: 21 not forced\n",
        ),
        // the cell is not in the instance
        (
            b"G14 0 0 by G10",
            b"G14 0 0 by G17",
            b" line 6: 21 not forced\n",
        ),
    ];
    for (old, new, told) in cases {
        let certificate = replaced(alloc, old, new)?;
        let mut line = b"srestore: certificate".to_vec(alloc)?;
        line.extend_from_slice(told)?;
        expect_checked(&rt, alloc, ONE_ROW, &certificate, (&line, 8))?;
    }
    Ok(())
}

#[test]
fn exchanged_lines(rt: HostRuntime) -> Result<(), Fail> {
    let alloc = rt.alloc();
    let first: &[u8] =
        b"G10 0 1 by G5 0\nG11 0 0 by G11 0\nG11 1 0 by G11 1\nG17 0 1 by G17 0\nG14 0 0 by G10 0\n";
    let other: &[u8] =
        b"G14 0 0 by G10 0\nG11 0 0 by G11 0\nG11 1 0 by G11 1\nG17 0 1 by G17 0\nG10 0 1 by G5 0\n";
    let exchanged = replaced(alloc, first, other)?;
    let line: &[u8] = b"srestore: certificate line 2: 21 not forced\n";
    expect_checked(&rt, alloc, ONE_ROW, &exchanged, (line, 8))?;
    // another dump
    let weaker: &[u8] = b"srdump 1\ncycles 2\nG5 x1\n";
    let no_fact: &[u8] = b"srestore: certificate line 3: 21 not forced\n";
    expect_checked(&rt, alloc, weaker, TEN_FACTS, (no_fact, 8))
}

/// The dump is refused before the certificate is read, and the certificate before a contradiction is told.
#[test]
fn order_of_refusals(rt: HostRuntime) -> Result<(), Fail> {
    let alloc = rt.alloc();
    let bad_head: &[u8] = b"srestore: dump line 1: 10 bad head\n";
    expect_certified(&rt, alloc, b"", (bad_head, 4))?;
    expect_checked(&rt, alloc, b"", b"", (bad_head, 4))?;
    let mut none = held(alloc, SEVENTEEN, b"")?;
    expect_run(&rt, alloc, &CHECK, &mut none, 100, (bad_head, 4))?;
    let no_file: &[u8] = b"srestore: read fault certificate\n";
    let mut without = held(alloc, SEVENTEEN, CLASH)?;
    expect_run(&rt, alloc, &CHECK, &mut without, 100, (no_file, 5))?;
    let no_head: &[u8] = b"srestore: certificate line 1: 18 bad head\n";
    expect_checked(&rt, alloc, CLASH, b"", (no_head, 8))?;
    let mut no_netlist = MemInputs::new(alloc);
    let netlist: &[u8] = b"srestore: read fault netlist\n";
    expect_run(&rt, alloc, &CHECK, &mut no_netlist, 100, (netlist, 5))
}

/// The three texts of the smallest case, by files of other names.
#[test]
fn files_by_place(rt: HostRuntime) -> Result<(), Fail> {
    let alloc = rt.alloc();
    let mut inputs = MemInputs::new(alloc);
    inputs.add("c", CERTIFICATE)?;
    inputs.add("n", GATES)?;
    inputs.add("d", DUMP)?;
    let words = words_of(alloc, &["check", "n", "d", "c"])?;
    let mut out = MemSink::new(alloc, 100)?;
    let status = run(&rt, alloc, words.as_slice(), &mut inputs, &mut out);
    assert_eq!(rt; status.code(), 0);
    assert_eq!(rt; out.bytes(), b"accepted 5\n".as_slice());
    let usage: &[u8] = b"srestore: words: 22 usage\n";
    for wrong in [
        ["check", "n", "d"].as_slice(),
        ["check", "n", "d", "c", "all=yes"].as_slice(),
        ["certify", "n"].as_slice(),
        ["certify", "n", "d", "c"].as_slice(),
        ["certify", "n", "d", "workers=1"].as_slice(),
    ] {
        expect_run(&rt, alloc, wrong, &mut inputs, 100, (usage, 2))?;
    }
    Ok(())
}
