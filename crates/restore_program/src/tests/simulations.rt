//! Whole runs of `simulate`.
use super::{
    GATES, NETLIST_FAULT, SEVENTEEN, SHIFT, USAGE, expect_restored, expect_run, many_inputs,
    words_of,
};
use crate::run;
use sr_outside::{MemInputs, MemSink};
use std::alloc::Global;
use std::process::Abort;
use std::test::*;
use std::thread::Threads;

/// `b` is named before `a`, and its INPUT line stands behind that of `a`.
const SUM: &[u8] = b"z = XOR(b, a)\nINPUT(a)\nINPUT(b)\n";

/// `q` is whether `a` was 1 in an odd number of cycles before.
const PARITY: &[u8] = b"INPUT(a)\nz = XOR(a, q)\nq = DFF(z)\n";

/// Inputs that hold a netlist as `net`.
fn held_netlist(alloc: Global, netlist: &[u8]) -> Result<MemInputs, Fail> {
    let mut inputs = MemInputs::new(alloc);
    inputs.add("net", netlist)?;
    Ok(inputs)
}

/// The words of a `simulate` with these keys.
fn simulate<'word>(keys: [&'word str; 3]) -> [&'word str; 5] {
    let [first, second, third] = keys;
    ["simulate", "net", first, second, third]
}

fn expect_simulated(
    rt: &(impl Abort + Threads + Sync),
    alloc: Global,
    netlist: &[u8],
    keys: [&str; 3],
    want: (&[u8], u8),
) -> Result<(), Fail> {
    let mut inputs = held_netlist(alloc, netlist)?;
    expect_run(rt, alloc, &simulate(keys), &mut inputs, 1000, want)
}

#[test]
fn traces(rt: HostRuntime) -> Result<(), Fail> {
    let cases: [(&[u8], [&str; 3], &[u8]); 9] = [
        (
            SHIFT,
            ["cycles=4", "seed=1", "trace=q1,q2,q3"],
            b"srdump 1\ncycles 4\nq1 0101\nq2 0010\nq3 0001\n",
        ),
        (
            SHIFT,
            ["cycles=3", "seed=1", "trace=a"],
            b"srdump 1\ncycles 3\na 101\n",
        ),
        // the rows go as the list has them, not as the netlist has
        (
            SHIFT,
            ["trace=q3,a,q1", "seed=1", "cycles=4"],
            b"srdump 1\ncycles 4\nq3 0001\na 1011\nq1 0101\n",
        ),
        // the inputs are drawn cycle by cycle, in the order of their lines
        (
            SUM,
            ["cycles=8", "seed=1", "trace=z,a,b"],
            b"srdump 1\ncycles 8\nz 10110001\na 11101111\nb 01011110\n",
        ),
        (
            SEVENTEEN,
            ["cycles=8", "seed=1", "trace=G17,G9,G12,G16,G8,G10,G6"],
            b"srdump 1\ncycles 8\nG17 00111111\nG9 00111011\nG12 11000100\nG16 11100101\nG8 00000000\nG10 00111001\nG6 01100000\n",
        ),
        // no input
        (
            b"a = NOT(q)\nq = DFF(a)\n",
            ["cycles=5", "seed=7", "trace=q,a"],
            b"srdump 1\ncycles 5\nq 01010\na 10101\n",
        ),
        (
            PARITY,
            ["cycles=9", "seed=0", "trace=q,a"],
            b"srdump 1\ncycles 9\nq 000010000\na 000110000\n",
        ),
        (
            PARITY,
            ["cycles=9", "seed=18446744073709551615", "trace=q,a"],
            b"srdump 1\ncycles 9\nq 010010001\na 110110011\n",
        ),
        // more than 64 cycles
        (
            SHIFT,
            ["cycles=66", "seed=18446744073709551615", "trace=q3,q1"],
            b"srdump 1\ncycles 66\nq3 000110110011101110001011100110100000001011111001111110101010100000\nq1 011011001110111000101110011010000000101111100111111010101010000011\n",
        ),
    ];
    for (netlist, keys, text) in cases {
        expect_simulated(&rt, rt.alloc(), netlist, keys, (text, 0))?;
    }
    Ok(())
}

/// What is told is the first name that is wrong.
#[test]
fn refused_names(rt: HostRuntime) -> Result<(), Fail> {
    let cases: [(&str, &[u8]); 11] = [
        ("trace=zz", b"srestore: words: 26 unknown trace zz\n"),
        ("trace=q1,zz", b"srestore: words: 26 unknown trace zz\n"),
        ("trace=q1,q1", b"srestore: words: 27 trace twice q1\n"),
        ("trace=q1,q1,zz", b"srestore: words: 27 trace twice q1\n"),
        ("trace=zz,q1,q1", b"srestore: words: 26 unknown trace zz\n"),
        ("trace=q1,zz,q1", b"srestore: words: 26 unknown trace zz\n"),
        ("trace=q1,a,a,q1", b"srestore: words: 27 trace twice a\n"),
        ("trace=zz,zz", b"srestore: words: 26 unknown trace zz\n"),
        ("trace=Q1", b"srestore: words: 26 unknown trace Q1\n"),
        ("trace=a, q1", b"srestore: words: 26 unknown trace  q1\n"),
        ("trace=a=q1", b"srestore: words: 26 unknown trace a=q1\n"),
    ];
    for (trace, text) in cases {
        let keys = ["cycles=4", "seed=1", trace];
        expect_simulated(&rt, rt.alloc(), SHIFT, keys, (text, 2))?;
    }
    Ok(())
}

/// No input is held, so that a start of one would be told as a fault.
#[test]
fn refused_words(rt: HostRuntime) -> Result<(), Fail> {
    let cycles: &[u8] = b"srestore: words: 23 number cycles\n";
    let seed: &[u8] = b"srestore: words: 23 number seed\n";
    let cases: [([&str; 3], &[u8], u8); 16] = [
        (["cycles=1", "seed=0", "trace="], USAGE, 2),
        (["cycles=1", "seed=0", "trace=a,"], USAGE, 2),
        (["cycles=1", "seed=0", "trace=,a"], USAGE, 2),
        (["cycles=1", "seed=0", "seed=0"], USAGE, 2),
        (["cycles=1", "cycles=1", "trace=a"], USAGE, 2),
        (["dump", "seed=0", "trace=a"], USAGE, 2),
        (["cycles=1", "seed=0", "all=yes"], USAGE, 2),
        (["cycles=0", "seed=x", "trace="], USAGE, 2),
        (["cycles=0", "seed=0", "trace=a"], cycles, 2),
        (["cycles=8193", "seed=0", "trace=a"], cycles, 2),
        (["cycles=+1", "seed=x", "trace=a"], cycles, 2),
        (["cycles=1", "seed=x", "trace=a"], seed, 2),
        (["cycles=1", "seed=", "trace=a"], seed, 2),
        (
            ["cycles=1", "trace=a", "seed=18446744073709551616"],
            seed,
            2,
        ),
        (["seed=-1", "trace=a", "cycles=0"], seed, 2),
        // words that are well do start it
        (["cycles=1", "seed=0", "trace=a,a"], NETLIST_FAULT, 5),
    ];
    for (keys, text, code) in cases {
        let mut none = MemInputs::new(rt.alloc());
        let words = simulate(keys);
        expect_run(&rt, rt.alloc(), &words, &mut none, 100, (text, code))?;
    }
    Ok(())
}

/// The first word, the netlist, or a key is missing, and a word follows the keys.
#[test]
fn words_of_other_numbers(rt: HostRuntime) -> Result<(), Fail> {
    let cases: [&[&str]; 7] = [
        &["simulate"],
        &["simulate", "net"],
        &["simulate", "net", "seed=0", "trace=a"],
        &["simulate", "net", "cycles=1", "trace=a"],
        &["simulate", "net", "cycles=1", "seed=0"],
        &["simulate", "cycles=1", "seed=0", "trace=a"],
        &["simulate", "net", "cycles=1", "seed=0", "trace=a", "a"],
    ];
    for words in cases {
        let mut inputs = held_netlist(rt.alloc(), GATES)?;
        expect_run(&rt, rt.alloc(), words, &mut inputs, 100, (USAGE, 2))?;
    }
    Ok(())
}

/// What is wrong with the names comes before the number of cells.
#[test]
fn too_many_cells(rt: HostRuntime) -> Result<(), Fail> {
    let netlist = many_inputs(rt.alloc(), 32_769)?;
    let line: &[u8] = b"srestore: words: 17 too many cells 4194432\n";
    let cases: [([&str; 3], &[u8], u8); 4] = [
        (["cycles=8192", "seed=0", "trace=0"], line, 4),
        (["cycles=8129", "seed=0", "trace=32768,0"], line, 4),
        (
            ["cycles=8192", "seed=0", "trace=0,32769"],
            b"srestore: words: 26 unknown trace 32769\n",
            2,
        ),
        (
            ["cycles=8192", "seed=0", "trace=7,7"],
            b"srestore: words: 27 trace twice 7\n",
            2,
        ),
    ];
    for (keys, text, code) in cases {
        expect_simulated(&rt, rt.alloc(), &netlist, keys, (text, code))?;
    }
    Ok(())
}

/// A trace is a dump of its netlist, and the table has the bits of the simulated run.
#[test]
fn restored_traces(rt: HostRuntime) -> Result<(), Fail> {
    let cases: [(&str, &[u8]); 3] = [
        (
            "trace=G7,G5,G6",
            b"srdump 1\ncycles 8\nG5 00011100\nG6 01100000\nG7 00000001\n# traced 24 known 24 ratio 1.000\n",
        ),
        (
            "trace=G17,G10",
            b"srdump 1\ncycles 8\nG5 00011100\nG6 x1100000\nG7 xxxxxxxx\n# traced 0 known 15 ratio -\n",
        ),
        (
            "trace=G3,G2,G1,G0",
            b"srdump 1\ncycles 8\nG5 xxx11100\nG6 xxx00000\nG7 x0000001\n# traced 0 known 17 ratio -\n",
        ),
    ];
    for (trace, table) in cases {
        let out = simulated(&rt, rt.alloc(), ["cycles=8", "seed=1", trace])?;
        expect_restored(&rt, rt.alloc(), SEVENTEEN, out.bytes(), (table, 0))?;
    }
    Ok(())
}

/// What a `simulate` of the worked netlist writes.
fn simulated(
    rt: &(impl Abort + Threads + Sync),
    alloc: Global,
    keys: [&str; 3],
) -> Result<MemSink, Fail> {
    let mut inputs = held_netlist(alloc, SEVENTEEN)?;
    let mut out = MemSink::new(alloc, 1000)?;
    let words = words_of(alloc, &simulate(keys))?;
    let status = run(rt, alloc, words.as_slice(), &mut inputs, &mut out);
    assert_eq!(rt; status.code(), 0);
    Ok(out)
}
