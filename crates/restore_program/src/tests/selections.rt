//! Whole runs of `select`.
use super::counting::CountedCloser;
use super::{NETLIST_FAULT, SEVENTEEN, SHIFT, USAGE, expect_run, many_inputs};
use crate::netlists::read_netlist;
use cycle_sim::{simulate, stimulus};
use greedy_select::select as select_picks;
use netlist::Netlist;
use plain_close::PlainCloser;
use sr_outside::MemInputs;
use std::alloc::Global;
use std::process::Abort;
use std::test::*;
use std::thread::Threads;

/// The flip-flops of `SHIFT` in the opposite order.
const SHIFT_BACK: &[u8] = b"INPUT(a)\nq3 = DFF(q2)\nq2 = DFF(q1)\nq1 = DFF(a)\n";

/// `q` is 0 from cycle 1 on without a trace.
const CONSTANT: &[u8] = b"INPUT(b)\nz = XOR(b, b)\nr = DFF(b)\nq = DFF(z)\n";

/// Three flip-flops with the same pin, or a buffer of it.
const TWINS: &[u8] = b"INPUT(a)\nn = BUF(a)\nb = DFF(a)\nab = DFF(n)\nB = DFF(n)\n";

/// All of `q` is known from `r`.
const FOLLOWS: &[u8] = b"q = DFF(q)\nr = DFF(q)\n";

/// The words of a `select` with these keys.
fn select<'word>(keys: [&'word str; 3]) -> [&'word str; 5] {
    let [first, second, third] = keys;
    ["select", "net", first, second, third]
}

fn expect_selected(
    rt: &(impl Abort + Threads + Sync),
    alloc: Global,
    netlist: &[u8],
    keys: [&str; 3],
    want: (&[u8], u8),
) -> Result<(), Fail> {
    let mut inputs = MemInputs::new(alloc);
    inputs.add("net", netlist)?;
    expect_run(rt, alloc, &select(keys), &mut inputs, 1000, want)
}

#[test]
fn picks(rt: HostRuntime) -> Result<(), Fail> {
    let cases: [(&[u8], [&str; 3], &[u8]); 10] = [
        // q1 and q3 tie behind q2
        (
            SHIFT,
            ["width=2", "cycles=4", "seed=1"],
            b"q2 10/4 2.500\nq1 11/8 1.375\n",
        ),
        // the name decides, and not the number
        (
            SHIFT_BACK,
            ["width=2", "cycles=4", "seed=1"],
            b"q2 10/4 2.500\nq1 11/8 1.375\n",
        ),
        (
            SHIFT,
            ["seed=5", "cycles=4", "width=3"],
            b"q2 10/4 2.500\nq1 11/8 1.375\nq3 12/12 1.000\n",
        ),
        // more than 64 cycles, and more than 128
        (
            SHIFT,
            ["width=3", "cycles=130", "seed=18446744073709551615"],
            b"q2 388/130 2.984\nq1 389/260 1.496\nq3 390/390 1.000\n",
        ),
        (
            SEVENTEEN,
            ["width=3", "cycles=8", "seed=1"],
            b"G6 13/8 1.625\nG7 19/16 1.187\nG5 24/24 1.000\n",
        ),
        // all tie
        (
            SEVENTEEN,
            ["width=3", "cycles=1", "seed=0"],
            b"G5 1/1 1.000\nG6 2/2 1.000\nG7 3/3 1.000\n",
        ),
        // what is known without a trace counts with the first pick
        (
            CONSTANT,
            ["width=2", "cycles=3", "seed=1"],
            b"r 5/3 1.666\nq 6/6 1.000\n",
        ),
        // names go by their bytes: large letters before small ones, a name before a longer one
        (
            TWINS,
            ["width=3", "cycles=5", "seed=9"],
            b"B 13/5 2.600\nab 14/10 1.400\nb 15/15 1.000\n",
        ),
        (
            b"a = NOT(q)\nq = DFF(a)\n",
            ["width=1", "cycles=8192", "seed=0"],
            b"q 8192/8192 1.000\n",
        ),
        (
            FOLLOWS,
            ["width=2", "cycles=65", "seed=0"],
            b"r 130/65 2.000\nq 130/130 1.000\n",
        ),
    ];
    for (netlist, keys, text) in cases {
        expect_selected(&rt, rt.alloc(), netlist, keys, (text, 0))?;
    }
    Ok(())
}

/// The width is refused before the number of cells, and a netlist before the width.
#[test]
fn refused_behind_a_netlist(rt: HostRuntime) -> Result<(), Fail> {
    let inputs = many_inputs(rt.alloc(), 32_768)?;
    let mut one = inputs.to_vec(rt.alloc())?;
    one.extend_from_slice(b"q = DFF(0)\n")?;
    let cells: &[u8] = b"srestore: words: 17 too many cells 4194432\n";
    let over: &[u8] = b"srestore: words: 25 width over 0\n";
    let cases: [(&[u8], [&str; 3], &[u8], u8); 8] = [
        (
            SHIFT,
            ["width=4", "cycles=4", "seed=1"],
            b"srestore: words: 25 width over 3\n",
            2,
        ),
        (
            SHIFT,
            ["width=65536", "cycles=8192", "seed=1"],
            b"srestore: words: 25 width over 3\n",
            2,
        ),
        (&inputs, ["width=1", "cycles=8192", "seed=0"], over, 2),
        (&one, ["width=1", "cycles=8192", "seed=0"], cells, 4),
        (&one, ["width=1", "cycles=8129", "seed=0"], cells, 4),
        (
            &one,
            ["width=2", "cycles=8192", "seed=0"],
            b"srestore: words: 25 width over 1\n",
            2,
        ),
        (
            b"a = NOT(b)\n",
            ["width=9", "cycles=1", "seed=0"],
            b"srestore: netlist: 8 no driver b\n",
            3,
        ),
        (
            b"?\n",
            ["width=9", "cycles=1", "seed=0"],
            b"srestore: netlist line 1: 1 syntax\n",
            3,
        ),
    ];
    for (netlist, keys, text, code) in cases {
        expect_selected(&rt, rt.alloc(), netlist, keys, (text, code))?;
    }
    Ok(())
}

/// No input is held, so that a start of one would be told as a fault.
#[test]
fn refused_words(rt: HostRuntime) -> Result<(), Fail> {
    let width: &[u8] = b"srestore: words: 23 number width\n";
    let cycles: &[u8] = b"srestore: words: 23 number cycles\n";
    let seed: &[u8] = b"srestore: words: 23 number seed\n";
    let cases: [([&str; 3], &[u8], u8); 13] = [
        (["width=1", "width=1", "seed=0"], USAGE, 2),
        (["width=1", "cycles=1", "trace=a"], USAGE, 2),
        (["width=1", "cycles=1", "workers=1"], USAGE, 2),
        (["width=0", "cycles=1", "all=yes"], USAGE, 2),
        (["dump", "cycles=1", "seed=0"], USAGE, 2),
        (["width=0", "cycles=1", "seed=0"], width, 2),
        (["width=65537", "cycles=1", "seed=0"], width, 2),
        (["width=", "cycles=0", "seed=x"], width, 2),
        (["cycles=0", "width=0", "seed=x"], cycles, 2),
        (["width=1", "cycles=8193", "seed=0"], cycles, 2),
        (["seed=+1", "width=0", "cycles=0"], seed, 2),
        // words that are well do start it
        (["width=65536", "cycles=1", "seed=0"], NETLIST_FAULT, 5),
        (
            ["seed=18446744073709551615", "cycles=8192", "width=1"],
            NETLIST_FAULT,
            5,
        ),
    ];
    for (keys, text, code) in cases {
        let mut none = MemInputs::new(rt.alloc());
        expect_run(&rt, rt.alloc(), &select(keys), &mut none, 100, (text, code))?;
    }
    Ok(())
}

/// The netlist or a key is missing, and a word follows the keys.
#[test]
fn words_of_other_numbers(rt: HostRuntime) -> Result<(), Fail> {
    let cases: [&[&str]; 7] = [
        &["select"],
        &["select", "net"],
        &["select", "net", "cycles=1", "seed=0"],
        &["select", "net", "width=1", "seed=0"],
        &["select", "net", "width=1", "cycles=1"],
        &["select", "width=1", "cycles=1", "seed=0"],
        &["select", "net", "width=1", "cycles=1", "seed=0", "a"],
    ];
    for words in cases {
        let mut inputs = MemInputs::new(rt.alloc());
        inputs.add("net", SHIFT)?;
        expect_run(&rt, rt.alloc(), words, &mut inputs, 100, (USAGE, 2))?;
    }
    Ok(())
}

/// Only what is known without a trace is closed whole. Each candidate begins from what is known by then, and so does each pick; one whose bits are known is not closed.
#[test]
fn closings(rt: HostRuntime) -> Result<(), Fail> {
    let cases: [(&[u8], u32, u64); 4] = [
        (SHIFT, 1, 4),
        (SHIFT, 2, 7),
        (SHIFT, 3, 9),
        (FOLLOWS, 2, 4),
    ];
    for (netlist, width, more) in cases {
        let closer = closings_of(&rt, rt.alloc(), netlist, width)?;
        assert_eq!(&rt; (closer.closes, closer.more), (1, more));
    }
    Ok(())
}

/// The calls that a ranking of so many flip-flops over 4 cycles takes.
fn closings_of(
    rt: &(impl Abort + Threads + Sync),
    alloc: Global,
    netlist: &[u8],
    width: u32,
) -> Result<CountedCloser, Fail> {
    let mut closer = CountedCloser {
        inner: PlainCloser::new(),
        closes: 0,
        more: 0,
    };
    let n = netlist_of(alloc, netlist)?;
    let run = simulate(alloc, &n, &stimulus(alloc, &n, 1, 4)?)?;
    assert!(rt; width as usize <= n.flip_flops().len() && n.signals() < 100);
    let picks = select_picks(rt, alloc, &n, &run, width, &mut closer)?;
    assert_eq!(rt; picks.len(), width as usize);
    Ok(closer)
}

fn netlist_of(alloc: Global, netlist: &[u8]) -> Result<Netlist, Fail> {
    let mut inputs = MemInputs::new(alloc);
    inputs.add("net", netlist)?;
    match read_netlist(alloc, &mut inputs, "net") {
        Ok(n) => Ok(n),
        Err(_) => Err(Fail::new("the netlist is refused")),
    }
}
