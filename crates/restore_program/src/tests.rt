//! Whole runs over inputs and a sink in memory, with the text and the status that were worked out by hand.
use crate::run;
use itoa::Buffer;
use sr_outside::{MemInputs, MemSink};
use std::alloc::{AllocError, Global};
use std::process::Abort;
use std::test::*;
use std::thread::Threads;

mod checks;
mod counting;
mod faults;
mod loads;
mod netlists;
mod refusals;
mod rows;
mod selections;
mod simulations;
mod sizes;
mod tables;
mod words;

const GATES: &[u8] = b"INPUT(a)\nINPUT(b)\nn = NOT(a)\ng = AND(n, b)\nq = DFF(g)\nr = DFF(n)\n";

const WITH_OR: &[u8] = b"INPUT(a)\nINPUT(b)\nz = OR(a, b)\nq = DFF(z)\n";

/// Three flip-flops in a row behind an input.
const SHIFT: &[u8] = b"INPUT(a)\nq1 = DFF(a)\nq2 = DFF(q1)\nq3 = DFF(q2)\n";

/// `q` is named before `n`, and `n` before `a`.
const BACKWARDS: &[u8] = b"q = DFF(n)\nn = not(a)\nINPUT(a)\n";

/// Three flip-flops and ten gates.
const SEVENTEEN: &[u8] =
    b"INPUT(G0)\nINPUT(G1)\nINPUT(G2)\nINPUT(G3)\nOUTPUT(G17)\nG5 = DFF(G10)\nG6 = DFF(G11)\nG7 = DFF(G13)\nG14 = NOT(G0)\nG17 = NOT(G11)\nG8 = AND(G14, G6)\nG15 = OR(G12, G8)\nG16 = OR(G3, G8)\nG9 = NAND(G16, G15)\nG10 = NOR(G14, G11)\nG11 = NOR(G5, G9)\nG12 = NOR(G1, G7)\nG13 = NOR(G2, G12)\n";

const DUMP: &[u8] = b"srdump 1\ncycles 2\nq x1\n";

const TABLE: &[u8] = b"srdump 1\ncycles 2\nq x1\nr x1\n# traced 1 known 2 ratio 2.000\n";

const USAGE: &[u8] = b"srestore: words: 22 usage\n";

const NETLIST_FAULT: &[u8] = b"srestore: read fault netlist\n";

const DUMP_FAULT: &[u8] = b"srestore: read fault dump\n";

const RESTORE: [&str; 3] = ["restore", "net", "dump"];

const RESTORE_ALL: [&str; 4] = ["restore", "net", "dump", "all=yes"];

const PRINT: [&str; 2] = ["print", "net"];

const SIMULATE: [&str; 5] = ["simulate", "net", "cycles=2", "seed=1", "trace=r,a"];

const SELECT: [&str; 5] = ["select", "net", "width=2", "cycles=2", "seed=1"];

/// What `SELECT` writes of `GATES`.
const PICKS: &[u8] = b"r 3/2 1.500\nq 4/4 1.000\n";

const CERTIFY: [&str; 3] = ["certify", "net", "dump"];

const CHECK: [&str; 4] = ["check", "net", "dump", "cert"];

/// What `CERTIFY` writes of `GATES` and `DUMP`.
const CERTIFICATE: &[u8] =
    b"srcert 1\ng 0 1 by q 0\nb 0 1 by g 0\nn 0 1 by g 0\na 0 0 by n 0\nr 1 1 by r 0\nend\n";

/// It has more flip-flops to pick than any netlist here.
const WIDE: [&str; 5] = ["select", "net", "width=99", "cycles=2", "seed=1"];

/// What `SIMULATE` writes of `GATES`.
const TRACE: &[u8] = b"srdump 1\ncycles 2\nr 00\na 11\n";

/// No netlist here has a signal of this name.
const UNKNOWN: [&str; 5] = ["simulate", "net", "cycles=2", "seed=1", "trace=zz"];

fn words_of(alloc: Global, words: &[&str]) -> Result<Vec<String>, AllocError> {
    let mut owned = Vec::new(alloc);
    for word in words {
        owned.push(String::from_str(alloc, word)?)?;
    }
    Ok(owned)
}

/// Inputs that hold a netlist as `net` and a dump as `dump`.
fn held(alloc: Global, netlist: &[u8], dump: &[u8]) -> Result<MemInputs, Fail> {
    let mut inputs = MemInputs::new(alloc);
    inputs.add("net", netlist)?;
    inputs.add("dump", dump)?;
    Ok(inputs)
}

/// Inputs that hold a certificate as `cert` besides.
fn certified(
    alloc: Global,
    netlist: &[u8],
    dump: &[u8],
    certificate: &[u8],
) -> Result<MemInputs, Fail> {
    let mut inputs = held(alloc, netlist, dump)?;
    inputs.add("cert", certificate)?;
    Ok(inputs)
}

fn expect_run(
    rt: &(impl Abort + Threads + Sync),
    alloc: Global,
    words: &[&str],
    inputs: &mut MemInputs,
    room: u32,
    want: (&[u8], u8),
) -> Result<(), Fail> {
    let mut out = MemSink::new(alloc, room)?;
    expect_written(rt, alloc, words, inputs, &mut out, want)
}

fn expect_written(
    rt: &(impl Abort + Threads + Sync),
    alloc: Global,
    words: &[&str],
    inputs: &mut MemInputs,
    out: &mut MemSink,
    want: (&[u8], u8),
) -> Result<(), Fail> {
    let (text, code) = want;
    let words = words_of(alloc, words)?;
    let status = run(rt, alloc, words.as_slice(), inputs, out);
    assert_eq!(rt; out.bytes(), text);
    assert_eq!(rt; status.code(), code);
    Ok(())
}

fn expect_restored(
    rt: &(impl Abort + Threads + Sync),
    alloc: Global,
    netlist: &[u8],
    dump: &[u8],
    want: (&[u8], u8),
) -> Result<(), Fail> {
    let mut inputs = held(alloc, netlist, dump)?;
    expect_run(rt, alloc, &RESTORE, &mut inputs, 1000, want)
}

/// So many inputs, whose names are the numbers from 0.
fn many_inputs(alloc: Global, count: u32) -> Result<Vec<u8>, AllocError> {
    let mut netlist = Vec::new(alloc);
    for i in 0..count {
        let mut buffer = Buffer::new();
        netlist.extend_from_slice(b"INPUT(")?;
        netlist.extend_from_slice(buffer.format(i).as_bytes())?;
        netlist.extend_from_slice(b")\n")?;
    }
    Ok(netlist)
}
