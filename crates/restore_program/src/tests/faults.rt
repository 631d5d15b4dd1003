//! Reads and puts that fail.
use super::{
    CERTIFICATE, CERTIFY, CHECK, DUMP, DUMP_FAULT, GATES, NETLIST_FAULT, PICKS, PRINT, RESTORE,
    SELECT, SIMULATE, TABLE, TRACE, UNKNOWN, USAGE, WIDE, certified, expect_run, expect_written,
    held,
};
use sr_outside::MemSink;
use std::test::*;

const CERTIFICATE_FAULT: &[u8] = b"srestore: read fault certificate\n";

/// The start and each read of each input fail in turn, where a read gives at most 5 bytes. The last read comes to the end and gives none.
#[test]
fn reads_that_fail(rt: HostRuntime) -> Result<(), Fail> {
    let alloc = rt.alloc();
    let accepted: &[u8] = b"accepted 5\n";
    let cases: [(&[&str], &str, u32, &[u8], &[u8]); 10] = [
        (&RESTORE, "net", 14, NETLIST_FAULT, TABLE),
        (&RESTORE, "dump", 6, DUMP_FAULT, TABLE),
        (&PRINT, "net", 14, NETLIST_FAULT, GATES),
        (&SIMULATE, "net", 14, NETLIST_FAULT, TRACE),
        (&SELECT, "net", 14, NETLIST_FAULT, PICKS),
        (&CERTIFY, "net", 14, NETLIST_FAULT, CERTIFICATE),
        (&CERTIFY, "dump", 6, DUMP_FAULT, CERTIFICATE),
        (&CHECK, "net", 14, NETLIST_FAULT, accepted),
        (&CHECK, "dump", 6, DUMP_FAULT, accepted),
        (&CHECK, "cert", 17, CERTIFICATE_FAULT, accepted),
    ];
    for (words, name, last, fault, text) in cases {
        for call in 0..20 {
            let mut inputs = certified(alloc, GATES, DUMP, CERTIFICATE)?;
            inputs.most(5);
            inputs.fail(name, call)?;
            let want = if call <= last { (fault, 5) } else { (text, 0) };
            expect_run(&rt, alloc, words, &mut inputs, 100, want)?;
        }
    }
    // whole reads: the second one of the dump comes to its end
    let mut inputs = held(alloc, GATES, DUMP)?;
    inputs.fail("dump", 2)?;
    expect_run(&rt, alloc, &RESTORE, &mut inputs, 100, (DUMP_FAULT, 5))
}

/// The sink has room for each number of bytes in turn, and takes at most 3 at once.
#[test]
fn sinks_that_stop(rt: HostRuntime) -> Result<(), Fail> {
    let alloc = rt.alloc();
    let clash: &[u8] = b"srdump 1\ncycles 1\nn 1\na 1\n";
    let certificate: &[u8] = b"srcert 1\na 0 0 by n 0\nn 0 0 by n 0\ncontradiction a 0\n";
    let cases: [(&[&str], &[u8], &[u8], u8); 13] = [
        (&RESTORE, DUMP, TABLE, 0),
        (&RESTORE, b"", b"srestore: dump line 1: 10 bad head\n", 4),
        (
            &RESTORE,
            b"srdump 1\ncycles 1\nn 1\na 1\n",
            b"contradiction a 0\n",
            1,
        ),
        (&["restore"], DUMP, USAGE, 2),
        (&PRINT, DUMP, GATES, 0),
        (&SIMULATE, b"", TRACE, 0),
        (&UNKNOWN, b"", b"srestore: words: 26 unknown trace zz\n", 2),
        (&SELECT, b"", PICKS, 0),
        (&WIDE, b"", b"srestore: words: 25 width over 2\n", 2),
        (&CERTIFY, DUMP, CERTIFICATE, 0),
        (&CERTIFY, clash, certificate, 1),
        (&CHECK, DUMP, b"accepted 5\n", 0),
        (
            &CHECK,
            b"srdump 1\ncycles 1\n",
            b"srestore: certificate line 2: 20 no such cell\n",
            8,
        ),
    ];
    for (words, dump, text, code) in cases {
        for room in 0..100 {
            let mut inputs = certified(alloc, GATES, dump, CERTIFICATE)?;
            let mut out = MemSink::new(alloc, room)?;
            out.most(3);
            let want = if (room as usize) < text.len() {
                (&text[..room as usize], 6)
            } else {
                (text, code)
            };
            expect_written(&rt, alloc, words, &mut inputs, &mut out, want)?;
        }
    }
    // at once
    let mut inputs = held(alloc, GATES, DUMP)?;
    expect_run(&rt, alloc, &RESTORE, &mut inputs, 7, (b"srdump ", 6))
}
