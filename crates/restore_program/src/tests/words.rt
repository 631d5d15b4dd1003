//! The words of the command line.
use super::{
    DUMP, DUMP_FAULT, GATES, NETLIST_FAULT, PRINT, RESTORE, TABLE, USAGE, expect_run, held,
};
use sr_outside::MemInputs;
use std::test::*;

#[test]
fn words(rt: HostRuntime) -> Result<(), Fail> {
    let alloc = rt.alloc();
    let cases: [(&[&str], &[u8], u8); 18] = [
        (&RESTORE, TABLE, 0),
        (&["restore", "net", "dump", "all=no"], TABLE, 0),
        (&["restore", "net", "dump", "all=maybe"], USAGE, 2),
        (&["restore", "net", "dump", "all=yes", "all=yes"], USAGE, 2),
        (&["restore", "net", "dump", "workers=1"], USAGE, 2),
        (&PRINT, GATES, 0),
        (&["restore", "net"], USAGE, 2),
        (&[], USAGE, 2),
        (&["restore", "net", "dump", "dump"], USAGE, 2),
        (&["Restore", "net", "dump"], USAGE, 2),
        (&["restore ", "net", "dump"], USAGE, 2),
        (&["print"], USAGE, 2),
        (&["print", "net", "dump"], USAGE, 2),
        (&["Print", "net"], USAGE, 2),
        (&["", "net"], USAGE, 2),
        (&["restore", "none", "dump"], NETLIST_FAULT, 5),
        (&["restore", "net", "none"], DUMP_FAULT, 5),
        (&["print", "none"], NETLIST_FAULT, 5),
    ];
    for (words, text, code) in cases {
        let mut inputs = held(alloc, GATES, DUMP)?;
        expect_run(&rt, alloc, words, &mut inputs, 100, (text, code))?;
    }
    // with no input at all
    let mut none = MemInputs::new(alloc);
    expect_run(&rt, alloc, &["restore", "net"], &mut none, 100, (USAGE, 2))
}
