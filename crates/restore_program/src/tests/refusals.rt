//! Netlists and dumps that are refused.
use super::{DUMP, GATES, PRINT, RESTORE, UNKNOWN, expect_restored, expect_run, held, many_inputs};
use sr_outside::MemInputs;
use std::test::*;

#[test]
fn refused_netlists(rt: HostRuntime) -> Result<(), Fail> {
    let cases: [(&[u8], &[u8]); 16] = [
        (
            b"INPUT(a)\nz = AND()\n",
            b"srestore: netlist line 2: 1 syntax\n",
        ),
        (
            b"INPUT(a)\nz = FOO(a)\n",
            b"srestore: netlist line 2: 3 unknown kind\n",
        ),
        (
            b"INPUT(a)\nz = NOT(a, b)\n",
            b"srestore: netlist line 2: 4 wrong number of pins\n",
        ),
        (
            b"INPUT(a)\na = NOT(a)\n",
            b"srestore: netlist line 2: 7 two drivers\n",
        ),
        (b"z = NOT(a)\n", b"srestore: netlist: 8 no driver a\n"),
        (b"OUTPUT(o)\n", b"srestore: netlist: 8 no driver o\n"),
        (
            b"OUTPUT(a)\na = NOT(b)\nb = NOT(a)\n",
            b"srestore: netlist: 9 loop a 2\n",
        ),
        // the tail that leads into the loop is not counted
        (
            b"t = NOT(a)\na = NOT(b)\nb = NOT(a)\n",
            b"srestore: netlist: 9 loop a 2\n",
        ),
        // the first bad line, whatever is wrong with it
        (
            b"z = NOT(a, b)\nz = FOO(a)\nz\n",
            b"srestore: netlist line 1: 4 wrong number of pins\n",
        ),
        // a line that can't be read comes before what is wrong with the whole
        (
            b"INPUT(a)\nINPUT(a)\nz = NOT(c)\nz\n",
            b"srestore: netlist line 4: 1 syntax\n",
        ),
        (
            b"l = NOT(l)\nz = NOT(c)\nINPUT(z)\n",
            b"srestore: netlist line 3: 7 two drivers\n",
        ),
        (
            b"l = NOT(l)\nz = NOT(c)\n",
            b"srestore: netlist: 8 no driver c\n",
        ),
        (b"l = NOT(l)\n", b"srestore: netlist: 9 loop l 1\n"),
        (b"#\n\n z", b"srestore: netlist line 3: 1 syntax\n"),
        (
            b"INPUT(a)\r\nz = NOT(a)\rb\r\n",
            b"srestore: netlist line 2: 1 syntax\n",
        ),
        (
            b"INPUT(a)\nq = DFF(a, a)\n",
            b"srestore: netlist line 2: 4 wrong number of pins\n",
        ),
    ];
    for (netlist, text) in cases {
        // with a dump that is well, one that is refused, and none
        expect_restored(&rt, rt.alloc(), netlist, DUMP, (text, 3))?;
        expect_restored(&rt, rt.alloc(), netlist, b"", (text, 3))?;
        let mut alone = MemInputs::new(rt.alloc());
        alone.add("net", netlist)?;
        expect_run(&rt, rt.alloc(), &RESTORE, &mut alone, 100, (text, 3))?;
        expect_run(&rt, rt.alloc(), &PRINT, &mut alone, 100, (text, 3))?;
        expect_run(&rt, rt.alloc(), &UNKNOWN, &mut alone, 100, (text, 3))?;
    }
    Ok(())
}

#[test]
fn names_too_long(rt: HostRuntime) -> Result<(), Fail> {
    let mut text = b"INPUT(b)\nINPUT(".to_vec(rt.alloc())?;
    for _ in 0..256 {
        text.push(b'a')?;
    }
    text.extend_from_slice(b")\n")?;
    let line: &[u8] = b"srestore: netlist line 2: 2 name too long\n";
    expect_restored(&rt, rt.alloc(), &text, DUMP, (line, 3))
}

#[test]
fn refused_dumps(rt: HostRuntime) -> Result<(), Fail> {
    let cases: [(&[u8], &[u8]); 14] = [
        (b"", b"srestore: dump line 1: 10 bad head\n"),
        (b"srdump 2\n", b"srestore: dump line 1: 10 bad head\n"),
        (b"srdump 1", b"srestore: dump line 2: 11 bad cycles\n"),
        (b"srdump 1\n#\n", b"srestore: dump line 3: 11 bad cycles\n"),
        (
            b"srdump 1\ncycles 0\n",
            b"srestore: dump line 2: 11 bad cycles\n",
        ),
        (
            b"srdump 1\ncycles 8193\n",
            b"srestore: dump line 2: 11 bad cycles\n",
        ),
        (
            b"srdump 1\ncycles 2\nq\n",
            b"srestore: dump line 3: 12 bad row\n",
        ),
        (
            b"srdump 1\ncycles 2\ns 01\n",
            b"srestore: dump line 3: 13 unknown signal\n",
        ),
        (
            b"srdump 1\ncycles 2\nq x1\nr x0\nq x1\n",
            b"srestore: dump line 5: 14 signal named twice\n",
        ),
        (
            b"srdump 1\ncycles 2\nq 11\nr x\n",
            b"srestore: dump line 4: 15 row length\n",
        ),
        (
            b"srdump 1\ncycles 2\nq 1y\n",
            b"srestore: dump line 3: 16 bad bit\n",
        ),
        (
            b"srdump 1\ncycles 2\nq 1y1\n",
            b"srestore: dump line 3: 15 row length\n",
        ),
        (
            b"srdump 1\ncycles 2\nq 1y\nq 1y\n",
            b"srestore: dump line 3: 16 bad bit\n",
        ),
        (
            b"\xef\xbb\xbfsrdump 1\n",
            b"srestore: dump line 1: 10 bad head\n",
        ),
    ];
    for (dump, text) in cases {
        expect_restored(&rt, rt.alloc(), GATES, dump, (text, 4))?;
    }
    Ok(())
}

#[test]
fn too_many_cells(rt: HostRuntime) -> Result<(), Fail> {
    let netlist = many_inputs(rt.alloc(), 32_769)?;
    let line: &[u8] = b"srestore: dump line 2: 17 too many cells 4194432\n";
    let dump: &[u8] = b"srdump 1\ncycles 8192\n";
    expect_restored(&rt, rt.alloc(), &netlist, dump, (line, 4))?;
    // one fewer are as many as there may be
    let netlist = many_inputs(rt.alloc(), 32_768)?;
    let table: &[u8] = b"srdump 1\ncycles 8192\n# traced 0 known 0 ratio -\n";
    expect_restored(&rt, rt.alloc(), &netlist, dump, (table, 0))
}

#[test]
fn texts_of_16_mib(rt: HostRuntime) -> Result<(), Fail> {
    let alloc = rt.alloc();
    let long = vec![in alloc; b'\n'; 16_777_217]?;
    let most = &long.as_slice()[1..];
    let cases: [(&[u8], &[u8], &[u8], u8); 4] = [
        (&long, DUMP, b"srestore: netlist: 24 too long\n", 3),
        (
            most,
            b"srdump 1\ncycles 1\n",
            b"srdump 1\ncycles 1\n# traced 0 known 0 ratio -\n",
            0,
        ),
        (GATES, &long, b"srestore: dump: 24 too long\n", 4),
        (
            GATES,
            most,
            b"srestore: dump line 16777217: 10 bad head\n",
            4,
        ),
    ];
    for (netlist, dump, text, code) in cases {
        let mut inputs = held(alloc, netlist, dump)?;
        expect_run(&rt, alloc, &RESTORE, &mut inputs, 100, (text, code))?;
    }
    Ok(())
}
