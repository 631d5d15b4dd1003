//! Tables and contradictions.
use super::{
    BACKWARDS, DUMP, GATES, RESTORE_ALL, SEVENTEEN, SHIFT, TABLE, WITH_OR, expect_restored,
    expect_run, held,
};
use std::test::*;

const APART: &[u8] = b"INPUT(a)\nINPUT(b)\np = DFF(a)\nq = DFF(b)\n";

/// The same with CR LF, a kind in small letters, a comment and an output stated twice.
const SEVENTEEN_LENIENT: &[u8] =
    b"INPUT(G0)\r\nINPUT(G1)\r\nINPUT(G2)\r\nINPUT(G3)\r\nOUTPUT(G17)\r\nOUTPUT(G17)\r\nG5 = DFF(G10)\r\nG6 = DFF(G11)\r\nG7 = DFF(G13)\r\nG14 = NOT(G0)\r\nG17 = NOT(G11)\r\nG8 = AND(G14, G6)\r\nG15 = OR(G12, G8)\r\nG16 = OR(G3, G8)\r\nG9 = nand(G16, G15) # twice\r\nG10 = NOR(G14, G11)\r\nG11 = NOR(G5, G9)\r\nG12 = NOR(G1, G7)\r\nG13 = NOR(G2, G12)\r\n";

#[test]
fn tables(rt: HostRuntime) -> Result<(), Fail> {
    let cases: [(&[u8], &[u8], &[u8]); 13] = [
        // q 1 in cycle 1, back through g and n, and forward to r
        (GATES, DUMP, TABLE),
        // a 1 makes n and g 0, and a cycle later r and q
        (
            GATES,
            b"srdump 1\ncycles 2\na 1x\n",
            b"srdump 1\ncycles 2\nq x0\nr x0\n# traced 0 known 2 ratio -\n",
        ),
        (
            GATES,
            b"srdump 1\ncycles 4\nb 0x11\na 0100\n",
            b"srdump 1\ncycles 4\nq x001\nr x101\n# traced 0 known 6 ratio -\n",
        ),
        // a 0 of g with b 1 leaves n 0, back through the AND gate
        (
            GATES,
            b"srdump 1\ncycles 3\nb 1xx\nq x0x\n",
            b"srdump 1\ncycles 3\nq x0x\nr x0x\n# traced 1 known 2 ratio 2.000\n",
        ),
        (
            GATES,
            b"srdump 1\ncycles 4\nr 1x0x\nq x1x1\n",
            b"srdump 1\ncycles 4\nq x101\nr 1101\n# traced 4 known 7 ratio 1.750\n",
        ),
        // the rows go by the first mention of a flip-flop, not by name and not as the dump has them
        (
            b"INPUT(a)\nz = DFF(a)\nb = NOT(z)\nc = DFF(b)\n",
            b"srdump 1\ncycles 3\nc x1x\na 1xx\n",
            b"srdump 1\ncycles 3\nz 01x\nc x10\n# traced 1 known 4 ratio 4.000\n",
        ),
        (
            b"OUTPUT(c)\nINPUT(a)\nz = DFF(a)\nb = NOT(z)\nc = DFF(b)\n",
            b"srdump 1\ncycles 3\nc x1x\na 1xx\n",
            b"srdump 1\ncycles 3\nc x10\nz 01x\n# traced 1 known 4 ratio 4.000\n",
        ),
        (
            APART,
            b"srdump 1\ncycles 2\na 1x\n",
            b"srdump 1\ncycles 2\np x1\nq xx\n# traced 0 known 1 ratio -\n",
        ),
        (
            GATES,
            b"srdump 1\ncycles 1\n",
            b"srdump 1\ncycles 1\nq x\nr x\n# traced 0 known 0 ratio -\n",
        ),
        (
            b"",
            b"srdump 1\ncycles 64\n",
            b"srdump 1\ncycles 64\n# traced 0 known 0 ratio -\n",
        ),
        // names used before they are driven
        (
            BACKWARDS,
            DUMP,
            b"srdump 1\ncycles 2\nq x1\n# traced 1 known 1 ratio 1.000\n",
        ),
        // CR LF, blanks, an `X`, a comment and no last newline
        (
            GATES,
            b" srdump 1\r\n\tcycles 2\r\n  q xX # none",
            b"srdump 1\ncycles 2\nq xx\nr xx\n# traced 0 known 0 ratio -\n",
        ),
        // a flip-flop may stand in a loop
        (
            b"a = NOT(q)\nq = DFF(a)\n",
            b"srdump 1\ncycles 4\nq x1xx\n",
            b"srdump 1\ncycles 4\nq 0101\n# traced 1 known 4 ratio 4.000\n",
        ),
    ];
    for (netlist, dump, text) in cases {
        expect_restored(&rt, rt.alloc(), netlist, dump, (text, 0))?;
    }
    Ok(())
}

/// Each dump has both literals of a cell at once or a level later, and what is told is the least such cell of the first such level.
#[test]
fn contradictions(rt: HostRuntime) -> Result<(), Fail> {
    let cases: [(&[u8], &[u8], &[u8]); 6] = [
        // q asks for g 1 in cycle 0 and so for n 1, and r for n 0, which gives g 0: both at level 2
        (
            GATES,
            b"srdump 1\ncycles 2\nq x1\nr x0\n",
            b"contradiction n 0\n",
        ),
        (
            GATES,
            b"srdump 1\ncycles 1\nn 1\na 1\n",
            b"contradiction a 0\n",
        ),
        // in a signal that is no flip-flop and has no row
        (
            GATES,
            b"srdump 1\ncycles 2\ng 1x\nr x0\n",
            b"contradiction n 0\n",
        ),
        (
            WITH_OR,
            b"srdump 1\ncycles 2\na 1x\nq x0\n",
            b"contradiction z 0\n",
        ),
        // G11 is 0 by G5, and 1 by G6
        (
            SEVENTEEN,
            b"srdump 1\ncycles 2\nG5 1x\nG6 x1\n",
            b"contradiction G11 0\n",
        ),
        // far from what was recorded, over two flip-flops
        (
            SHIFT,
            b"srdump 1\ncycles 4\na 1xxx\nq3 xxx0\n",
            b"contradiction q1 1\n",
        ),
    ];
    for (netlist, dump, line) in cases {
        expect_restored(&rt, rt.alloc(), netlist, dump, (line, 1))?;
        let mut inputs = held(rt.alloc(), netlist, dump)?;
        expect_run(&rt, rt.alloc(), &RESTORE_ALL, &mut inputs, 100, (line, 1))?;
    }
    Ok(())
}

/// With the rows of all signals, and the same last line.
#[test]
fn all_signals(rt: HostRuntime) -> Result<(), Fail> {
    let cases: [(&[u8], &[u8], &[u8]); 4] = [
        (
            SEVENTEEN,
            b"srdump 1\ncycles 2\nG5 11\n",
            b"srdump 1\ncycles 2\nG0 1x\nG1 xx\nG2 xx\nG3 xx\nG17 11\nG5 11\nG10 1x\nG6 x0\nG11 00\nG7 xx\nG13 xx\nG14 0x\nG8 00\nG15 xx\nG12 xx\nG16 xx\nG9 xx\n# traced 2 known 3 ratio 1.500\n",
        ),
        (
            b"INPUT(a)\no = AND(a, a)\n",
            b"srdump 1\ncycles 1\no 0\n",
            b"srdump 1\ncycles 1\na 0\no 0\n# traced 0 known 0 ratio -\n",
        ),
        (
            b"INPUT(a)\nINPUT(b)\nINPUT(c)\no = XOR(a, b, c)\n",
            b"srdump 1\ncycles 2\no 11\na 11\nc 1x\n",
            b"srdump 1\ncycles 2\na 11\nb 1x\nc 1x\no 11\n# traced 0 known 0 ratio -\n",
        ),
        // a recorded x is not traced
        (
            GATES,
            b"srdump 1\ncycles 4\nr 1x0x\nq x1x1\n",
            b"srdump 1\ncycles 4\na 010x\nb 1x1x\nn 101x\ng 101x\nq x101\nr 1101\n# traced 4 known 7 ratio 1.750\n",
        ),
    ];
    for (netlist, dump, text) in cases {
        let mut inputs = held(rt.alloc(), netlist, dump)?;
        expect_run(&rt, rt.alloc(), &RESTORE_ALL, &mut inputs, 1000, (text, 0))?;
    }
    Ok(())
}

#[test]
fn gates_of_every_kind(rt: HostRuntime) -> Result<(), Fail> {
    let cases: [(&[u8], &[u8], &[u8], u8); 15] = [
        (
            WITH_OR,
            DUMP,
            b"srdump 1\ncycles 2\nq x1\n# traced 1 known 1 ratio 1.000\n",
            0,
        ),
        // forward, and back to the last pin
        (
            b"INPUT(a)\nINPUT(b)\nz = OR(a, b)\nq = DFF(z)\nr = DFF(b)\n",
            b"srdump 1\ncycles 2\na 0x\nq x1\n",
            b"srdump 1\ncycles 2\nq x1\nr x1\n# traced 1 known 2 ratio 2.000\n",
            0,
        ),
        (
            b"INPUT(a)\nINPUT(b)\nz = OR(a, b)\nq = DFF(z)\nr = DFF(b)\n",
            b"srdump 1\ncycles 2\nb 1x\n",
            b"srdump 1\ncycles 2\nq x1\nr x1\n# traced 0 known 2 ratio -\n",
            0,
        ),
        // back to every pin
        (
            b"INPUT(a)\nINPUT(b)\nz = NOR(a, b)\nq = DFF(z)\nr = DFF(b)\n",
            b"srdump 1\ncycles 2\nq x1\n",
            b"srdump 1\ncycles 2\nq x1\nr x0\n# traced 1 known 2 ratio 2.000\n",
            0,
        ),
        (
            b"INPUT(a)\nINPUT(b)\nz = NAND(a, b)\nq = DFF(z)\nr = DFF(b)\n",
            b"srdump 1\ncycles 2\nq x0\n",
            b"srdump 1\ncycles 2\nq x0\nr x1\n# traced 1 known 2 ratio 2.000\n",
            0,
        ),
        (
            b"INPUT(a)\nINPUT(b)\nz = NAND(a, b)\nq = DFF(z)\nr = DFF(b)\n",
            b"srdump 1\ncycles 2\na 1x\nq x1\n",
            b"srdump 1\ncycles 2\nq x1\nr x0\n# traced 1 known 2 ratio 2.000\n",
            0,
        ),
        (
            b"INPUT(a)\nINPUT(b)\nz = XOR(a, b)\nq = DFF(z)\nr = DFF(b)\n",
            b"srdump 1\ncycles 2\na 1x\nq x1\n",
            b"srdump 1\ncycles 2\nq x1\nr x0\n# traced 1 known 2 ratio 2.000\n",
            0,
        ),
        (
            b"INPUT(a)\nINPUT(b)\nz = XNOR(a, b)\nq = DFF(z)\nr = DFF(b)\n",
            b"srdump 1\ncycles 2\na 1x\nq x1\n",
            b"srdump 1\ncycles 2\nq x1\nr x1\n# traced 1 known 2 ratio 2.000\n",
            0,
        ),
        (
            b"INPUT(a)\nINPUT(b)\nz = BUFF(b)\nq = DFF(z)\nr = DFF(b)\n",
            b"srdump 1\ncycles 2\nq x0\n",
            b"srdump 1\ncycles 2\nq x0\nr x0\n# traced 1 known 2 ratio 2.000\n",
            0,
        ),
        // of one pin, and of three
        (
            b"INPUT(a)\nINPUT(b)\nz = AND(b)\nq = DFF(z)\nr = DFF(b)\n",
            b"srdump 1\ncycles 2\nq x0\n",
            b"srdump 1\ncycles 2\nq x0\nr x0\n# traced 1 known 2 ratio 2.000\n",
            0,
        ),
        (
            b"INPUT(a)\nINPUT(b)\nINPUT(c)\nz = AND(a, b, c)\nq = DFF(z)\nr = DFF(c)\n",
            b"srdump 1\ncycles 2\na 1x\nb 1x\nq x0\n",
            b"srdump 1\ncycles 2\nq x0\nr x0\n# traced 1 known 2 ratio 2.000\n",
            0,
        ),
        (
            b"INPUT(a)\nINPUT(b)\nINPUT(c)\nz = XOR(a, b, c)\nq = DFF(z)\nr = DFF(c)\n",
            b"srdump 1\ncycles 2\na 1x\nb 1x\nq x1\n",
            b"srdump 1\ncycles 2\nq x1\nr x1\n# traced 1 known 2 ratio 2.000\n",
            0,
        ),
        // of one signal twice
        (
            b"INPUT(a)\nz = XOR(a, a)\nq = DFF(z)\n",
            b"srdump 1\ncycles 2\n",
            b"srdump 1\ncycles 2\nq x0\n# traced 0 known 1 ratio -\n",
            0,
        ),
        // a contradiction at a gate, and what is wrong with a dump before it
        (
            WITH_OR,
            b"srdump 1\ncycles 2\na 1x\nq x0\n",
            b"contradiction z 0\n",
            1,
        ),
        (
            WITH_OR,
            b"srdump 1\ncycles 2\na 1x\nq x0\nz 0\n",
            b"srestore: dump line 5: 15 row length\n",
            4,
        ),
    ];
    for (netlist, dump, text, code) in cases {
        expect_restored(&rt, rt.alloc(), netlist, dump, (text, code))?;
    }
    Ok(())
}

#[test]
fn worked_netlists(rt: HostRuntime) -> Result<(), Fail> {
    let table: &[u8] = b"srdump 1\ncycles 2\nG5 11\nG6 x0\nG7 xx\n# traced 2 known 3 ratio 1.500\n";
    let again: &[u8] = b"srdump 1\ncycles 2\nG5 11\nG6 x0\nG7 xx\n# traced 3 known 3 ratio 1.000\n";
    let dump: &[u8] = b"srdump 1\ncycles 2\nG5 11\n";
    let cases: [(&[u8], &[u8], &[u8], u8); 8] = [
        (SEVENTEEN, dump, table, 0),
        (SEVENTEEN, &dump[..dump.len() - 1], table, 0),
        (SEVENTEEN_LENIENT, dump, table, 0),
        // a table is a dump of the same netlist, whose table has the same rows
        (SEVENTEEN, table, again, 0),
        // G11 is 0 by G5, and 1 by G6
        (
            SEVENTEEN,
            b"srdump 1\ncycles 2\nG5 1x\nG6 x1\n",
            b"contradiction G11 0\n",
            1,
        ),
        // a constant gate, known from nothing
        (
            b"INPUT(a)\nz = XOR(a, a)\nq = DFF(z)\n",
            b"srdump 1\ncycles 3\na xxx\n",
            b"srdump 1\ncycles 3\nq x00\n# traced 0 known 2 ratio -\n",
            0,
        ),
        // what follows only from two gates together is missed
        (
            b"INPUT(a)\nn = NOT(a)\no = OR(a, n)\nq = DFF(o)\n",
            b"srdump 1\ncycles 2\na xx\n",
            b"srdump 1\ncycles 2\nq xx\n# traced 0 known 0 ratio -\n",
            0,
        ),
        // no flip-flop
        (
            b"INPUT(a)\no = AND(a, a)\n",
            b"srdump 1\ncycles 1\n",
            b"srdump 1\ncycles 1\n# traced 0 known 0 ratio -\n",
            0,
        ),
    ];
    for (netlist, dump, text, code) in cases {
        expect_restored(&rt, rt.alloc(), netlist, dump, (text, code))?;
    }
    Ok(())
}
