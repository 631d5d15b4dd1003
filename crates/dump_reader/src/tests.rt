//! Dumps and refusals, with answers worked out by hand.
use crate::reader::read_cycles;
use crate::{Dump, DumpRefusal, Tri, print_dump, read_dump};
use netlist::{Netlist, are_statements, build};
use sr_model::{Bytes, Numbered, Sequence, Sig, Statement, Statements};
use sr_text::TextLines;
use std::alloc::Global;
use std::process::Abort;
use std::test::*;

/// The netlist of inputs with these names.
fn netlist(rt: &impl Abort, alloc: Global, names: &[&[u8]]) -> Result<Netlist, Fail> {
    let mut statements = Sequence::new(alloc);
    for name in names {
        push_input(alloc, &mut statements, name)?;
    }
    assert!(rt; are_statements(&statements));
    Ok(build(alloc, statements)?)
}

fn push_input(alloc: Global, statements: &mut Statements, name: &[u8]) -> Result<(), Fail> {
    let name: Bytes = Sequence::from_vec(name.to_vec(alloc)?);
    statements.push(Numbered {
        line: 1,
        statement: Statement::Input(name),
    })?;
    Ok(())
}

/// Signal, cells and a semicolon for each row.
fn shown(alloc: Global, dump: &Dump) -> Result<Vec<u8>, Fail> {
    let mut text = Vec::new(alloc);
    for i in 0..dump.row_count() {
        text.push((dump.row_sig(i).0 % 10) as u8 + b'0')?;
        for cell in dump.row_bits(i) {
            text.push(match cell {
                Tri::Zero => b'0',
                Tri::One => b'1',
                Tri::X => b'x',
            })?;
        }
        text.push(b';')?;
    }
    Ok(text)
}

#[test]
fn reads(rt: HostRuntime) -> Result<(), Fail> {
    let n = netlist(&rt, rt.alloc(), &[b"a", b"b", b"a.b[3]"])?;
    let cases: [(&[u8], u32, &[u8]); 12] = [
        (b"srdump 1\ncycles 3\na 01x\n", 3, b"001x;"),
        (b"srdump 1\ncycles 3\na 01X", 3, b"001x;"),
        (b"srdump 1\ncycles 8192\n", 8192, b""),
        (b"srdump 1\ncycles 1", 1, b""),
        (b"srdump 1\r\ncycles 2\r\nb 10\r\na xx\r\n", 2, b"110;0xx;"),
        (
            b"# first\n\n \t srdump\t1 # head\n\ncycles  \t2\n#\na.b[3]   01  \n",
            2,
            b"201;",
        ),
        (b"srdump 1#1\ncycles 2#\na 01#0\n", 2, b"001;"),
        (b"srdump\r1\ncycles\r2\na\r01\n", 2, b"001;"),
        (b"srdump 1\ncycles 1\nb 1\na.b[3] 0\na x", 1, b"11;20;0x;"),
        (b"\n\n\nsrdump 1\n\n\ncycles 1\n\n\na 0\n\n", 1, b"00;"),
        (
            b"srdump 1\ncycles 65\nb 01xX01xX01xX01xX01xX01xX01xX01xX01xX01xX01xX01xX01xX01xX01xX01xX1\n",
            65,
            b"101xx01xx01xx01xx01xx01xx01xx01xx01xx01xx01xx01xx01xx01xx01xx01xx1;",
        ),
        (b" \r\t\nsrdump 1\ncycles 10\n", 10, b""),
    ];
    for (text, cycles, rows) in cases {
        let dump = read_dump(rt.alloc(), &n, text)?;
        assert_eq!(rt; dump.cycles(), cycles);
        let rows_read = shown(rt.alloc(), &dump)?;
        assert_eq!(rt; rows_read.as_slice(), rows);
    }
    Ok(())
}

#[test]
fn refuses(rt: HostRuntime) -> Result<(), Fail> {
    let n = netlist(&rt, rt.alloc(), &[b"a", b"b", b"srdump"])?;
    let cases: [(&[u8], DumpRefusal); 40] = [
        (b"", DumpRefusal::Head { line: 1 }),
        (b"\n\n", DumpRefusal::Head { line: 3 }),
        (b"# srdump 1\ncycles 1\n", DumpRefusal::Head { line: 2 }),
        (b"srdump 2\ncycles 1\n", DumpRefusal::Head { line: 1 }),
        (b"srdump 01\ncycles 1\n", DumpRefusal::Head { line: 1 }),
        (b"srdump 1 1\ncycles 1\n", DumpRefusal::Head { line: 1 }),
        (b"srdump1\ncycles 1\n", DumpRefusal::Head { line: 1 }),
        (b"SRDUMP 1\ncycles 1\n", DumpRefusal::Head { line: 1 }),
        (b"\ncycles 0\nsrdump 1\n", DumpRefusal::Head { line: 2 }),
        (b"\x0bsrdump 1\ncycles 1\n", DumpRefusal::Head { line: 1 }),
        (b"srdump\x0c1\ncycles 1\n", DumpRefusal::Head { line: 1 }),
        (b"srdump 1", DumpRefusal::Cycles { line: 2 }),
        (b"srdump 1\n", DumpRefusal::Cycles { line: 2 }),
        (b"srdump 1\n\n#\n", DumpRefusal::Cycles { line: 4 }),
        (b"srdump 1\ncycles 0\nq\n", DumpRefusal::Cycles { line: 2 }),
        (b"srdump 1\ncycles 8193\n", DumpRefusal::Cycles { line: 2 }),
        (b"srdump 1\ncycles 08\n", DumpRefusal::Cycles { line: 2 }),
        (b"srdump 1\ncycles +8\n", DumpRefusal::Cycles { line: 2 }),
        (b"srdump 1\ncycles 8x\n", DumpRefusal::Cycles { line: 2 }),
        (b"srdump 1\ncycles\n8\n", DumpRefusal::Cycles { line: 2 }),
        (b"srdump 1\ncycles 8 8\n", DumpRefusal::Cycles { line: 2 }),
        (b"srdump 1\nCycles 8\n", DumpRefusal::Cycles { line: 2 }),
        (
            b"srdump 1\ncycles 18446744073709551617\n",
            DumpRefusal::Cycles { line: 2 },
        ),
        (b"srdump 1\ncycles\x0b1\n", DumpRefusal::Cycles { line: 2 }),
        (
            b"srdump 1\ncycles 2\na\n",
            DumpRefusal::RowSyntax { line: 3 },
        ),
        (
            b"srdump 1\ncycles 2\n\nq 01 1\n",
            DumpRefusal::RowSyntax { line: 4 },
        ),
        (
            b"srdump 1\ncycles 2\na\x0b01\n",
            DumpRefusal::RowSyntax { line: 3 },
        ),
        (
            b"srdump 1\ncycles 2\na 00\nq 01\na 11\n",
            DumpRefusal::UnknownSignal { line: 4 },
        ),
        (
            b"srdump 1\ncycles 2\nA 01\n",
            DumpRefusal::UnknownSignal { line: 3 },
        ),
        (
            b"srdump 1\ncycles 2\nq 012\n",
            DumpRefusal::UnknownSignal { line: 3 },
        ),
        (
            b"srdump 1\ncycles 2\nb 00\na 01\nb 1\n",
            DumpRefusal::TwiceNamed { line: 5 },
        ),
        (
            b"srdump 1\ncycles 2\na 00\na 0y\n",
            DumpRefusal::TwiceNamed { line: 4 },
        ),
        (
            b"srdump 1\ncycles 2\nb 00\n\na 0\n",
            DumpRefusal::RowLength { line: 5 },
        ),
        (
            b"srdump 1\ncycles 2\na 000\n",
            DumpRefusal::RowLength { line: 3 },
        ),
        (
            b"srdump 1\ncycles 2\na 0yz\n",
            DumpRefusal::RowLength { line: 3 },
        ),
        (
            b"srdump 1\ncycles 2\na 02\n",
            DumpRefusal::BadBit { line: 3 },
        ),
        (
            b"srdump 1\ncycles 2\nb 01\na y1\nq 1\n",
            DumpRefusal::BadBit { line: 4 },
        ),
        (
            b"srdump 1\ncycles 2\na 0\x0c\n",
            DumpRefusal::BadBit { line: 3 },
        ),
        (
            b"srdump 1\ncycles 1\nsrdump 1\nsrdump 1\n",
            DumpRefusal::TwiceNamed { line: 4 },
        ),
        (
            b"srdump 1\ncycles 2\na 01\rb 10\n",
            DumpRefusal::RowSyntax { line: 3 },
        ),
    ];
    for (text, refusal) in cases {
        match read_dump(rt.alloc(), &n, text) {
            Ok(_) => assert!(rt; false),
            Err(found) => assert_eq!(rt; found, refusal),
        }
    }
    Ok(())
}

#[test]
fn no_signals(rt: HostRuntime) -> Result<(), Fail> {
    let n = netlist(&rt, rt.alloc(), &[])?;
    let dump = read_dump(rt.alloc(), &n, b"srdump 1\ncycles 8192\n")?;
    assert_eq!(rt; dump.cycles(), 8192);
    assert_eq!(rt; dump.row_count(), 0);
    Ok(())
}

#[test]
fn too_many_cells(rt: HostRuntime) -> Result<(), Fail> {
    let cases: [(&[u8], u32, Result<u32, DumpRefusal>); 6] = [
        (b"cycles 8128", 32_769, Ok(8128)),
        (
            b"\ncycles 8129",
            32_769,
            Err(DumpRefusal::TooManyCells {
                line: 2,
                product: 4_194_432,
            }),
        ),
        (b"cycles 8192", 32_768, Ok(8192)),
        (b"cycles 4096", 65_536, Ok(4096)),
        (
            b"cycles 4097\nq",
            65_536,
            Err(DumpRefusal::TooManyCells {
                line: 1,
                product: 4_259_840,
            }),
        ),
        (b"cycles 8193", 65_536, Err(DumpRefusal::Cycles { line: 1 })),
    ];
    for (text, signals, answer) in cases {
        let mut lines = TextLines::new(text);
        assert_eq!(rt; read_cycles(&mut lines, signals), answer);
    }
    Ok(())
}

#[test]
fn prints(rt: HostRuntime) -> Result<(), Fail> {
    let n = netlist(&rt, rt.alloc(), &[b"a", b"b"])?;
    assert_eq!(rt; n.signals(), 2);
    let mut dump = Dump::new(rt.alloc(), 3);
    assert!(rt; !dump.has_row(Sig(1)));
    dump.add_row(Sig(1), &[Tri::Zero, Tri::One, Tri::X])?;
    assert!(rt; dump.has_row(Sig(1)));
    let text = print_dump(rt.alloc(), &n, &dump)?;
    assert_eq!(rt; text.as_slice(), b"srdump 1\ncycles 3\nb 01x\n".as_slice());
    Ok(())
}

#[test]
fn a_cell_is_a_byte(rt: HostRuntime) {
    assert_eq!(rt; size_of::<Tri>(), 1);
}
