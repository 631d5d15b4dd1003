//! Certificates with answers worked out by hand, and their damages.
use crate::printer::push_fact;
use crate::{CertRefusal, Fact, cert_laws, check_cert, log_laws, print_cert};
use dump_reader::read_dump;
use netlist::{Netlist, are_statements, build};
use plain_close::{Log, Steps};
use sr_model::{
    Bytes, Cell, Kind, Lit, MAX_BLOCKS, Names, Numbered, Place, Sequence, Sig, Statement,
    Statements, block_count,
};
use std::alloc::Global;
use std::process::Abort;
use std::test::*;

/// A name, what drives it, and its pins.
type Drive<'a> = (&'a [u8], Option<Kind>, &'a [&'a [u8]]);

const SEVENTEEN: [Drive; 17] = [
    (b"G0", None, &[]),
    (b"G1", None, &[]),
    (b"G2", None, &[]),
    (b"G3", None, &[]),
    (b"G17", Some(Kind::Not), &[b"G11"]),
    (b"G5", Some(Kind::Dff), &[b"G10"]),
    (b"G6", Some(Kind::Dff), &[b"G11"]),
    (b"G7", Some(Kind::Dff), &[b"G13"]),
    (b"G14", Some(Kind::Not), &[b"G0"]),
    (b"G8", Some(Kind::And), &[b"G14", b"G6"]),
    (b"G15", Some(Kind::Or), &[b"G12", b"G8"]),
    (b"G16", Some(Kind::Or), &[b"G3", b"G8"]),
    (b"G9", Some(Kind::Nand), &[b"G16", b"G15"]),
    (b"G10", Some(Kind::Nor), &[b"G14", b"G11"]),
    (b"G11", Some(Kind::Nor), &[b"G5", b"G9"]),
    (b"G12", Some(Kind::Nor), &[b"G1", b"G7"]),
    (b"G13", Some(Kind::Nor), &[b"G2", b"G12"]),
];

const DUMP: &[u8] = b"srdump 1\ncycles 2\nG5 11\n";

const TEN: &[u8] =
    b"srcert 1\nG10 0 1 by G5 0\nG11 0 0 by G11 0\nG11 1 0 by G11 1\nG17 0 1 by G17 0\nG14 0 0 by G10 0\nG17 1 1 by G17 1\nG6 1 0 by G6 0\nG0 0 1 by G14 0\nG8 0 0 by G8 0\nG8 1 0 by G8 1\nend\n";

const CLASHING: &[u8] = b"srdump 1\ncycles 2\nG5 1x\nG6 x1\n";

const CLASH: &[u8] = b"srcert 1\nG11 0 0 by G11 0\nG11 0 1 by G6 0\ncontradiction G11 0\n";

fn bytes_of(alloc: Global, text: &[u8]) -> Result<Bytes, Fail> {
    Ok(Sequence::from_vec(text.to_vec(alloc)?))
}

fn statement_of(alloc: Global, drive: &Drive) -> Result<Statement, Fail> {
    let (name, kind, pins) = *drive;
    let target = bytes_of(alloc, name)?;
    let Some(kind) = kind else {
        return Ok(Statement::Input(target));
    };
    let mut names = Names::new(alloc);
    for pin in pins {
        names.push(bytes_of(alloc, pin)?)?;
    }
    Ok(Statement::Drive {
        target,
        kind,
        pins: names,
    })
}

/// The netlist. `G11` is signal 5, the sixth that is mentioned.
fn seventeen(rt: &impl Abort, alloc: Global) -> Result<Netlist, Fail> {
    let mut statements = Statements::new(alloc);
    for drive in SEVENTEEN.iter() {
        statements.push(Numbered {
            line: 1,
            statement: statement_of(alloc, drive)?,
        })?;
    }
    assert!(rt; are_statements(&statements));
    Ok(build(alloc, statements)?)
}

/// How many facts a certificate has, and its contradiction, or why it is refused.
fn checked(
    rt: &impl Abort,
    alloc: Global,
    n: &Netlist,
    dump: &[u8],
    text: &[u8],
) -> Result<Result<(usize, Option<Cell>), CertRefusal>, Fail> {
    let d = read_dump(alloc, n, dump)?;
    assert!(rt; block_count(n.signals(), d.cycles()) <= MAX_BLOCKS);
    match check_cert(alloc, n, &d, text) {
        Ok(facts) => Ok(Ok((facts.lits.len(), facts.clash))),
        Err(refusal) => Ok(Err(refusal)),
    }
}

#[test]
fn accepts(rt: HostRuntime) -> Result<(), Fail> {
    cert_laws();
    log_laws();
    let n = seventeen(&rt, rt.alloc())?;
    let twice: &[u8] = b"srcert 1 # ten\n\nG10 0 1 by G5 0\r\n\tG10  0 1 by\tG5 0\nend";
    let cell = Cell {
        cycle: 0,
        sig: Sig(5),
    };
    let cases: [(&[u8], &[u8], usize, Option<Cell>); 4] = [
        (DUMP, TEN, 10, None),
        (DUMP, twice, 2, None),
        (DUMP, b"srcert 1\nend\n", 0, None),
        (CLASHING, CLASH, 2, Some(cell)),
    ];
    for (dump, text, count, clash) in cases {
        let found = checked(&rt, rt.alloc(), &n, dump, text)?;
        assert!(rt; found == Ok((count, clash)));
    }
    Ok(())
}

#[test]
fn refuses(rt: HostRuntime) -> Result<(), Fail> {
    let n = seventeen(&rt, rt.alloc())?;
    let cases: [(&[u8], CertRefusal); 24] = [
        (b"", CertRefusal::CertHead { line: 1 }),
        (b"\nsrcert 2\nend\n", CertRefusal::CertHead { line: 2 }),
        (b"srcert 1 1\nend\n", CertRefusal::CertHead { line: 1 }),
        (b"srcert 1\n", CertRefusal::CertSyntax { line: 2 }),
        (
            b"srcert 1\nG10 0 1 by G5 0\n\n",
            CertRefusal::CertSyntax { line: 4 },
        ),
        (b"srcert 1\nend\nend\n", CertRefusal::CertSyntax { line: 3 }),
        (
            b"srcert 1\nend\nG10 0 1 by G5 0\n",
            CertRefusal::CertSyntax { line: 3 },
        ),
        (
            b"srcert 1\nG10 0 1 at G5 0\n",
            CertRefusal::CertSyntax { line: 2 },
        ),
        (
            b"srcert 1\nG10 00 1 by G5 0\n",
            CertRefusal::CertSyntax { line: 2 },
        ),
        (
            b"srcert 1\nG10 0 2 by G5 0\n",
            CertRefusal::CertSyntax { line: 2 },
        ),
        (
            b"srcert 1\nG10 0 1 by G(5 0\n",
            CertRefusal::CertSyntax { line: 2 },
        ),
        (
            b"srcert 1\nnone 00 1 by G5 0\n",
            CertRefusal::CertSyntax { line: 2 },
        ),
        (
            b"srcert 1\nG10 18446744073709551616 1 by G5 0\n",
            CertRefusal::CertSyntax { line: 2 },
        ),
        (
            b"srcert 1\nG10 0 1 by G5 0 0\n",
            CertRefusal::CertSyntax { line: 2 },
        ),
        (
            b"srcert 1\nG10 18446744073709551615 1 by G5 0\n",
            CertRefusal::CertCell { line: 2 },
        ),
        (
            b"srcert 1\nnone 0 1 by G5 0\n",
            CertRefusal::CertCell { line: 2 },
        ),
        (
            b"srcert 1\nG10 0 1 by G3 0\n",
            CertRefusal::CertCell { line: 2 },
        ),
        (
            b"srcert 1\nG17 0 1 by G17 2\n",
            CertRefusal::CertCell { line: 2 },
        ),
        (
            b"srcert 1\nG10 1 1 by G5 1\n",
            CertRefusal::CertCell { line: 2 },
        ),
        (
            b"srcert 1\ncontradiction G10 2\n",
            CertRefusal::CertCell { line: 2 },
        ),
        (
            b"srcert 1\nG17 0 1 by G17 0\nG11 0 0 by G11 0\nend\n",
            CertRefusal::NotForced { line: 2 },
        ),
        (
            b"srcert 1\nG10 0 0 by G5 0\nend\n",
            CertRefusal::NotForced { line: 2 },
        ),
        (
            b"srcert 1\nG10 0 1 by G17 0\nend\n",
            CertRefusal::NotForced { line: 2 },
        ),
        (
            b"srcert 1\ncontradiction G5 0\n",
            CertRefusal::NotForced { line: 2 },
        ),
    ];
    for (text, refusal) in cases {
        let found = checked(&rt, rt.alloc(), &n, DUMP, text)?;
        assert!(rt; found == Err(refusal));
    }
    Ok(())
}

#[test]
fn prints(rt: HostRuntime) -> Result<(), Fail> {
    let n = seventeen(&rt, rt.alloc())?;
    assert_eq!(rt; n.signals(), 17);
    let steps = Steps::new(rt.alloc());
    let clash = Some(Cell {
        cycle: 1,
        sig: Sig(5),
    });
    let text = print_cert(rt.alloc(), &n, &Log { steps, clash })?;
    assert_eq!(rt;
        text.as_slice(),
        b"srcert 1\ncontradiction G11 1\n".as_slice()
    );
    Ok(())
}

#[test]
fn prints_a_line(rt: HostRuntime) -> Result<(), Fail> {
    let n = seventeen(&rt, rt.alloc())?;
    assert_eq!(rt; n.signals(), 17);
    let fact = Fact {
        lit: Lit {
            cell: Cell {
                cycle: 70,
                sig: Sig(0),
            },
            bit: true,
        },
        place: Place {
            cycle: 69,
            target: Sig(1),
        },
    };
    let mut text = Vec::new(rt.alloc());
    push_fact(&mut text, &n, fact)?;
    assert_eq!(rt; text.as_slice(), b"G0 70 1 by G1 69\n".as_slice());
    Ok(())
}
