//! Texts and their answers, worked out by hand.
use crate::{BenchRefusal, bench_laws, print_bench, print_laws, read_bench};
use netlist::{are_statements, build};
use sr_model::{Bytes, Kind, Names, Numbered, Statement, Statements};
use std::alloc::{AllocError, Global};
use std::process::Abort;
use std::test::*;

fn kind_word(kind: Kind) -> &'static str {
    match kind {
        Kind::And => "AND",
        Kind::Nand => "NAND",
        Kind::Or => "OR",
        Kind::Nor => "NOR",
        Kind::Xor => "XOR",
        Kind::Xnor => "XNOR",
        Kind::Not => "NOT",
        Kind::Buf => "BUF",
        Kind::Dff => "DFF",
    }
}

fn push_pins(shown: &mut Vec<u8>, pins: &Names) -> Result<(), AllocError> {
    for pin in pins.as_slice() {
        shown.push(b' ')?;
        shown.extend_from_slice(pin.as_slice())?;
    }
    Ok(())
}

fn push_statement(alloc: Global, shown: &mut Vec<u8>, stated: &Numbered) -> Result<(), AllocError> {
    let line = format!(in alloc; "{}:", stated.line)?;
    shown.extend_from_slice(line.as_bytes())?;
    match &stated.statement {
        Statement::Input(name) => {
            shown.extend_from_slice(b"IN ")?;
            shown.extend_from_slice(name.as_slice())?;
        }
        Statement::OutputOf(name) => {
            shown.extend_from_slice(b"OUT ")?;
            shown.extend_from_slice(name.as_slice())?;
        }
        Statement::Drive { target, kind, pins } => {
            shown.extend_from_slice(target.as_slice())?;
            shown.push(b' ')?;
            shown.extend_from_slice(kind_word(*kind).as_bytes())?;
            push_pins(shown, pins)?;
        }
    }
    shown.push(b';')?;
    Ok(())
}

/// Each statement with its line.
fn shown(alloc: Global, statements: &Statements) -> Result<Vec<u8>, AllocError> {
    let mut shown = Vec::new(alloc);
    for stated in statements.as_slice() {
        push_statement(alloc, &mut shown, stated)?;
    }
    Ok(shown)
}

#[test]
fn texts_that_are_read(rt: HostRuntime) -> Result<(), Fail> {
    let cases: [(&[u8], &[u8]); 26] = [
        (b"", b""),
        (b"\n \t\r\n# only a comment\n", b""),
        (b"INPUT(a)", b"1:IN a;"),
        (b"input(a)\nOuTpUt(a)\n", b"1:IN a;2:OUT a;"),
        (b"\r\n\tINPUT ( a ) \r\n\n", b"2:IN a;"),
        (b"z=and(a,b)", b"1:z AND a b;"),
        (b" z = nand ( a , b )\r\n", b"1:z NAND a b;"),
        (b"z\t=\rOR\t(\ra\t,\rb\t)\r", b"1:z OR a b;"),
        (b"z = Nor(a)\nz = xor(a, a)", b"1:z NOR a;2:z XOR a a;"),
        (b"z = XNOR(a, b, c, d)", b"1:z XNOR a b c d;"),
        (b"z = not(a)\ny = Dff(z)\n", b"1:z NOT a;2:y DFF z;"),
        (b"z = BUF(a)\ny = buff(z)\n", b"1:z BUF a;2:y BUF z;"),
        (
            b"q = DFF(n)\nn = NOT(a)\nINPUT(a)\n",
            b"1:q DFF n;2:n NOT a;3:IN a;",
        ),
        (b"OUTPUT(a)\nOUTPUT(a)\n", b"1:OUT a;2:OUT a;"),
        (b"INPUT(a) # the first\n#\nINPUT(b)#b\n", b"1:IN a;3:IN b;"),
        (
            b"INPUT = NOT(a)\nOUTPUT = AND(INPUT)\n",
            b"1:INPUT NOT a;2:OUTPUT AND INPUT;",
        ),
        (b"INPUT(INPUT)\nINPUT(OUTPUT)\n", b"1:IN INPUT;2:IN OUTPUT;"),
        (b"AND = AND(AND)\n", b"1:AND AND AND;"),
        (b"INPUT(u_core.count[3])\n", b"1:IN u_core.count[3];"),
        (
            b"INPUT(!\"$%&'*+-./:;<>?@[\\]^_`{|}~)\n",
            b"1:IN !\"$%&'*+-./:;<>?@[\\]^_`{|}~;",
        ),
        (
            b"q = DFF( d )\nn = NOT( a )\ng = AND( a, b )\n",
            b"1:q DFF d;2:n NOT a;3:g AND a b;",
        ),
        (
            b"one = XNOR(a, a)\nzero = XOR(a, a)\n",
            b"1:one XNOR a a;2:zero XOR a a;",
        ),
        (b"# c\n\n\nINPUT(clk)\n", b"4:IN clk;"),
        (
            b"INPUT(a)\nINPUT(a)\na = AND(a)\n",
            b"1:IN a;2:IN a;3:a AND a;",
        ),
        (b"INPUT(a)\r\nINPUT(b)\r\n", b"1:IN a;2:IN b;"),
        (b"INPUT(a)\n\n\n\n\n\n\n\n\nINPUT(b)", b"1:IN a;10:IN b;"),
    ];
    for (text, answer) in cases {
        let read = read_bench(rt.alloc(), text)?;
        assert_eq!(rt; shown(rt.alloc(), &read)?.as_slice(), answer);
    }
    bench_laws();
    Ok(())
}

fn refusal(alloc: Global, text: &[u8]) -> Option<BenchRefusal> {
    match read_bench(alloc, text) {
        Ok(_) => None,
        Err(refusal) => Some(refusal),
    }
}

#[test]
fn texts_that_are_refused(rt: HostRuntime) -> Result<(), Fail> {
    let syntax = |line| BenchRefusal::Syntax { line };
    let cases: [(&[u8], BenchRefusal); 34] = [
        (b"INPUT(a)\nz", syntax(2)),
        (b"\n\nINPUT a\n", syntax(3)),
        (b"INPUT(a", syntax(1)),
        (b"INPUT a)", syntax(1)),
        (b"INPUT()", syntax(1)),
        (b"INPUT(a, b)", syntax(1)),
        (b"INPUT(a) b", syntax(1)),
        (b"INPUT(a))", syntax(1)),
        (b"INPUTS(a)", syntax(1)),
        (b"FOO(a)", syntax(1)),
        (b"DFF(a)", syntax(1)),
        (b"z = AND()", syntax(1)),
        (b"z = AND(a,)", syntax(1)),
        (b"z = AND(,a)", syntax(1)),
        (b"z = AND(a b)", syntax(1)),
        (b"z = AND(a, b", syntax(1)),
        (b"z = AND(a, b) c", syntax(1)),
        (b"z = (a)", syntax(1)),
        (b"= AND(a)", syntax(1)),
        (b"z AND(a)", syntax(1)),
        (b"y z = AND(a)", syntax(1)),
        (b"z == AND(a)", syntax(1)),
        (b"x = vdd", syntax(1)),
        (b"x = LUT 0x8 ( a, b )", syntax(1)),
        (b"INPUT(a\x0b)", syntax(1)),
        (b"INPUT(\x0ca)", syntax(1)),
        (b"INPUT(\x7f)", syntax(1)),
        (b"INPUT(\xc3\xa4)", syntax(1)),
        (b"z = INPUT(a)", BenchRefusal::UnknownKind { line: 1 }),
        (
            b"INPUT(a)\nz = FOO(a, a)",
            BenchRefusal::UnknownKind { line: 2 },
        ),
        (
            b"q = DFFRSE( d, gnd, gnd, gnd, gnd )",
            BenchRefusal::UnknownKind { line: 1 },
        ),
        (b"z = NOT(a, b)", BenchRefusal::WrongPins { line: 1 }),
        (b"z = buff(a, a)\nz", BenchRefusal::WrongPins { line: 1 }),
        (
            b"z = DFF(a, b)\nz = FOO(a)",
            BenchRefusal::WrongPins { line: 1 },
        ),
    ];
    for (text, answer) in cases {
        assert_eq!(rt; refusal(rt.alloc(), text), Some(answer));
    }
    Ok(())
}

#[test]
fn long_names(rt: HostRuntime) -> Result<(), Fail> {
    let most = "n".repeat(rt.alloc(), 255)?;
    let long = "n".repeat(rt.alloc(), 256)?;
    let cases: [(String, Option<BenchRefusal>); 8] = [
        (format!(in rt.alloc(); "INPUT({most})")?, None),
        (
            format!(in rt.alloc(); "OUTPUT({long})")?,
            Some(BenchRefusal::NameLong { line: 1 }),
        ),
        (
            format!(in rt.alloc(); "\n{long} = NOT(a)")?,
            Some(BenchRefusal::NameLong { line: 2 }),
        ),
        (
            format!(in rt.alloc(); "z = AND(a, {long})")?,
            Some(BenchRefusal::NameLong { line: 1 }),
        ),
        (
            format!(in rt.alloc(); "z = FOO({long})")?,
            Some(BenchRefusal::NameLong { line: 1 }),
        ),
        (
            format!(in rt.alloc(); "z = NOT({long}, a)")?,
            Some(BenchRefusal::NameLong { line: 1 }),
        ),
        (
            format!(in rt.alloc(); "z = {long}(a)")?,
            Some(BenchRefusal::UnknownKind { line: 1 }),
        ),
        (
            format!(in rt.alloc(); "{long}({long})")?,
            Some(BenchRefusal::Syntax { line: 1 }),
        ),
    ];
    for (text, answer) in cases {
        assert_eq!(rt; refusal(rt.alloc(), text.as_bytes()), answer);
    }
    Ok(())
}

#[test]
fn wide_gates(rt: HostRuntime) -> Result<(), Fail> {
    for (others, answer) in [
        (1023, None),
        (1024, Some(BenchRefusal::WrongPins { line: 1 })),
    ] {
        let pins = "a, ".repeat(rt.alloc(), others)?;
        let text = format!(in rt.alloc(); "z = XOR({pins}a)")?;
        assert_eq!(rt; refusal(rt.alloc(), text.as_bytes()), answer);
    }
    Ok(())
}

#[test]
fn the_longest_netlist_of_empty_lines(rt: HostRuntime) -> Result<(), Fail> {
    let text = vec![in rt.alloc(); b'\n'; 16_777_216]?;
    assert_eq!(rt; read_bench(rt.alloc(), text.as_slice())?.len(), 0);
    Ok(())
}

/// The printed text of the netlist of a text.
fn reprinted(rt: &impl Abort, alloc: Global, text: &[u8]) -> Result<Bytes, Fail> {
    let statements = read_bench(alloc, text)?;
    assert!(rt; are_statements(&statements));
    let netlist = build(alloc, statements)?;
    Ok(print_bench(alloc, &netlist)?)
}

#[test]
fn texts_that_are_printed(rt: HostRuntime) -> Result<(), Fail> {
    let cases: [(&[u8], &[u8]); 9] = [
        (b"", b""),
        (b"# none\n\n", b""),
        (
            b"input(b)\nINPUT( a )\noutput(a) # a\nOUTPUT(b)\nOUTPUT(a)",
            b"INPUT(b)\nINPUT(a)\nOUTPUT(a)\nOUTPUT(b)\n",
        ),
        (
            b"z=and(b,a)\nOUTPUT(z)\nINPUT(a)\nINPUT(b)\n",
            b"INPUT(a)\nINPUT(b)\nOUTPUT(z)\nz = AND(b, a)\n",
        ),
        (
            b"INPUT(a)\nz = buf(a)\ny = BUFF(z)\n",
            b"INPUT(a)\nz = BUFF(a)\ny = BUFF(z)\n",
        ),
        (b"q = dff(n)\nn = not(q)\n", b"q = DFF(n)\nn = NOT(q)\n"),
        (
            b"INPUT(a)\ng = nand(a, a, a)\nh = or(a)\ni = nor(a, g)\nj = xor(g, a)\nk = xnor(g, g)\n",
            b"INPUT(a)\ng = NAND(a, a, a)\nh = OR(a)\ni = NOR(a, g)\nj = XOR(g, a)\nk = XNOR(g, g)\n",
        ),
        (
            b"y = NOT(z)\nz = NOT(a)\nINPUT(a)\n",
            b"INPUT(a)\ny = NOT(z)\nz = NOT(a)\n",
        ),
        (
            b"INPUT(a)\nOUTPUT(o)\nb = NOT(a)\no = NOT(b)\n",
            b"INPUT(a)\nOUTPUT(o)\no = NOT(b)\nb = NOT(a)\n",
        ),
    ];
    for (text, printed) in cases {
        let once = reprinted(&rt, rt.alloc(), text)?;
        assert_eq!(rt; once.as_slice(), printed);
        let again = reprinted(&rt, rt.alloc(), once.as_slice())?;
        assert_eq!(rt; again.as_slice(), printed);
    }
    print_laws();
    Ok(())
}
