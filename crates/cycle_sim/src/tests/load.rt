//! Two load netlists, with lines that a program in another language drew.
ghost use Rattle.std.specs.Prelude.{◌≡◌, ◌/◌, length, IfOk};
ghost use Rattle.netlist.specs.Wiring.{flip_flops};
ghost use Rattle.cycle_sim.specs.Load.{IsLoadSize};

use crate::load_netlist;
use netlist::{NetRefusal, Netlist, build};
use sr_model::{Names, NoMemory, Numbered, Statement};
use std::alloc::{AllocError, Global};
use std::test::*;

/// All lines of number 1 with 16 signals.
const SIXTEEN: [&[u8]; 17] = [
    b"1:IN n0",
    b"2:n3 Nand n2 n0",
    b"3:n4 Nand n0 n3",
    b"4:n5 And n0 n0",
    b"5:n6 Or n4 n2",
    b"6:n7 Buf n1",
    b"7:n8 Buf n5",
    b"8:n9 Xnor n8 n2",
    b"9:n10 Not n0",
    b"10:n11 Nor n6 n10",
    b"11:n12 Nand n3 n2",
    b"12:n13 And n11 n8",
    b"13:n14 Xor n0 n12",
    b"14:n15 Nor n11 n14",
    b"15:n1 Dff n13",
    b"16:n2 Dff n8",
    b"17:OUT n15",
];

/// Some lines of number 1 with 1,600 signals.
const SIXTEEN_HUNDRED: [(usize, &[u8]); 9] = [
    (1, b"1:IN n0"),
    (100, b"100:IN n99"),
    (101, b"101:n300 Nand n179 n15"),
    (102, b"102:n301 Nand n289 n25"),
    (1400, b"1400:n1599 Or n1359 n239"),
    (1401, b"1401:n100 Dff n1456"),
    (1402, b"1402:n101 Dff n1202"),
    (1600, b"1600:n299 Dff n1294"),
    (1601, b"1601:OUT n1599"),
];

fn push_names(text: &mut Vec<u8>, names: &Names) -> Result<(), AllocError> {
    for name in names.as_slice() {
        text.push(b' ')?;
        text.extend_from_slice(name.as_slice())?;
    }
    Ok(())
}

/// A statement with its line.
fn text_of(alloc: Global, stated: &Numbered) -> Result<Vec<u8>, AllocError> {
    let mut text = format!(in alloc; "{}:", stated.line)?.into_bytes();
    match &stated.statement {
        Statement::Input(name) => {
            text.extend_from_slice(b"IN ")?;
            text.extend_from_slice(name.as_slice())?;
        }
        Statement::OutputOf(name) => {
            text.extend_from_slice(b"OUT ")?;
            text.extend_from_slice(name.as_slice())?;
        }
        Statement::Drive { target, kind, pins } => {
            text.extend_from_slice(target.as_slice())?;
            text.extend_from_slice(format!(in alloc; " {kind:?}")?.as_bytes())?;
            push_names(&mut text, pins)?;
        }
    }
    Ok(text)
}

/// The netlist of a number. No rule refuses it, as the contracts prove.
fn loaded(alloc: Global, number: u64, signals: u32) -> Result<Netlist, NoMemory>
    requires { IsLoadSize signals }
    ensures signals { IfOk result (λ n. length n.drivers ≡ signals) }
    ensures flip_flops { IfOk result (λ n. length (flip_flops n.drivers) ≡ signals / 8) }
{
    let statements = load_netlist(alloc, number, signals)?;
    match build(alloc, statements) {
        Ok(netlist) => Ok(netlist),
        Err(NetRefusal::NoMemory) => Err(NoMemory),
        Err(_) => unreachable!(),
    }
}

#[test]
fn sixteen_signals(rt: HostRuntime) -> Result<(), Fail> {
    let alloc = rt.alloc();
    let statements = load_netlist(alloc, 1, 16)?;
    assert_eq!(&rt; statements.len(), SIXTEEN.len());
    for (stated, text) in statements.as_slice().iter().zip(SIXTEEN) {
        assert_eq!(&rt; text_of(alloc, stated)?.as_slice(), text);
    }
    Ok(())
}

#[test]
fn sixteen_hundred_signals(rt: HostRuntime) -> Result<(), Fail> {
    let alloc = rt.alloc();
    let statements = load_netlist(alloc, 1, 1600)?;
    assert_eq!(&rt; statements.len(), 1601);
    for (line, text) in SIXTEEN_HUNDRED {
        assert!(&rt; line >= 1 && line <= statements.len());
        assert_eq!(&rt; text_of(alloc, statements.get(line - 1))?.as_slice(), text);
    }
    Ok(())
}

#[test]
fn the_largest_is_built(rt: HostRuntime) -> Result<(), Fail> {
    let net = loaded(rt.alloc(), 7, 65_536)?;
    assert_eq!(&rt; net.signals(), 65_536);
    assert_eq!(&rt; net.inputs().len(), 4096);
    assert_eq!(&rt; net.flip_flops().len(), 8192);
    Ok(())
}
