//! Certificates of logs that are made by hand, and what is written of certificates that are accepted.
ghost use Rattle.std.specs.Prelude.{◌≡◌, ◌<◌, All, IfOk, length};
ghost use Rattle.certificates.specs.Logs.{IsClashIn, IsStepIn};

use super::{GATES, netlist};
use crate::{RowBuf, write_certificate, write_checked};
use certificates::print_cert;
use netlist::Netlist;
use plain_close::{Log, Step, Steps};
use sr_model::{Cell, Lit, Place, Sig};
use sr_outside::MemSink;
use std::alloc::Global;
use std::process::Abort;
use std::test::*;

/// A literal by its signal, cycle and bit, and a place by its target and cycle.
type Said = ((u32, u32, bool), (u32, u32));

fn step(rt: &impl Abort, net: &Netlist, said: Said) -> Step
    ensures { IsStepIn (length net.now.drivers) result }
{
    let ((signal, cycle, bit), (target, place_cycle)) = said;
    assert!(rt; signal < net.signals());
    assert!(rt; target < net.signals());
    let cell = Cell {
        cycle,
        sig: Sig(signal),
    };
    Step {
        lit: Lit { cell, bit },
        place: Place {
            cycle: place_cycle,
            target: Sig(target),
        },
    }
}

/// These steps, and a contradiction, if there is one.
fn log_of(
    rt: &impl Abort,
    alloc: Global,
    net: &Netlist,
    said: &[Said],
    clash: Option<(u32, u32)>,
) -> Result<Log, Fail>
    ensures steps { IfOk result (λ log. All (IsStepIn (length net.now.drivers)) log.steps.items) }
    ensures clash { IfOk result (λ log. IsClashIn (length net.now.drivers) log.clash) }
{
    let mut steps = Steps::new(alloc);
    for one in said {
        steps.push(step(rt, net, *one))?;
    }
    let Some((signal, cycle)) = clash else {
        return Ok(Log { steps, clash: None });
    };
    assert!(rt; signal < net.signals());
    let cell = Cell {
        cycle,
        sig: Sig(signal),
    };
    Ok(Log {
        steps,
        clash: Some(cell),
    })
}

/// The certificate of these steps of `GATES` is this text.
fn expect_certificate(
    rt: &impl Abort,
    alloc: Global,
    said: &[Said],
    clash: Option<(u32, u32)>,
    want: &[u8],
) -> Result<(), Fail> {
    let net = netlist(alloc, GATES)?;
    let log = log_of(rt, alloc, &net, said, clash)?;
    let mut buf = RowBuf::new(alloc)?;
    let mut out = MemSink::new(alloc, 1000)?;
    let answer = write_certificate(&net, &log, &mut buf, &mut out);
    assert!(rt; answer.is_ok());
    assert_eq!(rt; out.bytes(), want);
    Ok(())
}

#[test]
fn certificates(rt: HostRuntime) -> Result<(), Fail> {
    let said: [Said; 3] = [
        ((0, 0, false), (4, 0)),
        ((1, 0, true), (2, 10)),
        ((2, 1, false), (2, 0)),
    ];
    let cases: [(&[Said], Option<(u32, u32)>, &[u8]); 3] = [
        (
            said.as_slice(),
            None,
            b"srcert 1\nr 0 0 by z 0\na 0 1 by q 10\nq 1 0 by q 0\nend\n",
        ),
        (
            &said[..1],
            Some((1, 7)),
            b"srcert 1\nr 0 0 by z 0\ncontradiction a 7\n",
        ),
        (&[], None, b"srcert 1\nend\n"),
    ];
    for (steps, clash, want) in cases {
        expect_certificate(&rt, rt.alloc(), steps, clash, want)?;
    }
    Ok(())
}

/// A netlist whose one signal but one has the longest name.
fn long_named(alloc: Global) -> Result<Netlist, Fail> {
    let mut text = b"INPUT(".to_vec(alloc)?;
    for _ in 0..255 {
        text.push(b'x')?;
    }
    text.extend_from_slice(b")\nINPUT(a)\n")?;
    netlist(alloc, text.as_slice())
}

/// As much of the certificate of a log as there is room for is written; it is so long.
fn expect_front(
    rt: &impl Abort,
    alloc: Global,
    net: &Netlist,
    said: &[Said],
    room: u32,
) -> Result<usize, Fail> {
    let log = log_of(rt, alloc, net, said, Some((0, 4_294_967_295)))?;
    let text = print_cert(alloc, net, &log)?;
    let whole = text.as_slice();
    let mut buf = RowBuf::new(alloc)?;
    let mut out = MemSink::new(alloc, room)?;
    let answer = write_certificate(net, &log, &mut buf, &mut out);
    let front = whole.len().min(room as usize);
    assert!(rt; out.bytes() == &whole[..front]);
    assert_eq!(rt; answer.is_ok(), front == whole.len());
    Ok(whole.len())
}

/// Texts that take the buffer several times, whole and in part.
#[test]
fn long_certificates(rt: HostRuntime) -> Result<(), Fail> {
    let net = long_named(rt.alloc())?;
    let long: [Said; 50] = [((0, 4_294_967_295, true), (0, 4_294_967_295)); 50];
    let short: [Said; 2000] = [((1, 0, false), (1, 0)); 2000];
    for (said, len) in [(long.as_slice(), 27_240), (short.as_slice(), 26_290)] {
        for room in [0, 8, 8_192, 8_449, 8_450, 16_000, len - 1, len, 50_000] {
            let whole = expect_front(&rt, rt.alloc(), &net, said, room)?;
            assert_eq!(rt; whole, len as usize);
        }
    }
    Ok(())
}

/// What is written of an accepted certificate of `GATES`, into so much room.
fn expect_checked(
    rt: &impl Abort,
    alloc: Global,
    facts: u64,
    clash: Option<(u32, u32)>,
    room: u32,
    want: (&[u8], bool),
) -> Result<(), Fail> {
    let net = netlist(alloc, GATES)?;
    let log = log_of(rt, alloc, &net, &[], clash)?;
    let mut out = MemSink::new(alloc, room)?;
    let answer = write_checked(&net, facts, log.clash, &mut out);
    let (text, fits) = want;
    assert_eq!(rt; out.bytes(), text);
    assert_eq!(rt; answer.is_ok(), fits);
    Ok(())
}

#[test]
fn accepted_certificates(rt: HostRuntime) -> Result<(), Fail> {
    expect_checked(&rt, rt.alloc(), 10, None, 100, (b"accepted 10\n", true))?;
    expect_checked(&rt, rt.alloc(), 10, None, 11, (b"accepted 10", false))?;
    expect_checked(
        &rt,
        rt.alloc(),
        0,
        Some((4, 7)),
        100,
        (b"accepted 0\ncontradiction z 7\n", true),
    )?;
    expect_checked(
        &rt,
        rt.alloc(),
        0,
        Some((4, 7)),
        20,
        (b"accepted 0\ncontradic", false),
    )
}
