//! The records of a small netlist, and which tasks fresh bits are in.
use super::{built, drive};
use crate::{InChunk, Shape, SignalRecords};
use netlist::Netlist;
use sr_model::{Family, Kind, Sig, Statement, to_bytes};
use std::alloc::Global;
use std::process::Abort;
use std::test::Fail;

/// Signals q 0, n 1, z 2, a 3, s 4 and x 5.
fn small(rt: &impl Abort, alloc: Global) -> Result<Netlist, Fail> {
    let rows = [
        drive(alloc, b"q", Kind::Dff, &[b"n"])?,
        drive(alloc, b"n", Kind::Not, &[b"q"])?,
        drive(alloc, b"z", Kind::Or, &[b"q", b"a"])?,
        drive(alloc, b"s", Kind::Dff, &[b"s"])?,
        drive(alloc, b"x", Kind::Xor, &[b"a", b"q", b"a"])?,
        Statement::Input(to_bytes(alloc, b"a")?),
    ];
    built(rt, alloc, rows)
}

#[test]
fn records_have_shapes_and_pins(rt: HostRuntime) -> Result<(), Fail> {
    let net = small(&rt, rt.alloc())?;
    assert!(rt; net.signals() == 6);
    let records = SignalRecords::new(rt.alloc(), &net)?;
    let not = Family::AndLike {
        pins: true,
        target: false,
    };
    let or = Family::AndLike {
        pins: false,
        target: false,
    };
    // a signal, its shape and pins, and the signals adjacent to it
    let cases: [(u32, Shape, u32, u32, &[Sig]); 6] = [
        (0, Shape::FlipFlop, 1, 0, &[Sig(0), Sig(1), Sig(2), Sig(5)]),
        (1, Shape::OnePin(not), 0, 1, &[Sig(1), Sig(0)]),
        (2, Shape::TwoPins(or), 0, 3, &[Sig(2)]),
        (3, Shape::Input, 3, 3, &[Sig(2), Sig(5)]),
        (4, Shape::OwnPin, 4, 4, &[Sig(4)]),
        (5, Shape::Other, 3, 0, &[Sig(5)]),
    ];
    for (number, shape, first, second, adjacent) in cases {
        assert!(rt; number < 6);
        let s = Sig(number);
        let record = records.get(s);
        assert_eq!(rt; record.shape, shape, "{number}");
        assert_eq!(rt;
            (record.first.0, record.second.0),
            (first, second),
            "{number}"
        );
        assert_eq!(rt; records.adjacent(s), adjacent, "{number}");
    }
    Ok(())
}

#[test]
fn fresh_bits_wake_their_tasks(rt: HostRuntime) -> Result<(), Fail> {
    let net = small(&rt, rt.alloc())?;
    assert!(rt; net.signals() == 6);
    let records = SignalRecords::new(rt.alloc(), &net)?;
    // a signal, a chunk and the fresh bits, and which tasks are woken: the one before, and those of the chunk
    let cases: [(u32, u32, u64, bool, &[Sig]); 12] = [
        (0, 1, 1, true, &[Sig(1), Sig(2), Sig(5)]),
        (0, 1, 2, false, &[Sig(0), Sig(1), Sig(2), Sig(5)]),
        (0, 1, 3, true, &[Sig(0), Sig(1), Sig(2), Sig(5)]),
        (0, 0, 1, false, &[Sig(1), Sig(2), Sig(5)]),
        (0, 0, 3, false, &[Sig(0), Sig(1), Sig(2), Sig(5)]),
        (4, 1, 1, true, &[Sig(4)]),
        (4, 1, 2, false, &[Sig(4)]),
        (4, 1, 3, true, &[Sig(4)]),
        (1, 1, 1, false, &[Sig(1), Sig(0)]),
        (1, 1, 3, false, &[Sig(1), Sig(0)]),
        (3, 1, 1, false, &[Sig(2), Sig(5)]),
        (5, 1, 2, false, &[Sig(5)]),
    ];
    for (number, chunk, fresh, before, here) in cases {
        assert!(rt; number < 6);
        let sig = Sig(number);
        let woken = records.woken(InChunk { sig, chunk }, fresh);
        assert_eq!(rt; woken.before, before, "{number} {chunk} {fresh}");
        assert_eq!(rt; woken.here, here, "{number} {chunk} {fresh}");
    }
    Ok(())
}
