//! What the calls of a netlist say of small ones.
use super::{Row, built, statements_of};
use sr_model::{Kind, Sig};
use std::alloc::Global;
use std::process::Abort;
use std::test::Fail;

/// A signal's name, the kind that drives it, its pins, its readers, and the signals of what drives it.
type Wanted<'test> = (
    &'test [u8],
    Option<Kind>,
    &'test [Sig],
    &'test [Sig],
    &'test [Sig],
);

/// Small statements, and what stands in their netlist.
#[derive(Clone, Copy)]
struct Case<'test> {
    rows: &'test [Row<'test>],
    signals: &'test [Wanted<'test>],
    inputs: &'test [Sig],
    outputs: &'test [Sig],
    flip_flops: &'test [Sig],
    order: &'test [Sig],
}

fn expect_case(rt: &impl Abort, alloc: Global, case: &Case<'_>) -> Result<(), Fail> {
    let statements = statements_of(alloc, case.rows)?;
    let netlist = built(rt, alloc, statements)?;
    assert!(rt; case.signals.len() == netlist.signals() as usize);
    for (number, (name, kind, pins, readers, signals)) in case.signals.iter().enumerate() {
        let sig = Sig(number as u32);
        assert_eq!(rt; netlist.name(sig), *name);
        assert_eq!(rt; netlist.find(name), Some(sig));
        assert_eq!(rt; netlist.kind_of(sig), *kind);
        assert_eq!(rt; netlist.pins_of(sig), *pins);
        assert_eq!(rt; netlist.readers(sig), *readers);
        assert_eq!(rt; netlist.signals_of(sig), *signals);
    }
    assert_eq!(rt; netlist.find(b"none"), None);
    assert_eq!(rt; netlist.inputs(), case.inputs);
    assert_eq!(rt; netlist.outputs(), case.outputs);
    assert_eq!(rt; netlist.flip_flops(), case.flip_flops);
    assert_eq!(rt; netlist.order(), case.order);
    Ok(())
}

#[test]
fn small_netlists(rt: HostRuntime) -> Result<(), Fail> {
    let cases = [
        Case {
            rows: &[],
            signals: &[],
            inputs: &[],
            outputs: &[],
            flip_flops: &[],
            order: &[],
        },
        Case {
            rows: &[
                Row::Drive(b"q", Kind::Dff, &[b"n"]),
                Row::Drive(b"n", Kind::Not, &[b"a"]),
                Row::Input(b"a"),
            ],
            signals: &[
                (b"q", Some(Kind::Dff), &[Sig(1)], &[], &[Sig(0), Sig(1)]),
                (
                    b"n",
                    Some(Kind::Not),
                    &[Sig(2)],
                    &[Sig(0)],
                    &[Sig(1), Sig(2)],
                ),
                (b"a", None, &[], &[Sig(1)], &[]),
            ],
            inputs: &[Sig(2)],
            outputs: &[],
            flip_flops: &[Sig(0)],
            order: &[Sig(1)],
        },
        // a flip-flop that drives itself
        Case {
            rows: &[Row::Drive(b"q", Kind::Dff, &[b"q"])],
            signals: &[(b"q", Some(Kind::Dff), &[Sig(0)], &[Sig(0)], &[Sig(0)])],
            inputs: &[],
            outputs: &[],
            flip_flops: &[Sig(0)],
            order: &[],
        },
        // outputs in another order than numbers, and one of them twice; a pin twice; gates from the highest rank down
        Case {
            rows: &[
                Row::Drive(b"m", Kind::Nor, &[b"n", b"a", b"n"]),
                Row::Output(b"q"),
                Row::Drive(b"n", Kind::And, &[b"a", b"q", b"a"]),
                Row::Output(b"m"),
                Row::Input(b"b"),
                Row::Input(b"a"),
                Row::Output(b"q"),
                Row::Drive(b"q", Kind::Dff, &[b"m"]),
            ],
            signals: &[
                (
                    b"m",
                    Some(Kind::Nor),
                    &[Sig(1), Sig(2), Sig(1)],
                    &[Sig(3)],
                    &[Sig(0), Sig(1), Sig(2)],
                ),
                (
                    b"n",
                    Some(Kind::And),
                    &[Sig(2), Sig(3), Sig(2)],
                    &[Sig(0)],
                    &[Sig(1), Sig(2), Sig(3)],
                ),
                (b"a", None, &[], &[Sig(0), Sig(1)], &[]),
                (
                    b"q",
                    Some(Kind::Dff),
                    &[Sig(0)],
                    &[Sig(1)],
                    &[Sig(0), Sig(3)],
                ),
                (b"b", None, &[], &[], &[]),
            ],
            inputs: &[Sig(4), Sig(2)],
            outputs: &[Sig(3), Sig(0)],
            flip_flops: &[Sig(3)],
            order: &[Sig(1), Sig(0)],
        },
    ];
    for case in &cases {
        expect_case(&rt, rt.alloc(), case)?;
    }
    Ok(())
}

#[test]
fn other_readers_and_parities(rt: HostRuntime) -> Result<(), Fail> {
    let rows = [
        Row::Input(b"a"),
        Row::Input(b"b"),
        Row::Drive(b"x", Kind::Xor, &[b"a", b"a", b"b"]),
        Row::Drive(b"y", Kind::Xor, &[b"a", b"a"]),
        Row::Drive(b"q", Kind::Dff, &[b"q"]),
        Row::Drive(b"n", Kind::Nand, &[b"a", b"b", b"a"]),
        Row::Drive(b"m", Kind::Not, &[b"q"]),
    ];
    // the other readers, the signals of what drives the signal, which of them stand an odd number of times among the pins, and where each pin stands
    let cases: [(&[Sig], &[Sig], &[bool], &[u16]); 7] = [
        (&[Sig(2), Sig(3), Sig(5)], &[], &[], &[]),
        (&[Sig(2), Sig(5)], &[], &[], &[]),
        (
            &[],
            &[Sig(0), Sig(1), Sig(2)],
            &[false, true, false],
            &[0, 0, 1],
        ),
        (&[], &[Sig(0), Sig(3)], &[false, false], &[0, 0]),
        (&[Sig(6)], &[Sig(4)], &[true], &[0]),
        (
            &[],
            &[Sig(0), Sig(1), Sig(5)],
            &[false, true, false],
            &[0, 1, 0],
        ),
        (&[], &[Sig(4), Sig(6)], &[true, false], &[0]),
    ];
    let statements = statements_of(rt.alloc(), &rows)?;
    let netlist = built(&rt, rt.alloc(), statements)?;
    assert!(rt; netlist.signals() == 7);
    for (number, (others, signals, parities, places)) in cases.iter().enumerate() {
        let sig = Sig(number as u32);
        assert_eq!(rt; netlist.other_readers(sig), *others);
        assert_eq!(rt; netlist.signals_of(sig), *signals);
        assert_eq!(rt; netlist.pin_parities(sig), *parities);
        assert_eq!(rt; netlist.pin_places(sig), *places);
    }
    Ok(())
}
