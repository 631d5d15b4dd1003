//! The logs of small dumps, worked out by hand.
use super::closing::SEVENTEEN;
use super::{Drive, netlist_of};
use crate::{Log, Step, derive_log};
use dump_reader::read_dump;
use known_planes::seed;
use sr_model::{Cell, Kind, Lit, Place, Sig};
use std::alloc::Global;
use std::process::Abort;
use std::test::Fail;
use unroll::Problem;

/// A flip-flop that is its own data pin.
const ITS_OWN_PIN: &[Drive<'static>] = &[(Some(Kind::Dff), &[0])];

/// A step: cycle, signal and bit of the literal, and cycle and target of the place.
type Row = (u32, u32, bool, u32, u32);

/// A netlist of 100 signals at most, a dump's text of 128 cycles at most, its steps, and the cycle and signal of the clash.
type Case<'a> = (&'a [Drive<'a>], &'a [u8], &'a [Row], Option<(u32, u32)>);

const CASES: &[Case<'static>] = &[
    // three levels, of three, four and three steps
    (
        SEVENTEEN,
        b"srdump 1\ncycles 2\nn5 11\n",
        &[
            (0, 6, true, 0, 5),
            (0, 8, false, 0, 8),
            (1, 8, false, 1, 8),
            (0, 4, true, 0, 4),
            (0, 11, false, 0, 6),
            (1, 4, true, 1, 4),
            (1, 7, false, 0, 7),
            (0, 0, true, 0, 11),
            (0, 12, false, 0, 12),
            (1, 12, false, 1, 12),
        ],
        None,
    ),
    // n8 is 0 by its own gate, and 1 by the flip-flop n7
    (
        SEVENTEEN,
        b"srdump 1\ncycles 2\nn5 1x\nn7 x1\n",
        &[(0, 8, false, 0, 8), (0, 8, true, 0, 7)],
        Some((0, 8)),
    ),
    // cycle 1 follows from cycle 0 and from cycle 2
    (
        ITS_OWN_PIN,
        b"srdump 1\ncycles 4\nn0 1x1x\n",
        &[(1, 0, true, 0, 0), (3, 0, true, 2, 0)],
        None,
    ),
    (
        ITS_OWN_PIN,
        b"srdump 1\ncycles 4\nn0 x0xx\n",
        &[
            (0, 0, false, 0, 0),
            (2, 0, false, 1, 0),
            (3, 0, false, 2, 0),
        ],
        None,
    ),
    (ITS_OWN_PIN, b"srdump 1\ncycles 3\nn0 xxx\n", &[], None),
];

fn step_of(row: Row) -> Step {
    let (cycle, sig, bit, place, target) = row;
    let cell = Cell {
        cycle,
        sig: Sig(sig),
    };
    Step {
        lit: Lit { cell, bit },
        place: Place {
            cycle: place,
            target: Sig(target),
        },
    }
}

fn log_of(rt: &impl Abort, alloc: Global, drives: &[Drive], text: &[u8]) -> Result<Log, Fail> {
    let n = netlist_of(rt, alloc, drives)?;
    let dump = read_dump(alloc, &n, text)?;
    assert!(rt; n.signals() <= 100);
    assert!(rt; dump.cycles() <= 128);
    let problem = Problem::new(&n, dump.cycles());
    let base = seed(alloc, &problem, &dump)?;
    Ok(derive_log(alloc, &problem, &base)?)
}

#[test]
fn each_step_with_the_least_place(rt: HostRuntime) -> Result<(), Fail> {
    for case in CASES {
        let (drives, text, rows, clash) = *case;
        let log = log_of(&rt, rt.alloc(), drives, text)?;
        assert_eq!(rt; log.steps.len(), rows.len());
        for (step, row) in log.steps.as_slice().iter().zip(rows) {
            assert_eq!(rt; *step, step_of(*row));
        }
        let told = log.clash.map(|cell| (cell.cycle, cell.sig.0));
        assert_eq!(rt; told, clash);
    }
    Ok(())
}
