//! The clash of small dumps, with answers worked out by hand.
use super::closing::SEVENTEEN;
use super::{Drive, netlist_of};
use crate::{Clash, first_clash};
use dump_reader::read_dump;
use known_planes::seed;
use sr_model::{Cell, Kind, Sig};
use std::alloc::Global;
use std::process::Abort;
use std::test::Fail;
use unroll::Problem;

/// The input n0, n1 = NOT(n0), n2 = NOT(n1).
const INVERTERS: &[Drive<'static>] = &[
    (None, &[]),
    (Some(Kind::Not), &[0]),
    (Some(Kind::Not), &[1]),
];

/// Two times three inverters behind one another.
const TWO_CHAINS: &[Drive<'static>] = &[
    (None, &[]),
    (Some(Kind::Not), &[0]),
    (Some(Kind::Not), &[1]),
    (None, &[]),
    (Some(Kind::Not), &[3]),
    (Some(Kind::Not), &[4]),
];

/// The input n0, two inverters, the flip-flop n3, and two inverters.
const PIPELINE: &[Drive<'static>] = &[
    (None, &[]),
    (Some(Kind::Not), &[0]),
    (Some(Kind::Not), &[1]),
    (Some(Kind::Dff), &[2]),
    (Some(Kind::Not), &[3]),
    (Some(Kind::Not), &[4]),
];

/// n0 is 0 in cycle 63, and n5 is 1 in cycle 64.
const OVER_THE_END_OF_A_CHUNK: &[u8] = b"srdump 1\ncycles 66\n\
n0 xxxxxxxxxxxxxxxxxxxxxxxxxxxxxxxxxxxxxxxxxxxxxxxxxxxxxxxxxxxxxxx0xx\n\
n5 xxxxxxxxxxxxxxxxxxxxxxxxxxxxxxxxxxxxxxxxxxxxxxxxxxxxxxxxxxxxxxxx1x\n";

/// A netlist of 100 signals at most, a dump's text of 128 cycles at most, and its first clash.
type Case<'a> = (&'a [Drive<'a>], &'a [u8], Option<Clash>);

const CASES: &[Case<'static>] = &[
    // n1 is 1 by n0, and 0 by n2
    (
        INVERTERS,
        b"srdump 1\ncycles 2\nn0 x0\nn2 x1\n",
        Some(Clash {
            cell: Cell {
                cycle: 1,
                sig: Sig(1),
            },
            level: 1,
        }),
    ),
    (
        INVERTERS,
        b"srdump 1\ncycles 2\nn0 00\nn2 11\n",
        Some(Clash {
            cell: Cell {
                cycle: 0,
                sig: Sig(1),
            },
            level: 1,
        }),
    ),
    (INVERTERS, b"srdump 1\ncycles 2\nn0 x0\nn2 1x\n", None),
    // n8 is 0 in cycle 0 by n5, one of the pins of its NOR, and 1 by the flip-flop n7 a cycle later
    (
        SEVENTEEN,
        b"srdump 1\ncycles 2\nn5 1x\nn7 x1\n",
        Some(Clash {
            cell: Cell {
                cycle: 0,
                sig: Sig(8),
            },
            level: 1,
        }),
    ),
    // n1 has both in cycle 1, and n4, whose gate comes later, in cycle 0
    (
        TWO_CHAINS,
        b"srdump 1\ncycles 2\nn0 x0\nn2 x1\nn3 0x\nn5 1x\n",
        Some(Clash {
            cell: Cell {
                cycle: 0,
                sig: Sig(4),
            },
            level: 1,
        }),
    ),
    // after two levels on each side, n2 in cycle 63 and n3 in cycle 64 meet over the flip-flop
    (
        PIPELINE,
        OVER_THE_END_OF_A_CHUNK,
        Some(Clash {
            cell: Cell {
                cycle: 63,
                sig: Sig(2),
            },
            level: 3,
        }),
    ),
    // the least cell of level 1, though in cycle 0 n2 has both at level 3
    (
        PIPELINE,
        b"srdump 1\ncycles 3\nn0 0x0\nn2 xx1\nn5 x1x\n",
        Some(Clash {
            cell: Cell {
                cycle: 2,
                sig: Sig(1),
            },
            level: 1,
        }),
    ),
];

fn clash_of(
    rt: &impl Abort,
    alloc: Global,
    drives: &[Drive],
    text: &[u8],
) -> Result<Option<Clash>, Fail> {
    let n = netlist_of(rt, alloc, drives)?;
    let dump = read_dump(alloc, &n, text)?;
    assert!(rt; n.signals() <= 100);
    assert!(rt; dump.cycles() <= 128);
    let problem = Problem::new(&n, dump.cycles());
    let base = seed(alloc, &problem, &dump)?;
    Ok(first_clash(alloc, &problem, &base)?)
}

#[test]
fn the_first_level_with_a_clash(rt: HostRuntime) -> Result<(), Fail> {
    for case in CASES {
        let (drives, text, want) = *case;
        assert_eq!(rt; clash_of(&rt, rt.alloc(), drives, text)?, want);
    }
    Ok(())
}
