//! Whole tables of what dumps record, and lines of picks, with the text that was worked out by hand. Nothing is restored here: the cells that a dump tells are those that are known.
ghost use Rattle.std.specs.Prelude.{◌<◌, length};

mod certificate_texts;

use crate::{RowBuf, table_laws, write_picks, write_table};
use bench_reader::read_bench;
use dump_reader::read_dump;
use greedy_select::{Pick, Picks};
use known_planes::seed;
use netlist::{Netlist, build};
use ratio::Ratio;
use sr_model::Sig;
use sr_outside::MemSink;
use std::alloc::Global;
use std::process::Abort;
use std::test::*;
use unroll::Problem;

/// The flip-flops are `r`, `q` and `z`, by their first mention.
const GATES: &[u8] = b"OUTPUT(r)\nINPUT(a)\nq = DFF(a)\ng = NOT(q)\nr = DFF(g)\nz = DFF(r)\n";

const NARROW: &[u8] = b"srdump 1\ncycles 2\nq x1\na 0x\nz 10\n";

/// Two chunks: `q` has its last cell of the first one, and `q` and `r` have the one of the second.
const WIDE: &[u8] =
    b"srdump 1\ncycles 65\nq 0xxxxxxxxxxxxxxxxxxxxxxxxxxxxxxxxxxxxxxxxxxxxxxxxxxxxxxxxxxxxxx10\nr xxxxxxxxxxxxxxxxxxxxxxxxxxxxxxxxxxxxxxxxxxxxxxxxxxxxxxxxxxxxxxxx1\n";

const NARROW_TABLE: &[u8; 64] =
    b"srdump 1\ncycles 2\nr xx\nq x1\nz 10\n# traced 4 known 3 ratio 0.750\n";

/// A dump, how many cells were traced, whether all signals are shown, and what is written into so much room, which may be too little.
#[derive(Drop)]
struct Case<'a> {
    dump: &'a [u8],
    traced: u64,
    all: bool,
    want: &'a [u8],
    room: u32,
    fits: bool,
}

fn netlist(alloc: Global, text: &[u8]) -> Result<Netlist, Fail> {
    let statements = read_bench(alloc, text)?;
    Ok(build(alloc, statements)?)
}

fn expect(rt: &impl Abort, alloc: Global, net: &Netlist, case: &Case) -> Result<(), Fail> {
    let dump = read_dump(alloc, net, case.dump)?;
    let problem = Problem::new(net, dump.cycles());
    let planes = seed(alloc, &problem, &dump)?;
    assert!(rt; planes.clash(&problem).is_none() && case.traced <= 1000);
    let mut buf = RowBuf::new(alloc)?;
    let mut out = MemSink::new(alloc, case.room)?;
    let answer = write_table(&problem, &planes, case.traced, case.all, &mut buf, &mut out);
    assert_eq!(rt; out.bytes(), case.want);
    assert_eq!(rt; answer.is_ok(), case.fits);
    Ok(())
}

fn expect_whole(
    rt: &impl Abort,
    alloc: Global,
    dump: &[u8],
    traced: u64,
    all: bool,
    want: &[u8],
) -> Result<(), Fail> {
    let net = netlist(alloc, GATES)?;
    let case = Case {
        dump,
        traced,
        all,
        want,
        room: 1000,
        fits: true,
    };
    expect(rt, alloc, &net, &case)
}

#[test]
fn tables(rt: HostRuntime) -> Result<(), Fail> {
    table_laws();
    let cases: [(&[u8], u64, bool, &[u8]); 6] = [
        (NARROW, 4, false, NARROW_TABLE),
        (
            NARROW,
            0,
            false,
            b"srdump 1\ncycles 2\nr xx\nq x1\nz 10\n# traced 0 known 3 ratio -\n",
        ),
        (
            NARROW,
            7,
            true,
            b"srdump 1\ncycles 2\nr xx\na 0x\nq x1\ng xx\nz 10\n# traced 7 known 3 ratio 0.428\n",
        ),
        (
            WIDE,
            2,
            false,
            b"srdump 1\ncycles 65\nr xxxxxxxxxxxxxxxxxxxxxxxxxxxxxxxxxxxxxxxxxxxxxxxxxxxxxxxxxxxxxxxx1\nq 0xxxxxxxxxxxxxxxxxxxxxxxxxxxxxxxxxxxxxxxxxxxxxxxxxxxxxxxxxxxxxx10\nz xxxxxxxxxxxxxxxxxxxxxxxxxxxxxxxxxxxxxxxxxxxxxxxxxxxxxxxxxxxxxxxxx\n# traced 2 known 4 ratio 2.000\n",
        ),
        (
            WIDE,
            0,
            true,
            b"srdump 1\ncycles 65\nr xxxxxxxxxxxxxxxxxxxxxxxxxxxxxxxxxxxxxxxxxxxxxxxxxxxxxxxxxxxxxxxx1\na xxxxxxxxxxxxxxxxxxxxxxxxxxxxxxxxxxxxxxxxxxxxxxxxxxxxxxxxxxxxxxxxx\nq 0xxxxxxxxxxxxxxxxxxxxxxxxxxxxxxxxxxxxxxxxxxxxxxxxxxxxxxxxxxxxxx10\ng xxxxxxxxxxxxxxxxxxxxxxxxxxxxxxxxxxxxxxxxxxxxxxxxxxxxxxxxxxxxxxxxx\nz xxxxxxxxxxxxxxxxxxxxxxxxxxxxxxxxxxxxxxxxxxxxxxxxxxxxxxxxxxxxxxxxx\n# traced 0 known 4 ratio -\n",
        ),
        (
            b"srdump 1\ncycles 1\ng 1\n",
            1,
            true,
            b"srdump 1\ncycles 1\nr x\na x\nq x\ng 1\nz x\n# traced 1 known 0 ratio 0.000\n",
        ),
    ];
    for (dump, traced, all, want) in cases {
        expect_whole(&rt, rt.alloc(), dump, traced, all, want)?;
    }
    Ok(())
}

/// Each front of a table, where there is room for no more.
#[test]
fn too_little_room(rt: HostRuntime) -> Result<(), Fail> {
    let net = netlist(rt.alloc(), GATES)?;
    for room in 0..65 {
        let case = Case {
            dump: NARROW,
            traced: 4,
            all: false,
            want: &NARROW_TABLE[..room as usize],
            room,
            fits: room == 64,
        };
        expect(&rt, rt.alloc(), &net, &case)?;
    }
    Ok(())
}

/// The pick of a signal, with how many cells are known and how many are traced.
fn pick(rt: &impl Abort, net: &Netlist, number: u32, known: u64, traced: u64) -> Pick
    ensures { result.sig.0 < length net.now.drivers }
{
    assert!(rt; number < net.signals());
    assert!(rt; known <= 1000);
    assert!(rt; traced <= 1000);
    Pick {
        sig: Sig(number),
        ratio: Ratio::new(known, traced),
    }
}

/// The picks of `GATES` with these numbers and counts are written into so much room.
fn expect_picks(
    rt: &impl Abort,
    alloc: Global,
    numbers: &[(u32, u64, u64)],
    room: u32,
    want: (&[u8], bool),
) -> Result<(), Fail> {
    let net = netlist(alloc, GATES)?;
    let mut picks = Picks::new(alloc);
    for (number, known, traced) in numbers {
        picks.push(pick(rt, &net, *number, *known, *traced))?;
    }
    let mut out = MemSink::new(alloc, room)?;
    let answer = write_picks(&net, &picks, &mut out);
    let (text, fits) = want;
    assert_eq!(rt; out.bytes(), text);
    assert_eq!(rt; answer.is_ok(), fits);
    Ok(())
}

#[test]
fn lines_of_picks(rt: HostRuntime) -> Result<(), Fail> {
    let picks = [(2, 10, 4), (0, 11, 8), (4, 0, 0)];
    expect_picks(&rt, rt.alloc(), &[], 1000, (b"", true))?;
    expect_picks(
        &rt,
        rt.alloc(),
        &picks,
        1000,
        (b"q 10/4 2.500\nr 11/8 1.375\nz 0/0 -\n", true),
    )?;
    expect_picks(
        &rt,
        rt.alloc(),
        &picks,
        20,
        (b"q 10/4 2.500\nr 11/8 ", false),
    )
}
