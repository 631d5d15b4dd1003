//! The closer on a small netlist, all cells compared.
ghost use Rattle.std.specs.Prelude.{◌≡◌, ◌<◌, ◌≤◌, ◌*◌, length, IfOk};
ghost use Rattle.unroll.specs.Problem.{signals_in, chunks_in};
ghost use Rattle.known_planes.specs.Planes.{IsOf};

use super::{Drive, netlist_of};
use crate::PlainCloser;
use known_planes::{Closer, Planes};
use sr_model::{Cell, Kind, NoMemory, Sig};
use std::alloc::Global;
use std::process::Abort;
use std::test::Fail;
use std::thread::Threads;
use unroll::{InChunk, PinWord, Problem};

/// A signal, a chunk, and the bits there: where it is 0, and where it is 1.
type Bits = (u32, u32, u64, u64);

/// Gates, a number of cycles of two chunks at most, literals, and the words of each signal in its chunks once they are closed.
type Case<'a> = (&'a [Drive<'a>], u32, &'a [Bits], &'a [[(u64, u64); 2]]);

/// The inputs a and b, x = XOR(a, a), q = DFF(b), o = OR(q, x), r = DFF(r).
const MIXED: &[Drive<'static>] = &[
    (None, &[]),
    (None, &[]),
    (Some(Kind::Xor), &[0, 0]),
    (Some(Kind::Dff), &[1]),
    (Some(Kind::Or), &[3, 2]),
    (Some(Kind::Dff), &[5]),
];

/// Over 66 cycles: o is 1 in cycle 64, so b is 1 in cycle 63; r is 0 always; b has both literals in cycle 1, so q and o have both one cycle later,
/// and there x, which is 0 always, has the other one, too: o is 1 where q is 0.
const BASE: &[Bits] = &[(1, 0, 0b10, 1 << 63 | 0b10), (5, 0, 0b100, 0)];

/// The words of each signal in its two chunks.
const WANT: &[[(u64, u64); 2]] = &[
    [(0, 0), (0, 0)],
    [(0b10, 1 << 63 | 0b10), (0, 0)],
    [(!0, 0b100), (3, 0)],
    [(0b100, 0b100), (0, 1)],
    [(0b100, 0b100), (0, 1)],
    [(!0, 0), (3, 0)],
];

/// Four inputs, three flip-flops and ten gates.
pub(super) const SEVENTEEN: &[Drive<'static>] = &[
    (None, &[]),
    (None, &[]),
    (None, &[]),
    (None, &[]),
    (Some(Kind::Not), &[8]),
    (Some(Kind::Dff), &[6]),
    (Some(Kind::Nor), &[11, 8]),
    (Some(Kind::Dff), &[8]),
    (Some(Kind::Nor), &[5, 16]),
    (Some(Kind::Dff), &[10]),
    (Some(Kind::Nor), &[2, 14]),
    (Some(Kind::Not), &[0]),
    (Some(Kind::And), &[11, 7]),
    (Some(Kind::Or), &[14, 12]),
    (Some(Kind::Nor), &[1, 9]),
    (Some(Kind::Or), &[3, 12]),
    (Some(Kind::Nand), &[15, 13]),
];

/// Flip-flop 5 is 1 in both of two cycles: back to its gate, forward to flip-flop 7, and ten literals in all.
const SEVENTEEN_WANT: &[[(u64, u64); 2]] = &[
    [(0, 1), (0, 0)],
    [(0, 0), (0, 0)],
    [(0, 0), (0, 0)],
    [(0, 0), (0, 0)],
    [(0, 3), (0, 0)],
    [(0, 3), (0, 0)],
    [(0, 1), (0, 0)],
    [(2, 0), (0, 0)],
    [(3, 0), (0, 0)],
    [(0, 0), (0, 0)],
    [(0, 0), (0, 0)],
    [(1, 0), (0, 0)],
    [(3, 0), (0, 0)],
    [(0, 0), (0, 0)],
    [(0, 0), (0, 0)],
    [(0, 0), (0, 0)],
    [(0, 0), (0, 0)],
];

const CASES: &[Case<'static>] = &[
    (MIXED, 66, BASE, WANT),
    (SEVENTEEN, 2, &[(5, 0, 0, 3)], SEVENTEEN_WANT),
    // the input a and q = DFF(a): back over the end of a chunk
    (
        &[(None, &[]), (Some(Kind::Dff), &[0])],
        65,
        &[(1, 1, 0, 1)],
        &[[(0, 1 << 63), (0, 0)], [(0, 0), (0, 1)]],
    ),
    // the input a and o = AND(a, a): a repeated pin is one signal
    (
        &[(None, &[]), (Some(Kind::And), &[0, 0])],
        1,
        &[(1, 0, 1, 0)],
        &[[(1, 0), (0, 0)], [(1, 0), (0, 0)]],
    ),
    // the inputs a, b and c and o = XOR(a, b, c): two pins and the target settle the third
    (
        &[
            (None, &[]),
            (None, &[]),
            (None, &[]),
            (Some(Kind::Xor), &[0, 1, 2]),
        ],
        2,
        &[(3, 0, 0, 3), (0, 0, 0, 3), (2, 0, 0, 1)],
        &[
            [(0, 3), (0, 0)],
            [(0, 1), (0, 0)],
            [(0, 1), (0, 0)],
            [(0, 3), (0, 0)],
        ],
    ),
];

/// Sets the literals of a signal in a chunk.
fn set_bits(planes: &mut Planes, p: &Problem, bits: &Bits)
    requires of { IsOf p.now planes.old }
    requires signal { bits.now.0 < signals_in p.now }
    requires chunk { bits.now.1 < chunks_in p.now }
    ensures { IsOf p.now planes.new }
{
    let (s, chunk, zero, one) = *bits;
    let at = InChunk { sig: Sig(s), chunk };
    let words = PinWord { zero, one }.within(p.valid_bits(chunk));
    planes.set_in_chunk(p, at, words);
}

/// The planes with these literals.
fn planes_with(
    rt: &impl Abort,
    alloc: Global,
    p: &Problem,
    all: &[Bits],
) -> Result<Planes, NoMemory>
    ensures { IfOk result (IsOf p.now) }
{
    let mut planes = Planes::empty(alloc, p)?;
    for bits in all {
        assert!(rt; bits.0 < p.net().signals());
        assert!(rt; bits.1 < p.chunks());
        set_bits(&mut planes, p, bits);
    }
    Ok(planes)
}

/// Compares each cell.
fn expect_words(rt: &impl Abort, p: &Problem, planes: &Planes, want: &[[(u64, u64); 2]])
    requires { IsOf p.now planes.now }
{
    assert_eq!(rt; p.net().signals() as usize, want.len());
    assert!(rt; p.chunks() <= 2);
    for s in 0..want.len() {
        for chunk in 0..p.chunks() {
            let (zero, one) = want[s][chunk as usize];
            let sig = Sig(s as u32);
            let words = planes.word_in_chunk(p, InChunk { sig, chunk });
            assert_eq!(rt; words, PinWord { zero, one });
        }
    }
}

fn expect_closed(
    rt: &(impl Abort + Threads + Sync),
    alloc: Global,
    case: &Case<'_>,
) -> Result<(), Fail> {
    let (drives, cycles, base, want) = *case;
    let net = netlist_of(rt, alloc, drives)?;
    assert!(rt; net.signals() <= 100);
    assert!(rt; 1 <= cycles);
    assert!(rt; cycles <= 128);
    let p = Problem::new(&net, cycles);
    let base = planes_with(rt, alloc, &p, base)?;
    let mut closer = PlainCloser::new();
    let closed = closer.close(rt, alloc, &p, &base)?;
    expect_words(rt, &p, &closed, want);
    if closed.clash(&p).is_none() {
        let known = closer.close_until_clash(rt, alloc, &p, base)?;
        expect_words(rt, &p, &known, want);
    }
    Ok(())
}

#[test]
fn closes_exactly(rt: HostRuntime) -> Result<(), Fail> {
    for case in CASES {
        expect_closed(&rt, rt.alloc(), case)?;
    }
    Ok(())
}

/// First with one half, then with the other.
#[test]
fn closes_more(rt: HostRuntime) -> Result<(), Fail> {
    let alloc = rt.alloc();
    let net = netlist_of(&rt, alloc, MIXED)?;
    assert!(rt; net.signals() <= 100);
    let p = Problem::new(&net, 66);
    let mut closer = PlainCloser::new();
    let base = planes_with(&rt, alloc, &p, &BASE[..1])?;
    let added = planes_with(&rt, alloc, &p, &BASE[1..])?;
    let closed = closer.close(&rt, alloc, &p, &base)?;
    let all = closer.close_more(&rt, alloc, &p, &closed, &added)?;
    expect_words(&rt, &p, &all, WANT);
    Ok(())
}

/// n1 = NOT(n0) has both literals by n0 and by n2 = NOT(n1); a whole closure would take them on to n0.
#[test]
fn stops_at_a_clash(rt: HostRuntime) -> Result<(), Fail> {
    let alloc = rt.alloc();
    let net = netlist_of(
        &rt,
        alloc,
        &[
            (None, &[]),
            (Some(Kind::Not), &[0]),
            (Some(Kind::Not), &[1]),
        ],
    )?;
    assert!(rt; net.signals() == 3);
    let p = Problem::new(&net, 1);
    let base = planes_with(&rt, alloc, &p, &[(0, 0, 1, 0), (2, 0, 0, 1)])?;
    let known = PlainCloser::new().close_until_clash(&rt, alloc, &p, base)?;
    let cell = Cell {
        cycle: 0,
        sig: Sig(1),
    };
    assert_eq!(rt; known.clash(&p), Some(cell));
    assert_eq!(rt;
        known.word_in_chunk(
            &p,
            InChunk {
                sig: Sig(0),
                chunk: 0
            }
        ),
        PinWord { zero: 1, one: 0 }
    );
    Ok(())
}
