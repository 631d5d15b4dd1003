//! Planes of a small netlist over two chunks, worked out by hand.
ghost use Rattle.std.specs.Prelude.{◌≡◌, ◌<◌, length, IfOk};
ghost use Rattle.unroll.specs.Problem.{signals_in, chunks_in, HasNoLaterBit};
ghost use Rattle.known_planes.specs.Planes.{IsMarked, IsOf};

use crate::{Closer, Planes, Seen, place, seed};
use dump_reader::{Dump, Tri};
use netlist::{Netlist, are_statements, build};
use sr_model::{Bytes, Cell, Kind, Names, NoMemory, Numbered, Sig, Statement, Statements};
use std::alloc::Global;
use std::process::Abort;
use std::test::Fail;
use std::thread::Threads;
use unroll::{Block, InChunk, PinWord, Problem, SignalRecords};

fn to_bytes(alloc: Global, text: &[u8]) -> Result<Bytes, NoMemory> {
    let mut bytes = Bytes::new(alloc);
    for byte in text {
        bytes.push(*byte)?;
    }
    Ok(bytes)
}

/// A flip-flop 0 with the data pin 1, which is a NOT of the input 2.
fn small(rt: &impl Abort, alloc: Global) -> Result<Netlist, Fail> {
    let mut all = Statements::new(alloc);
    let rows: [(&[u8], Kind, &[u8]); 2] = [(b"q", Kind::Dff, b"g"), (b"g", Kind::Not, b"a")];
    for (target, kind, pin) in rows {
        let mut pins = Names::new(alloc);
        pins.push(to_bytes(alloc, pin)?)?;
        let target = to_bytes(alloc, target)?;
        let statement = Statement::Drive { target, kind, pins };
        all.push(Numbered { line: 1, statement })?;
    }
    let statement = Statement::Input(to_bytes(alloc, b"a")?);
    all.push(Numbered { line: 3, statement })?;
    assert!(rt; are_statements(&all));
    Ok(build(alloc, all)?)
}

/// The words without bits of cycles that are not there.
fn words(p: &Problem, chunk: u32, zero: u64, one: u64) -> PinWord
    requires { chunk < chunks_in p.now }
    ensures { HasNoLaterBit p.now.cycles chunk result }
{
    PinWord { zero, one }.within(p.valid_bits(chunk))
}

/// Gives no closure.
#[derive(Drop)]
struct Refusing;

impl Closer for Refusing {
    fn close<R: Threads + Sync>(
        &mut self,
        _rt: &R,
        _alloc: Global,
        _p: &Problem,
        _base: &Planes,
    ) -> Result<Planes, NoMemory> {
        Err(NoMemory)
    }

    fn close_more<R: Threads + Sync>(
        &mut self,
        _rt: &R,
        _alloc: Global,
        _p: &Problem,
        _closed: &Planes,
        _added: &Planes,
    ) -> Result<Planes, NoMemory> {
        Err(NoMemory)
    }

    fn close_until_clash<R: Threads + Sync>(
        &mut self,
        _rt: &R,
        _alloc: Global,
        _p: &Problem,
        _base: Planes,
    ) -> Result<Planes, NoMemory> {
        Err(NoMemory)
    }
}

/// The literal 1 of signal 0 in cycle 63, and its literal 0 in cycle 64.
fn seeded(alloc: Global, p: &Problem) -> Result<Planes, Fail>
    requires cycles { p.now.cycles ≡ 70 }
    requires signals { signals_in p.now ≡ 3 }
    ensures { IfOk result (IsOf p.now) }
{
    let mut dump = Dump::new(alloc, p.cycles());
    let row = row(alloc, p.cycles())?;
    dump.add_row(Sig(0), row.as_slice())?;
    Ok(seed(alloc, p, &dump)?)
}

/// A cell for each cycle: a 1 in cycle 63, a 0 in cycle 64, and nothing elsewhere.
fn row(alloc: Global, cycles: u32) -> Result<Vec<Tri>, Fail>
    requires { 64 < cycles }
    ensures { IfOk result (λ row. length row.items ≡ cycles) }
{
    let mut cells = vec![in alloc; Tri::X; cycles as usize]?;
    cells[63] = Tri::One;
    cells[64] = Tri::Zero;
    Ok(cells)
}

/// Both literals of signal 0 in cycle 65 beside its literal 0 in cycle 64, and both of signal 2 in cycle 64.
fn add_both(p: &Problem, planes: &mut Planes)
    requires of { IsOf p.now planes.old }
    requires cycles { p.now.cycles ≡ 70 }
    requires signals { signals_in p.now ≡ 3 }
    ensures { IsOf p.now planes.new }
{
    planes.set(p, Block(1), words(p, 1, 3, 2));
    let at = InChunk {
        sig: Sig(2),
        chunk: 1,
    };
    planes.set_in_chunk(p, at, words(p, 1, 1, 1));
}

fn all_seen(rt: &impl Abort, p: &Problem, planes: &Planes) -> Result<(), Fail>
    requires of { IsOf p.now planes.now }
{
    let cases = [
        (0, 62, Seen::Unknown),
        (0, 63, Seen::One),
        (0, 64, Seen::Zero),
        (0, 65, Seen::Both),
        (2, 64, Seen::Both),
        (2, 65, Seen::Unknown),
    ];
    for (sig, cycle, seen) in cases {
        assert!(rt; sig < p.net().signals() && cycle < p.cycles());
        let cell = Cell {
            cycle,
            sig: Sig(sig),
        };
        assert_eq!(rt; planes.bit(p, cell), seen, "{sig} {cycle}");
    }
    Ok(())
}

fn has_clash(rt: &impl Abort, p: &Problem, planes: &Planes, clash: Option<Cell>)
    requires { IsOf p.now planes.now }
{
    assert_eq!(rt; planes.clash(p), clash);
}

fn has_counts(rt: &impl Abort, p: &Problem, planes: &Planes, literals: u64, known: u64)
    requires { IsOf p.now planes.now }
{
    assert_eq!(rt; planes.count_literals(), literals);
    assert_eq!(rt; planes.count_known_flip_flops(p), known);
}

/// The words behind `add_both`: of the signals 0, 1 and 2 in chunk 0, then in chunk 1, and the further word.
fn lists_words(rt: &impl Abort, p: &Problem, planes: &Planes)
    requires of { IsOf p.now planes.now }
    requires cycles { p.now.cycles ≡ 70 }
    requires signals { signals_in p.now ≡ 3 }
{
    let words = [0, 1 << 63, 0, 0, 0, 0, 3, 2, 0, 0, 1, 1, 0];
    assert!(rt; planes.words() == words.as_slice());
    for (sig, chunk) in [(0, 0), (0, 1), (2, 0), (2, 1)] {
        assert!(rt; sig < p.net().signals() && chunk < p.chunks());
        let sig = Sig(sig);
        let at = InChunk { sig, chunk };
        let place = place(p, at);
        let PinWord { zero, one } = planes.word_in_chunk(p, at);
        assert_eq!(rt; words[place], zero);
        assert_eq!(rt; words[place + 1], one);
    }
}

/// Planes of the same words.
fn planes_again(alloc: Global, p: &Problem, planes: &Planes) -> Result<Planes, Fail>
    requires { IsOf p.now planes.now }
    ensures { IfOk result (IsOf p.now) }
{
    let words = Vec::from_slice(alloc, planes.words())?;
    Ok(Planes::of_words(p, words))
}

fn gives_none(rt: &(impl Abort + Threads + Sync), alloc: Global, p: &Problem, base: &Planes)
    requires of { IsOf p.now base.now }
    requires cycles { p.now.cycles ≡ 70 }
    requires signals { signals_in p.now ≡ 3 }
{
    assert!(rt; close_twice(rt, alloc, p, base).is_err());
}

/// Closes planes, and then once more with a row that has no literal.
fn close_twice(
    rt: &(impl Threads + Sync),
    alloc: Global,
    p: &Problem,
    base: &Planes,
) -> Result<(), NoMemory>
    requires of { IsOf p.now base.now }
    requires cycles { p.now.cycles ≡ 70 }
    requires signals { signals_in p.now ≡ 3 }
{
    let mut closer = Refusing;
    let mut planes = closer.close(rt, alloc, p, base)?;
    let records = SignalRecords::new(alloc, p.net())?;
    let row = [PinWord::none(); 2];
    closer.close_in_place(rt, alloc, p, &records, &mut planes, Sig(0), &row)
}

/// Adds literals of a signal in a chunk to planes with a mark.
fn add(p: &Problem, planes: &mut Planes, sig: u32, chunk: u32, zero: u64, one: u64)
    requires of { IsOf p.now planes.old }
    requires marked { IsMarked p.now planes.old }
    requires signal { sig < signals_in p.now }
    requires chunk { chunk < chunks_in p.now }
    ensures of { IsOf p.now planes.new }
    ensures marked { IsMarked p.now planes.new }
{
    let sig = Sig(sig);
    planes.add_in_chunk(p, InChunk { sig, chunk }, words(p, chunk, zero, one));
}

/// Adds more to three blocks of the seeded planes, to one of them twice, and goes back: of flip-flop cells those in the cycles 65 and 66 are no longer known.
fn goes_back(rt: &impl Abort, p: &Problem, planes: &mut Planes)
    requires of { IsOf p.now planes.old }
    requires marked { IsMarked p.now planes.old }
    requires cycles { p.now.cycles ≡ 70 }
    requires signals { signals_in p.now ≡ 3 }
    ensures of { IsOf p.now planes.new }
    ensures marked { IsMarked p.now planes.new }
{
    add(p, planes, 0, 1, 3, 2);
    add(p, planes, 2, 0, 1, 1);
    add(p, planes, 0, 1, 4, 0);
    add(p, planes, 1, 1, 0, 1);
    has_counts(rt, p, planes, 8, 4);
    assert_eq!(rt; planes.go_back(p), 2);
    has_counts(rt, p, planes, 2, 2);
    assert!(rt; planes.words() == [0, 1 << 63, 0, 0, 0, 0, 1, 0, 0, 0, 0, 0, 0].as_slice());
}

/// What is kept stays when the planes go back.
fn keeps(rt: &impl Abort, p: &Problem, planes: &mut Planes)
    requires of { IsOf p.now planes.old }
    requires marked { IsMarked p.now planes.old }
    requires cycles { p.now.cycles ≡ 70 }
    requires signals { signals_in p.now ≡ 3 }
{
    add(p, planes, 0, 0, 1, 0);
    planes.keep();
    assert_eq!(rt; planes.go_back(p), 0);
    has_counts(rt, p, planes, 3, 3);
    add(p, planes, 0, 0, 2, 0);
    assert_eq!(rt; planes.go_back(p), 1);
    has_counts(rt, p, planes, 3, 3);
}

fn has_mark(rt: &impl Abort, alloc: Global, p: &Problem, seeded: &Planes) -> Result<(), Fail>
    requires of { IsOf p.now seeded.now }
    requires cycles { p.now.cycles ≡ 70 }
    requires signals { signals_in p.now ≡ 3 }
{
    let mut planes = seeded.copy(alloc)?;
    planes.keep();
    has_counts(rt, p, &planes, 2, 2);
    planes.set_mark(alloc)?;
    goes_back(rt, p, &mut planes);
    keeps(rt, p, &mut planes);
    Ok(())
}

fn compare(rt: &(impl Abort + Threads + Sync), alloc: Global, p: &Problem) -> Result<(), Fail> {
    assert!(rt; p.cycles() == 70 && p.net().signals() == 3);
    let seeded = seeded(alloc, p)?;
    let mut planes = seeded.copy(alloc)?;
    add_both(p, &mut planes);
    all_seen(rt, p, &planes)?;
    has_clash(rt, p, &seeded, None);
    let sig = Sig(2);
    has_clash(rt, p, &planes, Some(Cell { cycle: 64, sig }));
    has_counts(rt, p, &seeded, 2, 2);
    has_counts(rt, p, &planes, 6, 3);
    lists_words(rt, p, &planes);
    let again = planes_again(alloc, p, &planes)?;
    all_seen(rt, p, &again)?;
    has_counts(rt, p, &again, 6, 3);
    gives_none(rt, alloc, p, &planes);
    has_mark(rt, alloc, p, &seeded)
}

fn over_70<'n>(rt: &impl Abort, net: &'n Netlist) -> Problem<'n> {
    assert!(rt; net.signals() == 3);
    Problem::new(net, 70)
}

#[test]
fn planes_over_two_chunks(rt: HostRuntime) -> Result<(), Fail> {
    let net = small(&rt, rt.alloc())?;
    let problem = over_70(&rt, &net);
    compare(&rt, rt.alloc(), &problem)
}
