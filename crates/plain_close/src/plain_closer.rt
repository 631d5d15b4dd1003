//! The closer on one thread.
ghost use Rattle.std.specs.Prelude.{◌<◌};
ghost use Rattle.unroll.specs.Problem.{IsProblem, signals_in, chunks_in};
ghost use Rattle.known_planes.specs.Planes.{IsOf};
ghost use Rattle.known_planes.specs.Rows.{IsRow};
ghost use Rattle.plain_close.specs.Worklist.{IsWorklistOf};
ghost use Rattle.plain_close.specs.Turns.{Wakes, Adds, AddsChunk, AddsRow};

use crate::many_blocks::Buffers;
use crate::turns::{join, turn_all, turn_until_clash};
use crate::worklist::Worklist;
use known_planes::{Closer, Planes};
use sr_model::{NoMemory, Sig};
use std::alloc::Global;
use std::thread::Threads;
use unroll::{InChunk, PinWord, Problem, SignalRecords};

/// Closes by turns of the tasks that have a cell with something new, on one thread.
///
/// Each call takes a bit for each signal and chunk, 20 bytes for each signal and 4 for each pin, beside the planes that it answers, and gives them back; `close_until_clash`
/// closes the planes that it is given. Its time goes by the turns of tasks: a task takes a turn where something is new in one of its cells since its last one.
#[derive(Debug, Drop)]
pub struct PlainCloser;

impl PlainCloser {
    /// It takes no memory.
    pub fn new() -> PlainCloser {
        PlainCloser
    }
}

impl Closer for PlainCloser {
    fn close<R: Threads + Sync>(
        &mut self,
        _rt: &R,
        alloc: Global,
        p: &Problem,
        base: &Planes,
    ) -> Result<Planes, NoMemory> {
        let mut planes = base.copy(alloc)?;
        let records = SignalRecords::new(alloc, p.net())?;
        let mut worklist = Worklist::of_planes(alloc, p, &records, &planes)?;
        let mut buffers = Buffers::new(alloc)?;
        turn_all(p, &mut planes, &mut worklist, &mut buffers)?;
        Ok(planes)
    }

    fn close_more<R: Threads + Sync>(
        &mut self,
        _rt: &R,
        alloc: Global,
        p: &Problem,
        closed: &Planes,
        added: &Planes,
    ) -> Result<Planes, NoMemory> {
        let mut planes = closed.copy(alloc)?;
        let records = SignalRecords::new(alloc, p.net())?;
        let mut worklist = Worklist::new(alloc, p, &records)?;
        add_planes(p, &mut planes, &mut worklist, added);
        let mut buffers = Buffers::new(alloc)?;
        turn_all(p, &mut planes, &mut worklist, &mut buffers)?;
        Ok(planes)
    }

    fn close_until_clash<R: Threads + Sync>(
        &mut self,
        _rt: &R,
        alloc: Global,
        p: &Problem,
        base: Planes,
    ) -> Result<Planes, NoMemory> {
        let mut planes = base;
        let records = SignalRecords::new(alloc, p.net())?;
        let mut worklist = Worklist::of_planes(alloc, p, &records, &planes)?;
        let mut buffers = Buffers::new(alloc)?;
        turn_until_clash(p, &mut planes, &mut worklist, &mut buffers)?;
        Ok(planes)
    }

    fn close_in_place<R: Threads + Sync>(
        &mut self,
        _rt: &R,
        alloc: Global,
        p: &Problem,
        records: &SignalRecords<'_>,
        planes: &mut Planes,
        sig: Sig,
        row: &[PinWord],
    ) -> Result<(), NoMemory> {
        let mut worklist = Worklist::new(alloc, p, records)?;
        add_row(p, planes, &mut worklist, sig, row);
        let mut buffers = Buffers::new(alloc)?;
        turn_all(p, planes, &mut worklist, &mut buffers)
    }
}

/// Adds the literals of a signal's words, and lets the tasks about each changed block wait.
fn add_row(p: &Problem, planes: &mut Planes, worklist: &mut Worklist, sig: Sig, row: &[PinWord])
    requires problem { IsProblem p.now }
    requires of { IsOf p.now planes.old }
    requires row { IsRow p.now row.now }
    requires worklist { IsWorklistOf p.now worklist.old }
    requires signal { sig.0 < signals_in p.now }
    ensures wakes { Wakes p.now planes.old planes.new worklist.old worklist.new }
    ensures adds { AddsRow p.now sig row.now (chunks_in p.now) planes.old planes.new }
{
    for chunk in 0..p.chunks() {
        let at = InChunk { sig, chunk };
        join(p, planes, worklist, at, row[chunk as usize]);
    }
}

/// Adds the literals of other planes, and lets the tasks about each changed block wait.
fn add_planes(p: &Problem, planes: &mut Planes, worklist: &mut Worklist, added: &Planes)
    requires problem { IsProblem p.now }
    requires of { IsOf p.now planes.old }
    requires added { IsOf p.now added.now }
    requires worklist { IsWorklistOf p.now worklist.old }
    ensures wakes { Wakes p.now planes.old planes.new worklist.old worklist.new }
    ensures adds { Adds p.now added.now (chunks_in p.now) planes.old planes.new }
{
    for chunk in 0..p.chunks() {
        add_chunk(p, planes, worklist, added, chunk);
    }
}

/// Adds those of one chunk.
fn add_chunk(p: &Problem, planes: &mut Planes, worklist: &mut Worklist, added: &Planes, chunk: u32)
    requires problem { IsProblem p.now }
    requires of { IsOf p.now planes.old }
    requires added { IsOf p.now added.now }
    requires worklist { IsWorklistOf p.now worklist.old }
    requires chunk { chunk < chunks_in p.now }
    ensures wakes { Wakes p.now planes.old planes.new worklist.old worklist.new }
    ensures adds { AddsChunk p.now added.now chunk (signals_in p.now) planes.old planes.new }
{
    for number in 0..p.net().signals() {
        let sig = Sig(number);
        let at = InChunk { sig, chunk };
        join(p, planes, worklist, at, added.word_in_chunk(p, at));
    }
}
