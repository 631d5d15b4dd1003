//! Inputs, a sink and a closer that count the calls on them.
use known_planes::{Closer, Planes};
use plain_close::PlainCloser;
use sr_model::NoMemory;
use sr_outside::{Failed, Inputs, MemInputs, MemSink, Sink};
use std::alloc::Global;
use std::thread::Threads;
use unroll::Problem;

/// Inputs in memory, and how many reads were made.
#[derive(Drop)]
pub struct CountedInputs {
    pub inner: MemInputs,
    pub reads: u64,
}

impl Inputs for CountedInputs {
    ghost use Rattle.std.specs.Prelude.{Some, refl};
    ghost use Rattle.sr_outside.specs.Memory.{bytes_of, has_listed, last_name, unread};

    ghost held = { λ s. Some (bytes_of s.inner.files) };

    ghost live = { λ s. s.inner.live };

    ghost left = { λ s. Some (unread s.inner) };

    ghost shaky = { λ s. Some (has_listed s.inner.failing) };

    ghost last = { λ s. Some (last_name s.inner) };

    ghost starts = { λ s. s.inner.starts };

    ghost taken = { λ s. s.inner.taken };

    ghost faults = { λ s. s.inner.faults };

    fn start(&mut self, name: &str) -> Result<(), Failed> {
        self.inner.start(name)
    }

    fn read(&mut self, into: &mut [u8]) -> Result<usize, Failed> {
        self.reads = self.reads.saturating_add(1);
        self.inner.read(into)
    }

    ghost tells_shaky = { λ _ told. refl };

    ghost tells_last = { λ _ told. refl };

    ghost tells_left = { λ _ told live. refl };
}

/// A sink in memory, and how many puts were made.
#[derive(Drop)]
pub struct CountedSink {
    pub inner: MemSink,
    pub puts: u64,
}

impl Sink for CountedSink {
    ghost use Rattle.std.specs.Prelude.{Some};

    ghost written = { λ s. Some s.inner.bytes };

    ghost room = { λ s. Some s.inner.room };

    ghost faults = { λ s. s.inner.faults };

    fn put(&mut self, piece: &[u8]) -> Result<usize, Failed> {
        self.puts = self.puts.saturating_add(1);
        self.inner.put(piece)
    }
}

/// A closer that counts the closings of a whole base, and those by `close_more`, by which it closes in place.
#[derive(Drop)]
pub struct CountedCloser {
    pub inner: PlainCloser,
    pub closes: u64,
    pub more: u64,
}

impl Closer for CountedCloser {
    fn close<R: Threads + Sync>(
        &mut self,
        rt: &R,
        alloc: Global,
        p: &Problem,
        base: &Planes,
    ) -> Result<Planes, NoMemory> {
        self.closes = self.closes.saturating_add(1);
        self.inner.close(rt, alloc, p, base)
    }

    fn close_more<R: Threads + Sync>(
        &mut self,
        rt: &R,
        alloc: Global,
        p: &Problem,
        closed: &Planes,
        added: &Planes,
    ) -> Result<Planes, NoMemory> {
        self.more = self.more.saturating_add(1);
        self.inner.close_more(rt, alloc, p, closed, added)
    }

    fn close_until_clash<R: Threads + Sync>(
        &mut self,
        rt: &R,
        alloc: Global,
        p: &Problem,
        base: Planes,
    ) -> Result<Planes, NoMemory> {
        self.closes = self.closes.saturating_add(1);
        self.inner.close_until_clash(rt, alloc, p, base)
    }
}
