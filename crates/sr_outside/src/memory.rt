//! Inputs and a sink in memory. They tell everything, and fail where they are asked to.
ghost use Rattle.std.specs.Prelude.{◌≡◌, ◌<◌, ◌≤◌, ◌-◌, ◌↔◌, ◌⊎◌, ◌&&◌, ◌||◌, ◌==◌, ◌∷◌, ◌++◌, ℕ, List, [], false, IsTrue, is_ok, IsErr, length, min, take, IfOk, OnOk, OnErr, None, Some, if◌then◌else◌, refl};
ghost use Rattle.std.specs.Str.{bytes_eq};
ghost use Rattle.sr_outside.specs.Counts.{count_after};
ghost use Rattle.sr_outside.specs.Memory.{bytes_of, last_name, unread, is_listed, has_listed, StartFails, ReadFails};
ghost use Rattle.sr_outside.specs.Told.{held_name, MayFail, IsLastShaky};

use crate::failing::{FailingCall, lists_call};
use crate::inputs::{Failed, Inputs};
use crate::named::{File, fill, name_of, place_of, put_file, rest_of};
use crate::sink::Sink;
use sr_model::NoMemory;
use std::alloc::{AllocError, AllocFailed, Global};
use std::marker::Model;

/// Inputs that are held in memory. A start or a read fails exactly where it was listed by [`MemInputs::fail`], and a
/// start of a name that is not held fails too. A name is shaky exactly where some call on it is listed. Neither takes
/// memory; each goes over the list once.
#[derive(Drop)]
pub struct MemInputs {
    alloc: Global,
    files: Vec<File>,
    failing: Vec<FailingCall>,
    most: usize,
    last: Option<usize>,
    live: bool,
    taken: usize,
    reads: u64,
    starts: u64,
    faults: u64,
}

impl Model for MemInputs {
    ghost use Rattle.std.specs.Prelude.{◌<◌};
    ghost use Rattle.sr_outside.specs.Memory.{InMemory, IsInPlace};

    ghost Value = { InMemory };

    ghost view = { λ m. record {
      files = m.files.items;
      failing = m.failing.items;
      most = m.most;
      last = m.last;
      live = m.live;
      taken = m.taken;
      reads = m.reads;
      starts = m.starts;
      faults = m.faults;
    } };

    ghost invariant = { λ m. (0 < m.most) × IsInPlace m.files.items m.last m.live m.taken };
}

impl MemInputs {
    /// No inputs, of which no call is listed. A read gives as much as its buffer takes. It takes no memory.
    pub fn new(alloc: Global) -> MemInputs
        ensures files { result.files ≡ [] }
        ensures failing { result.failing ≡ [] }
        ensures most { result.most ≡ usize.MAX }
        ensures last { last_name result ≡ None }
        ensures live { result.live ≡ false }
        ensures counts { (result.starts ≡ 0) × (result.taken ≡ 0) × (result.reads ≡ 0) × (result.faults ≡ 0) }
    {
        MemInputs {
            alloc,
            files: Vec::new(alloc),
            failing: Vec::new(alloc),
            most: usize::MAX,
            last: None,
            live: false,
            taken: 0,
            reads: 0,
            starts: 0,
            faults: 0,
        }
    }

    /// Holds these bytes under this name, in place of those that it held there. The started input is given up.
    pub fn add(&mut self, name: &str, bytes: &[u8]) -> Result<(), NoMemory>
        ensures ok { OnOk result ((other : List ℕ) → bytes_of self.new.files other
            ≡ (if bytes_eq name.now other then Some bytes.now else bytes_of self.old.files other)) }
        ensures live { OnOk result (self.new.live ≡ false) }
        ensures last { last_name self.new ≡ last_name self.old }
        ensures failing { self.new.failing ≡ self.old.failing }
        ensures most { self.new.most ≡ self.old.most }
        ensures starts { self.new.starts ≡ self.old.starts }
        ensures taken { self.new.taken ≡ self.old.taken }
        ensures reads { self.new.reads ≡ self.old.reads }
        ensures faults { self.new.faults ≡ self.old.faults }
        ensures err { OnErr result (self.new ≡ self.old) }
    {
        let file = match File::new(self.alloc, name.as_bytes(), bytes) {
            Ok(file) => file,
            Err(AllocError) => return Err(NoMemory),
        };
        match put_file(&mut self.files, file) {
            Ok(()) => {
                self.live = false;
                Ok(())
            }
            Err(AllocError) => Err(NoMemory),
        }
    }

    /// Lists a call on this name, held or not: call 0 is its start, and call k the k-th read after its last start.
    /// From then on it fails each time that it comes. Calls listed before stay listed.
    pub fn fail(&mut self, name: &str, call: u32) -> Result<(), NoMemory>
        ensures ok { OnOk result (self.new ≡ record self.old {
          failing = self.old.failing ++ record { name = name.now; number = call } ∷ [];
        }) }
        ensures listed { OnOk result ((other : List ℕ) (number : ℕ)
            → is_listed self.new.failing other number
            ≡ (is_listed self.old.failing other number || (bytes_eq name.now other && (call == number)))) }
        ensures shaky { OnOk result ((other : List ℕ) → has_listed self.new.failing other
            ≡ (has_listed self.old.failing other || bytes_eq name.now other)) }
        ensures err { OnErr result (self.new ≡ self.old) }
    {
        let call = match FailingCall::new(self.alloc, name.as_bytes(), call) {
            Ok(call) => call,
            Err(AllocError) => return Err(NoMemory),
        };
        match self.failing.push(call) {
            Ok(()) => Ok(()),
            Err(AllocFailed { value: _ }) => Err(NoMemory),
        }
    }

    /// Bounds each read from then on: it gives at most so many bytes. Without it a read gives all that the buffer takes.
    pub fn most(&mut self, bytes: u32)
        requires { 0 < bytes }
        ensures { self.new ≡ record self.old { most = bytes } }
    {
        self.most = bytes as usize;
    }
}

impl Inputs for MemInputs {
    ghost held = { λ m. Some (bytes_of m.files) };

    ghost live = { λ m. m.live };

    ghost left = { λ m. Some (unread m) };

    ghost shaky = { λ m. Some (has_listed m.failing) };

    ghost last = { λ m. Some (last_name m) };

    ghost starts = { λ m. m.starts };

    ghost taken = { λ m. m.taken };

    ghost faults = { λ m. m.faults };

    fn start(&mut self, name: &str) -> Result<(), Failed>
        // It fails exactly on a name that is not held and where its start is listed.
        ensures fails { IsErr result ↔ StartFails self.old name.now }
        ensures cause { OnErr result (MayFail (Some (bytes_of self.old.files))
            (Some (has_listed self.old.failing)) name.now) }

        ensures live { self.new.live ≡ is_ok result }
        ensures last { last_name self.new ≡ held_name (bytes_of self.old.files) name.now }
        ensures left { OnOk result (Some (unread self.new) ≡ bytes_of self.old.files name.now) }
        ensures starts { self.new.starts ≡ count_after self.old.starts 1 }
        ensures taken { self.new.taken ≡ 0 }
        ensures reads { self.new.reads ≡ 0 }

        ensures ok { OnOk result (self.new.faults ≡ self.old.faults) }
        ensures err { OnErr result (self.new.faults ≡ count_after self.old.faults 1) }
        ensures never_falls { self.old.faults ≤ self.new.faults }

        ensures files { self.new.files ≡ self.old.files }
        ensures failing { self.new.failing ≡ self.old.failing }
        ensures most { self.new.most ≡ self.old.most }
    {
        self.starts = self.starts.saturating_add(1);
        self.taken = 0;
        self.reads = 0;
        self.last = place_of(&self.files, name.as_bytes());
        self.live = self.last.is_some() && !lists_call(&self.failing, name.as_bytes(), 0);
        if !self.live {
            self.faults = self.faults.saturating_add(1);
            return Err(Failed);
        }
        Ok(())
    }

    fn read(&mut self, into: &mut [u8]) -> Result<usize, Failed>
        requires { IsTrue self.old.live }

        // It fails exactly where this read, counted from the last start, is listed.
        ensures fails { IsErr result ↔ ReadFails self.old }
        ensures cause { OnErr result (IsLastShaky (Some (bytes_of self.old.files))
            (Some (has_listed self.old.failing)) (Some (last_name self.old))) }

        ensures count { IfOk result (λ count.
            count ≡ min self.old.most (min (length (unread self.old)) (length into.old))) }
        ensures bound { IfOk result (λ count. count ≤ length into.new) }
        ensures left { IfOk result (λ count.
            unread self.old ≡ take count into.new ++ unread self.new) }
        ensures end { IfOk result (λ count.
            count ≡ 0 → 0 < length into.new → unread self.new ≡ []) }

        ensures ok { IfOk result (λ count. self.new ≡ record self.old {
          taken = count_after self.old.taken count;
          reads = count_after self.old.reads 1;
        }) }
        ensures err { OnErr result (self.new ≡ record self.old {
          live = false;
          reads = count_after self.old.reads 1;
          faults = count_after self.old.faults 1;
        }) }
        ensures never_falls { self.old.faults ≤ self.new.faults }
    {
        self.reads = self.reads.saturating_add(1);
        if lists_call(&self.failing, name_of(&self.files, self.last), self.reads) {
            self.live = false;
            self.faults = self.faults.saturating_add(1);
            return Err(Failed);
        }
        let rest = rest_of(&self.files, self.last, self.taken);
        let count = fill(into, rest, self.most);
        self.taken += count;
        Ok(count)
    }

    ghost tells_shaky = { λ m told. refl };

    ghost tells_last = { λ m told. refl };

    ghost tells_left = { λ m told live. refl };
}

/// A sink in memory that takes bytes until it has as many as its room, and fails exactly at each later put.
#[derive(Drop)]
pub struct MemSink {
    bytes: Vec<u8>,
    room: usize,
    most: usize,
    faults: u64,
}

impl Model for MemSink {
    ghost use Rattle.std.specs.Prelude.{◌<◌, ◌≤◌, length};
    ghost use Rattle.std.specs.Vec.{vec_capacity};
    ghost use Rattle.sr_outside.specs.Memory.{Bounded};

    ghost Value = { Bounded };

    ghost view = { λ m. record {
      bytes = m.bytes.items;
      room = m.room;
      most = m.most;
      faults = m.faults;
    } };

    ghost invariant = { λ m. (0 < m.most)
        × (length m.bytes.items ≤ m.room)
        × (m.room ≤ vec_capacity m.bytes) };
}

impl MemSink {
    /// An empty sink, of which a put takes as much as there is room for. It takes the memory for `room` bytes at once,
    /// so no put takes memory.
    pub fn new(alloc: Global, room: u32) -> Result<MemSink, NoMemory>
        ensures bytes { IfOk result (λ sink. sink.bytes ≡ []) }
        ensures room { IfOk result (λ sink. sink.room ≡ room) }
        ensures most { IfOk result (λ sink. sink.most ≡ usize.MAX) }
        ensures faults { IfOk result (λ sink. sink.faults ≡ 0) }
    {
        let room = room as usize;
        match Vec::with_capacity(alloc, room) {
            Ok(bytes) => Ok(MemSink {
                bytes,
                room,
                most: usize::MAX,
                faults: 0,
            }),
            Err(AllocError) => Err(NoMemory),
        }
    }

    /// Bounds each put from then on: it takes at most so many bytes. Without it a put takes all that there is room for.
    pub fn most(&mut self, bytes: u32)
        requires { 0 < bytes }
        ensures { self.new ≡ record self.old { most = bytes } }
    {
        self.most = bytes as usize;
    }

    /// The bytes taken so far.
    pub fn bytes(&self) -> &[u8]
        ensures { result.now ≡ self.now.bytes }
    {
        self.bytes.as_slice()
    }
}

impl Sink for MemSink {
    ghost written = { λ m. Some m.bytes };

    ghost room = { λ m. Some m.room };

    ghost faults = { λ m. m.faults };

    fn put(&mut self, piece: &[u8]) -> Result<usize, Failed>
        requires { 0 < length piece.now }

        // It fails exactly where the room is used up.
        ensures fails { IsErr result ↔ (length self.old.bytes ≡ self.old.room) }
        ensures some { IfOk result (λ count. 0 < count) }
        ensures count { IfOk result (λ count. count
            ≡ min self.old.most (min (length piece.now) (self.old.room - length self.old.bytes))) }

        ensures ok { IfOk result (λ count. self.new ≡ record self.old {
          bytes = self.old.bytes ++ take count piece.now;
        }) }
        ensures err { OnErr result (self.new ≡ record self.old {
          faults = count_after self.old.faults 1;
        }) }
        ensures never_falls { self.old.faults ≤ self.new.faults }
        ensures within { length self.new.bytes ≤ self.new.room }
    {
        let count = self.most.min(piece.len().min(self.room - self.bytes.len()));
        if count == 0 {
            self.faults = self.faults.saturating_add(1);
            return Err(Failed);
        }
        match self.bytes.extend_from_slice(&piece[..count]) {
            Ok(()) => Ok(count),
            Err(AllocError) => unreachable!(),
        }
    }
}
