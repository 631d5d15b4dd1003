//! The tasks that wait to be done.
ghost use Rattle.std.specs.Prelude.{ℕ, [], ◌∷◌, replicate, false, length, ◌*◌, ◌/◌, ◌%◌, ◌^◌, ◌≡◌, ◌≢◌, ◌+◌, ◌<◌, ◌≤◌, ◌⊎◌, Contains, All, IfOk, IfSome, IsNone, IsTrue, IsFalse, true};
ghost use Rattle.sr_model.specs.declared.cells.Sig.{Sig as AnySig};
ghost use Rattle.sr_model.specs.Limits.{max_signals};
ghost use Rattle.unroll.specs.Bits.{is_set};
ghost use Rattle.unroll.specs.Waiting.{Adds, AddsBut, TakesOut, IsNextFrom, IsFirstRow, Waits, IsIdle, row_has_task, mark_length, row_length, row_word, waiting_measure, with_word, HasTask};

use crate::bits::low_bits;
use crate::problem::InChunk;
use sr_model::{NoMemory, Sig};
use std::alloc::Global;
use std::marker::Model;

/// The tasks of gates and flip-flops that wait, a bit for each signal and chunk. A mark says of each word of 64 bits whether one of them is set, so a search for the next task reads
/// one word for each 4,096 signals that it passes over.
///
/// `next` sweeps over them: those of a chunk by ascending and then by descending signals, until none waits there, and the chunks up and down in the same way. So the words
/// in use lie near each other, and bits gather before a task has its turn.
#[derive(Drop)]
pub struct WaitingTasks {
    words: Vec<u64>,
    /// For each chunk a bit for each of its words, 64 to a word: whether a task waits there.
    marks: Vec<u64>,
    signals: u32,
    chunks: u32,
    sweep: Sweep,
}

/// Where the sweep stands: at a word of a chunk, in which the bits of the mask are still ahead.
#[derive(Clone, Copy)]
struct Sweep {
    chunk: u32,
    row: usize,
    ahead: u64,
    /// By ascending signals.
    up: bool,
    /// By ascending chunks.
    later: bool,
}

impl Model for WaitingTasks {
    ghost use Rattle.std.specs.Prelude.{◌<◌};
    ghost use Rattle.unroll.specs.Waiting.{Waiting, IsKept, row_length};

    ghost Value = { Waiting };

    ghost view = { λ q. record { signals = q.signals; chunks = q.chunks; words = q.words.items } };

    ghost invariant = { λ q. IsKept q.signals q.chunks q.words.items q.marks.items × (q.sweep.chunk < q.chunks) × (q.sweep.row < row_length q.signals) };
}

impl WaitingTasks {
    /// None waits. It takes a bit for each signal and chunk, and one more for each 64 of them.
    pub fn new(alloc: Global, signals: u32, chunks: u32) -> Result<WaitingTasks, NoMemory>
        requires signals { signals ≤ max_signals }
        requires some_chunks { 1 ≤ chunks }
        requires few_chunks { chunks ≤ 128 }
        ensures signals { IfOk result (λ q. q.signals ≡ signals) }
        ensures chunks { IfOk result (λ q. q.chunks ≡ chunks) }
        ensures none { IfOk result (λ q. (s : AnySig) (chunk : ℕ) → Waits q s chunk → ⊥) }
    {
        let words = zeros(alloc, chunks as usize * row_len(signals))?;
        let marks = zeros(alloc, chunks as usize * mark_len(signals))?;
        Ok(WaitingTasks {
            words,
            marks,
            signals,
            chunks,
            sweep: Sweep {
                chunk: 0,
                row: 0,
                ahead: u64::MAX,
                up: true,
                later: true,
            },
        })
    }

    /// Lets a task wait.
    pub fn add(&mut self, at: InChunk)
        requires signal { at.sig.0 < self.old.signals }
        requires chunk { at.chunk < self.old.chunks }
        ensures { Adds (at.sig ∷ []) at.chunk self.old self.new }
    {
        let row = at.sig.0 as usize / 64;
        let word = self.word(at.chunk, row) | alone(at.sig.0 % 64);
        self.put(at.chunk, row, word);
    }

    /// Lets the tasks of these signals wait in a chunk.
    pub fn add_all(&mut self, targets: &[Sig], chunk: u32)
        requires signals { All (λ (s : AnySig). s.0 < self.old.signals) targets.now }
        requires chunk { chunk < self.old.chunks }
        ensures { Adds targets.now chunk self.old self.new }
    {
        for sig in targets {
            self.add(InChunk { sig: *sig, chunk });
        }
    }

    /// Lets the tasks of these signals wait in a chunk, without that of one signal.
    pub fn add_all_but(&mut self, targets: &[Sig], chunk: u32, but: Sig)
        requires signals { All (λ (s : AnySig). s.0 < self.old.signals) targets.now }
        requires chunk { chunk < self.old.chunks }
        ensures { AddsBut targets.now but chunk self.old self.new }
    {
        for sig in targets {
            if *sig != but {
                self.add(InChunk { sig: *sig, chunk });
            }
        }
    }

    /// Takes a task out: it waits no longer.
    pub fn remove(&mut self, at: InChunk)
        requires { Waits self.old at.sig at.chunk }
        ensures signals { self.new.signals ≡ self.old.signals }
        ensures chunks { self.new.chunks ≡ self.old.chunks }
        ensures kept { (s : AnySig) (c : ℕ) → Waits self.old s c → Waits self.new s c ⊎ ((s ≡ at.sig) × (c ≡ at.chunk)) }
        ensures only { (s : AnySig) (c : ℕ) → Waits self.new s c → Waits self.old s c }
        ensures gone { Waits self.new at.sig at.chunk → ⊥ }
        ensures fewer { waiting_measure self.new < waiting_measure self.old }
    {
        let row = at.sig.0 as usize / 64;
        let word = self.word(at.chunk, row) & !alone(at.sig.0 % 64);
        self.put(at.chunk, row, word);
    }

    /// Takes out the task of the least signal from this one on whose task waits in a chunk. None exactly where there is none. No marks before that of `from` are read but those
    /// in the same word, so a sweep from signal to signal is linear in the words of marks of the chunk and the tasks that are taken.
    pub fn take_from(&mut self, chunk: u32, from: u32) -> Option<Sig>
        requires { chunk < self.old.chunks }
        ensures next { IfSome result (IsNextFrom self.old chunk from) }
        ensures taken { IfSome result (λ s. TakesOut s chunk self.old self.new) }
        ensures none { IsNone result → (s : AnySig) → from ≤ s.0 → Waits self.old s chunk → ⊥ }
        ensures same { IsNone result → self.new ≡ self.old }
    {
        let sig = self.next_from(chunk, from)?;
        self.remove(InChunk { sig, chunk });
        Some(sig)
    }

    /// The least signal, from this one on, of those whose task waits in a chunk.
    fn next_from(&self, chunk: u32, from: u32) -> Option<Sig>
        requires { chunk < self.now.chunks }
        ensures next { IfSome result (IsNextFrom self.now chunk from) }
        ensures none { IsNone result → (s : AnySig) → from ≤ s.0 → Waits self.now s chunk → ⊥ }
    {
        let row = self.first_row(chunk, from as usize / 64)?;
        self.next_in(chunk, from, row)
    }

    /// The same, where this is the first word with a task from that of the signal on.
    fn next_in(&self, chunk: u32, from: u32, row: usize) -> Option<Sig>
        requires chunk { chunk < self.now.chunks }
        requires row { IsFirstRow self.now chunk (from / 64) row }
        ensures next { IfSome result (IsNextFrom self.now chunk from) }
        ensures none { IsNone result → (s : AnySig) → from ≤ s.0 → Waits self.now s chunk → ⊥ }
    {
        let _ = &self.words;
        let bits = self.bits_from(chunk, row, from);
        if bits != 0 {
            return Some(self.lowest(chunk, row, bits));
        }
        let later = self.first_row(chunk, row + 1)?;
        let word = self.word(chunk, later);
        Some(self.lowest(chunk, later, word))
    }

    /// The bits of a word that are those of signals from this one on.
    fn bits_from(&self, chunk: u32, row: usize, from: u32) -> u64
        requires chunk { chunk < self.now.chunks }
        requires row { row < row_length self.now.signals }
        requires from { from / 64 ≤ row }
        ensures bits { (i : ℕ) → is_set result i ≡ true → is_set (row_word self.now.signals self.now.words chunk row) i ≡ true }
        ensures late { (i : ℕ) → i < 64 → is_set result i ≡ true → from ≤ row * 64 + i }
        ensures all { (s : AnySig) → from ≤ s.0 → s.0 / 64 ≡ row → Waits self.now s chunk → is_set result (s.0 % 64) ≡ true }
    {
        let word = self.word(chunk, row);
        if from as usize / 64 < row {
            word
        } else {
            word & (u64::MAX << (from % 64))
        }
    }

    /// The signal of the lowest of these bits, which are in a word.
    fn lowest(&self, chunk: u32, row: usize, bits: u64) -> Sig
        requires chunk { chunk < self.now.chunks }
        requires row { row < row_length self.now.signals }
        requires some { bits ≢ 0 }
        requires bits { (i : ℕ) → is_set bits i ≡ true → is_set (row_word self.now.signals self.now.words chunk row) i ≡ true }
        ensures waits { Waits self.now result chunk }
        ensures row { result.0 / 64 ≡ row }
        ensures set { is_set bits (result.0 % 64) ≡ true }
        ensures lowest { (i : ℕ) → i < result.0 % 64 → is_set bits i ≡ false }
    {
        let _ = &self.words;
        Sig(row as u32 * 64 + lowest_bit(bits))
    }

    /// The next task of the sweep, which waits on. None exactly where none waits.
    pub fn next(&mut self) -> Option<InChunk>
        ensures same { self.new ≡ self.old }
        ensures waits { IfSome result (λ at. Waits self.old at.sig at.chunk) }
        ensures none { IsNone result → (s : AnySig) (c : ℕ) → Waits self.old s c → ⊥ }
    {
        let chunk = self.sweep.chunk;
        let row = self.sweep.row;
        let rest = self.word(chunk, row) & self.sweep.ahead;
        if rest != 0 {
            return Some(self.stop(chunk, row, rest));
        }
        self.sweep_on()
    }

    /// The next task behind the word that the sweep stands at.
    fn sweep_on(&mut self) -> Option<InChunk>
        ensures same { self.new ≡ self.old }
        ensures waits { IfSome result (λ at. Waits self.old at.sig at.chunk) }
        ensures none { IsNone result → (s : AnySig) (c : ℕ) → Waits self.old s c → ⊥ }
    {
        if let Some(at) = self.sweep_chunk() {
            return Some(at);
        }
        let next = self.next_chunk()?;
        self.sweep.up = true;
        Some(self.stop_at(next))
    }

    /// The next task of the chunk that the sweep stands in, before it is swept from its first signal again.
    fn sweep_chunk(&mut self) -> Option<InChunk>
        ensures same { self.new ≡ self.old }
        ensures waits { IfSome result (λ at. Waits self.old at.sig at.chunk) }
    {
        let chunk = self.sweep.chunk;
        let mut below = self.sweep.row;
        if self.sweep.up {
            if let Some(row) = self.first_row(chunk, below + 1) {
                return Some(self.stop_at(RowAt { chunk, row }));
            }
            self.sweep.up = false;
            below = row_len(self.signals);
        }
        let row = self.last_row(chunk, below)?;
        Some(self.stop_at(RowAt { chunk, row }))
    }

    /// The first word with a task of another chunk, or of this one again: on the way on first, and then on the way back.
    fn next_chunk(&mut self) -> Option<RowAt>
        ensures same { self.new ≡ self.old }
        ensures some { IfSome result (HasTask self.old) }
        ensures none { IsNone result → (c : ℕ) → IsIdle self.old c }
    {
        let chunk = self.sweep.chunk;
        if let Some(at) = self.row_in(chunk) {
            return Some(at);
        }
        if self.sweep.later {
            if let Some(at) = self.row_after(chunk) {
                return Some(at);
            }
            self.sweep.later = false;
            return self.row_before(chunk);
        }
        if let Some(at) = self.row_before(chunk) {
            return Some(at);
        }
        self.sweep.later = true;
        self.row_after(chunk)
    }

    /// The first word with a task of the chunks behind this one.
    fn row_after(&self, chunk: u32) -> Option<RowAt>
        requires { chunk < self.now.chunks }
        ensures some { IfSome result (HasTask self.now) }
        ensures none { IsNone result → (c : ℕ) → chunk < c → IsIdle self.now c }
    {
        let chunks = self.chunks;
        for later in chunk + 1..chunks {
            if let Some(at) = self.row_in(later) {
                return Some(at);
            }
        }
        None
    }

    /// That of the chunks before this one, the last of them first.
    fn row_before(&self, chunk: u32) -> Option<RowAt>
        requires { chunk < self.now.chunks }
        ensures some { IfSome result (HasTask self.now) }
        ensures none { IsNone result → (c : ℕ) → c < chunk → IsIdle self.now c }
    {
        for earlier in (0..chunk).rev() {
            if let Some(at) = self.row_in(earlier) {
                return Some(at);
            }
        }
        None
    }

    /// That of one chunk.
    fn row_in(&self, chunk: u32) -> Option<RowAt>
        requires { chunk < self.now.chunks }
        ensures some { IfSome result (HasTask self.now) }
        ensures none { IsNone result → IsIdle self.now chunk }
    {
        let row = self.first_row(chunk, 0)?;
        Some(RowAt { chunk, row })
    }

    /// The first word of a chunk with a task from this one on.
    fn first_row(&self, chunk: u32, from: usize) -> Option<usize>
        requires { chunk < self.now.chunks }
        ensures some { IfSome result (IsFirstRow self.now chunk from) }
        ensures none { IsNone result → (r : ℕ) → from ≤ r → r < row_length self.now.signals → row_word self.now.signals self.now.words chunk r ≡ 0 }
    {
        for group in from / 64..mark_len(self.signals) {
            let ahead = !low_bits(from.saturating_sub(group * 64) as u32);
            let marks = self.marks_in(chunk, group) & ahead;
            if marks != 0 {
                return Some(group * 64 + lowest_bit(marks) as usize);
            }
        }
        None
    }

    /// The last word of a chunk with a task below this one.
    fn last_row(&self, chunk: u32, below: usize) -> Option<usize>
        requires chunk { chunk < self.now.chunks }
        requires below { below ≤ row_length self.now.signals }
        ensures { IfSome result (λ row. (row < row_length self.now.signals) × (row_word self.now.signals self.now.words chunk row ≢ 0)) }
    {
        for group in (0..below.div_ceil(64)).rev() {
            let behind = low_bits((below - group * 64).min(64) as u32);
            let marks = self.marks_in(chunk, group) & behind;
            if marks != 0 {
                return Some(group * 64 + highest_bit(marks) as usize);
            }
        }
        None
    }

    /// Stops at a word with a task.
    fn stop_at(&mut self, at: RowAt) -> InChunk
        requires { HasTask self.old at }
        ensures same { self.new ≡ self.old }
        ensures waits { Waits self.old result.sig result.chunk }
    {
        let word = self.word(at.chunk, at.row);
        self.stop(at.chunk, at.row, word)
    }

    /// Stops at a bit of these, which are in a word: at the lowest one on the way up, at the highest one on the way down.
    fn stop(&mut self, chunk: u32, row: usize, bits: u64) -> InChunk
        requires chunk { chunk < self.old.chunks }
        requires row { row < row_length self.old.signals }
        requires some { bits ≢ 0 }
        requires bits { (i : ℕ) → is_set bits i ≡ true → is_set (row_word self.old.signals self.old.words chunk row) i ≡ true }
        ensures same { self.new ≡ self.old }
        ensures waits { Waits self.old result.sig result.chunk }
    {
        let up = self.sweep.up;
        let i = if up {
            lowest_bit(bits)
        } else {
            highest_bit(bits)
        };
        self.sweep = Sweep {
            chunk,
            row,
            ahead: if up {
                (u64::MAX << i) << 1
            } else {
                (1 << i) - 1
            },
            up,
            later: self.sweep.later,
        };
        InChunk {
            sig: Sig(row as u32 * 64 + i),
            chunk,
        }
    }

    /// Replaces a word of a chunk. Its mark is turned where the word comes to be 0, or is 0 no longer.
    fn put(&mut self, chunk: u32, row: usize, word: u64)
        requires chunk { chunk < self.old.chunks }
        requires row { row < row_length self.old.signals }
        requires signals { (i : ℕ) → i < 64 → is_set word i ≡ true → row * 64 + i < self.old.signals }
        ensures { self.new ≡ with_word self.old chunk row word }
    {
        let place = self.place(chunk, row);
        let old = self.words[place];
        self.words[place] = word;
        if (old == 0) != (word == 0) {
            let at = chunk as usize * mark_len(self.signals) + row / 64;
            self.marks[at] ^= alone((row % 64) as u32);
        }
    }

    /// The marks of a group of 64 words of a chunk.
    fn marks_in(&self, chunk: u32, group: usize) -> u64
        requires chunk { chunk < self.now.chunks }
        requires group { group < mark_length self.now.signals }
        ensures { (i : ℕ) → i < 64 → is_set result i ≡ row_has_task self.now.signals self.now.words chunk (group * 64 + i) }
    {
        self.marks[chunk as usize * mark_len(self.signals) + group]
    }

    /// A word of a chunk.
    fn word(&self, chunk: u32, row: usize) -> u64
        requires chunk { chunk < self.now.chunks }
        requires row { row < row_length self.now.signals }
        ensures word { result ≡ row_word self.now.signals self.now.words chunk row }
        ensures within { chunk * row_length self.now.signals + row < length self.now.words }
        ensures signals { (i : ℕ) → i < 64 → is_set result i ≡ true → row * 64 + i < self.now.signals }
    {
        self.words[self.place(chunk, row)]
    }

    /// Where a word of a chunk lies.
    fn place(&self, chunk: u32, row: usize) -> usize
        requires chunk { chunk < self.now.chunks }
        requires row { row < row_length self.now.signals }
        ensures place { result ≡ chunk * row_length self.now.signals + row }
        ensures within { result < length self.now.words }
    {
        chunk as usize * row_len(self.signals) + row
    }
}

/// A word of a chunk.
#[derive(Clone, Copy)]
struct RowAt {
    chunk: u32,
    row: usize,
}

/// How many words a chunk has.
fn row_len(signals: u32) -> usize
    ensures { result ≡ row_length signals }
{
    signals as usize / 64 + 1
}

/// How many words the marks of a chunk have.
fn mark_len(signals: u32) -> usize
    ensures { result ≡ mark_length signals }
{
    signals as usize / 4096 + 1
}

fn lowest_bit(word: u64) -> u32
    requires { word ≢ 0 }
    ensures within { result < 64 }
    ensures set { is_set word result ≡ true }
    ensures lowest { (i : ℕ) → i < result → is_set word i ≡ false }
{
    word.trailing_zeros()
}

fn highest_bit(word: u64) -> u32
    requires { word ≢ 0 }
    ensures within { result < 64 }
    ensures set { is_set word result ≡ true }
{
    63 - word.leading_zeros()
}

/// The word in which one bit is set.
fn alone(i: u32) -> u64
    requires { i < 64 }
    ensures { result ≡ 2 ^ i }
{
    1 << i
}

/// So many words that are 0.
fn zeros(alloc: Global, count: usize) -> Result<Vec<u64>, NoMemory>
    ensures { IfOk result (λ words. words.items ≡ replicate count 0) }
{
    match vec![in alloc; 0; count] {
        Ok(words) => Ok(words),
        Err(_) => Err(NoMemory),
    }
}
