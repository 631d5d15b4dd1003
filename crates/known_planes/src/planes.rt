//! A set of literals, kept as one flat list of words.
ghost use Rattle.std.specs.Prelude.{ℕ, ◌≡◌, ◌≢◌, ◌<◌, ◌≤◌, ◌*◌, ◌+◌, Bool, None, length, false, true, IfOk, IfSome, OnErr, OnOk, slice_set, replicate};
ghost use Rattle.sr_model.specs.declared.cells.Lit.{Lit};
ghost use Rattle.sr_model.specs.Closure.{lit};
ghost use Rattle.sr_model.specs.Limits.{chunk_count, max_cycles, max_signals};
ghost use Rattle.unroll.specs.Bits.{is_set, word_for, union_of};
ghost use Rattle.unroll.specs.Problem.{Unrolling, signals_in, blocks_in, block_in, chunk_at, HasNoLaterBit, IsInside};
ghost use Rattle.known_planes.specs.Planes.{back_at, has, has_bit, is_new, pair_in, words_at, with_mark, with_words, without_mark, IsMarked, IsOf, IsNewIn, Joins, seen_of};
ghost use Rattle.known_planes.specs.Counts.{known_count};
ghost use Rattle.known_planes.specs.WordLists.{IsWordList, ListsWords};

use crate::back::replace;
use crate::layout::place_among;
use crate::mark::{Change, Mark};
use sr_model::{Cell, NoMemory, Sig};
use std::alloc::Global;
use std::marker::Model;
use unroll::{Block, InChunk, PinWord, Problem};

/// What planes have of a cell.
#[derive(Clone, Copy, Debug, PartialEq, Eq)]
pub enum Seen {
    Zero,
    One,
    Unknown,
    Both,
}

/// A set of literals of a problem, seen by contracts as the zero word and the one word of each block.
///
/// It takes 16 bytes for each block and 8 more, in one piece. The words of a block lie side by side where `place` says. At the end is one more word, which stays 0.
/// With a mark it keeps, beside these, the words before of each block that changed since.
#[derive(Drop)]
pub struct Planes {
    words: Vec<u64>,
    signals: u32,
    chunks: u32,
    mark: Option<Mark>,
}

impl Model for Planes {
    ghost use Rattle.known_planes.specs.Planes.{PlaneSet};
    ghost use Rattle.std.specs.Prelude.{IfSome};
    ghost use Rattle.known_planes.specs.Layout.{words_from, IsLaidOut};
    ghost use Rattle.known_planes.specs.Marks.{IsNotedOver, mark_of};

    ghost Value = { PlaneSet };

    ghost view = { λ p. record { signals = p.signals; chunks = p.chunks; words = words_from p.signals p.chunks p.words.items; mark = mark_of p.chunks (words_from p.signals p.chunks p.words.items) p.mark } };

    ghost invariant = { λ p. IsLaidOut p.signals p.chunks p.words.items × IfSome p.mark (IsNotedOver p.signals p.chunks) };
}

impl Planes {
    /// The planes with no literal.
    pub fn empty(alloc: Global, p: &Problem) -> Result<Planes, NoMemory>
        ensures of { IfOk result (IsOf p.now) }
        ensures none { IfOk result (λ planes. (l : Lit) → has p.now planes l ≡ false) }
        ensures mark { IfOk result (λ planes. planes.mark ≡ None) }
    {
        let signals = p.net().signals();
        let chunks = p.chunks();
        let words = zeros(alloc, 2 * p.blocks() as usize + 1)?;
        Ok(Planes {
            words,
            signals,
            chunks,
            mark: None,
        })
    }

    /// Planes with the same literals and no mark.
    pub fn copy(&self, alloc: Global) -> Result<Planes, NoMemory>
        ensures { IfOk result (λ planes. planes ≡ without_mark self.now) }
    {
        let words = Vec::from_slice(alloc, self.words.as_slice()).map_err(|_| NoMemory)?;
        Ok(Planes {
            words,
            signals: self.signals,
            chunks: self.chunks,
            mark: None,
        })
    }

    /// All words, each at its `place`, and behind them the further one that stays 0.
    pub fn words(&self) -> &[u64]
        ensures list { (u : Unrolling) → IsOf u self.now → IsWordList u result.now }
        ensures words { (u : Unrolling) → IsOf u self.now → ListsWords u self.now result.now }
    {
        self.words.as_slice()
    }

    /// The planes with these words, in the order of `words`. It keeps the vector with its room, and takes no memory.
    pub fn of_words(p: &Problem, words: Vec<u64>) -> Planes
        requires { IsWordList p.now words.items }
        ensures of { IsOf p.now result }
        ensures words { ListsWords p.now result words.items }
        ensures mark { result.mark ≡ None }
    {
        Planes {
            words,
            signals: p.net().signals(),
            chunks: p.chunks(),
            mark: None,
        }
    }

    /// The words of a block. `word_in_chunk` does it with no division.
    pub fn word(&self, b: Block) -> PinWord
        requires { b.0 < length self.now.words }
        ensures { result ≡ words_at self.now b }
    {
        self.pair(Sig(b.0 / self.chunks), b.0 % self.chunks)
    }

    /// Replaces the words of a block. `set_in_chunk` does it with no division.
    pub fn set(&mut self, p: &Problem, b: Block, w: PinWord)
        requires of { IsOf p.now self.old }
        requires block { b.0 < blocks_in p.now }
        requires no_later { HasNoLaterBit p.now.cycles (chunk_at p.now b) w }
        ensures words { self.new ≡ with_words self.old b w }
        ensures of { IsOf p.now self.new }
    {
        self.set_pair(p.sig_of(b), p.chunk_of(b), w);
    }

    /// The words of a signal in a chunk.
    pub fn word_in_chunk(&self, _p: &Problem, at: InChunk) -> PinWord
        requires of { IsOf _p.now self.now }
        requires inside { IsInside _p.now at }
        ensures { result ≡ words_at self.now (block_in _p.now at) }
    {
        self.pair(at.sig, at.chunk)
    }

    /// Replaces the words of a signal in a chunk.
    pub fn set_in_chunk(&mut self, _p: &Problem, at: InChunk, w: PinWord)
        requires of { IsOf _p.now self.old }
        requires inside { IsInside _p.now at }
        requires no_later { HasNoLaterBit _p.now.cycles at.chunk w }
        ensures words { self.new ≡ with_words self.old (block_in _p.now at) w }
        ensures of { IsOf _p.now self.new }
    {
        self.set_pair(at.sig, at.chunk, w);
    }

    /// The cycles of a chunk in which the words have a literal of the signal that the planes do not have: bit i stands for cycle `64 * chunk + i`.
    pub fn new_in_chunk(&self, p: &Problem, at: InChunk, words: PinWord) -> u64
        requires of { IsOf p.now self.now }
        requires inside { IsInside p.now at }
        requires no_later { HasNoLaterBit p.now.cycles at.chunk words }
        ensures exact { (i : ℕ) → is_set result i ≡ is_new self.now (block_in p.now at) words i }
        ensures known { (bit : Bool) (i : ℕ) → is_set result i ≡ false → is_set (word_for bit words) i ≡ true → has_bit self.now (block_in p.now at) bit i ≡ true }
        ensures new { result ≢ 0 → (l : Lit) × IsNewIn p.now self.now (block_in p.now at) words l }
    {
        words.without(self.word_in_chunk(p, at)).known()
    }

    /// Adds the literals of the words to those of a signal in a chunk.
    pub fn add_in_chunk(&mut self, p: &Problem, at: InChunk, words: PinWord)
        requires of { IsOf p.now self.old }
        requires inside { IsInside p.now at }
        requires no_later { HasNoLaterBit p.now.cycles at.chunk words }
        ensures words { self.new ≡ with_words self.old (block_in p.now at) (union_of (words_at self.old (block_in p.now at)) words) }
        ensures joins { Joins (block_in p.now at) words self.old self.new }
        ensures of { IsOf p.now self.new }
    {
        let all = self.word_in_chunk(p, at).union(words);
        self.set_in_chunk(p, at, all);
    }

    /// What the planes have of a cell.
    pub fn bit(&self, p: &Problem, cell: Cell) -> Seen
        requires of { IsOf p.now self.now }
        requires signal { cell.sig.0 < signals_in p.now }
        requires cycle { cell.cycle < p.now.cycles }
        ensures { result ≡ seen_of (has p.now self.now (lit cell false)) (has p.now self.now (lit cell true)) }
    {
        let sig = cell.sig;
        let chunk = cell.cycle / 64;
        let words = self.word_in_chunk(p, InChunk { sig, chunk });
        let i = cell.cycle % 64;
        match (words.has(false, i), words.has(true, i)) {
            (false, false) => Seen::Unknown,
            (true, false) => Seen::Zero,
            (false, true) => Seen::One,
            (true, true) => Seen::Both,
        }
    }

    /// Sets the mark at the literals that are there. It takes room for a change of each block, of which no more is used than blocks change, and a byte for each block.
    pub fn set_mark(&mut self, alloc: Global) -> Result<(), NoMemory>
        ensures ok { OnOk result (self.new ≡ with_mark self.old) }
        ensures err { OnErr result (self.new ≡ self.old) }
    {
        self.mark = Some(Mark::new(alloc, self.signals, self.chunks)?);
        Ok(())
    }

    /// Goes back to the literals of the mark, and answers how many flip-flop cells are known no longer. Its time goes by the blocks that changed.
    pub fn go_back(&mut self, p: &Problem) -> u64
        requires of { IsOf p.now self.old }
        requires mark { IsMarked p.now self.old }
        ensures back { IfSome self.old.mark (λ words. self.new ≡ back_at self.old words) }
        ensures count { known_count p.now.circuit p.now.cycles (has p.now self.old) ≡ result + known_count p.now.circuit p.now.cycles (has p.now self.new) }
        ensures few { result ≤ max_signals * max_cycles }
    {
        match &mut self.mark {
            Some(mark) => mark.put_back(p, &mut self.words),
            None => 0,
        }
    }

    /// Moves the mark, if there is one, to the literals that are there. Its time goes by the blocks that changed.
    pub fn keep(&mut self)
        ensures none { self.old.mark ≡ None → self.new ≡ self.old }
        ensures some { IfSome self.old.mark (λ _. self.new ≡ with_mark self.old) }
    {
        if let Some(mark) = &mut self.mark {
            mark.clear();
        }
    }

    /// How many signals the planes are over.
    pub(crate) fn signals(&self) -> u32
        ensures signals { result ≡ self.now.signals }
        ensures few { result ≤ max_signals }
    {
        self.signals
    }

    /// How many chunks the planes are over.
    pub(crate) fn chunks(&self) -> u32
        ensures chunks { result ≡ self.now.chunks }
        ensures few { result ≤ chunk_count max_cycles }
    {
        self.chunks
    }

    /// The words of a signal in a chunk.
    pub(crate) fn pair(&self, s: Sig, chunk: u32) -> PinWord
        requires signal { s.0 < self.now.signals }
        requires chunk { chunk < self.now.chunks }
        ensures { result ≡ pair_in self.now s.0 chunk }
    {
        let place = place_among(self.signals, s, chunk);
        PinWord {
            zero: self.words[place],
            one: self.words[place + 1],
        }
    }

    /// Replaces the words of a signal in a chunk. Where there is a mark, the change is noted.
    fn set_pair(&mut self, s: Sig, chunk: u32, w: PinWord)
        requires signal { s.0 < self.old.signals }
        requires chunk { chunk < self.old.chunks }
        ensures { self.new ≡ record { signals = self.old.signals; chunks = self.old.chunks; words = slice_set self.old.words (s.0 * self.old.chunks + chunk) w; mark = self.old.mark } }
    {
        let place = place_among(self.signals, s, chunk);
        let before = replace(&mut self.words, place, w);
        if let Some(mark) = &mut self.mark {
            let at = InChunk { sig: s, chunk };
            mark.note(Change { at, before });
        }
    }
}

/// So many words that are 0.
fn zeros(alloc: Global, count: usize) -> Result<Vec<u64>, NoMemory>
    ensures { IfOk result (λ words. words.items ≡ replicate count 0) }
{
    match vec![in alloc; 0; count] {
        Ok(words) => Ok(words),
        Err(_) => Err(NoMemory),
    }
}
