//! Changes that are put back.
ghost use Rattle.std.specs.Prelude.{◌≡◌, ◌≤◌, ◌<◌, ◌+◌, ◌*◌, [], length, slice_set};
ghost use Rattle.sr_model.specs.Limits.{max_blocks};
ghost use Rattle.unroll.specs.Problem.{chunks_in, signals_in};
ghost use Rattle.known_planes.specs.Counts.{known_bits, known_in};
ghost use Rattle.known_planes.specs.Layout.{IsLaidOut, pair_at, words_in};
ghost use Rattle.known_planes.specs.Marks.{IsNotedOver, words_back};

use crate::counts::count_bits;
use crate::layout::place;
use crate::mark::Mark;
use unroll::{PinWord, Problem};

impl Mark {
    /// Puts all changes back into the words, the last one first, and answers in how many cells of flip-flops there is a literal no longer.
    pub(crate) fn put_back(&mut self, p: &Problem, words: &mut Vec<u64>) -> u64
        requires laid { IsLaidOut (signals_in p.now) (chunks_in p.now) words.old.items }
        requires noted { IsNotedOver (signals_in p.now) (chunks_in p.now) self.old }
        requires less { known_in p.now (words_back (chunks_in p.now) self.old.changes (words_in p.now words.old.items)) ≤ known_in p.now (words_in p.now words.old.items) }
        ensures laid { IsLaidOut (signals_in p.now) (chunks_in p.now) words.new.items }
        ensures mark { self.new ≡ record { signals = self.old.signals; chunks = self.old.chunks; changes = [] } }
        ensures words { words_in p.now words.new.items ≡ words_back (chunks_in p.now) self.old.changes (words_in p.now words.old.items) }
        ensures count { known_in p.now (words_in p.now words.old.items) ≡ result + known_in p.now (words_in p.now words.new.items) }
        ensures few { result ≤ 64 * max_blocks }
    {
        let mut known = 0;
        let mut known_before = 0;
        while let Some(change) = self.pop() {
            let there = replace(words, place(p, change.at), change.before);
            if p.is_flip_flop(change.at.sig) {
                known += count_known(there);
                known_before += count_known(change.before);
            }
        }
        known - known_before
    }
}

/// Replaces the pair of words at a place, and answers the one that was there.
pub(crate) fn replace(words: &mut Vec<u64>, place: usize, w: PinWord) -> PinWord
    requires { place + 1 < length words.old.items }
    ensures before { result ≡ pair_at words.old.items place }
    ensures words { words.new.items ≡ slice_set (slice_set words.old.items place w.zero) (place + 1) w.one }
{
    let before = PinWord {
        zero: words[place],
        one: words[place + 1],
    };
    words[place] = w.zero;
    words[place + 1] = w.one;
    before
}

/// In how many cycles of a chunk there is a literal.
fn count_known(words: PinWord) -> u64
    ensures count { result ≡ known_bits words }
    ensures few { result ≤ 64 }
{
    u64::from(count_bits(words.known()))
}
