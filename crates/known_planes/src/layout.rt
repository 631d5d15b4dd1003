//! Where the words of blocks lie.
ghost use Rattle.std.specs.Prelude.{◌≡◌, ◌<◌, ◌≤◌, ◌*◌, ◌+◌};
ghost use Rattle.sr_model.specs.Limits.{chunk_count, max_cycles, max_signals};
ghost use Rattle.unroll.specs.Problem.{IsInside, blocks_in, signals_in};
ghost use Rattle.known_planes.specs.Layout.{place_of};

use sr_model::Sig;
use unroll::{InChunk, Problem};

/// Where the words of a signal in a chunk lie in `Planes::words`: the zero word is here, and the one word behind it.
///
/// The words go chunk after chunk, and those of a chunk's signals lie one behind the other, since rules join signals of one chunk. Whoever keeps the words of blocks
/// elsewhere, as words that workers share, keeps them in this order.
pub fn place(p: &Problem, at: InChunk) -> usize
    requires { IsInside p.now at }
    ensures place { result ≡ place_of (signals_in p.now) at.sig.0 at.chunk }
    ensures within { result + 1 < 2 * blocks_in p.now }
{
    place_among(p.net().signals(), at.sig, at.chunk)
}

/// The same among so many signals.
pub(crate) fn place_among(signals: u32, s: Sig, chunk: u32) -> usize
    requires signals { signals ≤ max_signals }
    requires signal { s.0 < signals }
    requires chunk { chunk < chunk_count max_cycles }
    ensures { result ≡ place_of signals s.0 chunk }
{
    2 * (chunk as usize * signals as usize + s.0 as usize)
}
