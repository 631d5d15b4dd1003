//! How many literals planes have.
ghost use Rattle.std.specs.Prelude.{◌≡◌, ◌≤◌, ◌<◌, ◌*◌};
ghost use Rattle.std.specs.List.{sum_by};
ghost use Rattle.netlist.specs.Wiring.{flip_flops, signals_below};
ghost use Rattle.sr_model.specs.Limits.{max_cycles, max_signals};
ghost use Rattle.unroll.specs.Problem.{Unrolling, chunks_in};
ghost use Rattle.known_planes.specs.Planes.{IsOf, has};
ghost use Rattle.known_planes.specs.Counts.{known_count, literal_count, bits_in, known_bits_at, literal_bits_at};

use crate::planes::Planes;
use sr_model::Sig;
use unroll::Problem;

impl Planes {
    /// The number of flip-flop cells of which at least one literal is there. A cell with both counts once.
    pub fn count_known_flip_flops(&self, p: &Problem) -> u64
        requires { IsOf p.now self.now }
        ensures count { result ≡ known_count p.now.circuit p.now.cycles (has p.now self.now) }
        ensures few { result ≤ max_signals * max_cycles }
    {
        let mut count = 0;
        for chunk in 0..self.chunks() {
            count += self.known_in_chunk(p, chunk);
        }
        count
    }

    /// The number of literals.
    pub fn count_literals(&self) -> u64
        ensures { (u : Unrolling) → IsOf u self.now → result ≡ literal_count u self.now }
    {
        let mut count = 0;
        for chunk in 0..self.chunks() {
            count += self.literals_in_chunk(chunk);
        }
        count
    }

    /// How many flip-flop cells of the chunk have a literal.
    fn known_in_chunk(&self, p: &Problem, chunk: u32) -> u64
        requires of { IsOf p.now self.now }
        requires chunk { chunk < self.now.chunks }
        ensures count { result ≡ sum_by (λ s. known_bits_at self.now s.0 chunk) (flip_flops p.now.circuit.drivers) }
        ensures few { result ≤ 64 * max_signals }
    {
        let mut count = 0;
        for s in p.net().flip_flops() {
            let words = self.pair(*s, chunk);
            count += u64::from(count_bits(words.known()));
        }
        count
    }

    /// How many literals of the chunk there are.
    fn literals_in_chunk(&self, chunk: u32) -> u64
        requires { chunk < self.now.chunks }
        ensures count { result ≡ sum_by (λ s. literal_bits_at self.now s.0 chunk) (signals_below self.now.signals) }
        ensures few { result ≤ 128 * max_signals }
    {
        let mut count = 0;
        for s in 0..self.signals() {
            let words = self.pair(Sig(s), chunk);
            count += u64::from(count_bits(words.zero)) + u64::from(count_bits(words.one));
        }
        count
    }
}

/// How many bits of the word are set.
pub(crate) fn count_bits(word: u64) -> u32
    ensures count { result ≡ bits_in word }
    ensures few { result ≤ 64 }
{
    word.count_ones()
}
