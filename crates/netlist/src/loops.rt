//! Loops through gates.
ghost use Rattle.std.specs.Prelude.{ℕ, ◌≡◌, ◌≤◌, length, replicate, slice_index_or, None, true, false, IfOk, MatchResult};
ghost use Rattle.std.specs.List.{All, Contains};
ghost use Rattle.sr_model.specs.Limits.{max_signals};
ghost use Rattle.netlist.specs.Wiring.{IsWired};
ghost use Rattle.netlist.specs.Ranks.{IsOrder};
ghost use Rattle.netlist.specs.Loops.{HasNoLoop, IsLeastFed, IsLoop, IsNext};
ghost use Rattle.netlist.specs.Ranking.{MarksFed};

use crate::ranks::{Ranking, first_marked, order, rank_gates};
use crate::wiring::Wiring;
use sr_model::{NoMemory, Sig};
use std::alloc::Global;

/// A loop through gates.
#[derive(Clone, Copy, Debug, PartialEq, Eq)]
pub struct Loop {
    /// The first signal that the walk meets a second time. The walk begins at the least signal that is fed by a loop, and goes
    /// each time to the first pin, from the left, that is fed by one.
    pub name: Sig,
    /// How many signals the loop has.
    pub length: u32,
}

/// The signals that gates drive, by rank and then by number; where there are loops through gates, the loop that the walk comes to.
///
/// The time is in the number of signals and pins. It takes seventeen bytes a signal at most, and lets all but the answer go.
pub(crate) fn gate_order(alloc: Global, wiring: &Wiring) -> Result<Result<Vec<Sig>, Loop>, NoMemory>
    ensures { IfOk result (λ found. MatchResult found (λ order. HasNoLoop wiring.now × IsOrder wiring.now order.items) (λ l. IsLoop wiring.now l.name l.length)) }
{
    match rank_gates(alloc, wiring)? {
        Ranking::Ranks(ranks) => Ok(Ok(order(alloc, wiring, &ranks)?)),
        Ranking::Loops(fed) => Ok(Err(find_loop(alloc, wiring, &fed)?)),
    }
}

/// The loop that the walk comes to, where loops feed the signals with marks.
///
/// The walk meets each signal with a mark once at most, and looks at the pins of each that it meets. It takes eight bytes a signal.
pub(crate) fn find_loop(alloc: Global, wiring: &Wiring, fed: &[bool]) -> Result<Loop, NoMemory>
    requires fed { MarksFed wiring.now fed.now }
    requires some { Contains fed.now true }
    ensures { IfOk result (λ l. IsLoop wiring.now l.name l.length) }
{
    let mut met = no_steps(alloc, wiring.signals() as usize)?;
    let mut sig = least_marked(fed);
    let mut steps: u32 = 0;
    loop {
        let at = sig.0 as usize;
        if let Some(step) = met[at] {
            return Ok(Loop {
                name: sig,
                length: steps - step,
            });
        }
        met[at] = Some(steps);
        steps += 1;
        sig = next_marked(wiring, fed, sig);
    }
}

/// So many times no step.
fn no_steps(alloc: Global, count: usize) -> Result<Vec<Option<u32>>, NoMemory>
    ensures { IfOk result (λ steps. steps.items ≡ replicate count None) }
{
    vec![in alloc; None; count].map_err(|_| NoMemory)
}

/// The first signal with a mark.
fn least_marked(fed: &[bool]) -> Sig
    requires some { Contains fed.now true }
    requires few { length fed.now ≤ max_signals }
    ensures marked { slice_index_or fed.now result.0 false ≡ true }
    ensures least { (s : ℕ) → slice_index_or fed.now s false ≡ true → result.0 ≤ s }
{
    let place = fed.iter().position(|is_fed| *is_fed).unwrap();
    Sig(place as u32)
}

/// The first pin of a signal that has a mark.
fn next_marked(wiring: &Wiring, fed: &[bool], sig: Sig) -> Sig
    requires wired { IsWired wiring.now }
    requires fed { MarksFed wiring.now fed.now }
    requires marked { slice_index_or fed.now sig.0 false ≡ true }
    ensures next { IsNext wiring.now sig result }
    ensures marked { slice_index_or fed.now result.0 false ≡ true }
{
    let pins = wiring.pins_of(sig);
    pins[first_marked(fed, pins, 0)]
}
