//! From a number to what follows from a trace of the netlist that is drawn from it.
ghost use Rattle.std.specs.Prelude.{◌≡◌, ◌<◌, ◌/◌, ℕ, Bool, List, length, All, IfOk, None};
ghost use Rattle.sr_model.specs.Dump.{Row};
ghost use Rattle.netlist.specs.Circuit.{IsCircuit};
ghost use Rattle.netlist.specs.Wiring.{flip_flops};
ghost use Rattle.unroll.specs.Problem.{signals_in};
ghost use Rattle.cycle_sim.specs.Load.{IsLoadSize};
ghost use Rattle.restore_program.specs.Answer.{OnLoad};
ghost use Rattle.restore_program.specs.ReplyAnswers.{IsOfWords, Replies, fault_of};
ghost use Rattle.restore_program.specs.Loading.{AreCountsOf, IsLoadText, IsLoadTrace, load_circuit};
ghost use Rattle.restore_program.specs.Reply.{IsReady, loaded_line};

use crate::reply::{Loaded, Reply};
use cycle_sim::{load_netlist, simulate_trace, stimulus};
use dump_reader::Dump;
use known_planes::{Closer, seed};
use netlist::{NetRefusal, Netlist, build};
use ratio::Ratio;
use report::Refusal;
use sr_model::NoMemory;
use std::alloc::Global;
use std::thread::Threads;
use unroll::Problem;

/// How many cycles are simulated.
const CYCLES: u32 = 256;

/// What is written of the netlist of so many signals that is drawn from this number.
pub(crate) fn load_reply<R: Threads + Sync, C: Closer>(
    rt: &R,
    alloc: Global,
    closer: &mut C,
    number: u64,
    signals: u32,
) -> Reply
    requires { IsLoadSize signals }
    ensures answer { (words : List (List ℕ)) → Replies words (OnLoad number signals) result }
    ensures ready { (words : List (List ℕ)) → IsReady words result }
    ensures not_of_words { ¬ (IsOfWords result) }
    ensures no_fault { fault_of result ≡ None }
{
    match loaded_from(rt, alloc, closer, number, signals) {
        Ok(loaded) => Reply::Load { loaded },
        Err(NoMemory) => Reply::Refused {
            refusal: Refusal::NoMemory,
        },
    }
}

/// Builds the netlist, simulates it with the number as the seed, and closes the trace of the first quarter of its flip-flops.
fn loaded_from<R: Threads + Sync, C: Closer>(
    rt: &R,
    alloc: Global,
    closer: &mut C,
    number: u64,
    signals: u32,
) -> Result<Loaded, NoMemory>
    requires { IsLoadSize signals }
    ensures { IfOk result (λ loaded. IsLoadText number signals (loaded_line loaded)) }
{
    let n = drawn_netlist(alloc, number, signals)?;
    let trace = drawn_trace(alloc, &n, number)?;
    let ratio = counted(rt, alloc, closer, &Problem::new(&n, CYCLES), &trace)?;
    Ok(Loaded {
        number,
        signals,
        flip_flops: n.flip_flops().len() as u32,
        ratio,
    })
}

/// The netlist of so many signals that is drawn from the number.
fn drawn_netlist(alloc: Global, number: u64, signals: u32) -> Result<Netlist, NoMemory>
    requires { IsLoadSize signals }
    ensures circuit { IfOk result (λ n. n ≡ load_circuit number signals) }
    ensures signals { IfOk result (λ n. length n.drivers ≡ signals) }
    ensures flip_flops { IfOk result (λ n. length (flip_flops n.drivers) ≡ signals / 8) }
{
    let statements = load_netlist(alloc, number, signals)?;
    match build(alloc, statements) {
        Ok(n) => Ok(n),
        Err(NetRefusal::NoMemory) => Err(NoMemory),
        Err(_) => unreachable!(),
    }
}

/// The trace of the first quarter of the flip-flops, at least one, in the run that is drawn from the number.
fn drawn_trace(alloc: Global, n: &Netlist, number: u64) -> Result<Dump, NoMemory>
    requires { 0 < length (flip_flops n.now.drivers) }
    ensures cycles { IfOk result (λ d. d.cycles ≡ 256) }
    ensures rows { IfOk result (λ d. IsLoadTrace n.now number d.rows) }
    ensures signals { IfOk result (λ d. All (λ row. row.sig.0 < length n.now.drivers) d.rows) }
{
    let inputs = stimulus(alloc, n, number, CYCLES)?;
    let flip_flops = n.flip_flops();
    let count = (flip_flops.len() / 4).max(1);
    simulate_trace(alloc, n, &inputs, &flip_flops[..count])
}

/// How many flip-flop cells are known from the trace, and how many it gives.
fn counted<R: Threads + Sync, C: Closer>(
    rt: &R,
    alloc: Global,
    closer: &mut C,
    p: &Problem,
    trace: &Dump,
) -> Result<Ratio, NoMemory>
    requires load_cycles { p.now.cycles ≡ 256 }
    requires cycles { trace.now.cycles ≡ 256 }
    requires signals { All (λ row. row.sig.0 < signals_in p.now) trace.now.rows }
    ensures { IfOk result (AreCountsOf p.now.circuit trace.now.rows) }
{
    let base = seed(alloc, p, trace)?;
    let known = closer.close(rt, alloc, p, &base)?;
    Ok(Ratio::new(
        known.count_known_flip_flops(p),
        base.count_known_flip_flops(p),
    ))
}
