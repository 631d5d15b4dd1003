//! From a netlist to the ranking of its flip-flops.
ghost use Rattle.std.specs.Prelude.{◌≡◌, ◌<◌, ◌≤◌, ℕ, All, List, length, IfOk, IfSome, IsNone, None};
ghost use Rattle.sr_model.specs.Limits.{block_count, max_blocks};
ghost use Rattle.netlist.specs.Circuit.{IsCircuit};
ghost use Rattle.dump_reader.specs.Recording.{IsCount};
ghost use Rattle.report.specs.Picks.{pick_lines};
ghost use Rattle.restore_program.specs.Answer.{RequestAnswer};
ghost use Rattle.restore_program.specs.Faults.{IsComeTo};
ghost use Rattle.restore_program.specs.Reads.{Reads};
ghost use Rattle.restore_program.specs.ReplyAnswers.{Replies, fault_of};
ghost use Rattle.restore_program.specs.Reply.{IsReady};
ghost use Rattle.restore_program.specs.Requests.{files_of, selection};
ghost use Rattle.restore_program.specs.Selecting.{HasWidth, IsRankingText, OnSelect};

use crate::netlists::read_netlist;
use crate::reply::{Ranked, Reply};
use cycle_sim::{simulate, stimulus};
use greedy_select::{Picks, select};
use known_planes::Closer;
use netlist::Netlist;
use report::Refusal;
use sr_model::{MAX_BLOCKS, NoMemory, block_count};
use sr_outside::Inputs;
use std::alloc::Global;
use std::thread::Threads;

/// What is written of so many flip-flops of this netlist, picked by a run over so many cycles from this seed.
pub(crate) fn select_reply<R: Threads + Sync, I: Inputs, C: Closer>(
    rt: &R,
    alloc: Global,
    inputs: &mut I,
    closer: &mut C,
    netlist: &str,
    width: u32,
    cycles: u32,
    seed: u64,
) -> Reply
    requires { IsCount cycles }
    ensures answer { (words : List (List ℕ)) → IfSome (I.held inputs.old) (λ held. Replies words (RequestAnswer held (selection netlist.now width cycles seed)) result) }
    ensures ready { (words : List (List ℕ)) → IsReady words result }
    ensures reads { Reads I.held I.shaky I.faults inputs.old inputs.new (IsComeTo (I.held inputs.old) (files_of (selection netlist.now width cycles seed))) (fault_of result) }
{
    match read_netlist(alloc, inputs, netlist) {
        Ok(n) => ranked_reply(rt, alloc, closer, n, width, cycles, seed),
        Err(reply) => reply,
    }
}

/// What is written of a netlist that was read.
fn ranked_reply<R: Threads + Sync, C: Closer>(
    rt: &R,
    alloc: Global,
    closer: &mut C,
    n: Netlist,
    width: u32,
    cycles: u32,
    seed: u64,
) -> Reply
    requires { IsCount cycles }
    ensures answer { (words : List (List ℕ)) → Replies words (OnSelect n width cycles seed) result }
    ensures ready { (words : List (List ℕ)) → IsReady words result }
    ensures no_fault { fault_of result ≡ None }
{
    if let Some(refusal) = refused_request(&n, width, cycles) {
        return Reply::Refused { refusal };
    }
    match picks_of(rt, alloc, closer, &n, width, cycles, seed) {
        Ok(picks) => Reply::Ranking {
            ranked: Ranked { netlist: n, picks },
        },
        Err(NoMemory) => Reply::Refused {
            refusal: Refusal::NoMemory,
        },
    }
}

/// Why so many flip-flops of a netlist are not picked by a run over so many cycles, if so.
fn refused_request(n: &Netlist, width: u32, cycles: u32) -> Option<Refusal>
    ensures refused { IfSome result (λ refusal. (words : List (List ℕ)) (seed : ℕ) → Replies words (OnSelect n.now width cycles seed) (Reply.Refused refusal)) }
    ensures ready { IfSome result (λ refusal. (words : List (List ℕ)) → IsReady words (Reply.Refused refusal)) }
    ensures no_fault { IfSome result (λ refusal. fault_of (Reply.Refused refusal) ≡ None) }
    ensures width { IsNone result → HasWidth n.now width }
    ensures cells { IsNone result → block_count (length n.now.drivers) cycles ≤ max_blocks }
{
    let flip_flops = n.flip_flops().len();
    if width as usize > flip_flops {
        return Some(Refusal::WidthOver {
            flip_flops: flip_flops as u32,
        });
    }
    let product = block_count(n.signals(), cycles);
    if product > MAX_BLOCKS {
        return Some(Refusal::CellsByWords { product });
    }
    None
}

/// The picks by the run that is drawn from the seed.
fn picks_of<R: Threads + Sync, C: Closer>(
    rt: &R,
    alloc: Global,
    closer: &mut C,
    n: &Netlist,
    width: u32,
    cycles: u32,
    seed: u64,
) -> Result<Picks, NoMemory>
    requires cycles { IsCount cycles }
    requires circuit { IsCircuit n.now }
    requires width { HasWidth n.now width }
    requires cells { block_count (length n.now.drivers) cycles ≤ max_blocks }
    ensures text { IfOk result (λ picks. IsRankingText n.now width cycles seed (pick_lines n.now.names picks.items)) }
    ensures signals { IfOk result (λ picks. All (λ pick. pick.sig.0 < length n.now.drivers) picks.items) }
{
    let inputs = stimulus(alloc, n, seed, cycles)?;
    let execution = simulate(alloc, n, &inputs)?;
    select(rt, alloc, n, &execution, width, closer)
}
