//! From a netlist to the dump of a simulated execution.
ghost use Rattle.std.specs.Prelude.{◌≡◌, ℕ, List, IfOk, IfSome, None};
ghost use Rattle.netlist.specs.Circuit.{IsCircuit};
ghost use Rattle.dump_reader.specs.Recording.{IsCount};
ghost use Rattle.restore_program.specs.Answer.{RequestAnswer};
ghost use Rattle.restore_program.specs.Faults.{IsComeTo};
ghost use Rattle.restore_program.specs.Reads.{Reads};
ghost use Rattle.restore_program.specs.ReplyAnswers.{Replies, fault_of};
ghost use Rattle.restore_program.specs.Reply.{IsReady};
ghost use Rattle.restore_program.specs.Requests.{files_of, simulation};
ghost use Rattle.restore_program.specs.TraceRefusals.{HasListAt, list_refusal};
ghost use Rattle.restore_program.specs.Tracing.{AreNamed, IsTraceText, OnTrace};

use crate::netlists::read_netlist;
use crate::reply::Reply;
use crate::status::Status;
use crate::trace::{TraceRefusal, traced_signals};
use cycle_sim::{simulate_trace, stimulus};
use dump_reader::print_dump;
use netlist::Netlist;
use report::Refusal;
use sr_model::{Bytes, MAX_BLOCKS, NoMemory, Sig, block_count};
use sr_outside::Inputs;
use std::alloc::Global;

/// What is written of this netlist over so many cycles from this seed, with a trace of the signals whose names the list has, which is that of the word at the place.
pub(crate) fn simulate_reply<I: Inputs>(
    alloc: Global,
    inputs: &mut I,
    netlist: &str,
    cycles: u32,
    seed: u64,
    place: u32,
    list: &str,
) -> Reply
    requires { IsCount cycles }
    ensures answer { (words : List (List ℕ)) → HasListAt words place list.now
        → IfSome (I.held inputs.old) (λ held. Replies words (RequestAnswer held (simulation netlist.now cycles seed list.now)) result) }
    ensures ready { (words : List (List ℕ)) → HasListAt words place list.now → IsReady words result }
    ensures reads { Reads I.held I.shaky I.faults inputs.old inputs.new (IsComeTo (I.held inputs.old) (files_of (simulation netlist.now cycles seed list.now))) (fault_of result) }
{
    match read_netlist(alloc, inputs, netlist) {
        Ok(n) => traced_reply(alloc, &n, cycles, seed, place, list),
        Err(reply) => reply,
    }
}

/// What is written of a netlist that was read.
fn traced_reply(alloc: Global, n: &Netlist, cycles: u32, seed: u64, place: u32, list: &str) -> Reply
    requires { IsCount cycles }
    ensures answer { (words : List (List ℕ)) → HasListAt words place list.now → Replies words (OnTrace n.now cycles seed list.now) result }
    ensures ready { (words : List (List ℕ)) → HasListAt words place list.now → IsReady words result }
    ensures no_fault { fault_of result ≡ None }
{
    let sigs = match traced_signals(alloc, n, list) {
        Ok(sigs) => sigs,
        Err(refusal) => {
            return Reply::Refused {
                refusal: list_refusal(refusal, place),
            };
        }
    };
    let product = block_count(n.signals(), cycles);
    if product > MAX_BLOCKS {
        return Reply::Refused {
            refusal: Refusal::CellsByWords { product },
        };
    }
    match trace_text(alloc, n, cycles, seed, sigs.as_slice()) {
        Ok(text) => Reply::Text {
            text,
            status: Status::Done,
        },
        Err(NoMemory) => Reply::Refused {
            refusal: Refusal::NoMemory,
        },
    }
}

/// The refusal of the list that the word at the place has.
fn list_refusal(refusal: TraceRefusal, place: u32) -> Refusal
    ensures { result ≡ list_refusal refusal place }
{
    match refusal {
        TraceRefusal::Unknown { item } => Refusal::TraceUnknown { place, item },
        TraceRefusal::Twice { item } => Refusal::TraceTwice { place, item },
        TraceRefusal::NoMemory => Refusal::NoMemory,
    }
}

/// The text of the dump of these signals.
fn trace_text(
    alloc: Global,
    n: &Netlist,
    cycles: u32,
    seed: u64,
    sigs: &[Sig],
) -> Result<Bytes, NoMemory>
    requires cycles { IsCount cycles }
    requires circuit { IsCircuit n.now }
    requires named { (names : List (List ℕ)) × AreNamed n.now names sigs.now }
    ensures { IfOk result (λ text. IsTraceText n.now seed cycles sigs.now text.items) }
{
    let inputs = stimulus(alloc, n, seed, cycles)?;
    let dump = simulate_trace(alloc, n, &inputs, sigs)?;
    print_dump(alloc, n, &dump)
}
