//! From a netlist to its text.
ghost use Rattle.std.specs.Prelude.{◌≡◌, ℕ, List, IfSome, None};
ghost use Rattle.restore_program.specs.Answer.{OnPrint, RequestAnswer};
ghost use Rattle.restore_program.specs.Faults.{IsComeTo};
ghost use Rattle.restore_program.specs.Reads.{Reads};
ghost use Rattle.restore_program.specs.ReplyAnswers.{IsOfWords, Replies, fault_of};
ghost use Rattle.restore_program.specs.Reply.{IsReady};
ghost use Rattle.restore_program.specs.Requests.{files_of, printing};

use crate::netlists::read_netlist;
use crate::reply::Reply;
use crate::status::Status;
use bench_reader::print_bench;
use netlist::Netlist;
use report::Refusal;
use sr_model::NoMemory;
use sr_outside::Inputs;
use std::alloc::Global;

/// What is written of this netlist.
pub(crate) fn print_reply<I: Inputs>(alloc: Global, inputs: &mut I, netlist: &str) -> Reply
    ensures answer { (words : List (List ℕ)) → IfSome (I.held inputs.old) (λ held. Replies words (RequestAnswer held (printing netlist.now)) result) }
    ensures ready { (words : List (List ℕ)) → IsReady words result }
    ensures not_of_words { ¬ (IsOfWords result) }
    ensures reads { Reads I.held I.shaky I.faults inputs.old inputs.new (IsComeTo (I.held inputs.old) (files_of (printing netlist.now))) (fault_of result) }
{
    match read_netlist(alloc, inputs, netlist) {
        Ok(n) => printed_reply(alloc, &n),
        Err(reply) => reply,
    }
}

/// The text of a netlist that was read.
fn printed_reply(alloc: Global, n: &Netlist) -> Reply
    ensures answer { (words : List (List ℕ)) → Replies words (OnPrint n.now) result }
    ensures ready { (words : List (List ℕ)) → IsReady words result }
    ensures not_of_words { ¬ (IsOfWords result) }
    ensures no_fault { fault_of result ≡ None }
{
    match print_bench(alloc, n) {
        Ok(text) => Reply::Text {
            text,
            status: Status::Done,
        },
        Err(NoMemory) => Reply::Refused {
            refusal: Refusal::NoMemory,
        },
    }
}
