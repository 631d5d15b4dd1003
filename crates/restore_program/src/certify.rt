//! From a netlist and a dump to a certificate of what follows.
ghost use Rattle.std.specs.Prelude.{◌≡◌, ◌<◌, ◌≤◌, ℕ, List, length, All, IfOk, IfSome, None};
ghost use Rattle.sr_model.specs.Limits.{block_count, max_blocks};
ghost use Rattle.netlist.specs.Circuit.{IsCircuit};
ghost use Rattle.certificates.specs.Logs.{IsClashIn, IsStepIn};
ghost use Rattle.report.specs.declared.refusal.Part.TheVariants as parts;
ghost use Rattle.restore_program.specs.Answer.{OnDump, RequestAnswer};
ghost use Rattle.restore_program.specs.Certifying.{IsLogOf, OnCertify};
ghost use Rattle.restore_program.specs.Faults.{IsComeTo};
ghost use Rattle.restore_program.specs.Reads.{Reads};
ghost use Rattle.restore_program.specs.Reply.{IsReady};
ghost use Rattle.restore_program.specs.ReplyAnswers.{IsOfWords, Replies, fault_of};
ghost use Rattle.restore_program.specs.Requests.{certification, files_of};

use crate::netlists::read_netlist;
use crate::recordings::read_recording;
use crate::reply::Reply;
use dump_reader::Dump;
use known_planes::seed;
use netlist::Netlist;
use plain_close::{Log, derive_log};
use report::Refusal;
use sr_model::NoMemory;
use sr_outside::Inputs;
use std::alloc::Global;
use unroll::Problem;

/// What is written of this netlist and this dump.
pub(crate) fn certify_reply<I: Inputs>(
    alloc: Global,
    inputs: &mut I,
    netlist: &str,
    dump: &str,
) -> Reply
    ensures answer { (words : List (List ℕ)) → IfSome (I.held inputs.old) (λ held. Replies words (RequestAnswer held (certification netlist.now dump.now)) result) }
    ensures ready { (words : List (List ℕ)) → IsReady words result }
    ensures not_of_words { ¬ (IsOfWords result) }
    ensures reads { Reads I.held I.shaky I.faults inputs.old inputs.new (IsComeTo (I.held inputs.old) (files_of (certification netlist.now dump.now))) (fault_of result) }
{
    match read_netlist(alloc, inputs, netlist) {
        Ok(n) => certified_dump(alloc, inputs, n, dump),
        Err(reply) => reply,
    }
}

/// What is written of this dump of a netlist.
fn certified_dump<I: Inputs>(alloc: Global, inputs: &mut I, n: Netlist, dump: &str) -> Reply
    ensures answer { (words : List (List ℕ)) → IfSome (I.held inputs.old) (λ held. Replies words (OnDump held dump.now n (OnCertify n)) result) }
    ensures ready { (words : List (List ℕ)) → IsReady words result }
    ensures not_of_words { ¬ (IsOfWords result) }
    ensures reads { Reads I.held I.shaky I.faults inputs.old inputs.new (λ file. file ≡ (parts.Dump, dump.now)) (fault_of result) }
{
    match read_recording(alloc, inputs, &n, dump) {
        Ok(d) => certified_reply(alloc, n, &d),
        Err(reply) => reply,
    }
}

/// What is written of a dump that was read.
fn certified_reply(alloc: Global, n: Netlist, d: &Dump) -> Reply
    requires signals { All (λ row. row.sig.0 < length n.drivers) d.now.rows }
    requires few { block_count (length n.drivers) d.now.cycles ≤ max_blocks }
    ensures answer { (words : List (List ℕ)) → Replies words (OnCertify n d.now) result }
    ensures ready { (words : List (List ℕ)) → IsReady words result }
    ensures not_of_words { ¬ (IsOfWords result) }
    ensures no_fault { fault_of result ≡ None }
{
    match log_of(alloc, &n, d) {
        Ok(log) => Reply::Certificate { netlist: n, log },
        Err(NoMemory) => Reply::Refused {
            refusal: Refusal::NoMemory,
        },
    }
}

/// The log of what follows from a dump of the netlist.
fn log_of(alloc: Global, n: &Netlist, d: &Dump) -> Result<Log, NoMemory>
    requires circuit { IsCircuit n.now }
    requires signals { All (λ row. row.sig.0 < length n.now.drivers) d.now.rows }
    requires few { block_count (length n.now.drivers) d.now.cycles ≤ max_blocks }
    ensures log { IfOk result (λ log. IsLogOf n.now d.now log.steps.items log.clash) }
    ensures steps { IfOk result (λ log. All (IsStepIn (length n.now.drivers)) log.steps.items) }
    ensures clash { IfOk result (λ log. IsClashIn (length n.now.drivers) log.clash) }
{
    let p = Problem::new(n, d.cycles());
    let base = seed(alloc, &p, d)?;
    derive_log(alloc, &p, &base)
}
