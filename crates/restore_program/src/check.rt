//! From a netlist, a dump and a certificate to whether it is accepted.
ghost use Rattle.std.specs.Prelude.{◌≡◌, ◌<◌, ◌≤◌, ℕ, List, length, All, IfSome, None};
ghost use Rattle.sr_model.specs.Limits.{block_count, max_blocks};
ghost use Rattle.report.specs.declared.refusal.Part.TheVariants as parts;
ghost use Rattle.restore_program.specs.Answer.{IsNetlistOf, OnCertificate, OnDump, RequestAnswer};
ghost use Rattle.restore_program.specs.Certifying.{OnCheck};
ghost use Rattle.restore_program.specs.Faults.{IsComeTo};
ghost use Rattle.restore_program.specs.Reads.{Reads};
ghost use Rattle.restore_program.specs.Reply.{IsReady};
ghost use Rattle.restore_program.specs.ReplyAnswers.{IsOfWords, Replies, fault_of};
ghost use Rattle.restore_program.specs.Requests.{checking, files_of};
ghost use Rattle.restore_program.specs.Texts.{most_bytes};

use crate::netlists::{most_bytes, read_netlist, unread};
use crate::recordings::read_recording;
use crate::reply::Reply;
use certificates::check_cert;
use dump_reader::Dump;
use netlist::Netlist;
use report::{Part, Refusal};
use sr_outside::{Inputs, read_whole};
use std::alloc::Global;

/// What is written of this netlist, this dump and this certificate.
pub(crate) fn check_reply<I: Inputs>(
    alloc: Global,
    inputs: &mut I,
    netlist: &str,
    dump: &str,
    certificate: &str,
) -> Reply
    ensures answer { (words : List (List ℕ)) → IfSome (I.held inputs.old) (λ held. Replies words (RequestAnswer held (checking netlist.now dump.now certificate.now)) result) }
    ensures ready { (words : List (List ℕ)) → IsReady words result }
    ensures not_of_words { ¬ (IsOfWords result) }
    ensures reads { Reads I.held I.shaky I.faults inputs.old inputs.new (IsComeTo (I.held inputs.old) (files_of (checking netlist.now dump.now certificate.now))) (fault_of result) }
{
    match read_netlist(alloc, inputs, netlist) {
        Ok(n) => checked_dump(alloc, inputs, n, dump, certificate),
        Err(reply) => reply,
    }
}

/// What is written of this dump of a netlist, and this certificate.
fn checked_dump<I: Inputs>(
    alloc: Global,
    inputs: &mut I,
    n: Netlist,
    dump: &str,
    certificate: &str,
) -> Reply
    ensures answer { (words : List (List ℕ)) → IfSome (I.held inputs.old) (λ held. Replies words (OnDump held dump.now n (OnCertificate held certificate.now n)) result) }
    ensures ready { (words : List (List ℕ)) → IsReady words result }
    ensures not_of_words { ¬ (IsOfWords result) }
    ensures reads { (netlist : List ℕ) → IfSome (I.held inputs.old) (λ held. IsNetlistOf held netlist n)
        → Reads I.held I.shaky I.faults inputs.old inputs.new (IsComeTo (I.held inputs.old) (files_of (checking netlist dump.now certificate.now))) (fault_of result) }
{
    match read_recording(alloc, inputs, &n, dump) {
        Ok(d) => checked_file(alloc, inputs, n, &d, certificate),
        Err(reply) => reply,
    }
}

/// What is written of this certificate of a dump.
fn checked_file<I: Inputs>(
    alloc: Global,
    inputs: &mut I,
    n: Netlist,
    d: &Dump,
    certificate: &str,
) -> Reply
    requires signals { All (λ row. row.sig.0 < length n.drivers) d.now.rows }
    requires few { block_count (length n.drivers) d.now.cycles ≤ max_blocks }
    ensures answer { (words : List (List ℕ)) → IfSome (I.held inputs.old) (λ held. Replies words (OnCertificate held certificate.now n d.now) result) }
    ensures ready { (words : List (List ℕ)) → IsReady words result }
    ensures not_of_words { ¬ (IsOfWords result) }
    ensures reads { Reads I.held I.shaky I.faults inputs.old inputs.new (λ file. file ≡ (parts.Certificate, certificate.now)) (fault_of result) }
{
    match read_whole(alloc, inputs, certificate, most_bytes(Part::Certificate)) {
        Ok(text) => checked_reply(alloc, n, d, text.as_slice()),
        Err(refusal) => Reply::Refused {
            refusal: unread(Part::Certificate, refusal),
        },
    }
}

/// What is written of a certificate's text.
fn checked_reply(alloc: Global, n: Netlist, d: &Dump, bytes: &[u8]) -> Reply
    requires short { length bytes.now ≤ most_bytes parts.Certificate }
    requires signals { All (λ row. row.sig.0 < length n.drivers) d.now.rows }
    requires few { block_count (length n.drivers) d.now.cycles ≤ max_blocks }
    ensures answer { (words : List (List ℕ)) → Replies words (OnCheck n d.now bytes.now) result }
    ensures ready { (words : List (List ℕ)) → IsReady words result }
    ensures not_of_words { ¬ (IsOfWords result) }
    ensures no_fault { fault_of result ≡ None }
{
    match check_cert(alloc, &n, d, bytes) {
        Ok(facts) => Reply::Checked {
            netlist: n,
            facts: facts.lits.len() as u64,
            clash: facts.clash,
        },
        Err(refusal) => Reply::Refused {
            refusal: Refusal::Cert(refusal),
        },
    }
}
