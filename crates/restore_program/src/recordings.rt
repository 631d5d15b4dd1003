//! From the name of a dump to its recording.
ghost use Rattle.std.specs.Prelude.{All, ◌≡◌, ◌<◌, ◌≤◌, List, ℕ, length, IfOk, IfErr, IfSome, None};
ghost use Rattle.sr_model.specs.Limits.{block_count, max_blocks};
ghost use Rattle.report.specs.declared.refusal.Part.TheVariants as parts;
ghost use Rattle.restore_program.specs.Answer.{IsDumpOf, OnRefusedDump};
ghost use Rattle.restore_program.specs.Reads.{Reads};
ghost use Rattle.restore_program.specs.Reply.{IsReady};
ghost use Rattle.restore_program.specs.ReplyAnswers.{IsOfWords, Replies, fault_in};
ghost use Rattle.restore_program.specs.Texts.{IsDumpText, RefusedDump, most_bytes};

use crate::netlists::{most_bytes, unread};
use crate::reply::Reply;
use dump_reader::{Dump, read_dump};
use netlist::Netlist;
use report::{Part, Refusal};
use sr_model::Bytes;
use sr_outside::{Inputs, read_whole};
use std::alloc::Global;

/// The dump of this name, of a netlist, or what is written in its place.
pub(crate) fn read_recording<I: Inputs>(
    alloc: Global,
    inputs: &mut I,
    n: &Netlist,
    name: &str,
) -> Result<Dump, Reply>
    ensures dump { IfOk result (λ d. IfSome (I.held inputs.old) (λ held. IsDumpOf held name.now n.now d)) }
    ensures signals { IfOk result (λ d. All (λ row. row.sig.0 < length n.now.drivers) d.rows) }
    ensures few { IfOk result (λ d. block_count (length n.now.drivers) d.cycles ≤ max_blocks) }
    ensures refused { IfErr result (λ reply. (words : List (List ℕ)) → IfSome (I.held inputs.old) (λ held. Replies words (OnRefusedDump held name.now n.now) reply)) }
    ensures ready { IfErr result (λ reply. (words : List (List ℕ)) → IsReady words reply) }
    ensures not_of_words { IfErr result (λ reply. ¬ (IsOfWords reply)) }
    ensures reads { Reads I.held I.shaky I.faults inputs.old inputs.new (λ file. file ≡ (parts.Dump, name.now)) (fault_in result) }
{
    match read_whole(alloc, inputs, name, most_bytes(Part::Dump)) {
        Ok(text) => parse_dump(alloc, n, text),
        Err(refusal) => Err(Reply::Refused {
            refusal: unread(Part::Dump, refusal),
        }),
    }
}

/// The dump of a text, which is not kept, or what is written in its place.
fn parse_dump(alloc: Global, n: &Netlist, text: Bytes) -> Result<Dump, Reply>
    requires short { length text.items ≤ most_bytes parts.Dump }
    ensures dump { IfOk result (λ d. IsDumpText n.now text.items d) }
    ensures signals { IfOk result (λ d. All (λ row. row.sig.0 < length n.now.drivers) d.rows) }
    ensures few { IfOk result (λ d. block_count (length n.now.drivers) d.cycles ≤ max_blocks) }
    ensures refused { IfErr result (λ reply. (words : List (List ℕ)) → Replies words (RefusedDump n.now text.items) reply) }
    ensures ready { IfErr result (λ reply. (words : List (List ℕ)) → IsReady words reply) }
    ensures not_of_words { IfErr result (λ reply. ¬ (IsOfWords reply)) }
    ensures no_fault { fault_in result ≡ None }
{
    match read_dump(alloc, n, text.as_slice()) {
        Ok(dump) => Ok(dump),
        Err(refusal) => Err(Reply::Refused {
            refusal: Refusal::Dumped(refusal),
        }),
    }
}
