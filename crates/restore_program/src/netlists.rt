//! From the name of a netlist to the netlist.
ghost use Rattle.std.specs.Prelude.{All, ◌≡◌, ◌≤◌, List, ◌∷◌, ℕ, length, IfOk, IfErr, IfSome, None};
ghost use Rattle.sr_model.specs.Declaration.{declared, declarations_of};
ghost use Rattle.netlist.specs.Numbering.{IsStatement};
ghost use Rattle.bench_reader.specs.Grammar.{Spells};
ghost use Rattle.bench_reader.specs.Refusal.{IsRefusal};
ghost use Rattle.report.specs.declared.refusal.Part.TheVariants as parts;
ghost use Rattle.restore_program.specs.Reply.{IsReady};
ghost use Rattle.restore_program.specs.Texts.{most_bytes, IsNetlistText, RefusedNetlist};
ghost use Rattle.restore_program.specs.Answer.{IsNetlistOf, OnRefused};
ghost use Rattle.restore_program.specs.Faults.{IsComeTo};
ghost use Rattle.restore_program.specs.Reads.{Reads};
ghost use Rattle.restore_program.specs.ReplyAnswers.{IsOfWords, Replies, fault_in, unread_refusal};
ghost use Rattle.restore_program.specs.Requests.{File};

use crate::reply::Reply;
use bench_reader::{BenchRefusal, read_bench};
use netlist::{Netlist, build};
use report::{Part, Refusal};
use sr_model::{Bytes, Statements};
use sr_outside::{Inputs, ReadRefusal, read_whole};
use std::alloc::Global;

/// Bytes of a netlist or a dump.
const MAX_BYTES: u64 = 16_777_216;

/// Bytes of a certificate.
const MAX_CERTIFICATE_BYTES: u64 = 268_435_456;

/// The most bytes of an input.
pub(crate) fn most_bytes(part: Part) -> u64
    ensures { result ≡ most_bytes part }
{
    match part {
        Part::Netlist | Part::Dump => MAX_BYTES,
        Part::Certificate => MAX_CERTIFICATE_BYTES,
    }
}

/// The netlist of this name, or what is written in its place.
pub(crate) fn read_netlist<I: Inputs>(
    alloc: Global,
    inputs: &mut I,
    name: &str,
) -> Result<Netlist, Reply>
    ensures netlist { IfOk result (λ n. IfSome (I.held inputs.old) (λ held. IsNetlistOf held name.now n)) }
    ensures refused { IfErr result (λ reply. (words : List (List ℕ)) → IfSome (I.held inputs.old) (λ held. Replies words (OnRefused held name.now) reply)) }
    ensures ready { IfErr result (λ reply. (words : List (List ℕ)) → IsReady words reply) }
    ensures not_of_words { IfErr result (λ reply. ¬ (IsOfWords reply)) }
    ensures reads { (behind : List File) → Reads I.held I.shaky I.faults inputs.old inputs.new (IsComeTo (I.held inputs.old) ((parts.Netlist, name.now) ∷ behind)) (fault_in result) }
{
    match read_whole(alloc, inputs, name, most_bytes(Part::Netlist)) {
        Ok(text) => parse_netlist(alloc, text),
        Err(refusal) => Err(Reply::Refused {
            refusal: unread(Part::Netlist, refusal),
        }),
    }
}

/// What is written of an input that was not read.
pub(crate) fn unread(part: Part, refusal: ReadRefusal) -> Refusal
    ensures { result ≡ unread_refusal part refusal }
{
    match refusal {
        ReadRefusal::Fault => Refusal::Fault(part),
        ReadRefusal::TooLong => Refusal::TooLong(part),
        ReadRefusal::NoMemory => Refusal::NoMemory,
    }
}

/// The netlist of a text, or what is written in its place. The text's memory is given back before the netlist is built.
fn parse_netlist(alloc: Global, text: Bytes) -> Result<Netlist, Reply>
    requires short { length text.items ≤ most_bytes parts.Netlist }
    ensures netlist { IfOk result (IsNetlistText text.items) }
    ensures refused { IfErr result (λ reply. (words : List (List ℕ)) → Replies words (RefusedNetlist text.items) reply) }
    ensures ready { IfErr result (λ reply. (words : List (List ℕ)) → IsReady words reply) }
    ensures not_of_words { IfErr result (λ reply. ¬ (IsOfWords reply)) }
    ensures no_fault { fault_in result ≡ None }
{
    let statements = match read_statements(alloc, text) {
        Ok(statements) => statements,
        Err(refusal) => {
            return Err(Reply::Refused {
                refusal: Refusal::Bench(refusal),
            });
        }
    };
    match build(alloc, statements) {
        Ok(netlist) => Ok(netlist),
        Err(refusal) => Err(Reply::Refused {
            refusal: Refusal::Net(refusal),
        }),
    }
}

/// The statements of a text, which is not kept.
fn read_statements(alloc: Global, text: Bytes) -> Result<Statements, BenchRefusal>
    ensures statements { IfOk result (λ s. Spells text.items (declarations_of s)) }
    ensures each { IfOk result (λ s. All IsStatement (declared s)) }
    ensures refusal { IfErr result (IsRefusal text.items) }
{
    read_bench(alloc, text.as_slice())
}
