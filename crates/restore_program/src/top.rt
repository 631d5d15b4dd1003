//! The top call.
ghost use Rattle.std.specs.Prelude.{◌≡◌, ◌≢◌, ◌<◌, ◌⊎◌, List, ℕ, map, IfSome};
ghost use Rattle.std.specs.String.{string_bytes};
ghost use Rattle.std.specs.Io.KnownBytes.{append_known};
ghost use Rattle.sr_outside.specs.Counts.{IsCounted};
ghost use Rattle.sr_outside.specs.Told.{AppendsPart, Held, IsFull, LacksPlace};
ghost use Rattle.restore_program.specs.declared.status.Status.{Status as AnyStatus};
ghost use Rattle.restore_program.specs.Words.{Gives, IsCertify, IsCheck, IsRestore, IsSelect, IsSimulate, trace_rule};
ghost use Rattle.restore_program.specs.Faults.{AreRefused, AreSteady, IsFileOf, NeedsNoInput, TellsEnough};
ghost use Rattle.restore_program.specs.ReplyAnswers.{IsOfWords, ReplyAnswer, fault_of};
ghost use Rattle.restore_program.specs.Reads.{Reads};
ghost use Rattle.restore_program.specs.Requests.{Asks, Request};
ghost use Rattle.restore_program.specs.Says.{Says};
ghost use Rattle.restore_program.specs.Status.{IsPlain};
ghost use Rattle.restore_program.specs.Reply.{HasBuffer, IsReady, IsResult, status_of};
ghost use Rattle.restore_program.specs.Sound.{IsAccepted, IsCompleted, IsDumpAgain, IsSoundCheck, IsSoundTable, IsValidCertificate, NoneMatches};

use crate::certify::certify_reply;
use crate::check::check_reply;
use crate::load::load_reply;
use crate::print::print_reply;
use crate::reply::{Prepared, Reply, prepare, reply_status, write_reply};
use crate::restore::restore_reply;
use crate::select::select_reply;
use crate::simulate::simulate_reply;
use crate::status::Status;
use crate::word_keys::value_of;
use crate::word_rules::TRACE;
use crate::words::{Settings, read_words};
use known_planes::Closer;
use plain_close::PlainCloser;
use report::Refusal;
use sr_outside::{Inputs, Sink, WriteFault};
use std::alloc::Global;
use std::thread::Threads;

/// Runs the command that the words ask for: reads its files by the inputs, and writes its result, or why there is none, to the sink.
/// It always returns.
pub fn run<R: Threads + Sync, I: Inputs, K: Sink>(
    rt: &R,
    alloc: Global,
    words: &[String],
    inputs: &mut I,
    out: &mut K,
) -> Status
    // Unless writing fails, a whole text is appended. Where the inputs tell what they hold, and where the words need none of them, it and the status are
    // the answer. What says that an input was not read says which.
    ensures answer { result ≢ Status.WriteFault → (text : List ℕ) × (K.written out.new ≡ append_known (K.written out.old) text)
        × Says (map string_bytes words.now) (I.held inputs.old) (I.shaky inputs.old) text result }

    // The table is that of the least set of literals above the dump that is closed under the one-gate rules, and each bit of its rows is that of every execution
    // that matches the dump.
    ensures sound { result ≡ Status.Done → IsRestore (map string_bytes words.now) → (text : List ℕ) × (K.written out.new ≡ append_known (K.written out.old) text)
        × IfSome (I.held inputs.old) (IsSoundTable (map string_bytes words.now) text) }

    // It is itself a dump of the netlist, and the table of that dump has the same rows.
    ensures again { result ≡ Status.Done → IsRestore (map string_bytes words.now) → (text : List ℕ) × (K.written out.new ≡ append_known (K.written out.old) text)
        × IfSome (I.held inputs.old) (IsDumpAgain (map string_bytes words.now) text) }

    // A contradiction is written only where no execution matches the dump.
    ensures contradiction { result ≡ Status.Contradiction → IfSome (I.held inputs.old) (NoneMatches (map string_bytes words.now)) }

    // What is certified is a valid certificate for the netlist and the dump.
    ensures certified { IsResult result → IsCertify (map string_bytes words.now) → (text : List ℕ) × (K.written out.new ≡ append_known (K.written out.old) text)
        × IfSome (I.held inputs.old) (IsValidCertificate (map string_bytes words.now) text) }

    // A certificate is accepted only where it is valid, and each of its facts is so in every execution that matches the dump.
    ensures checked { IsResult result → IsCheck (map string_bytes words.now) → (text : List ℕ) × (K.written out.new ≡ append_known (K.written out.old) text)
        × IfSome (I.held inputs.old) (IsSoundCheck (map string_bytes words.now) text) }

    // What is asked for is completed where its files are accepted, the width of a ranking, the names of a trace, and the cells of a run, unless memory, reading or
    // writing fails: with a table or a contradiction, the lines of the picks, the dump of the run, the text of the netlist, the line of a load, a certificate, or the
    // number of its facts.
    ensures completed { (held : Held) (request : Request) → TellsEnough (map string_bytes words.now) (I.held inputs.old) held → Asks (map string_bytes words.now) request
        → IsAccepted held request → IsPlain result → IsCompleted request result }

    // Words that are refused, and `load`, start no input. Behind a netlist only the width of a ranking and the names of a trace can be refused.
    ensures usage { result ≡ Status.Words → AreRefused (map string_bytes words.now) ⊎ IsSelect (map string_bytes words.now) ⊎ IsSimulate (map string_bytes words.now) }
    ensures refused { AreRefused (map string_bytes words.now) → (result ≡ Status.Words) ⊎ (result ≡ Status.WriteFault) }
    ensures untouched { NeedsNoInput (map string_bytes words.now) → inputs.new ≡ inputs.old }

    // A fault is answered only where one was counted.
    ensures read_fault { result ≡ Status.ReadFault → IsCounted (I.faults inputs.old) (I.faults inputs.new) }
    ensures read_rose { I.faults inputs.old < I.faults inputs.new → (result ≡ Status.ReadFault) ⊎ (result ≡ Status.WriteFault) }
    ensures steady { AreSteady (I.held inputs.old) (I.shaky inputs.old) (map string_bytes words.now) → I.faults inputs.new ≡ I.faults inputs.old }

    // A write fault is answered only where one was counted. Then a proper front of the text was appended, and where it is told there was no room for all.
    ensures write_fault { result ≡ Status.WriteFault → IsCounted (K.faults out.old) (K.faults out.new) }
    ensures write_rose { K.faults out.old < K.faults out.new → result ≡ Status.WriteFault }
    ensures part { result ≡ Status.WriteFault → (text : List ℕ) × (status : AnyStatus) × AppendsPart (K.written out.old) (K.written out.new) text
        × LacksPlace (K.written out.old) (K.room out.old) text × Says (map string_bytes words.now) (I.held inputs.old) (I.shaky inputs.old) text status }
    ensures full { result ≡ Status.WriteFault → IsFull (K.written out.new) (K.room out.new) }
    ensures room { K.room out.new ≡ K.room out.old }
{
    let Prepared { reply, mut buf } = prepared_reply(rt, alloc, words, inputs);
    let status = reply_status(&reply);
    match write_reply(&reply, &mut buf, words, out) {
        Ok(()) => status,
        Err(WriteFault) => Status::WriteFault,
    }
}

/// What is written of these words, with the memory that writing it takes.
fn prepared_reply<R: Threads + Sync, I: Inputs>(
    rt: &R,
    alloc: Global,
    words: &[String],
    inputs: &mut I,
) -> Prepared
    ensures answer { ReplyAnswer (map string_bytes words.now) (I.held inputs.old) result.reply }
    ensures ready { IsReady (map string_bytes words.now) result.reply }
    ensures buffer { HasBuffer result.reply result.buf }
    ensures of_words { IsOfWords result.reply → AreRefused (map string_bytes words.now) ⊎ IsSelect (map string_bytes words.now) ⊎ IsSimulate (map string_bytes words.now) }
    ensures refused { AreRefused (map string_bytes words.now) → status_of result.reply ≡ Status.Words }
    ensures untouched { NeedsNoInput (map string_bytes words.now) → inputs.new ≡ inputs.old }
    ensures reads { Reads I.held I.shaky I.faults inputs.old inputs.new (IsFileOf (map string_bytes words.now) (I.held inputs.old)) (fault_of result.reply) }
{
    let mut closer = PlainCloser::new();
    let reply = reply_to(rt, alloc, words, inputs, &mut closer);
    prepare(alloc, reply)
}

/// What is written of these words.
fn reply_to<R: Threads + Sync, I: Inputs, C: Closer>(
    rt: &R,
    alloc: Global,
    words: &[String],
    inputs: &mut I,
    closer: &mut C,
) -> Reply
    ensures answer { ReplyAnswer (map string_bytes words.now) (I.held inputs.old) result }
    ensures ready { IsReady (map string_bytes words.now) result }
    ensures of_words { IsOfWords result → AreRefused (map string_bytes words.now) ⊎ IsSelect (map string_bytes words.now) ⊎ IsSimulate (map string_bytes words.now) }
    ensures refused { AreRefused (map string_bytes words.now) → status_of result ≡ Status.Words }
    ensures untouched { NeedsNoInput (map string_bytes words.now) → inputs.new ≡ inputs.old }
    ensures reads { Reads I.held I.shaky I.faults inputs.old inputs.new (IsFileOf (map string_bytes words.now) (I.held inputs.old)) (fault_of result) }
{
    match read_words(words) {
        Ok(Settings::Restore { all }) => restore_reply(
            rt,
            alloc,
            inputs,
            closer,
            words[1].as_str(),
            words[2].as_str(),
            all,
        ),
        Ok(
            Settings::Select {
                width,
                cycles,
                seed,
            },
        ) => select_reply(
            rt,
            alloc,
            inputs,
            closer,
            words[1].as_str(),
            width,
            cycles,
            seed,
        ),
        Ok(
            Settings::Simulate {
                cycles,
                seed,
                trace,
            },
        ) => simulate_reply(
            alloc,
            inputs,
            words[1].as_str(),
            cycles,
            seed,
            trace,
            trace_list(words[trace as usize].as_str()),
        ),
        Ok(Settings::Print) => print_reply(alloc, inputs, words[1].as_str()),
        Ok(Settings::Load { number, signals }) => load_reply(rt, alloc, closer, number, signals),
        Ok(Settings::Certify) => {
            certify_reply(alloc, inputs, words[1].as_str(), words[2].as_str())
        }
        Ok(Settings::Check) => check_reply(
            alloc,
            inputs,
            words[1].as_str(),
            words[2].as_str(),
            words[3].as_str(),
        ),
        Err(refusal) => Reply::Refused {
            refusal: Refusal::Words(refusal),
        },
    }
}

/// The list of names that a word gives to the key `trace`.
fn trace_list(word: &str) -> &str
    requires { (list : List ℕ) × Gives word.now trace_rule.name list }
    ensures { Gives word.now trace_rule.name result.now }
{
    value_of(word, TRACE.name).unwrap()
}
