//! From a netlist and a dump to what is known.
ghost use Rattle.std.specs.Prelude.{◌≡◌, ◌<◌, ◌≤◌, ℕ, List, length, All, IfOk, IfSome, IsNone, None};
ghost use Rattle.sr_model.specs.declared.cells.Cell.{Cell as AnyCell};
ghost use Rattle.sr_model.specs.Closure.{Closure, HasBoth, SameLits};
ghost use Rattle.sr_model.specs.Dump.{Known};
ghost use Rattle.report.specs.declared.refusal.Part.TheVariants as parts;
ghost use Rattle.sr_model.specs.Limits.{block_count, max_blocks};
ghost use Rattle.unroll.specs.Problem.{signals_in, unrolled};
ghost use Rattle.known_planes.specs.Planes.{IsOf, lits};
ghost use Rattle.restore_program.specs.Answer.{OnDump, OnRecording, RequestAnswer};
ghost use Rattle.restore_program.specs.Faults.{IsComeTo};
ghost use Rattle.restore_program.specs.Reads.{Reads};
ghost use Rattle.restore_program.specs.ReplyAnswers.{IsOfWords, Replies, fault_of};
ghost use Rattle.restore_program.specs.Outcome.{IsKnown, IsOutcome, IsTraced};
ghost use Rattle.restore_program.specs.Reply.{IsReady};
ghost use Rattle.restore_program.specs.Requests.{files_of, restoration};

use crate::netlists::read_netlist;
use crate::recordings::read_recording;
use crate::reply::{Reply, Table};
use dump_reader::Dump;
use known_planes::{Closer, Planes, seed};
use netlist::Netlist;
use plain_close::first_clash;
use report::Refusal;
use sr_model::{Cell, NoMemory};
use sr_outside::Inputs;
use std::alloc::Global;
use std::thread::Threads;
use unroll::Problem;

/// What is written of this netlist and this dump, with the rows of all signals or of the flip-flops alone.
pub(crate) fn restore_reply<R: Threads + Sync, I: Inputs, C: Closer>(
    rt: &R,
    alloc: Global,
    inputs: &mut I,
    closer: &mut C,
    netlist: &str,
    dump: &str,
    all: bool,
) -> Reply
    ensures answer { (words : List (List ℕ)) → IfSome (I.held inputs.old) (λ held. Replies words (RequestAnswer held (restoration netlist.now dump.now all)) result) }
    ensures ready { (words : List (List ℕ)) → IsReady words result }
    ensures not_of_words { ¬ (IsOfWords result) }
    ensures reads { Reads I.held I.shaky I.faults inputs.old inputs.new (IsComeTo (I.held inputs.old) (files_of (restoration netlist.now dump.now all))) (fault_of result) }
{
    match read_netlist(alloc, inputs, netlist) {
        Ok(n) => dump_reply(rt, alloc, inputs, closer, n, dump, all),
        Err(reply) => reply,
    }
}

/// What is written of this dump of a netlist.
fn dump_reply<R: Threads + Sync, I: Inputs, C: Closer>(
    rt: &R,
    alloc: Global,
    inputs: &mut I,
    closer: &mut C,
    n: Netlist,
    dump: &str,
    all: bool,
) -> Reply
    ensures answer { (words : List (List ℕ)) → IfSome (I.held inputs.old) (λ held. Replies words (OnDump held dump.now n (λ d. OnRecording n d all)) result) }
    ensures ready { (words : List (List ℕ)) → IsReady words result }
    ensures not_of_words { ¬ (IsOfWords result) }
    ensures reads { Reads I.held I.shaky I.faults inputs.old inputs.new (λ file. file ≡ (parts.Dump, dump.now)) (fault_of result) }
{
    match read_recording(alloc, inputs, &n, dump) {
        Ok(d) => recorded_reply(rt, alloc, closer, n, &d, all),
        Err(reply) => reply,
    }
}

/// What is written of a dump that was read.
fn recorded_reply<R: Threads + Sync, C: Closer>(
    rt: &R,
    alloc: Global,
    closer: &mut C,
    n: Netlist,
    dump: &Dump,
    all: bool,
) -> Reply
    requires signals { All (λ row. row.sig.0 < length n.drivers) dump.now.rows }
    requires few { block_count (length n.drivers) dump.now.cycles ≤ max_blocks }
    ensures answer { (words : List (List ℕ)) → Replies words (OnRecording n dump.now all) result }
    ensures ready { (words : List (List ℕ)) → IsReady words result }
    ensures not_of_words { ¬ (IsOfWords result) }
    ensures no_fault { fault_of result ≡ None }
{
    match outcome_of(rt, alloc, closer, &Problem::new(&n, dump.cycles()), dump) {
        Ok(outcome) => outcome_reply(n, dump, all, outcome),
        Err(NoMemory) => Reply::Refused {
            refusal: Refusal::NoMemory,
        },
    }
}

/// What follows from a dump.
#[derive(Drop)]
pub(crate) enum Outcome {
    /// What is known, and how many cells of flip-flops were traced.
    Known { planes: Planes, traced: u64 },
    /// Both literals of a cell: the least one, in the first level that has one.
    Clash { cell: Cell },
}

/// What follows from a dump of the netlist over its cycles.
fn outcome_of<R: Threads + Sync, C: Closer>(
    rt: &R,
    alloc: Global,
    closer: &mut C,
    p: &Problem,
    dump: &Dump,
) -> Result<Outcome, NoMemory>
    requires cycles { dump.now.cycles ≡ p.now.cycles }
    requires signals { All (λ row. row.sig.0 < signals_in p.now) dump.now.rows }
    ensures { IfOk result (IsOutcome p.now dump.now.rows) }
{
    let base = seed(alloc, p, dump)?;
    let traced = base.count_known_flip_flops(p);
    match known_from(rt, alloc, closer, p, base)? {
        Some(planes) => Ok(Outcome::Known { planes, traced }),
        None => clash_from(alloc, p, dump),
    }
}

/// The closure of a base, or None where that has both literals of a cell. Then it may be left unfinished.
fn known_from<R: Threads + Sync, C: Closer>(
    rt: &R,
    alloc: Global,
    closer: &mut C,
    p: &Problem,
    base: Planes,
) -> Result<Option<Planes>, NoMemory>
    requires { IsOf p.now base }
    ensures of { IfOk result (λ found. IfSome found (IsOf p.now)) }
    ensures closure { IfOk result (λ found. IfSome found (λ planes. SameLits (lits p.now planes) (Closure (unrolled p.now) (lits p.now base)))) }
    ensures no_clash { IfOk result (λ found. IfSome found (λ planes. (c : AnyCell) → HasBoth (lits p.now planes) c → ⊥)) }
    ensures none { IfOk result (λ found. IsNone found → (c : AnyCell) × HasBoth (Closure (unrolled p.now) (lits p.now base)) c) }
{
    let planes = closer.close_until_clash(rt, alloc, p, base)?;
    match planes.clash(p) {
        None => Ok(Some(planes)),
        Some(_) => Ok(None),
    }
}

/// The contradiction of a dump from which one follows. The closer took the dump's first planes, so they are made again.
fn clash_from(alloc: Global, p: &Problem, dump: &Dump) -> Result<Outcome, NoMemory>
    requires cycles { dump.now.cycles ≡ p.now.cycles }
    requires signals { All (λ row. row.sig.0 < signals_in p.now) dump.now.rows }
    requires some { (c : AnyCell) × HasBoth (Known (unrolled p.now) dump.now.rows) c }
    ensures { IfOk result (IsOutcome p.now dump.now.rows) }
{
    let base = seed(alloc, p, dump)?;
    match first_clash(alloc, p, &base)? {
        Some(clash) => Ok(Outcome::Clash { cell: clash.cell }),
        None => unreachable!(),
    }
}

/// What is written of what follows from a dump.
fn outcome_reply(netlist: Netlist, dump: &Dump, all: bool, outcome: Outcome) -> Reply
    requires few { block_count (length netlist.drivers) dump.now.cycles ≤ max_blocks }
    requires outcome { IsOutcome (record { circuit = netlist; cycles = dump.now.cycles }) dump.now.rows outcome }
    ensures answer { (words : List (List ℕ)) → Replies words (OnRecording netlist dump.now all) result }
    ensures ready { (words : List (List ℕ)) → IsReady words result }
    ensures not_of_words { ¬ (IsOfWords result) }
    ensures no_fault { fault_of result ≡ None }
{
    match outcome {
        Outcome::Known { planes, traced } => known_reply(netlist, dump, all, planes, traced),
        Outcome::Clash { cell } => Reply::Clash { netlist, cell },
    }
}

/// What is written of what is known.
fn known_reply(netlist: Netlist, dump: &Dump, all: bool, planes: Planes, traced: u64) -> Reply
    requires few { block_count (length netlist.drivers) dump.now.cycles ≤ max_blocks }
    requires known { IsKnown (record { circuit = netlist; cycles = dump.now.cycles }) dump.now.rows planes }
    requires traced { IsTraced (record { circuit = netlist; cycles = dump.now.cycles }) dump.now.rows traced }
    ensures answer { (words : List (List ℕ)) → Replies words (OnRecording netlist dump.now all) result }
    ensures ready { (words : List (List ℕ)) → IsReady words result }
    ensures not_of_words { ¬ (IsOfWords result) }
    ensures no_fault { fault_of result ≡ None }
{
    Reply::Known {
        table: Table {
            netlist,
            cycles: dump.cycles(),
            planes,
            traced,
            all,
        },
    }
}
