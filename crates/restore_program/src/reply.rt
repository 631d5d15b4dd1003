//! What a run writes.
ghost use Rattle.std.specs.Prelude.{◌≡◌, ◌⊎◌, ◌↔◌, IsTrue, map};
ghost use Rattle.std.specs.String.{string_bytes};
ghost use Rattle.known_planes.specs.Planes.{has};
ghost use Rattle.report.specs.Table.{table_text};
ghost use Rattle.report.specs.Writes.{Writes};
ghost use Rattle.restore_program.specs.Reply.{HasBuffer, IsReady, IsBuffered, IsTable, unrolling_of, text_of, loaded_line, status_of, refusal_status, part_status, bench_status, net_status, dump_status, certificate_status};
ghost use Rattle.restore_program.specs.Certifying.{ends_with};

use crate::status::Status;
use bench_reader::BenchRefusal;
use certificates::CertRefusal;
use dump_reader::DumpRefusal;
use greedy_select::Picks;
use known_planes::Planes;
use netlist::{NetRefusal, Netlist};
use plain_close::Log;
use ratio::Ratio;
use report::{
    Part, Refusal, RowBuf, write_certificate, write_checked, write_clash, write_load, write_picks,
    write_refusal, write_table,
};
use sr_model::{Bytes, Cell, NoMemory};
use sr_outside::{Sink, WriteFault, write_all};
use std::alloc::Global;
use unroll::Problem;

/// What is known of a netlist over so many cycles, and all that its table takes.
#[derive(Drop)]
pub struct Table {
    pub(crate) netlist: Netlist,
    pub(crate) cycles: u32,
    pub(crate) planes: Planes,
    /// How many cells of flip-flops were traced.
    pub(crate) traced: u64,
    /// Whether all signals have a row.
    pub(crate) all: bool,
}

/// What follows from the trace of a netlist that is drawn from a number.
#[derive(Clone, Copy)]
pub struct Loaded {
    pub(crate) number: u64,
    pub(crate) signals: u32,
    pub(crate) flip_flops: u32,
    pub(crate) ratio: Ratio,
}

/// The picks of a netlist's flip-flops.
#[derive(Drop)]
pub struct Ranked {
    pub(crate) netlist: Netlist,
    pub(crate) picks: Picks,
}

/// What a run writes.
#[derive(Drop)]
pub enum Reply {
    /// One line says why there is no result.
    Refused {
        refusal: Refusal,
    },
    /// What is known from a dump.
    Known {
        table: Table,
    },
    /// Both literals of a cell follow from a dump.
    Clash {
        netlist: Netlist,
        cell: Cell,
    },
    /// A netlist's text or a dump's, and how the run ends with it.
    Text {
        text: Bytes,
        status: Status,
    },
    /// The lines of picks.
    Ranking {
        ranked: Ranked,
    },
    /// The line of a load netlist.
    Load {
        loaded: Loaded,
    },
    /// The certificate of what follows from a dump.
    Certificate {
        netlist: Netlist,
        log: Log,
    },
    /// How many facts a certificate has that is accepted, and the contradiction with which it ends, if so.
    Checked {
        netlist: Netlist,
        facts: u64,
        clash: Option<Cell>,
    },
}

/// The status of a reply that was written whole.
pub(crate) fn reply_status(reply: &Reply) -> Status
    ensures { result ≡ status_of reply.now }
{
    match reply {
        Reply::Refused { refusal } => refusal_status(refusal),
        Reply::Clash { .. } => Status::Contradiction,
        Reply::Text { status, .. } => *status,
        Reply::Certificate { log, .. } => ends_with(log.clash),
        Reply::Checked { clash, .. } => ends_with(*clash),
        Reply::Known { .. } | Reply::Ranking { .. } | Reply::Load { .. } => Status::Done,
    }
}

/// How a run ends with a contradiction, or without one.
fn ends_with(clash: Option<Cell>) -> Status
    ensures { result ≡ ends_with clash }
{
    match clash {
        None => Status::Done,
        Some(_) => Status::Contradiction,
    }
}

fn refusal_status(refusal: &Refusal) -> Status
    ensures { result ≡ refusal_status refusal.now }
{
    match refusal {
        Refusal::Bench(refusal) => bench_status(refusal),
        Refusal::Net(refusal) => net_status(refusal),
        Refusal::Dumped(refusal) => dump_status(refusal),
        Refusal::Cert(refusal) => certificate_status(refusal),
        Refusal::TooLong(part) => part_status(*part),
        Refusal::Words(_)
        | Refusal::WidthOver { .. }
        | Refusal::TraceUnknown { .. }
        | Refusal::TraceTwice { .. } => Status::Words,
        Refusal::CellsByWords { .. } => Status::Dump,
        Refusal::Fault(_) => Status::ReadFault,
        Refusal::NoMemory => Status::NoMemory,
    }
}

fn part_status(part: Part) -> Status
    ensures { result ≡ part_status part }
{
    match part {
        Part::Netlist => Status::Netlist,
        Part::Dump => Status::Dump,
        Part::Certificate => Status::Certificate,
    }
}

fn bench_status(refusal: &BenchRefusal) -> Status
    ensures { result ≡ bench_status refusal.now }
{
    match refusal {
        BenchRefusal::NoMemory => Status::NoMemory,
        _ => Status::Netlist,
    }
}

fn net_status(refusal: &NetRefusal) -> Status
    ensures { result ≡ net_status refusal.now }
{
    match refusal {
        NetRefusal::NoMemory => Status::NoMemory,
        _ => Status::Netlist,
    }
}

fn dump_status(refusal: &DumpRefusal) -> Status
    ensures { result ≡ dump_status refusal.now }
{
    match refusal {
        DumpRefusal::NoMemory => Status::NoMemory,
        _ => Status::Dump,
    }
}

fn certificate_status(refusal: &CertRefusal) -> Status
    ensures { result ≡ certificate_status refusal.now }
{
    match refusal {
        CertRefusal::NoMemory => Status::NoMemory,
        _ => Status::Certificate,
    }
}

/// A reply, and the buffer by which it is written, if it takes one.
#[derive(Drop)]
pub(crate) struct Prepared {
    pub(crate) reply: Reply,
    pub(crate) buf: Option<RowBuf>,
}

/// Takes the memory that writing the reply takes, before a byte is written. Where it is refused, that is the reply.
pub(crate) fn prepare(alloc: Global, reply: Reply) -> Prepared
    ensures same { (result.reply ≡ reply) ⊎ (IsBuffered reply × (result.reply ≡ Reply.Refused Refusal.NoMemory)) }
    ensures buffer { HasBuffer result.reply result.buf }
{
    if !is_buffered(&reply) {
        return Prepared { reply, buf: None };
    }
    match RowBuf::new(alloc) {
        Ok(buf) => Prepared {
            reply,
            buf: Some(buf),
        },
        Err(NoMemory) => Prepared {
            reply: Reply::Refused {
                refusal: Refusal::NoMemory,
            },
            buf: None,
        },
    }
}

/// Whether the reply is written by a buffer.
fn is_buffered(reply: &Reply) -> bool
    ensures { IsTrue result ↔ IsBuffered reply.now }
{
    match reply {
        Reply::Known { .. } | Reply::Certificate { .. } => true,
        _ => false,
    }
}

/// Writes the reply on these words. It takes no memory.
pub(crate) fn write_reply<K: Sink>(
    reply: &Reply,
    buf: &mut Option<RowBuf>,
    words: &[String],
    out: &mut K,
) -> Result<(), WriteFault>
    requires ready { IsReady (map string_bytes words.now) reply.now }
    requires buffer { HasBuffer reply.now buf.old }
    ensures { Writes K.written K.room K.faults out.old out.new result (text_of (map string_bytes words.now) reply.now) }
{
    match reply {
        Reply::Refused { refusal } => write_refusal(refusal, words, out),
        Reply::Known { table } => write_known(table, buf.as_mut().unwrap(), out),
        Reply::Clash { netlist, cell } => write_clash(netlist, *cell, out),
        Reply::Text { text, .. } => write_text(text.as_slice(), out),
        Reply::Ranking { ranked } => write_picks(&ranked.netlist, &ranked.picks, out),
        Reply::Load { loaded } => write_loaded(*loaded, out),
        Reply::Certificate { netlist, log } => {
            write_certificate(netlist, log, buf.as_mut().unwrap(), out)
        }
        Reply::Checked {
            netlist,
            facts,
            clash,
        } => write_checked(netlist, *facts, *clash, out),
    }
}

/// Writes a table.
fn write_known<K: Sink>(table: &Table, buf: &mut RowBuf, out: &mut K) -> Result<(), WriteFault>
    requires { IsTable table.now }
    ensures { Writes K.written K.room K.faults out.old out.new result (table_text table.now.netlist table.now.cycles (has (unrolling_of table.now) table.now.planes) table.now.traced table.now.all) }
{
    let problem = Problem::new(&table.netlist, table.cycles);
    write_table(&problem, &table.planes, table.traced, table.all, buf, out)
}

/// Writes the line of a load netlist.
fn write_loaded<K: Sink>(loaded: Loaded, out: &mut K) -> Result<(), WriteFault>
    ensures { Writes K.written K.room K.faults out.old out.new result (loaded_line loaded) }
{
    write_load(
        loaded.number,
        loaded.signals,
        loaded.flip_flops,
        &loaded.ratio,
        out,
    )
}

fn write_text<K: Sink>(text: &[u8], out: &mut K) -> Result<(), WriteFault>
    ensures { Writes K.written K.room K.faults out.old out.new result text.now }
{
    write_all(out, text)
}
