//! The real sink: standard output, or any other writer.
ghost use Rattle.std.specs.Prelude.{◌≡◌, ◌<◌, ◌≤◌, None, IfOk, IfSome, OnOk, OnErr, length, take};
ghost use Rattle.std.specs.Io.KnownBytes.{Appends};
ghost use Rattle.sr_outside.specs.Counts.{IsCounted};

use crate::inputs::Failed;
use crate::sink::Sink;
use std::io;
use std::io::{Printer, Write};
use std::marker::Model;

/// A writer as a sink. Each put is flushed, and a put that takes nothing is a fault. It tells no bytes and no room
/// of its own; what a put appends is told as its writer tells it.
#[derive(Drop)]
pub struct WriterSink<W: Write> {
    writer: W,
    faults: u64,
}

/// Standard output.
pub type StdSink<'r, R> = WriterSink<Printer<'r, R>>;

impl<W: Write> Model for WriterSink<W> {
    ghost use Rattle.sr_outside.specs.Files.{Written};

    ghost Value = { Written };

    ghost view = { λ s. record {
      contents = W.contents s.writer;
      faults = s.faults;
    } };
}

impl<W: Write> WriterSink<W> {
    /// This writer, with no fault so far.
    pub fn over(writer: W) -> WriterSink<W>
        ensures contents { result.contents ≡ W.contents writer }
        ensures faults { result.faults ≡ 0 }
    {
        WriterSink { writer, faults: 0 }
    }

    /// Its writer.
    pub fn into_writer(self) -> W
        ensures contents { W.contents result ≡ self.contents }
    {
        self.writer
    }
}

impl<'r, R: Print> WriterSink<Printer<'r, R>> {
    /// Standard output, with no fault so far.
    pub fn new(rt: &'r R) -> WriterSink<Printer<'r, R>>
        ensures faults { result.faults ≡ 0 }
    {
        WriterSink::over(io::writer(rt))
    }
}

impl<W: Write> Sink for WriterSink<W> {
    ghost written = { λ _. None };

    ghost room = { λ _. None };

    ghost faults = { λ s. s.faults };

    fn put(&mut self, piece: &[u8]) -> Result<usize, Failed>
        ensures some { IfOk result (λ count. 0 < count) }
        ensures bound { IfOk result (λ count. count ≤ length piece.now) }
        ensures appended { IfOk result (λ count.
            Appends self.old.contents self.new.contents (take count piece.now)) }
        ensures counted { OnErr result (IsCounted self.old.faults self.new.faults) }
        ensures uncounted { OnOk result (self.new.faults ≡ self.old.faults) }
        ensures never_falls { self.old.faults ≤ self.new.faults }
    {
        match put_flushed(&mut self.writer, piece) {
            Some(count) => Ok(count),
            None => {
                self.faults = self.faults.saturating_add(1);
                Err(Failed)
            }
        }
    }
}

// How many bytes of the piece were written and flushed.
fn put_flushed<W: Write>(out: &mut W, piece: &[u8]) -> Option<usize>
    ensures some { IfSome result (λ count. 0 < count) }
    ensures bound { IfSome result (λ count. count ≤ length piece.now) }
    ensures appended { IfSome result (λ count.
        Appends (W.contents out.old) (W.contents out.new) (take count piece.now)) }
{
    let count = out.write(piece).ok()?;
    out.flush().ok()?;
    if count == 0 { None } else { Some(count) }
}
