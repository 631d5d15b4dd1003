//! What a task with two or three blocks forces from planes.
ghost use Rattle.std.specs.Prelude.{◌≡◌, ◌+◌, ◌<◌};
ghost use Rattle.sr_model.specs.declared.cells.Sig.{Sig as AnySig};
ghost use Rattle.netlist.specs.Wiring.{driver_at};
ghost use Rattle.unroll.specs.Problem.{IsProblem, chunks_in};
ghost use Rattle.unroll.specs.Tasks.{IsTaskAt};
ghost use Rattle.unroll.specs.Records.{HasShape};
ghost use Rattle.unroll.specs.declared.records.Shape.TheVariants as shapes;
ghost use Rattle.known_planes.specs.Planes.{IsOf};
ghost use Rattle.plain_close.specs.Turns.{AreForced, AreWordsOf};

use gate_rules::{forced_flip_flop, forced_last_flip_flop, forced_one_pin, forced_two_pins};
use known_planes::Planes;
use sr_model::{Family, Sig};
use unroll::{InChunk, PinWord, Problem};

/// The blocks of a task, what is known there, and what it forces there.
#[derive(Clone, Copy)]
pub(crate) struct TwoForced {
    pub(crate) in_chunks: [InChunk; 2],
    pub(crate) known: [PinWord; 2],
    pub(crate) out: [PinWord; 2],
}

#[derive(Clone, Copy)]
pub(crate) struct ThreeForced {
    pub(crate) in_chunks: [InChunk; 3],
    pub(crate) known: [PinWord; 3],
    pub(crate) out: [PinWord; 3],
}

/// Of a gate with one pin.
#[inline]
pub(crate) fn force_one_pin(
    p: &Problem,
    planes: &Planes,
    task: InChunk,
    family: Family,
    pin: Sig,
) -> TwoForced
    requires problem { IsProblem p.now }
    requires of { IsOf p.now planes.now }
    requires task { IsTaskAt p.now task }
    requires shape { (other : AnySig) × HasShape (shapes.OnePin family) (driver_at p.now.circuit.drivers task.sig.0) task.sig pin other }
    ensures forced { AreForced p.now planes.now task result.in_chunks result.out }
    ensures known { AreWordsOf p.now planes.now result.in_chunks result.known }
{
    let chunk = task.chunk;
    let pin = InChunk { sig: pin, chunk };
    let known = [planes.word_in_chunk(p, task), planes.word_in_chunk(p, pin)];
    TwoForced {
        in_chunks: [task, pin],
        known,
        out: forced_one_pin(family, known),
    }
}

/// Of a gate with two pins.
#[inline]
pub(crate) fn force_two_pins(
    p: &Problem,
    planes: &Planes,
    task: InChunk,
    family: Family,
    first: Sig,
    second: Sig,
) -> ThreeForced
    requires problem { IsProblem p.now }
    requires of { IsOf p.now planes.now }
    requires task { IsTaskAt p.now task }
    requires shape { HasShape (shapes.TwoPins family) (driver_at p.now.circuit.drivers task.sig.0) task.sig first second }
    ensures forced { AreForced p.now planes.now task result.in_chunks result.out }
    ensures known { AreWordsOf p.now planes.now result.in_chunks result.known }
{
    let chunk = task.chunk;
    let first = InChunk { sig: first, chunk };
    let second = InChunk { sig: second, chunk };
    let known = [
        planes.word_in_chunk(p, task),
        planes.word_in_chunk(p, first),
        planes.word_in_chunk(p, second),
    ];
    ThreeForced {
        in_chunks: [task, first, second],
        known,
        out: forced_two_pins(family, known),
    }
}

/// Of a flip-flop where there is a next chunk.
#[inline]
pub(crate) fn force_flip_flop(p: &Problem, planes: &Planes, task: InChunk, pin: Sig) -> ThreeForced
    requires problem { IsProblem p.now }
    requires of { IsOf p.now planes.now }
    requires task { IsTaskAt p.now task }
    requires shape { (other : AnySig) × HasShape shapes.FlipFlop (driver_at p.now.circuit.drivers task.sig.0) task.sig pin other }
    requires next { task.chunk + 1 < chunks_in p.now }
    requires few { task.chunk + 1 < 128 }
    ensures forced { AreForced p.now planes.now task result.in_chunks result.out }
    ensures known { AreWordsOf p.now planes.now result.in_chunks result.known }
{
    let sig = task.sig;
    let chunk = task.chunk;
    let pin = InChunk { sig: pin, chunk };
    let next = InChunk {
        sig,
        chunk: chunk + 1,
    };
    let known = [
        planes.word_in_chunk(p, task),
        planes.word_in_chunk(p, pin),
        planes.word_in_chunk(p, next),
    ];
    ThreeForced {
        in_chunks: [task, pin, next],
        known,
        out: forced_flip_flop(p.valid_next_bits(chunk), known),
    }
}

/// Of a flip-flop in the last chunk.
#[inline]
pub(crate) fn force_last_flip_flop(
    p: &Problem,
    planes: &Planes,
    task: InChunk,
    pin: Sig,
) -> TwoForced
    requires problem { IsProblem p.now }
    requires of { IsOf p.now planes.now }
    requires task { IsTaskAt p.now task }
    requires shape { (other : AnySig) × HasShape shapes.FlipFlop (driver_at p.now.circuit.drivers task.sig.0) task.sig pin other }
    requires last { task.chunk + 1 ≡ chunks_in p.now }
    ensures forced { AreForced p.now planes.now task result.in_chunks result.out }
    ensures known { AreWordsOf p.now planes.now result.in_chunks result.known }
{
    let chunk = task.chunk;
    let pin = InChunk { sig: pin, chunk };
    let known = [planes.word_in_chunk(p, task), planes.word_in_chunk(p, pin)];
    TwoForced {
        in_chunks: [task, pin],
        known,
        out: forced_last_flip_flop(p.valid_next_bits(chunk), known),
    }
}
