//! The line of a load netlist.
ghost use Rattle.report.specs.Load.{load_line};
ghost use Rattle.report.specs.Writes.{Writes};

use crate::pieces::{digits, write_pieces};
use crate::ratio_text::put_ratio;
use itoa::Buffer;
use ratio::Ratio;
use sr_outside::{Sink, WriteFault};

/// Writes what follows from the trace of a load netlist: the number that it was drawn from, how many signals and flip-flops it has, and how many flip-flop cells
/// were traced and are known. It takes no memory.
pub fn write_load<K: Sink>(
    number: u64,
    signals: u32,
    flip_flops: u32,
    ratio: &Ratio,
    out: &mut K,
) -> Result<(), WriteFault>
    ensures { Writes K.written K.room K.faults out.old out.new result (load_line number signals flip_flops ratio.now) }
{
    let load_is: &[u8] = b"load number ";
    let signals_are: &[u8] = b" signals ";
    let flip_flops_are: &[u8] = b" flip_flops ";
    let traced_are: &[u8] = b" traced ";
    let known_are: &[u8] = b" known ";
    let ratio_is: &[u8] = b" ratio ";
    let end: &[u8] = b"\n";
    let mut number_buffer = Buffer::new();
    let mut signals_buffer = Buffer::new();
    let mut flip_flops_buffer = Buffer::new();
    let mut traced_buffer = Buffer::new();
    let mut known_buffer = Buffer::new();
    let mut ratio_buffer = [0; 24];
    let number_digits = digits(&mut number_buffer, number);
    let signals_digits = digits(&mut signals_buffer, u64::from(signals));
    let flip_flops_digits = digits(&mut flip_flops_buffer, u64::from(flip_flops));
    let traced_digits = digits(&mut traced_buffer, ratio.traced());
    let known_digits = digits(&mut known_buffer, ratio.known());
    let ratio_len = put_ratio(ratio, &mut ratio_buffer);
    write_pieces(
        out,
        &[
            load_is,
            number_digits,
            signals_are,
            signals_digits,
            flip_flops_are,
            flip_flops_digits,
            traced_are,
            traced_digits,
            known_are,
            known_digits,
            ratio_is,
            &ratio_buffer[..ratio_len],
            end,
        ],
    )
}
