//! The lines of picks.
ghost use Rattle.std.specs.Prelude.{◌<◌, All, length};
ghost use Rattle.report.specs.Picks.{pick_line, pick_lines};
ghost use Rattle.report.specs.Writes.{Writes};

use crate::pieces::{digits, write_pieces};
use crate::ratio_text::put_ratio;
use greedy_select::{Pick, Picks};
use itoa::Buffer;
use netlist::Netlist;
use sr_outside::{Sink, WriteFault};

/// Writes a line for each pick: its name, how many flip-flop cells are known with it and those picked before it, how many of these are traced, and the ratio. It takes no memory.
pub fn write_picks<K: Sink>(n: &Netlist, picks: &Picks, out: &mut K) -> Result<(), WriteFault>
    requires { All (λ pick. pick.sig.0 < length n.now.drivers) picks.now.items }
    ensures { Writes K.written K.room K.faults out.old out.new result (pick_lines n.now.names picks.now.items) }
{
    for pick in picks.as_slice() {
        write_pick(n, pick, out)?;
    }
    Ok(())
}

/// Writes the line of a pick.
fn write_pick<K: Sink>(n: &Netlist, pick: &Pick, out: &mut K) -> Result<(), WriteFault>
    requires { pick.now.sig.0 < length n.now.drivers }
    ensures { Writes K.written K.room K.faults out.old out.new result (pick_line n.now.names pick.now) }
{
    let space: &[u8] = b" ";
    let slash: &[u8] = b"/";
    let end: &[u8] = b"\n";
    let mut known_buffer = Buffer::new();
    let mut traced_buffer = Buffer::new();
    let mut ratio_buffer = [0; 24];
    let known = digits(&mut known_buffer, pick.ratio.known());
    let traced = digits(&mut traced_buffer, pick.ratio.traced());
    let ratio_len = put_ratio(&pick.ratio, &mut ratio_buffer);
    write_pieces(
        out,
        &[
            n.name(pick.sig),
            space,
            known,
            slash,
            traced,
            space,
            &ratio_buffer[..ratio_len],
            end,
        ],
    )
}
