//! What a gate forces in a chunk, by the family of its kind.
ghost use Rattle.std.specs.Prelude.{◌≡◌, ◌<◌, ◌≤◌, true, length, Some, slice_index_or};
ghost use Rattle.std.specs.List.{Contains};
ghost use Rattle.netlist.specs.Wiring.{driver_at, is_gate, kind_of};
ghost use Rattle.unroll.specs.Problem.{IsInside};
ghost use Rattle.unroll.specs.Tasks.{task_in, blocks_from};
ghost use Rattle.gate_rules.specs.Forced.{IsForcedExactlyIn};

use crate::and_like::{AndLike, force_and_like};
use crate::parity::force_parity;
use netlist::Netlist;
use sr_model::{Family, Kind, Sig};
use unroll::{Block, Blocks, InChunk, PinWords, Problem};

/// The kind of the gate that drives a signal.
fn gate_kind(net: &Netlist, target: Sig) -> Kind
    requires target { target.0 < length net.now.drivers }
    requires gate { is_gate (driver_at net.now.drivers target.0) ≡ true }
    ensures { kind_of (driver_at net.now.drivers target.0) ≡ Some result }
{
    match net.kind_of(target) {
        Some(kind) => kind,
        None => unreachable!(),
    }
}

/// The place of a block among blocks that have it.
fn place_of(blocks: &[Block], block: Block) -> usize
    requires { Contains blocks.now block }
    ensures within { result < length blocks.now }
    ensures at { slice_index_or blocks.now result block ≡ block }
{
    match blocks.iter().position(|other| other.0 == block.0) {
        Some(place) => place,
        None => unreachable!(),
    }
}

/// What a gate forces in a chunk: the words of each of its blocks are set to the literals that its instances in the chunk's cycles of the mask force from those of `view`.
///
/// `view` has the words of the blocks, in their order. The cost is a few walks over the blocks.
pub(crate) fn force_gate(
    p: &Problem,
    at: InChunk,
    mask: u64,
    blocks: &Blocks,
    view: &PinWords,
    out: &mut PinWords,
)
    requires inside { IsInside p.now at }
    requires gate { is_gate (driver_at p.now.circuit.drivers at.sig.0) ≡ true }
    requires blocks { blocks.now.items ≡ blocks_from p.now at.sig at.chunk }
    requires view { length view.now.items ≡ length blocks.now.items }
    requires out { length out.old.items ≡ length blocks.now.items }
    ensures size { length out.new.items ≡ length blocks.now.items }
    ensures room { out.new.room ≡ out.old.room }
    ensures forced { IsForcedExactlyIn p.now (task_in p.now at) mask blocks.now.items view.now.items out.new.items }
{
    let net = p.net();
    let place = place_of(blocks.as_slice(), p.block(at.sig, at.chunk));
    let valid = p.valid_bits(at.chunk) & mask;
    match gate_kind(net, at.sig).family() {
        Family::AndLike { pins, target } => {
            let gate = AndLike { pins, target };
            force_and_like(gate, place, valid, view.as_slice(), out);
        }
        Family::Parity { inverted } => {
            let odd = net.pin_parities(at.sig);
            force_parity(inverted, place, odd, valid, view.as_slice(), out);
        }
    }
}
