//! Prints a netlist's text.
ghost use Rattle.std.specs.Prelude.{◌≡◌, ◌<◌, ◌≤◌, ◌++◌, length, map, All, IfOk, OnOk};
ghost use Rattle.std.specs.List.{flat_map};
ghost use Rattle.netlist.specs.Circuit.{IsCircuit};
ghost use Rattle.netlist.specs.Wiring.{driver_at, signals_below};
ghost use Rattle.bench_reader.specs.Printed.{bench_text, port_line, driver_line, listed, name_in};

use crate::kinds::kind_word;
use netlist::Netlist;
use sr_model::{Bytes, NoMemory, Sequence, Sig};
use std::alloc::{AllocError, Global};

/// The text of a netlist, with a line feed behind each line.
///
/// Each input has a line `INPUT(name)` and each output a line `OUTPUT(name)`, in order. Then each signal that a gate or flip-flop drives
/// has a line `name = KIND(name, name)`, in ascending number, with the kind in capitals; a buffer is BUFF.
///
/// Time is linear in the text, and memory is taken for many lines at once.
pub fn print_bench(alloc: Global, n: &Netlist) -> Result<Bytes, NoMemory>
    ensures { IfOk result (λ text. text.items ≡ bench_text n.now) }
{
    match text_of(alloc, n) {
        Ok(text) => Ok(Sequence::from_vec(text)),
        Err(AllocError) => Err(NoMemory),
    }
}

#[tactic(auto, using(crate::proofs::Printing::inputs_within))]
fn text_of(alloc: Global, n: &Netlist) -> Result<Vec<u8>, AllocError>
    ensures { IfOk result (λ text. text.items ≡ bench_text n.now) }
{
    let mut text = Vec::new(alloc);
    let signals = n.signals();
    push_ports(&mut text, n, b"INPUT", n.inputs())?;
    push_ports(&mut text, n, b"OUTPUT", n.outputs())?;
    push_drivers(&mut text, n, signals)?;
    Ok(text)
}

/// Adds the lines of inputs or outputs, by their word.
fn push_ports(text: &mut Vec<u8>, n: &Netlist, word: &[u8], ports: &[Sig]) -> Result<(), AllocError>
    requires { All (λ s. s.0 < length n.now.drivers) ports.now }
    ensures { OnOk result (text.new.items ≡ text.old.items ++ flat_map (λ s. port_line word.now (name_in n.now.names s)) ports.now) }
{
    for port in ports {
        text.extend_from_slice(word)?;
        text.extend_from_slice(b"(")?;
        text.extend_from_slice(n.name(*port))?;
        text.extend_from_slice(b")\n")?;
    }
    Ok(())
}

/// Adds a line for each of the first signals that is no input.
fn push_drivers(text: &mut Vec<u8>, n: &Netlist, signals: u32) -> Result<(), AllocError>
    requires within { signals ≤ length n.now.drivers }
    requires circuit { IsCircuit n.now }
    ensures { OnOk result (text.new.items ≡ text.old.items ++ flat_map (λ s. driver_line n.now.names s (driver_at n.now.drivers s.0)) (signals_below signals)) }
{
    for number in 0..signals {
        push_driver(text, n, Sig(number))?;
    }
    Ok(())
}

/// Adds the line of a gate or flip-flop by the signal that it drives; an input has none.
fn push_driver(text: &mut Vec<u8>, n: &Netlist, s: Sig) -> Result<(), AllocError>
    requires within { s.0 < length n.now.drivers }
    requires circuit { IsCircuit n.now }
    ensures { OnOk result (text.new.items ≡ text.old.items ++ driver_line n.now.names s (driver_at n.now.drivers s.0)) }
{
    if let Some(kind) = n.kind_of(s) {
        text.extend_from_slice(n.name(s))?;
        text.extend_from_slice(b" = ")?;
        text.extend_from_slice(kind_word(kind))?;
        text.extend_from_slice(b"(")?;
        push_listed(text, n, n.pins_of(s))?;
        text.extend_from_slice(b")\n")?;
    }
    Ok(())
}

/// Adds names, with a comma and a space between them.
fn push_listed(text: &mut Vec<u8>, n: &Netlist, pins: &[Sig]) -> Result<(), AllocError>
    requires { All (λ s. s.0 < length n.now.drivers) pins.now }
    ensures { OnOk result (text.new.items ≡ text.old.items ++ listed (map (name_in n.now.names) pins.now)) }
{
    for (i, pin) in pins.iter().enumerate() {
        if i > 0 {
            text.extend_from_slice(b", ")?;
        }
        text.extend_from_slice(n.name(*pin))?;
    }
    Ok(())
}
