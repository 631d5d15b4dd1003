//! The signals of a trace by their names.
ghost use Rattle.std.specs.Prelude.{IfOk, IfErr};
ghost use Rattle.restore_program.specs.Tracing.{AreNamed, names_in};
ghost use Rattle.restore_program.specs.TraceRefusals.{IsTraceRefusal};

use netlist::Netlist;
use sr_model::Sigs;
use std::alloc::Global;

/// Why a list of names is refused: by its first wrong name. An item is a place in the list, from 0.
#[derive(Clone, Copy)]
pub(crate) enum TraceRefusal {
    /// No signal has the name.
    Unknown { item: u32 },
    /// The name stands before.
    Twice { item: u32 },
    NoMemory,
}

/// The signals whose names the list has, in its order. Commas part the names.
pub(crate) fn traced_signals(alloc: Global, n: &Netlist, list: &str) -> Result<Sigs, TraceRefusal>
    ensures named { IfOk result (λ sigs. AreNamed n.now (names_in list.now) sigs.items) }
    ensures refusal { IfErr result (IsTraceRefusal n.now (names_in list.now)) }
{
    let mut sigs = Sigs::new(alloc);
    let Ok(mut marks) = vec![in alloc; false; n.signals() as usize] else {
        return Err(TraceRefusal::NoMemory);
    };
    for name in list.split(',') {
        let item = sigs.len() as u32;
        let Some(sig) = n.find(name.as_bytes()) else {
            return Err(TraceRefusal::Unknown { item });
        };
        if marks[sig.0 as usize] {
            return Err(TraceRefusal::Twice { item });
        }
        marks[sig.0 as usize] = true;
        sigs.push(sig).map_err(|_| TraceRefusal::NoMemory)?;
    }
    Ok(sigs)
}
