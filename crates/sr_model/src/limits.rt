//! How large a netlist and a dump may be.
ghost use Rattle.std.specs.Prelude.{◌≡◌};
ghost use Rattle.sr_model.specs.Limits.{block_count};

/// Signals of a netlist.
pub const MAX_SIGNALS: usize = 65_536;

/// Pins of a gate.
pub const MAX_GATE_PINS: usize = 1024;

/// Signals of a gate, which are its target and its pins.
pub const MAX_GATE_SIGNALS: usize = MAX_GATE_PINS + 1;

/// Pins of a netlist, over all its gates and flip-flops.
pub const MAX_PINS: usize = 1_048_576;

/// Cycles of a dump.
pub const MAX_CYCLES: u64 = 8192;

/// Blocks of a netlist over a number of cycles: its signals, times the chunks of 64 cycles.
pub const MAX_BLOCKS: u64 = 4_194_304;

/// The blocks of so many signals over so many cycles: one for each signal and chunk of 64 cycles, of which the last one need not be full.
pub fn block_count(signals: u32, cycles: u32) -> u64
    ensures { result ≡ block_count signals cycles }
{
    u64::from(signals) * u64::from(cycles.div_ceil(64))
}
