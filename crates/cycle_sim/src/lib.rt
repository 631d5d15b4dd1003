//! Simulates a netlist with two-valued bits, and records the bits of signals as a dump; and makes large netlists to try it on.
//!
//! `drawing` draws the inputs' bits, which `input_bits` holds. `gates` makes the gates ready, `cycles` goes from cycle to cycle and keeps the bits of the signals that
//! are asked for, in `bit_rows`; `execution` keeps all of them, and `traces` makes dumps. `load` draws the statements of a large netlist from a number. `laws` says that
//! there is one simulated execution, what follows from its trace, and that what is drawn is a netlist.
//!
//! Only tested: that the words drawn are those that PCG's generator gives elsewhere (`tests.rt`), and two load netlists, against lines that a program in another language drew (`tests/load.rt`). It goes over 1 to
//! `MAX_CYCLES` cycles; a load netlist has 16 to `MAX_SIGNALS` signals.
#![tactic(auto)]

mod bit_rows;
mod cycles;
mod drawing;
mod execution;
mod gates;
mod input_bits;
mod laws;
mod load;
#[cfg(test)]
mod tests;
mod traces;

pub use drawing::stimulus;
pub use execution::{Execution, simulate};
pub use input_bits::Stimulus;
pub use laws::{load_laws, simulation_laws};
pub use load::load_netlist;
pub use traces::{simulate_trace, trace_of};
