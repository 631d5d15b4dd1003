//! The greedy ranking of flip-flops to trace: one after another, each the one with whose trace, beside those of the earlier ones, the most flip-flop cells are known.
//!
//! `picks` has what is picked, `tracing` what is known with the trace of one signal more and which of some signals is the best, `ranking` goes from pick to pick. `laws` says
//! that each run has its greedy picks, and no others.
//! A candidate is closed in place from what is known already, and taken back; none is closed whose bits are known.
//!
//! Only tested: that a closer's refusal goes out; the crates above call it with a closer. It takes time for a closing of each flip-flop that is left at each pick, and the memory of one
//! pair of planes with a mark. A ratio's counts are in bounds for every netlist and execution.
#![tactic(auto)]

mod laws;
mod picks;
mod ranking;
#[cfg(test)]
mod tests;
mod tracing;

pub use laws::pick_laws;
pub use picks::{Pick, Picks};
pub use ranking::select;
