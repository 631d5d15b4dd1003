//! What a netlist of gates and D flip-flops means over a number of cycles, and what a set of known bits forces in it.
//!
//! - `cells` has signals, cells, literals and places; `gates` the kinds with their families and numbers of pins, and `eval`.
//! - `lists` has the lists that know their room, `statements` what a line of a netlist states, `limits` how large all may be.
//! - `laws` has functions that do nothing, whose contracts are the laws: of the closure, of what can be decided, of the kinds,
//!   and exactly what a gate forces.
//!
//! The definitions are in `specs/`. Only tested are the derived orders and the text of `NoMemory`. The rules are not complete: they miss what follows from two gates
//! together, as `missed_example` says.
#![tactic(auto)]

mod cells;
mod gates;
mod laws;
mod limits;
mod lists;
mod statements;
#[cfg(test)]
mod tests;

pub use cells::{Cell, Lit, Place, Sig};
pub use gates::{Family, Kind, eval};
pub use laws::{
    closure_laws, decision_laws, forcing_laws, growing_laws, kind_laws, missed_example, rule_laws,
    soundness_laws, worked_example,
};
pub use limits::{
    MAX_BLOCKS, MAX_CYCLES, MAX_GATE_PINS, MAX_GATE_SIGNALS, MAX_PINS, MAX_SIGNALS, block_count,
};
pub use lists::{Bytes, Lits, Names, NoMemory, Sequence, Sigs, Statements, to_bytes};
pub use statements::{Numbered, Statement};
