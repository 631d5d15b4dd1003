//! A netlist: its signals with their names and numbers, what drives each, and the rules that it keeps.
//!
//! - `names` has each name once with its number, `numbers` the signals of the statements and what drives each, `checks` why a
//!   netlist is refused.
//! - `wiring` has the flat arrays: `lists` keeps lists of signals one behind the other, `readers` and `signals` say which,
//!   `parities` which signals stand an odd number of times among a gate's pins, `pin_places` where each pin stands among them.
//! - `ranks` orders the gates by a worklist, `loops` walks to a loop; `netlist` has `build` and the accessors, `laws` the laws.
//!
//! Only tested is how much memory and time it takes. It takes netlists of `MAX_SIGNALS` signals and `MAX_PINS` pins at most, and
//! nothing uses `pin_places` as long as no kind's pins differ in meaning.
#![tactic(auto)]

mod checks;
mod laws;
mod lists;
mod loops;
mod names;
mod netlist;
mod numbers;
mod parities;
mod pin_places;
mod ranks;
mod readers;
mod signals;
#[cfg(test)]
mod tests;
mod wiring;

pub use checks::{NetRefusal, are_statements};
pub use laws::{circuit_laws, numbering_laws, rank_laws, refusal_laws};
pub use netlist::{Netlist, build};
