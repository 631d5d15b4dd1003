//! Reads a netlist's text into statements, and prints a netlist.
//!
//! `reader` goes over the lines: `form` reads the form of one, and `kinds` has the words of the kinds. `print` writes the text of a netlist. `laws` says
//! that each text has one reading or one refusal, and that what is printed reads as the same netlist. The grammar is `Grammar` of `specs/`, apart from
//! the code: tokens, forms, and what a form declares.
//!
//! Only tested: that memory which is refused is answered as such, at each call in turn.
//!
//! Limits: a name has 255 bytes at most. How many signals and pins there may be is the matter of `netlist`.
#![tactic(auto)]

mod form;
mod kinds;
mod laws;
mod print;
mod reader;
#[cfg(test)]
mod tests;

pub use laws::{bench_laws, print_laws};
pub use print::print_bench;
pub use reader::{BenchRefusal, read_bench};
