//! Reads and prints the text of a dump of a netlist.
//!
//! `dump` is the dump with its rows. `reader` reads the two lines of the head, whose words `head` has, and then rows by `row`; `lines` has the two tokens
//! of a line, and `refusal` why a text is refused. `printer` writes a dump. `laws` says that each text is one dump or is refused in one way, and that what
//! is printed reads as the same dump. The grammar is `Grammar` of `specs/`, apart from the code.
//!
//! Only tested: that memory which is refused is answered as such, at each call in turn.
//!
//! Limits: 8,192 cycles and 4,194,304 blocks, each of up to 64 cycles of one signal.
#![tactic(auto)]

mod dump;
mod head;
mod laws;
mod lines;
mod printer;
mod reader;
mod refusal;
mod row;
#[cfg(test)]
mod tests;

pub use dump::{Dump, Tri};
pub use head::HEAD_START;
pub use laws::dump_laws;
pub use printer::print_dump;
pub use reader::read_dump;
pub use refusal::DumpRefusal;
