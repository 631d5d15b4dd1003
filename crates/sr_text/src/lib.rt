//! The small parts of a text: its lines, their tokens, names and numbers. No call takes memory.
//!
//! `text_lines` goes over the lines that say something, each cut and with its number; `lines` cuts a line and finds its tokens; `names` says what a name
//! is; `numbers` reads and writes decimals and thousandths. The definitions are in `specs/`: `Lines` has the numbered lines, by which the readers of
//! netlists and dumps say which line is the first bad one.
//!
//! Only tested: nothing. The tests have answers that were worked out by hand.
//!
//! Limits: a number is below 2^64, and a text has fewer than 2^63 lines.
#![tactic(auto)]

mod lines;
mod names;
mod numbers;
#[cfg(test)]
mod tests;
mod text_lines;

pub use lines::{cut, skip_blanks, token};
pub use names::{is_name_byte, name_ok};
pub use numbers::{read_u64, write_thousandths, write_u64};
pub use text_lines::TextLines;
