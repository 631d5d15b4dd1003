//! The program as one call: `run` takes the words of the command line, reads the inputs that they name, and writes what they ask for to a sink.
//!
//! - In: `words` reads the words by the table of `word_rules`, `netlists` a netlist by its name, `recordings` a dump.
//! - One file a command makes its reply, which has all that is written and its status: `restore`, `select`, `simulate`, `print`, `load`, `certify`, `check`.
//! - Out: `top` writes the reply by `report`. The contract of `run` is the headline: what is written is the answer to the words, each bit in it holds in every execution
//!   that matches the dump, and faults come from the inputs and the sink alone.
//!
//! Only tested: that no more calls of the inputs and the sink are made than serve. An input may have as many bytes as `most_bytes` of
//! `netlists` says; the other limits are those of `sr_model`.
#![tactic(auto)]

mod certify;
mod check;
mod laws;
mod load;
mod netlists;
mod print;
mod recordings;
mod reply;
mod restore;
mod select;
mod simulate;
mod status;
#[cfg(test)]
mod tests;
mod top;
mod trace;
mod word_keys;
mod word_numbers;
mod word_rules;
mod words;

pub use laws::{answer_laws, word_laws};
pub use report::WordRefusal;
pub use status::Status;
pub use top::run;
pub use words::{Settings, read_words};
