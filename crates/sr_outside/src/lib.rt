//! The outside of the program: inputs that are read by name, and a sink that is written to.
//!
//! Both may fail at any call. Each counts its faults, so that a contract can say that a fault is answered
//! only where one was counted. What they hold is told to contracts as options: inputs and sinks in memory tell
//! everything and fail where they are asked to, files and standard output tell no bytes.
//!
//! `inputs` and `sink` are the traits. `memory` has both bodies in memory, with `named` the list of their names and `failing` the list of the calls that
//! are to fail; `files` has the inputs over files, `writer` the sink over a writer. `whole` reads an input to its end, `write` writes a piece to a sink.
//!
//! Only tested: that files and standard output give and take the bytes that they hold; no contract can say it.
//!
//! Limits: an input that is read whole has at most as many bytes as the caller allows.
#![tactic(auto)]

mod failing;
mod files;
mod inputs;
mod memory;
mod named;
mod sink;
#[cfg(test)]
mod tests;
mod whole;
mod write;
mod writer;

pub use files::FileInputs;
pub use inputs::{Failed, Inputs};
pub use memory::{MemInputs, MemSink};
pub use sink::Sink;
pub use whole::{PIECE, ReadRefusal, read_whole};
pub use write::{WriteFault, write_all};
pub use writer::{StdSink, WriterSink};
