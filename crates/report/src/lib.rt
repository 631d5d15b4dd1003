//! Text out: tables, picks, contradictions, load lines and refusals. No call takes memory, apart from the room of a row.
//!
//! `table` writes a table from planes, each row made whole in the room of `row_buf`, with the ratio as `ratio_text` has it; `picks` writes a line
//! for each pick, `clash` that of a contradiction, `load` that of a load netlist. `refusal` has every refusal that exists: `refusal_lines` writes those of a netlist, a dump
//! and a certificate, `word_lines` those of the words. `certificate` writes a certificate line by line, `check` that one is accepted. All of it is put to a sink by `pieces`, and each contract gives the exact bytes, and a fault only where the sink
//! counted one. `laws` says that a table is a dump, that it says only what holds, and that it makes the same rows again.
//!
//! Only tested: how the pieces of a line are put, one by one or in part.
//!
//! Limits: a row has 8,449 bytes, for a name of 255 bytes and 8,192 cycles.
#![tactic(auto)]

mod certificate;
mod check;
mod clash;
mod laws;
mod load;
mod picks;
mod pieces;
mod ratio_text;
mod refusal;
mod refusal_lines;
mod row_buf;
mod table;
#[cfg(test)]
mod tests;
mod word_lines;

pub use certificate::write_certificate;
pub use check::{write_accepted, write_checked};
pub use clash::write_clash;
pub use laws::table_laws;
pub use load::write_load;
pub use picks::write_picks;
pub use refusal::{Part, Refusal, WordRefusal, write_refusal};
pub use row_buf::RowBuf;
pub use table::write_table;
