//! Reads, checks and prints certificates: which literals follow from a dump, each with the one gate or flip-flop in one cycle that forces it.
//!
//! `checker` checks a certificate line by line. `form` reads a line by its words and numbers, and `claim` looks up what it names; `known` keeps the literals that are known so far, and
//! asks the rule of one gate or flip-flop in one cycle. `refusal` has why a certificate is refused. `printer` makes the text of a log. `laws` says that each
//! text is valid or refused in one way at most, that what a valid one says follows, and that the printed text of a log is valid.
//!
//! Only tested: how the lines of a certificate are damaged, and with which refusal, by examples. No contract sees how long a check takes.
//!
//! Limits: those of a problem. A check takes the memory of the planes, 12 bytes for each line, and room for one gate's blocks.
#![tactic(auto)]

mod checker;
mod claim;
mod form;
mod known;
mod laws;
mod printer;
mod refusal;
#[cfg(test)]
mod tests;

pub use checker::{Facts, check_cert};
pub use claim::Fact;
pub use laws::{cert_laws, log_laws};
pub use printer::print_cert;
pub use refusal::CertRefusal;
