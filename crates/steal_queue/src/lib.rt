//! A queue of numbers that one dealer and up to 15 thieves draw from, each number for exactly one of them.
//!
//! `dealing` deals a queue to its sides, `sides` has the dealer and the thieves, each of which draws and keeps what it took, and `gathering` takes the queue apart and says that
//! all took each number once. Beneath them, `queue` is the one shared word, `rule` what always holds of it and of what the sides know, and `draws` the step of a draw.
//!
//! A draw is one atomic step that is never tried again: it does not wait, and takes no memory. Only tested: that there can be memory for a deal, and that sides draw at once in
//! threads of their own. Limits: 65,536 numbers and 16 sides. A deal takes 4 bytes for each number and side.
#![tactic(auto)]

mod dealing;
mod draws;
mod gathering;
mod queue;
mod rule;
mod sides;
#[cfg(test)]
mod tests;

pub use dealing::deal;
pub use gathering::{Taken, gather};
pub use queue::Queue;
pub use sides::{Dealer, Thief};
