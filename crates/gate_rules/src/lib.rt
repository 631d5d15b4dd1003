//! What a gate or flip-flop forces in 64 cycles at once, of the words that tell what is known: exactly the literals that the one-gate rule forces, instance by instance.
//!
//! `rules` has the calls: what a task forces, in all cycles or in those of a mask, and what of it is new. `gates` takes a gate's task by its kind to `and_like`, for the kinds
//! that only ask whether all pins have one bit, or to `parity`; `flip_flops` takes a flip-flop's, over two chunks. `tally` counts applications, `laws` the laws.
//!
//! Each of these calls stands by the number of a task and, as `*_in_chunk`, by signal and chunk; the first is one call of the second.
//!
//! `few_pins` has what a task with one pin or two forces, of words in a fixed order that lie wherever the caller has them: it knows no problem and no lists. Which shape a
//! task has, `unroll::SignalRecords` tells; a flip-flop that is its own pin, a gate with two pins of one signal and one with more pins have the calls over lists alone.
//!
//! Only tested: the rules beside a plain walk over the rows of the definition, and that the calls over lists and those of `few_pins` give the same words.
//!
//! Limits: the lists of blocks and words are the caller's and of one length; nothing takes memory. A `Count` stands still at the greatest u64.
#![tactic(auto)]

mod and_like;
mod few_pins;
mod flip_flops;
mod gates;
mod laws;
mod parity;
mod rules;
mod tally;
#[cfg(test)]
mod tests;

pub use few_pins::{
    apply_flip_flop, apply_last_flip_flop, apply_one_pin, apply_two_pins, forced_flip_flop,
    forced_last_flip_flop, forced_one_pin, forced_two_pins,
};
pub use laws::{done_laws, forced_laws};
pub use rules::{
    apply, apply_in_chunk, forced, forced_in_chunk, forced_in_cycles, forced_in_cycles_in_chunk,
};
pub use tally::{Count, Tally};
