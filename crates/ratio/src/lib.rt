//! The state restoration ratio: how many flip-flop cells are known for each one that was traced.
//!
//! `restoration_ratio` is the fraction of two counts, which is made where both are in bounds, compared exactly, and told in thousandths, rounded down.
//! There is none where nothing was traced.
//!
//! Limits: each count is at most 536,870,912, which is 65,536 signals over 8,192 cycles.
#![tactic(auto)]

mod restoration_ratio;

pub use restoration_ratio::Ratio;
