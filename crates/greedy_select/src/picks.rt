//! Picks of flip-flops.
use ratio::Ratio;
use sr_model::{Sequence, Sig};

/// A flip-flop, and the ratio with it and those picked before it.
#[derive(Clone, Copy, Debug, PartialEq, Eq)]
pub struct Pick {
    pub sig: Sig,
    pub ratio: Ratio,
}

pub type Picks = Sequence<Pick>;
