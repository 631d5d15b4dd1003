//! The statements of a netlist's text.
use crate::gates::Kind;
use crate::lists::{Bytes, Names};

/// What one line of a netlist's text states.
#[derive(Debug, Drop)]
pub enum Statement {
    /// `INPUT(name)`
    Input(Bytes),
    /// `OUTPUT(name)`
    OutputOf(Bytes),
    /// `target = KIND(pins)`
    Drive {
        target: Bytes,
        kind: Kind,
        pins: Names,
    },
}

/// A statement and the number of its line. Lines count from 1.
#[derive(Debug, Drop)]
pub struct Numbered {
    pub line: u64,
    pub statement: Statement,
}
