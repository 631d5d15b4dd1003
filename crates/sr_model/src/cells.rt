//! Signals, cells, literals and places of instances.

/// A signal of a netlist, by its number: the place, from 0, of the first mention of its name.
#[derive(Clone, Copy, Debug, PartialEq, Eq, PartialOrd, Ord, Hash)]
pub struct Sig(pub u32);

/// A signal in a cycle. Cells are ordered by cycle and then by signal number.
#[derive(Clone, Copy, Debug, PartialEq, Eq, PartialOrd, Ord, Hash)]
pub struct Cell {
    pub cycle: u32,
    pub sig: Sig,
}

/// A cell and its bit. Literals are ordered by cell, and 0 stands before 1.
#[derive(Clone, Copy, Debug, PartialEq, Eq, PartialOrd, Ord, Hash)]
pub struct Lit {
    pub cell: Cell,
    pub bit: bool,
}

/// Where an instance stands: the gate or flip-flop that drives the target, in a cycle.
///
/// A flip-flop's instance in cycle t joins its data pin in cycle t with its target in cycle t + 1.
/// Places are ordered by cycle and then by the target's number.
#[derive(Clone, Copy, Debug, PartialEq, Eq, PartialOrd, Ord, Hash)]
pub struct Place {
    pub cycle: u32,
    pub target: Sig,
}
