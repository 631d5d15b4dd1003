//! Closers, levels and logs on small netlists, with values that were worked out by hand.
mod closing;
mod levels;
mod logs;

use netlist::{Netlist, are_statements, build};
use sr_model::{Bytes, Kind, Names, Numbered, Statement, Statements};
use std::alloc::Global;
use std::process::Abort;
use std::test::Fail;

/// What drives a signal, none for an input, and its pins.
type Drive<'a> = (Option<Kind>, &'a [u32]);

fn name_of(alloc: Global, s: usize) -> Result<Bytes, Fail> {
    Ok(Bytes::from_vec(format!(in alloc; "n{s}")?.into_bytes()))
}

fn stated(statement: Statement) -> Numbered {
    Numbered { line: 1, statement }
}

/// What drives signal `s`.
fn drive_of(alloc: Global, s: usize, kind: Option<Kind>, pins: &[u32]) -> Result<Statement, Fail> {
    let target = name_of(alloc, s)?;
    let Some(kind) = kind else {
        return Ok(Statement::Input(target));
    };
    let mut names = Names::new(alloc);
    for pin in pins {
        names.push(name_of(alloc, *pin as usize)?)?;
    }
    Ok(Statement::Drive {
        target,
        kind,
        pins: names,
    })
}

/// Mentions so many signals in the order of their numbers.
fn mentioned(alloc: Global, signals: usize) -> Result<Statements, Fail> {
    let mut statements = Statements::new(alloc);
    for s in 0..signals {
        statements.push(stated(Statement::OutputOf(name_of(alloc, s)?)))?;
    }
    Ok(statements)
}

fn built(rt: &impl Abort, alloc: Global, statements: Statements) -> Result<Netlist, Fail> {
    assert!(rt; are_statements(&statements));
    Ok(build(alloc, statements)?)
}

fn netlist_of(rt: &impl Abort, alloc: Global, drives: &[Drive]) -> Result<Netlist, Fail> {
    let mut statements = mentioned(alloc, drives.len())?;
    for (s, (kind, pins)) in drives.iter().enumerate() {
        statements.push(stated(drive_of(alloc, s, *kind, pins)?))?;
    }
    built(rt, alloc, statements)
}
