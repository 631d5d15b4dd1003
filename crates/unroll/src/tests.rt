//! What small netlists have, worked out by hand: tasks and blocks, and records of signals. And tasks that wait.
mod problems;
mod records;
mod waiting;

use netlist::{Netlist, are_statements, build};
use sr_model::{Kind, Names, NoMemory, Numbered, Statement, Statements, to_bytes};
use std::alloc::Global;
use std::process::Abort;
use std::test::Fail;

fn drive(alloc: Global, target: &[u8], kind: Kind, names: &[&[u8]]) -> Result<Statement, NoMemory> {
    let target = to_bytes(alloc, target)?;
    let mut pins = Names::new(alloc);
    for name in names {
        pins.push(to_bytes(alloc, name)?)?;
    }
    Ok(Statement::Drive { target, kind, pins })
}

fn built(rt: &impl Abort, alloc: Global, rows: [Statement; 6]) -> Result<Netlist, Fail> {
    let mut statements = Statements::new(alloc);
    for statement in rows {
        statements.push(Numbered { line: 1, statement })?;
    }
    assert!(rt; are_statements(&statements));
    Ok(build(alloc, statements)?)
}
