//! Small netlists and what is wrong with others, worked out by hand.
mod limits;
mod ranking;
mod reading;
mod refusals;

use crate::{NetRefusal, Netlist, are_statements, build};
use sr_model::{Kind, Names, NoMemory, Numbered, Statement, Statements, to_bytes};
use std::alloc::Global;
use std::process::Abort;
use std::test::Fail;

/// A statement with its names as they stand in the test.
#[derive(Clone, Copy)]
enum Row<'test> {
    Input(&'test [u8]),
    Output(&'test [u8]),
    Drive(&'test [u8], Kind, &'test [&'test [u8]]),
}

fn statement_of(alloc: Global, row: &Row<'_>) -> Result<Statement, NoMemory> {
    match *row {
        Row::Input(name) => Ok(Statement::Input(to_bytes(alloc, name)?)),
        Row::Output(name) => Ok(Statement::OutputOf(to_bytes(alloc, name)?)),
        Row::Drive(target, kind, names) => {
            let target = to_bytes(alloc, target)?;
            let pins = to_names(alloc, names)?;
            Ok(Statement::Drive { target, kind, pins })
        }
    }
}

fn to_names(alloc: Global, texts: &[&[u8]]) -> Result<Names, NoMemory> {
    let mut names = Names::new(alloc);
    for text in texts {
        names.push(to_bytes(alloc, text)?)?;
    }
    Ok(names)
}

/// The statements of the rows, whose lines count from 1.
fn statements_of(alloc: Global, rows: &[Row<'_>]) -> Result<Statements, NoMemory> {
    let mut statements = Statements::new(alloc);
    for (i, row) in rows.iter().enumerate() {
        let statement = statement_of(alloc, row)?;
        statements.push(Numbered {
            line: i as u64 + 1,
            statement,
        })?;
    }
    Ok(statements)
}

fn built(rt: &impl Abort, alloc: Global, statements: Statements) -> Result<Netlist, NetRefusal> {
    let fit = are_statements(&statements);
    assert!(rt; fit, "a text can have these statements");
    build(alloc, statements)
}

/// What the statements come to, in short.
fn told(rt: &impl Abort, alloc: Global, statements: Statements) -> Result<Vec<u8>, Fail> {
    let found = built(rt, alloc, statements);
    text_of(alloc, &found)
}

fn text_of(alloc: Global, found: &Result<Netlist, NetRefusal>) -> Result<Vec<u8>, Fail> {
    let mut text = Vec::new(alloc);
    match found {
        Ok(_) => text.extend_from_slice(b"accepted")?,
        Err(NetRefusal::NoDriver { name }) => {
            text.extend_from_slice(b"no driver ")?;
            text.extend_from_slice(name.as_slice())?;
        }
        Err(NetRefusal::Loop { name, length }) => {
            text.extend_from_slice(format!(in alloc; "loop {length} ")?.as_bytes())?;
            text.extend_from_slice(name.as_slice())?;
        }
        Err(refusal) => text.extend_from_slice(line_of(alloc, refusal)?.as_bytes())?,
    }
    Ok(text)
}

fn line_of(alloc: Global, refusal: &NetRefusal) -> Result<String, Fail> {
    Ok(match refusal {
        NetRefusal::TooManySignals { line } => format!(in alloc; "line {line}: too many signals")?,
        NetRefusal::TooManyPins { line } => format!(in alloc; "line {line}: too many pins")?,
        NetRefusal::TwoDrivers { line } => format!(in alloc; "line {line}: two drivers")?,
        _ => format!(in alloc; "no memory")?,
    })
}
