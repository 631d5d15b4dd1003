//! The rules beside a plain walk over the rows of the definition.
mod few_pins;
mod flip_flops;
mod gates;

use netlist::{Netlist, are_statements, build};
use sr_model::{Kind, Names, NoMemory, Numbered, Statement, Statements, to_bytes};
use std::alloc::Global;
use std::process::Abort;
use std::test::Fail;

fn to_names(alloc: Global, texts: &[&[u8]]) -> Result<Names, NoMemory> {
    let mut names = Names::new(alloc);
    for text in texts {
        names.push(to_bytes(alloc, text)?)?;
    }
    Ok(names)
}

/// A target with a kind and pins, and inputs.
fn net_of(
    rt: &impl Abort,
    alloc: Global,
    drives: (&[u8], Kind, &[&[u8]]),
    inputs: &[&[u8]],
) -> Result<Netlist, Fail> {
    let mut statements = Statements::new(alloc);
    let (target, kind, pins) = drives;
    let target = to_bytes(alloc, target)?;
    let pins = to_names(alloc, pins)?;
    statements.push(Numbered {
        line: 1,
        statement: Statement::Drive { target, kind, pins },
    })?;
    for input in inputs {
        let name = to_bytes(alloc, input)?;
        statements.push(Numbered {
            line: 1,
            statement: Statement::Input(name),
        })?;
    }
    assert!(rt; are_statements(&statements));
    Ok(build(alloc, statements)?)
}
