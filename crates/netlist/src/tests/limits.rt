//! The most signals and pins, and the line with which they are too many.
use super::{Row, statement_of, statements_of, told};
use sr_model::{Kind, Numbered, Statement, Statements, to_bytes};
use std::alloc::Global;
use std::test::Fail;

/// The inputs n0, n1 and so on, one for each signal that there may be.
fn most_inputs(alloc: Global) -> Result<Statements, Fail> {
    let mut statements = Statements::new(alloc);
    for i in 0..65_536 {
        let name = format!(in alloc; "n{i}")?;
        let statement = Statement::Input(to_bytes(alloc, name.as_bytes())?);
        statements.push(Numbered {
            line: i + 1,
            statement,
        })?;
    }
    Ok(statements)
}

#[test]
fn too_many_signals(rt: HostRuntime) -> Result<(), Fail> {
    let alloc = rt.alloc();
    let statements = most_inputs(alloc)?;
    assert_eq!(rt;
        told(&rt, alloc, statements)?.as_slice(),
        b"accepted".as_slice()
    );
    let mut statements = most_inputs(alloc)?;
    // the name before last is also driven twice, which is tried later
    for (line, name) in [(65_537, b"n0"), (65_538, b"m0"), (65_539, b"m1")] {
        let statement = Statement::Input(to_bytes(alloc, name)?);
        statements.push(Numbered { line, statement })?;
    }
    assert_eq!(rt;
        told(&rt, alloc, statements)?.as_slice(),
        b"line 65538: too many signals".as_slice()
    );
    Ok(())
}

/// The input a and gates g0, g1 and so on, which have as many pins as there may be.
fn most_pins(alloc: Global) -> Result<Statements, Fail> {
    let pins = [b"a".as_slice(); 1024];
    let mut statements = statements_of(alloc, &[Row::Input(b"a")])?;
    for i in 0..1024 {
        let name = format!(in alloc; "g{i}")?;
        let statement = statement_of(alloc, &Row::Drive(name.as_bytes(), Kind::Nor, &pins))?;
        statements.push(Numbered {
            line: i + 2,
            statement,
        })?;
    }
    Ok(statements)
}

#[test]
fn too_many_pins(rt: HostRuntime) -> Result<(), Fail> {
    let alloc = rt.alloc();
    let statements = most_pins(alloc)?;
    assert_eq!(rt;
        told(&rt, alloc, statements)?.as_slice(),
        b"accepted".as_slice()
    );
    let mut statements = most_pins(alloc)?;
    // the line is also the first that drives a name again, which is tried later
    let statement = statement_of(alloc, &Row::Drive(b"g0", Kind::Buf, &[b"b"]))?;
    statements.push(Numbered {
        line: 1026,
        statement,
    })?;
    assert_eq!(rt;
        told(&rt, alloc, statements)?.as_slice(),
        b"line 1026: too many pins".as_slice()
    );
    Ok(())
}
