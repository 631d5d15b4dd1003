//! Each public call once, with values that were worked out by hand.
use crate::{
    Bytes, Cell, Kind, Lit, Lits, Names, NoMemory, Numbered, Place, Sig, Sigs, Statement,
    Statements, eval,
};
use std::test::Fail;

#[test]
fn gates_give_their_bit(rt: HostRuntime) {
    let none = [false, false, false];
    let one = [false, true, false];
    let two = [true, true, false];
    let all = [true, true, true];
    // the answers at no, one, two and three pins that are 1
    let cases = [
        (Kind::And, [false, false, false, true]),
        (Kind::Nand, [true, true, true, false]),
        (Kind::Or, [false, true, true, true]),
        (Kind::Nor, [true, false, false, false]),
        (Kind::Xor, [false, true, false, true]),
        (Kind::Xnor, [true, false, true, false]),
    ];
    for (kind, [at_none, at_one, at_two, at_all]) in cases {
        assert_eq!(rt; eval(kind, &none), at_none, "{kind:?} of none");
        assert_eq!(rt; eval(kind, &one), at_one, "{kind:?} of one");
        assert_eq!(rt; eval(kind, &two), at_two, "{kind:?} of two");
        assert_eq!(rt; eval(kind, &all), at_all, "{kind:?} of all");
    }
    assert!(rt; eval(Kind::Not, &[false]));
    assert!(rt; eval(Kind::Buf, &[true]));
    assert!(rt; eval(Kind::Dff, &[true]));
}

#[test]
fn cells_are_ordered_by_cycle(rt: HostRuntime) {
    let early = Cell {
        cycle: 0,
        sig: Sig(7),
    };
    let late = Cell {
        cycle: 1,
        sig: Sig(2),
    };
    let later = Cell {
        cycle: 1,
        sig: Sig(3),
    };
    assert!(rt; early < late && late < later);
    assert!(rt;
        Lit {
            cell: late,
            bit: false
        } < Lit {
            cell: late,
            bit: true
        }
    );
    assert!(rt;
        Place {
            cycle: 0,
            target: Sig(9)
        } < Place {
            cycle: 1,
            target: Sig(0)
        }
    );
}

#[test]
fn lists_keep_their_items(rt: HostRuntime) -> Result<(), Fail> {
    let alloc = rt.alloc();
    let mut bytes = Bytes::with_room(alloc, 2)?;
    bytes.push(65)?;
    bytes.push(66)?;
    bytes.push(67)?;
    assert_eq!(rt; bytes.as_slice(), [65, 66, 67].as_slice());
    assert_eq!(rt; bytes.len(), 3);
    if bytes.len() == 3 {
        bytes.set(1, 90);
    }
    assert_eq!(rt; bytes.as_slice(), [65, 90, 67].as_slice());

    let mut names = Names::new(alloc);
    names.push(bytes)?;
    assert_eq!(rt; names.len(), 1);
    if names.len() == 1 {
        assert_eq!(rt; names.get(0), [65, 90, 67].as_slice());
    }
    names.clear();
    assert_eq!(rt; names.len(), 0);

    let mut sigs = Sigs::from_vec([Sig(4)].to_vec(alloc)?);
    sigs.push(Sig(5))?;
    assert_eq!(rt; sigs.into_vec().as_slice(), [Sig(4), Sig(5)].as_slice());

    let mut lits = Lits::new(alloc);
    lits.push(Lit {
        cell: Cell {
            cycle: 3,
            sig: Sig(1),
        },
        bit: true,
    })?;
    assert_eq!(rt; lits.len(), 1);
    Ok(())
}

#[test]
fn statements_are_kept_with_their_lines(rt: HostRuntime) -> Result<(), Fail> {
    let alloc = rt.alloc();
    let mut statements = Statements::with_room(alloc, 1)?;
    let name = Bytes::from_vec([97].to_vec(alloc)?);
    statements.push(Numbered {
        line: 3,
        statement: Statement::Input(name),
    })?;
    assert_eq!(rt; statements.len(), 1);
    if statements.len() == 1 {
        let first = statements.get(0);
        assert_eq!(rt; first.line, 3);
        match &first.statement {
            Statement::Input(name) => assert_eq!(rt; name.as_slice(), [97].as_slice()),
            _ => assert!(rt; false, "an input was pushed"),
        }
    }
    Ok(())
}

#[test]
fn a_refusal_reads_as_text(rt: HostRuntime) -> Result<(), Fail> {
    assert_eq!(rt; format!(in rt.alloc(); "{NoMemory}")?.as_str(), "no memory");
    Ok(())
}
