//! Which statements are refused, and for what.
use super::{Row, statements_of, told};
use crate::{are_statements, circuit_laws, numbering_laws, refusal_laws};
use sr_model::Kind;
use std::test::Fail;

/// One byte more than a name may have.
const LONG: &[u8] = &[b'n'; 256];

#[test]
fn causes_in_their_order(rt: HostRuntime) -> Result<(), Fail> {
    let cases: [(&[Row<'_>], &[u8]); 12] = [
        (&[], b"accepted"),
        (
            &[Row::Input(b"a"), Row::Drive(b"n", Kind::Not, &[b"a"])],
            b"accepted",
        ),
        // a name of an OUTPUT alone has a number, and no driver
        (&[Row::Output(b"a")], b"no driver a"),
        (
            &[Row::Output(b"a"), Row::Output(b"a"), Row::Input(b"a")],
            b"accepted",
        ),
        (&[Row::Drive(b"z", Kind::Not, &[b"a"])], b"no driver a"),
        // the least number: the pins from left to right, before later lines
        (
            &[
                Row::Drive(b"z", Kind::And, &[b"b", b"a"]),
                Row::Output(b"c"),
            ],
            b"no driver b",
        ),
        (
            &[Row::Output(b"c"), Row::Drive(b"z", Kind::Or, &[b"y", b"a"])],
            b"no driver c",
        ),
        (
            &[Row::Input(b"a"), Row::Drive(b"a", Kind::Not, &[b"a"])],
            b"line 2: two drivers",
        ),
        // two drivers before no driver, and the first such line
        (
            &[
                Row::Output(b"c"),
                Row::Input(b"a"),
                Row::Input(b"b"),
                Row::Input(b"b"),
                Row::Input(b"a"),
            ],
            b"line 4: two drivers",
        ),
        (
            &[Row::Input(b"a"), Row::Output(b"a"), Row::Input(b"a")],
            b"line 3: two drivers",
        ),
        // no driver before a loop
        (
            &[
                Row::Drive(b"g", Kind::Not, &[b"g"]),
                Row::Drive(b"h", Kind::Nand, &[b"g", b"i"]),
            ],
            b"no driver i",
        ),
        // two drivers before a loop
        (
            &[
                Row::Drive(b"g", Kind::Not, &[b"g"]),
                Row::Drive(b"g", Kind::Not, &[b"g"]),
            ],
            b"line 2: two drivers",
        ),
    ];
    for (rows, answer) in cases {
        let statements = statements_of(rt.alloc(), rows)?;
        assert_eq!(rt; told(&rt, rt.alloc(), statements)?.as_slice(), answer);
    }
    numbering_laws();
    refusal_laws();
    circuit_laws();
    Ok(())
}

#[test]
fn loops_by_name(rt: HostRuntime) -> Result<(), Fail> {
    let cases: [(&[Row<'_>], &[u8]); 6] = [
        (
            &[
                Row::Output(b"a"),
                Row::Drive(b"a", Kind::Not, &[b"b"]),
                Row::Drive(b"b", Kind::Not, &[b"a"]),
            ],
            b"loop 2 a",
        ),
        // through a flip-flop there is none
        (
            &[
                Row::Drive(b"a", Kind::Not, &[b"q"]),
                Row::Drive(b"q", Kind::Dff, &[b"a"]),
            ],
            b"accepted",
        ),
        (&[Row::Drive(b"q", Kind::Dff, &[b"q"])], b"accepted"),
        (
            &[
                Row::Input(b"i"),
                Row::Drive(b"t", Kind::Not, &[b"g"]),
                Row::Drive(b"g", Kind::Xor, &[b"i", b"g"]),
            ],
            b"loop 1 g",
        ),
        (
            &[
                Row::Drive(b"t", Kind::Buf, &[b"a"]),
                Row::Drive(b"a", Kind::Not, &[b"b"]),
                Row::Drive(b"b", Kind::Nor, &[b"i", b"a"]),
                Row::Input(b"i"),
            ],
            b"loop 2 a",
        ),
        // behind a tail of two; of the pins that loops feed the first is taken
        (
            &[
                Row::Drive(b"t", Kind::And, &[b"i", b"u"]),
                Row::Drive(b"u", Kind::Not, &[b"c"]),
                Row::Drive(b"c", Kind::And, &[b"d", b"c"]),
                Row::Drive(b"d", Kind::Not, &[b"e"]),
                Row::Drive(b"e", Kind::Not, &[b"f"]),
                Row::Drive(b"f", Kind::Or, &[b"i", b"g"]),
                Row::Drive(b"g", Kind::Xnor, &[b"c", b"g"]),
                Row::Input(b"i"),
            ],
            b"loop 5 c",
        ),
    ];
    for (rows, answer) in cases {
        let statements = statements_of(rt.alloc(), rows)?;
        assert_eq!(rt; told(&rt, rt.alloc(), statements)?.as_slice(), answer);
    }
    Ok(())
}

#[test]
fn no_text_has_these(rt: HostRuntime) -> Result<(), Fail> {
    let cases: [&[Row<'_>]; 6] = [
        &[Row::Input(b"")],
        &[Row::Output(b"a b")],
        &[Row::Input(LONG)],
        &[Row::Drive(b"a", Kind::And, &[])],
        &[Row::Drive(b"a", Kind::Not, &[b"b", b"b"])],
        &[Row::Drive(b"a", Kind::And, &[b"b", b"#"])],
    ];
    for rows in cases {
        let statements = statements_of(rt.alloc(), rows)?;
        assert!(rt; !are_statements(&statements));
    }
    Ok(())
}
