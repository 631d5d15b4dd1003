//! Lines, names and numbers, with answers worked out by hand.
use crate::{cut, name_ok, read_u64, skip_blanks, token, write_thousandths, write_u64};
use std::test::*;

#[test]
fn cuts(rt: HostRuntime) {
    let cases: [(&[u8], &[u8]); 14] = [
        (b"", b""),
        (b" \t\r ", b""),
        (b"#", b""),
        (b"# all of it", b""),
        (b"  # all of it", b""),
        (b"a", b"a"),
        (b"INPUT(a)\r", b"INPUT(a)"),
        (b" \tb = NOT( a )\t \r", b"b = NOT( a )"),
        (b"INPUT(a) # first # second", b"INPUT(a)"),
        (b"a#b", b"a"),
        (b"a\rb", b"a\rb"),
        (b"\x0ba\x0c", b"\x0ba\x0c"),
        (b" \x0b ", b"\x0b"),
        (b"\na\n", b"\na\n"),
    ];
    for (line, answer) in cases {
        assert_eq!(rt; cut(line), answer);
    }
}

#[test]
fn blanks_are_skipped(rt: HostRuntime) {
    let cases: [(&[u8], &[u8]); 5] = [
        (b"", b""),
        (b"\t\r ", b""),
        (b" a b ", b"a b "),
        (b"\x0b a", b"\x0b a"),
        (b"\r\x0ca", b"\x0ca"),
    ];
    for (text, answer) in cases {
        assert_eq!(rt; skip_blanks(text), answer);
    }
}

#[test]
fn tokens(rt: HostRuntime) {
    let cases: [(&[u8], usize, Option<(usize, usize)>); 12] = [
        (b"", 0, None),
        (b" \t\r", 0, None),
        (b" \t\r", 3, None),
        (b"a", 0, Some((0, 1))),
        (b"a", 1, None),
        (b"cycles 64", 0, Some((0, 6))),
        (b"cycles 64", 2, Some((2, 6))),
        (b"cycles 64", 6, Some((7, 9))),
        (b"cycles 64\r", 7, Some((7, 9))),
        (b"  a\rb ", 0, Some((2, 3))),
        (b" \x0b\x0c ", 0, Some((1, 3))),
        (b" # ", 0, Some((1, 2))),
    ];
    for (line, from, answer) in cases {
        assert!(rt; from <= line.len());
        assert_eq!(rt; token(line, from), answer);
    }
}

#[test]
fn names(rt: HostRuntime) {
    let cases: [(&[u8], bool); 15] = [
        (b"", false),
        (b"a", true),
        (b"G17_gat[3].q~!", true),
        (b" ", false),
        (b"a b", false),
        (b"a\t", false),
        (b"a\x0b", false),
        (b"\x7f", false),
        (b"a\x80", false),
        (b"a(", false),
        (b")", false),
        (b"a,b", false),
        (b"a=b", false),
        (b"#", false),
        (b"a#b", false),
    ];
    for (name, answer) in cases {
        assert_eq!(rt; name_ok(name), answer);
    }
}

#[test]
fn numbers_are_read(rt: HostRuntime) {
    let cases: [(&[u8], Option<u64>); 17] = [
        (b"", None),
        (b" ", None),
        (b"0", Some(0)),
        (b"7", Some(7)),
        (b"64", Some(64)),
        (b"1000", Some(1000)),
        (b"18446744073709551615", Some(18446744073709551615)),
        (b"18446744073709551616", None),
        (b"99999999999999999999", None),
        (b"184467440737095516150", None),
        (b"00", None),
        (b"007", None),
        (b"+1", None),
        (b"-1", None),
        (b"1 ", None),
        (b"1a", None),
        (b"1\xff", None),
    ];
    for (text, answer) in cases {
        assert_eq!(rt; read_u64(text), answer);
    }
}

#[test]
fn numbers_are_written(rt: HostRuntime) {
    let cases: [(u64, &[u8]); 5] = [
        (0, b"0"),
        (9, b"9"),
        (10, b"10"),
        (4096, b"4096"),
        (u64::MAX, b"18446744073709551615"),
    ];
    for (v, text) in cases {
        let mut into = [b'#'; 20];
        let len = write_u64(v, &mut into);
        assert_eq!(rt; &into[..len], text);
        assert!(rt; into[len..].iter().all(|byte| *byte == b'#'));
    }
}

#[test]
fn thousandths_are_written(rt: HostRuntime) {
    let cases: [(u64, &[u8]); 8] = [
        (0, b"0.000"),
        (5, b"0.005"),
        (50, b"0.050"),
        (999, b"0.999"),
        (1000, b"1.000"),
        (1001, b"1.001"),
        (26041, b"26.041"),
        (u64::MAX, b"18446744073709551.615"),
    ];
    for (v, text) in cases {
        let mut into = [b'#'; 24];
        let len = write_thousandths(v, &mut into);
        assert_eq!(rt; &into[..len], text);
        assert!(rt; into[len..].iter().all(|byte| *byte == b'#'));
    }
}
