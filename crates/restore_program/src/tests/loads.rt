//! Whole runs of `load`. The lines were worked out by another program.
use super::{USAGE, expect_run};
use sr_outside::MemInputs;
use std::test::*;

#[test]
fn lines(rt: HostRuntime) -> Result<(), Fail> {
    let cases: [([&str; 3], &[u8]); 6] = [
        (
            ["load", "number=1", "signals=1600"],
            b"load number 1 signals 1600 flip_flops 200 traced 12800 known 35209 ratio 2.750\n",
        ),
        (
            ["load", "signals=1600", "number=1"],
            b"load number 1 signals 1600 flip_flops 200 traced 12800 known 35209 ratio 2.750\n",
        ),
        // two flip-flops, of which one is traced
        (
            ["load", "number=1", "signals=16"],
            b"load number 1 signals 16 flip_flops 2 traced 256 known 511 ratio 1.996\n",
        ),
        (
            ["load", "number=0", "signals=31"],
            b"load number 0 signals 31 flip_flops 3 traced 256 known 511 ratio 1.996\n",
        ),
        (
            ["load", "number=18446744073709551615", "signals=40"],
            b"load number 18446744073709551615 signals 40 flip_flops 5 traced 256 known 1275 ratio 4.980\n",
        ),
        (
            ["load", "number=7", "signals=1601"],
            b"load number 7 signals 1601 flip_flops 200 traced 12800 known 38699 ratio 3.023\n",
        ),
    ];
    for (words, line) in cases {
        // no input is held, and none is started
        let mut none = MemInputs::new(rt.alloc());
        expect_run(&rt, rt.alloc(), &words, &mut none, 100, (line, 0))?;
        expect_run(&rt, rt.alloc(), &words, &mut none, 4, (b"load", 6))?;
    }
    Ok(())
}

#[test]
fn refused_words(rt: HostRuntime) -> Result<(), Fail> {
    let number: &[u8] = b"srestore: words: 23 number number\n";
    let signals: &[u8] = b"srestore: words: 23 number signals\n";
    let cases: [(&[&str], &[u8]); 9] = [
        (&["load"], USAGE),
        (&["load", "number=1"], USAGE),
        (&["load", "net", "number=1", "signals=16"], USAGE),
        (&["load", "number=1", "signals=16", "all=yes"], USAGE),
        (&["load", "number=x", "signals=15"], number),
        (&["load", "signals=15", "number=x"], signals),
        (&["load", "number=1", "signals=65537"], signals),
        (
            &["load", "number=18446744073709551616", "signals=16"],
            number,
        ),
        (&["load", "number=1", "signals="], signals),
    ];
    for (words, line) in cases {
        let mut none = MemInputs::new(rt.alloc());
        expect_run(&rt, rt.alloc(), words, &mut none, 100, (line, 2))?;
    }
    Ok(())
}
