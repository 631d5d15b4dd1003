//! Command lines and what they ask for, worked out by hand.
use super::{Settings, WordRefusal, read_words};
use std::alloc::{AllocError, Global};
use std::test::*;

/// The words of a line, which are parted by one space or more.
fn words_of(alloc: Global, line: &str) -> Result<Vec<String>, AllocError> {
    let mut words = Vec::new(alloc);
    for word in line.split_ascii_whitespace() {
        words.push(String::from_str(alloc, word)?)?;
    }
    Ok(words)
}

#[test]
fn shapes(rt: HostRuntime) -> Result<(), Fail> {
    let lines = [
        "",
        "simulate",
        "Simulate net cycles=1 seed=0 trace=a",
        "restore net",
        "restore net dump more",
        "restore net dump cycles=1",
        "restore net dump yes",
        "restore net dump all",
        "restore net dump all=",
        "restore net dump all=maybe",
        "restore net dump all=Yes",
        "restore net dump all=yes,no",
        "restore net dump all=yes=",
        "restore net dump ALL=yes",
        "restore net dump all=yes all=no",
        "restore net dump all=no all=no",
        "restore net dump all=yes more",
        "print net all=yes",
        "simulate net cycles=1 seed=0",
        "simulate net cycles=1 seed=0 trace=a width=4",
        "simulate net cycles=1 seed=0 trace=a Seed=1",
        "simulate net cycles=1 seed=0 trace=a seed=0",
        "simulate net cycles=1 seed=0 trace=a more",
        "simulate net cycles=1 seed=0 trace=a =",
        "simulate net cycles seed=0 trace=a",
        "simulate cycles=1 seed=0 trace=a",
        "simulate net cycles=1 seed=0 trace=",
        "simulate net cycles=1 seed=0 trace=,",
        "simulate net cycles=1 seed=0 trace=a,,b",
        "simulate net cycles=1 seed=0 trace=a,b,",
        "simulate net cycles=0 seed=0 trace=",
        "simulate net cycles=0 cycles=1 seed=0 trace=a",
        "load",
        "load number=1",
        "load signals=16",
        "load number=1 number=1 signals=16",
        "load number=1 signals=16 signals=17",
        "load net number=1 signals=16",
        "load number=1 signals=16 net",
        "load number=1 signals=16 workers=1",
        "load number=1 signals=16 cycles=1",
        "load number=1 signals",
        "load number=1 Signals=16",
        "Load number=1 signals=16",
        "number=1 load signals=16",
        "load number=x signals=16 workers=1",
        "print net number=1 signals=16",
        "select net",
        "select net width=1 cycles=1",
        "select net width=1 seed=0",
        "select net cycles=1 seed=0",
        "select net width=1 cycles=1 seed=0 width=1",
        "select net width=1 cycles=1 seed=0 workers=1",
        "select net width=1 cycles=1 seed=0 trace=a",
        "select net dump width=1 cycles=1 seed=0",
        "select width=1 cycles=1 seed=0",
        "select net width=0 cycles=1 seed",
        "Select net width=1 cycles=1 seed=0",
        "simulate net width=1 cycles=1 seed=0",
        "certify",
        "certify net",
        "certify net dump cert",
        "certify net dump all=yes",
        "Certify net dump",
        "check net dump",
        "check net dump cert more",
        "check net dump cert workers=1",
        "checks net dump cert",
    ];
    for line in lines {
        let words = words_of(rt.alloc(), line)?;
        assert_eq!(rt; read_words(words.as_slice()), Err(WordRefusal::Usage));
    }
    Ok(())
}

#[test]
fn numbers(rt: HostRuntime) -> Result<(), Fail> {
    let lines = [
        ("simulate net cycles=0 seed=0 trace=a", 2),
        ("simulate net cycles=8193 seed=0 trace=a", 2),
        ("simulate net cycles=01 seed=0 trace=a", 2),
        ("simulate net cycles= seed=0 trace=a", 2),
        ("simulate net trace=a cycles=1 seed=18446744073709551616", 4),
        ("simulate net seed=+1 trace=a cycles=1", 2),
        ("simulate net seed=1= cycles=-1 trace=a", 2),
        ("simulate net trace=a cycles=1x seed=x", 3),
        ("load number=1 signals=15", 2),
        ("load number=1 signals=65537", 2),
        ("load signals=15 number=1", 1),
        ("load number=18446744073709551616 signals=16", 1),
        ("load signals=16 number=18446744073709551616", 2),
        ("load number=01 signals=16", 1),
        ("load number= signals=", 1),
        ("load signals=016 number=-1", 1),
        ("select net width=0 cycles=1 seed=0", 2),
        ("select net width=65537 cycles=1 seed=0", 2),
        ("select net cycles=8193 width=0 seed=x", 2),
        ("select net seed=x cycles=1 width=01", 2),
        ("select net seed=0 cycles=1 width=", 4),
    ];
    for (line, place) in lines {
        let words = words_of(rt.alloc(), line)?;
        assert_eq!(rt;
            read_words(words.as_slice()),
            Err(WordRefusal::Number { place })
        );
    }
    Ok(())
}

#[test]
fn commands(rt: HostRuntime) -> Result<(), Fail> {
    let lines = [
        ("restore net dump", Settings::Restore { all: false }),
        ("restore net dump all=no", Settings::Restore { all: false }),
        ("restore net dump all=yes", Settings::Restore { all: true }),
        ("restore net all=yes", Settings::Restore { all: false }),
        ("restore a=b cycles=1", Settings::Restore { all: false }),
        ("restore all=yes all=yes", Settings::Restore { all: false }),
        (
            "restore all=no all=yes all=yes",
            Settings::Restore { all: true },
        ),
        ("print restore", Settings::Print),
        ("certify net dump", Settings::Certify),
        ("certify all=yes all=no", Settings::Certify),
        ("check net dump cert", Settings::Check),
        ("check a=b c=d e=f", Settings::Check),
        (
            "select net width=1 cycles=8192 seed=0",
            Settings::Select {
                width: 1,
                cycles: 8_192,
                seed: 0,
            },
        ),
        (
            "select width=2 seed=18446744073709551615 width=65536 cycles=1",
            Settings::Select {
                width: 65_536,
                cycles: 1,
                seed: 18_446_744_073_709_551_615,
            },
        ),
        (
            "simulate net cycles=1 seed=0 trace=a",
            Settings::Simulate {
                cycles: 1,
                seed: 0,
                trace: 4,
            },
        ),
        (
            "simulate cycles=0 trace=a=b,c cycles=8192 seed=18446744073709551615",
            Settings::Simulate {
                cycles: 8192,
                seed: u64::MAX,
                trace: 2,
            },
        ),
        (
            "load number=1 signals=1600",
            Settings::Load {
                number: 1,
                signals: 1600,
            },
        ),
        (
            "load signals=1600 number=1",
            Settings::Load {
                number: 1,
                signals: 1600,
            },
        ),
        (
            "load number=0 signals=16",
            Settings::Load {
                number: 0,
                signals: 16,
            },
        ),
        (
            "load signals=65536 number=18446744073709551615",
            Settings::Load {
                number: u64::MAX,
                signals: 65536,
            },
        ),
        ("print load", Settings::Print),
    ];
    for (line, settings) in lines {
        let words = words_of(rt.alloc(), line)?;
        assert_eq!(rt; read_words(words.as_slice()), Ok(settings));
    }
    Ok(())
}
