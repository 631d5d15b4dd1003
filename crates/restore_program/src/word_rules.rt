//! The commands, their files and their keys.
use sr_model::{MAX_CYCLES, MAX_SIGNALS};

/// What a key takes.
#[derive(Clone, Copy)]
pub(crate) enum Takes {
    /// A number from least to most.
    Number { least: u64, most: u64 },
    /// Names, parted by commas.
    Names,
    /// `yes` or `no`.
    Choice,
}

/// A key: its name, whether it has to be given, and what it takes.
#[derive(Clone, Copy)]
pub(crate) struct Key {
    pub(crate) name: &'static str,
    pub(crate) required: bool,
    pub(crate) takes: Takes,
}

/// A command: its name, how many files follow it, and the keys of the words behind them.
#[derive(Clone, Copy)]
pub(crate) struct Command {
    pub(crate) name: &'static str,
    pub(crate) files: usize,
    pub(crate) keys: &'static [Key],
}

pub(crate) const ALL: Key = Key {
    name: "all",
    required: false,
    takes: Takes::Choice,
};

pub(crate) const RESTORE: Command = Command {
    name: "restore",
    files: 2,
    keys: &[ALL],
};

pub(crate) const CYCLES: Key = Key {
    name: "cycles",
    required: true,
    takes: Takes::Number {
        least: 1,
        most: MAX_CYCLES,
    },
};

pub(crate) const SEED: Key = Key {
    name: "seed",
    required: true,
    takes: Takes::Number {
        least: 0,
        most: u64::MAX,
    },
};

pub(crate) const TRACE: Key = Key {
    name: "trace",
    required: true,
    takes: Takes::Names,
};

pub(crate) const SIMULATE: Command = Command {
    name: "simulate",
    files: 1,
    keys: &[CYCLES, SEED, TRACE],
};

pub(crate) const WIDTH: Key = Key {
    name: "width",
    required: true,
    takes: Takes::Number {
        least: 1,
        most: MAX_SIGNALS as u64,
    },
};

pub(crate) const SELECT: Command = Command {
    name: "select",
    files: 1,
    keys: &[WIDTH, CYCLES, SEED],
};

pub(crate) const PRINT: Command = Command {
    name: "print",
    files: 1,
    keys: &[],
};

pub(crate) const NUMBER: Key = Key {
    name: "number",
    required: true,
    takes: Takes::Number {
        least: 0,
        most: u64::MAX,
    },
};

pub(crate) const SIGNALS: Key = Key {
    name: "signals",
    required: true,
    takes: Takes::Number {
        least: 16,
        most: MAX_SIGNALS as u64,
    },
};

pub(crate) const CERTIFY: Command = Command {
    name: "certify",
    files: 2,
    keys: &[],
};

pub(crate) const CHECK: Command = Command {
    name: "check",
    files: 3,
    keys: &[],
};

pub(crate) const LOAD: Command = Command {
    name: "load",
    files: 0,
    keys: &[NUMBER, SIGNALS],
};
