//! Why the text of a dump is refused.
use sr_model::NoMemory;

/// Why the text of a dump is refused: its first bad line, and the first of these that is so of it. Lines count from 1, and a line that is
/// missing has the number that it would have behind the last.
#[derive(Clone, Copy, Debug, PartialEq, Eq)]
pub enum DumpRefusal {
    /// The first line is not `srdump 1`.
    Head { line: u64 },
    /// The second line is not `cycles` and a number from 1 to 8,192.
    Cycles { line: u64 },
    /// The product of the signals and the blocks of 64 cycles is more than 4,194,304. The line is that of the cycles.
    TooManyCells { line: u64, product: u64 },
    /// A row has not two tokens.
    RowSyntax { line: u64 },
    /// Its first token is the name of no signal.
    UnknownSignal { line: u64 },
    /// Its signal has a row.
    TwiceNamed { line: u64 },
    /// It has not a character for each cycle.
    RowLength { line: u64 },
    /// One of its characters is none of `0`, `1`, `x` and `X`.
    BadBit { line: u64 },
    /// Memory was refused.
    NoMemory,
}

impl From<NoMemory> for DumpRefusal {
    ghost use Rattle.std.specs.Prelude.{◌≡◌};
    ghost use Rattle.dump_reader.specs.declared.refusal.DumpRefusal.TheVariants.{NoMemory};

    ghost from_gives = { λ _ e. e ≡ NoMemory };

    fn from(_: NoMemory) -> Self {
        DumpRefusal::NoMemory
    }
}
