//! How a run ends.
ghost use Rattle.std.specs.Prelude.{◌≡◌};

/// How a run ends. The program's exit code is the status's code.
#[derive(Clone, Copy, Debug, PartialEq, Eq)]
pub enum Status {
    /// The result was written.
    Done,
    /// A contradiction was written.
    Contradiction,
    /// The words are refused.
    Words,
    /// The netlist is refused.
    Netlist,
    /// The dump is refused.
    Dump,
    /// Reading failed.
    ReadFault,
    /// Writing failed.
    WriteFault,
    /// Memory was refused.
    NoMemory,
    /// The certificate is refused.
    Certificate,
}

impl Status {
    ghost use Rattle.restore_program.specs.Status.{code_of};

    /// The code, 0 to 8 in this order.
    pub fn code(&self) -> u8
        ensures { result ≡ code_of self.now }
    {
        match self {
            Status::Done => 0,
            Status::Contradiction => 1,
            Status::Words => 2,
            Status::Netlist => 3,
            Status::Dump => 4,
            Status::ReadFault => 5,
            Status::WriteFault => 6,
            Status::NoMemory => 7,
            Status::Certificate => 8,
        }
    }
}
