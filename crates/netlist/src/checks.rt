//! Why a netlist is refused, and what is asked of its statements.
ghost use Rattle.std.specs.Prelude.{◌↔◌, All, IsTrue, length};
ghost use Rattle.sr_model.specs.Declaration.{declared, declaration_of};
ghost use Rattle.sr_model.specs.Room.{texts};
ghost use Rattle.netlist.specs.Numbering.{IsSignalName, IsStatement};

use sr_model::{Bytes, Names, NoMemory, Statement, Statements};
use sr_text::name_ok;

/// Why the statements of a text are no netlist.
#[derive(Debug, Drop)]
pub enum NetRefusal {
    /// There are more than 65,536 signals: this line first mentions the name of the one after those.
    TooManySignals { line: u64 },
    /// There are more than 1,048,576 pins: with this line their number first passes that.
    TooManyPins { line: u64 },
    /// The first line that drives a name that an earlier line drives.
    TwoDrivers { line: u64 },
    /// No line drives this name, which is mentioned before any other such name.
    NoDriver { name: Bytes },
    /// The gates drive each other in a loop of so many signals, this one among them.
    Loop { name: Bytes, length: u32 },
    /// Memory was refused.
    NoMemory,
}

impl From<NoMemory> for NetRefusal {
    ghost use Rattle.std.specs.Prelude.{◌≡◌};
    ghost use Rattle.netlist.specs.declared.checks.NetRefusal.TheVariants.{NoMemory};

    ghost from_gives = { λ _ e. e ≡ NoMemory };

    fn from(_: NoMemory) -> Self {
        NetRefusal::NoMemory
    }
}

/// Whether the statements are as a text has them: each kind has as many pins as it may have, and each name has 1 to 255 bytes that may stand in a name. It takes no memory.
pub fn are_statements(s: &Statements) -> bool
    ensures { IsTrue result ↔ All IsStatement (declared s.now) }
{
    for stated in s.as_slice() {
        if !is_statement(&stated.statement) {
            return false;
        }
    }
    true
}

fn is_statement(statement: &Statement) -> bool
    ensures { IsTrue result ↔ IsStatement (declaration_of statement.now) }
{
    match statement {
        Statement::Input(name) | Statement::OutputOf(name) => is_signal_name(name.as_slice()),
        Statement::Drive { target, kind, pins } => {
            kind.may_have(pins.len()) && is_signal_name(target.as_slice()) && are_signal_names(pins)
        }
    }
}

fn are_signal_names(names: &Names) -> bool
    ensures { IsTrue result ↔ All IsSignalName (texts names.now) }
{
    for name in names.as_slice() {
        if !is_signal_name(name.as_slice()) {
            return false;
        }
    }
    true
}

fn is_signal_name(name: &[u8]) -> bool
    ensures { IsTrue result ↔ IsSignalName name.now }
{
    name.len() <= 255 && name_ok(name)
}
