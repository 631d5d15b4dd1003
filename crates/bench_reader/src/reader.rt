//! The whole grammar of a netlist's text.
ghost use Rattle.std.specs.Prelude.{◌≡◌, map, All, IfOk, IfErr};
ghost use Rattle.std.specs.List.{list_all};
ghost use Rattle.sr_model.specs.Declaration.{declared, declarations_of, declaration_of};
ghost use Rattle.sr_model.specs.Room.{texts};
ghost use Rattle.netlist.specs.Numbering.{IsStatement};
ghost use Rattle.bench_reader.specs.Grammar.{Spells, States, HasRightPins, Declares, is_short, signal_names};
ghost use Rattle.bench_reader.specs.Refusal.{IsRefusal, IsLineRefusal, IsFormRefusal};
ghost use Rattle.bench_reader.specs.Found.{form_with};

use crate::form::{Form, read_form};
use crate::kinds::kind_named;
use sr_model::{Names, NoMemory, Numbered, Sequence, Statement, Statements, to_bytes};
use sr_text::TextLines;
use std::alloc::Global;

const MAX_NAME_BYTES: usize = 255;

/// Why a netlist's text is refused: its first line that is not in the grammar. Lines count from 1.
#[derive(Clone, Copy, Debug, PartialEq, Eq)]
pub enum BenchRefusal {
    /// It has none of the three forms.
    Syntax { line: u64 },
    /// A signal's name has more than 255 bytes.
    NameLong { line: u64 },
    /// Its word is that of no kind.
    UnknownKind { line: u64 },
    /// Its kind may not have so many pins.
    WrongPins { line: u64 },
    /// Memory was refused.
    NoMemory,
}

impl From<NoMemory> for BenchRefusal {
    ghost use Rattle.bench_reader.specs.declared.reader.BenchRefusal.TheVariants.{NoMemory};

    ghost from_gives = { λ _ e. e ≡ NoMemory };

    fn from(_: NoMemory) -> Self {
        BenchRefusal::NoMemory
    }
}

/// The statements of a text, in the order of its lines.
///
/// A line is cut at its first `#`, and has one of the forms `INPUT(name)`, `OUTPUT(name)` and `name = KIND(name, name)`, with tabs, spaces and
/// carriage returns round each token. An empty line states nothing. INPUT, OUTPUT and KIND stand in any case; BUF and BUFF are one kind.
/// A name has 1 to 255 bytes from 33 to 126, and none of `( ) , = #`. NOT, BUF, BUFF and DFF have one pin, other kinds 1 to 1,024.
///
/// Each byte is read once, and each name takes one allocation.
pub fn read_bench(alloc: Global, bytes: &[u8]) -> Result<Statements, BenchRefusal>
    ensures statements { IfOk result (λ s. Spells bytes.now (declarations_of s)) }
    ensures each { IfOk result (λ s. All IsStatement (declared s)) }
    ensures refusal { IfErr result (IsRefusal bytes.now) }
{
    let mut statements = Sequence::new(alloc);
    let mut pins = Vec::new(alloc);
    let mut lines = TextLines::new(bytes);
    while let Some((line, text)) = lines.next() {
        let statement = read_statement(alloc, text, line, &mut pins)?;
        statements.push(Numbered { line, statement })?;
    }
    Ok(statements)
}

/// The statement of a cut line. The pins are room to read into.
fn read_statement<'text>(
    alloc: Global,
    text: &'text [u8],
    line: u64,
    pins: &mut Vec<&'text [u8]>,
) -> Result<Statement, BenchRefusal>
    ensures statement { IfOk result (λ s. States text.now (declaration_of s)) }
    ensures refusal { IfErr result (IsLineRefusal text.now line) }
{
    let Some(form) = read_form(text, pins)? else {
        return Err(BenchRefusal::Syntax { line });
    };
    if !has_short_names(&form, pins.as_slice()) {
        return Err(BenchRefusal::NameLong { line });
    }
    to_statement(alloc, &form, pins.as_slice(), line)
}

/// Whether no signal's name is too long.
fn has_short_names(form: &Form, pins: &[&[u8]]) -> bool
    ensures { result ≡ list_all is_short (signal_names (form_with pins.now form.now)) }
{
    match *form {
        Form::Input(name) | Form::Output(name) => is_short(name),
        Form::Driver { target, .. } => is_short(target) && are_short(pins),
    }
}

fn are_short(names: &[&[u8]]) -> bool
    ensures { result ≡ list_all (λ name. is_short name.now) names.now }
{
    names.iter().all(|name| is_short(name))
}

fn is_short(name: &[u8]) -> bool
    ensures { result ≡ is_short name.now }
{
    name.len() <= MAX_NAME_BYTES
}

/// The statement of a form with short names, with names of its own.
fn to_statement(
    alloc: Global,
    form: &Form,
    pins: &[&[u8]],
    line: u64,
) -> Result<Statement, BenchRefusal>
    ensures statement { IfOk result (λ s. HasRightPins (form_with pins.now form.now) × Declares (form_with pins.now form.now) (declaration_of s)) }
    ensures refusal { IfErr result (IsFormRefusal (form_with pins.now form.now) line) }
{
    match *form {
        Form::Input(name) => Ok(Statement::Input(to_bytes(alloc, name)?)),
        Form::Output(name) => Ok(Statement::OutputOf(to_bytes(alloc, name)?)),
        Form::Driver { target, word } => {
            let Some(kind) = kind_named(word) else {
                return Err(BenchRefusal::UnknownKind { line });
            };
            if !kind.may_have(pins.len()) {
                return Err(BenchRefusal::WrongPins { line });
            }
            let target = to_bytes(alloc, target)?;
            let pins = to_names(alloc, pins)?;
            Ok(Statement::Drive { target, kind, pins })
        }
    }
}

fn to_names(alloc: Global, names: &[&[u8]]) -> Result<Names, NoMemory>
    ensures { IfOk result (λ copies. texts copies ≡ map (λ name. name.now) names.now) }
{
    let mut copies = Sequence::with_room(alloc, names.len())?;
    for name in names {
        copies.push(to_bytes(alloc, name)?)?;
    }
    Ok(copies)
}
