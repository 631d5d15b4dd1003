//! Prints the certificate of a log.
ghost use Rattle.std.specs.Prelude.{◌≡◌, ◌<◌, ◌++◌, All, IfOk, OnOk, length};
ghost use Rattle.std.specs.Fmt.{decimal};
ghost use Rattle.sr_text.specs.Lines.{with_line_feed};
ghost use Rattle.certificates.specs.Logs.{IsClashIn, IsStepIn, facts_of};
ghost use Rattle.certificates.specs.Printed.{at_cycle, cert_text, fact_line, head_line, last_line};

use crate::claim::Fact;
use netlist::Netlist;
use plain_close::Log;
use sr_model::{Bytes, Cell, NoMemory, Sequence, Sig};
use sr_text::write_u64;
use std::alloc::{AllocError, Global};

/// The certificate of a log: the line `srcert 1`, a line for each step, as `G17 0 1 by G17 0`, and last the line `end`, or one as `contradiction G11 0`.
///
/// The time is linear in the text's length, and memory is taken for many lines at once.
pub fn print_cert(alloc: Global, n: &Netlist, log: &Log) -> Result<Bytes, NoMemory>
    requires steps { All (IsStepIn (length n.now.drivers)) log.now.steps.items }
    requires clash { IsClashIn (length n.now.drivers) log.now.clash }
    ensures { IfOk result (λ text. text.items ≡ cert_text n.now.names (facts_of log.now.steps.items) log.now.clash) }
{
    let mut text = Vec::new(alloc);
    push_head(&mut text)?;
    for step in log.steps.as_slice() {
        let fact = Fact {
            lit: step.lit,
            place: step.place,
        };
        push_fact(&mut text, n, fact)?;
    }
    push_last(&mut text, n, log.clash)?;
    Ok(Sequence::from_vec(text))
}

/// Adds the first line.
pub(crate) fn push_head(text: &mut Vec<u8>) -> Result<(), NoMemory>
    ensures { OnOk result (text.new.items ≡ text.old.items ++ with_line_feed head_line) }
{
    push_text(text, b"srcert 1\n")
}

/// Adds the line of a fact, which has 550 bytes at most where no name has more than 255.
pub(crate) fn push_fact(text: &mut Vec<u8>, n: &Netlist, fact: Fact) -> Result<(), NoMemory>
    requires signal { fact.lit.cell.sig.0 < length n.now.drivers }
    requires target { fact.place.target.0 < length n.now.drivers }
    ensures { OnOk result (text.new.items ≡ text.old.items ++ with_line_feed (fact_line n.now.names fact)) }
{
    push_at(text, n, fact.lit.cell.sig, fact.lit.cell.cycle)?;
    push_text(text, if fact.lit.bit { b" 1 by " } else { b" 0 by " })?;
    push_at(text, n, fact.place.target, fact.place.cycle)?;
    push_text(text, b"\n")
}

/// Adds the last line.
pub(crate) fn push_last(
    text: &mut Vec<u8>,
    n: &Netlist,
    clash: Option<Cell>,
) -> Result<(), NoMemory>
    requires { IsClashIn (length n.now.drivers) clash }
    ensures { OnOk result (text.new.items ≡ text.old.items ++ with_line_feed (last_line n.now.names clash)) }
{
    match clash {
        None => push_text(text, b"end\n"),
        Some(cell) => {
            push_text(text, b"contradiction ")?;
            push_at(text, n, cell.sig, cell.cycle)?;
            push_text(text, b"\n")
        }
    }
}

/// A signal's name and a cycle.
fn push_at(text: &mut Vec<u8>, n: &Netlist, sig: Sig, cycle: u32) -> Result<(), NoMemory>
    requires { sig.0 < length n.now.drivers }
    ensures { OnOk result (text.new.items ≡ text.old.items ++ at_cycle n.now.names sig cycle) }
{
    push_text(text, n.name(sig))?;
    push_text(text, b" ")?;
    let mut digits = [0; 20];
    let len = write_u64(u64::from(cycle), &mut digits);
    push_text(text, &digits[..len])
}

fn push_text(text: &mut Vec<u8>, more: &[u8]) -> Result<(), NoMemory>
    ensures { OnOk result (text.new.items ≡ text.old.items ++ more.now) }
{
    match text.extend_from_slice(more) {
        Ok(()) => Ok(()),
        Err(AllocError) => Err(NoMemory),
    }
}
