//! Checks a certificate, line by line.
ghost use Rattle.std.specs.Prelude.{◌≡◌, [], ◌<◌, ◌≤◌, All, IfErr, IfOk, List, OnOk, length, map};
ghost use Rattle.sr_model.specs.Limits.{block_count, max_blocks};
ghost use Rattle.sr_text.specs.Lines.{past, rest_of};
ghost use Rattle.certificates.specs.Checking.{ReadsHead, IsHeadRefusal, IsNotLast};
ghost use Rattle.certificates.specs.Refusal.{IsRefusal};
ghost use Rattle.certificates.specs.Validity.{IsValid, lits_of};
ghost use Rattle.certificates.specs.declared.claim.Fact.{Fact as AnyFact};

use crate::claim::{Claim, read_claim};
use crate::form::is_head;
use crate::known::Known;
use crate::refusal::CertRefusal;
use dump_reader::Dump;
use netlist::Netlist;
use sr_model::{Cell, Lits, Sequence};
use sr_text::TextLines;
use std::alloc::Global;
use unroll::Problem;

/// What a valid certificate says: the literal of each of its lines, in order, and the cell of its contradiction, if it ends in one.
#[derive(Drop)]
pub struct Facts {
    pub lits: Lits,
    pub clash: Option<Cell>,
}

/// The facts of a certificate, or why it is refused: its first line that is bad.
///
/// The time is linear in the lines, and in the signals of the gates that they name; memory is taken for the planes of the dump, and 12 bytes for
/// each line.
pub fn check_cert(alloc: Global, n: &Netlist, d: &Dump, bytes: &[u8]) -> Result<Facts, CertRefusal>
    requires signals { All (λ row. row.sig.0 < length n.now.drivers) d.now.rows }
    requires few { block_count (length n.now.drivers) d.now.cycles ≤ max_blocks }
    ensures valid { IfOk result (λ f. (facts : List AnyFact) × IsValid n.now d.now bytes.now facts f.clash × (f.lits.items ≡ lits_of facts)) }
    ensures refused { IfErr result (IsRefusal n.now d.now bytes.now) }
{
    let p = Problem::new(n, d.cycles());
    let mut lines = TextLines::new(bytes);
    read_head(&mut lines)?;
    let mut known = Known::new(alloc, &p, d)?;
    let mut lits = Sequence::new(alloc);
    while let Some((line, text)) = lines.next() {
        let claim = read_claim(&p, line, text)?;
        if !known.bears_out(&p, claim)? {
            return Err(CertRefusal::NotForced { line });
        }
        match claim {
            Claim::Forced(fact) => {
                known.add(&p, fact.lit);
                lits.push(fact.lit)?;
            }
            Claim::End => return last(&mut lines, lits, None),
            Claim::Contradiction(cell) => return last(&mut lines, lits, Some(cell)),
        }
    }
    Err(CertRefusal::CertSyntax {
        line: lines.passed() + 1,
    })
}

/// Reads the first line.
fn read_head(lines: &mut TextLines) -> Result<(), CertRefusal>
    ensures head { OnOk result (ReadsHead (rest_of lines.old) (rest_of lines.new)) }
    ensures past { past lines.new ≡ past lines.old }
    ensures refusal { IfErr result (IsHeadRefusal (past lines.old) (rest_of lines.old)) }
{
    let Some((line, text)) = lines.next() else {
        return Err(CertRefusal::CertHead {
            line: lines.passed() + 1,
        });
    };
    if !is_head(text) {
        return Err(CertRefusal::CertHead { line });
    }
    Ok(())
}

/// The facts, where no line stands behind the last one.
fn last(lines: &mut TextLines, lits: Lits, clash: Option<Cell>) -> Result<Facts, CertRefusal>
    ensures facts { IfOk result (λ f. (rest_of lines.old ≡ []) × (f.lits.items ≡ lits.items) × (f.clash ≡ clash)) }
    ensures refusal { IfErr result (IsNotLast (rest_of lines.old)) }
{
    match lines.next() {
        Some((line, _)) => Err(CertRefusal::CertSyntax { line }),
        None => Ok(Facts { lits, clash }),
    }
}
