//! What a line claims.
ghost use Rattle.std.specs.Prelude.{◌≡◌, ◌↔◌, ◌<◌, Some, IfOk, IfErr, IfSome, IsNone, IsSome, IsTrue};
ghost use Rattle.std.specs.List.{slice_get};
ghost use Rattle.sr_model.specs.declared.cells.Cell.{Cell as AnyCell};
ghost use Rattle.sr_model.specs.declared.cells.Place.{Place as AnyPlace};
ghost use Rattle.sr_model.specs.Netlist.{instance_at};
ghost use Rattle.unroll.specs.Problem.{signals_in, unrolled};
ghost use Rattle.certificates.specs.Forms.{form_seen};
ghost use Rattle.certificates.specs.Grammar.{IsCellOf, IsPlaceOf, Means, States};
ghost use Rattle.certificates.specs.Refusal.{IsLineRefusal};
ghost use Rattle.certificates.specs.declared.claim.Claim.{Claim as AnyClaim};

use crate::form::{Form, form_of};
use crate::refusal::CertRefusal;
use sr_model::{Cell, Lit, Place};
use unroll::Problem;

/// A literal, and the place of the instance that forces it.
#[derive(Clone, Copy, Debug, PartialEq, Eq)]
pub struct Fact {
    pub lit: Lit,
    pub place: Place,
}

/// What a line claims: that a literal is forced at a place, that no more follows, or that a cell has both literals.
#[derive(Clone, Copy, Debug, PartialEq, Eq)]
pub(crate) enum Claim {
    Forced(Fact),
    End,
    Contradiction(Cell),
}

/// The claim that a line makes.
pub(crate) fn read_claim(p: &Problem, line: u64, text: &[u8]) -> Result<Claim, CertRefusal>
    ensures claim { IfOk result (States p.now.circuit p.now.cycles text.now) }
    ensures refusal { IfErr result (IsLineRefusal p.now.circuit p.now.cycles line text.now) }
{
    let Some(form) = form_of(text) else {
        return Err(CertRefusal::CertSyntax { line });
    };
    let Some(claim) = claim_of(p, form) else {
        return Err(CertRefusal::CertCell { line });
    };
    Ok(claim)
}

/// The claim that a line of this form makes; None exactly where it names what is not there.
fn claim_of(p: &Problem, form: Form<'_>) -> Option<Claim>
    ensures some { IfSome result (Means p.now.circuit p.now.cycles (form_seen form.entry)) }
    ensures none { IsNone result → (claim : AnyClaim) → ¬ Means p.now.circuit p.now.cycles (form_seen form.entry) claim }
{
    match form {
        Form::Fact {
            name,
            cycle,
            bit,
            target,
            at,
        } => {
            let cell = cell_of(p, name, cycle)?;
            let place = place_of(p, target, at)?;
            let lit = Lit { cell, bit };
            Some(Claim::Forced(Fact { lit, place }))
        }
        Form::End => Some(Claim::End),
        Form::Contradiction { name, cycle } => {
            let cell = cell_of(p, name, cycle)?;
            Some(Claim::Contradiction(cell))
        }
    }
}

/// The cell of a name and a cycle.
fn cell_of(p: &Problem, name: &[u8], cycle: u64) -> Option<Cell>
    ensures some { IfSome result (IsCellOf p.now.circuit p.now.cycles name.now cycle) }
    ensures none { IsNone result → (cell : AnyCell) → ¬ IsCellOf p.now.circuit p.now.cycles name.now cycle cell }
{
    let sig = p.net().find(name)?;
    if cycle >= u64::from(p.cycles()) {
        return None;
    }
    let cycle = cycle as u32;
    Some(Cell { cycle, sig })
}

/// The place of a target's name and a cycle, where an instance stands.
fn place_of(p: &Problem, target: &[u8], at: u64) -> Option<Place>
    ensures some { IfSome result (IsPlaceOf p.now.circuit p.now.cycles target.now at) }
    ensures none { IsNone result → (place : AnyPlace) → ¬ IsPlaceOf p.now.circuit p.now.cycles target.now at place }
{
    let target = p.net().find(target)?;
    if at >= u64::from(p.cycles()) {
        return None;
    }
    let cycle = at as u32;
    let place = Place { cycle, target };
    if !stands(p, place) {
        return None;
    }
    Some(place)
}

/// Whether an instance stands at a place whose target and cycle are there.
fn stands(p: &Problem, place: Place) -> bool
    requires signal { place.target.0 < signals_in p.now }
    requires early { place.cycle < p.now.cycles }
    ensures { IsTrue result ↔ IsSome (instance_at (unrolled p.now) place) }
{
    match p.net().kind_of(place.target) {
        Some(kind) => !kind.is_flip_flop() || place.cycle + 1 < p.cycles(),
        None => false,
    }
}
