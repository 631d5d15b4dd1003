//! The form of a line.
ghost use Rattle.std.specs.Prelude.{◌≡◌, ◌↔◌, ◌∷◌, [], ℕ, Bool, IsTrue, IsNone, IfSome, Some};
ghost use Rattle.certificates.specs.Tokens.{tokens_of};
ghost use Rattle.certificates.specs.Forms.{IsHead, AreTokensOf, HasForm, LineForm, digit, forms_seen};

use sr_text::{name_ok, read_u64, token};

/// The format that the first line names.
const FORMAT: &[u8] = b"srcert";

/// Its version.
const VERSION: &[u8] = b"1";

/// What stands between a literal and the place that forces it.
const BY: &[u8] = b"by";

/// The last line, where there is no contradiction.
const END: &[u8] = b"end";

/// What the last line begins with, where there is one.
const CONTRADICTION: &[u8] = b"contradiction";

/// A line by its words and numbers, with names that have yet to be looked up.
#[derive(Clone, Copy)]
pub(crate) enum Form<'text> {
    /// A literal, and the target and cycle of the instance that forces it.
    Fact {
        name: &'text [u8],
        cycle: u64,
        bit: bool,
        target: &'text [u8],
        at: u64,
    },
    End,
    Contradiction {
        name: &'text [u8],
        cycle: u64,
    },
}

/// Whether it is the first line of a certificate.
pub(crate) fn is_head(text: &[u8]) -> bool
    ensures { IsTrue result ↔ IsHead text.now }
{
    let Some((first, rest)) = next_token(text) else {
        return false;
    };
    let Some((second, rest)) = next_token(rest) else {
        return false;
    };
    first == FORMAT && second == VERSION && next_token(rest).is_none()
}

/// The form of a line; None exactly where it has none. The time is linear in its length.
pub(crate) fn form_of<'text>(text: &'text [u8]) -> Option<Form<'text>>
    ensures { (form : LineForm) → (forms_seen result ≡ Some form) ↔ HasForm text.now form }
{
    let (first, rest) = next_token(text)?;
    let Some((second, rest)) = next_token(rest) else {
        return end_of(first);
    };
    let (third, rest) = next_token(rest)?;
    let Some((fourth, rest)) = next_token(rest) else {
        return contradiction_of(first, second, third);
    };
    let (fifth, rest) = next_token(rest)?;
    let (sixth, rest) = next_token(rest)?;
    if next_token(rest).is_some() {
        return None;
    }
    fact_of(first, second, third, fourth, fifth, sixth)
}

/// The first token of a text, and what stands behind it.
fn next_token<'text>(text: &'text [u8]) -> Option<(&'text [u8], &'text [u8])>
    ensures none { IsNone result → tokens_of text.now ≡ [] }
    ensures some { IfSome result (λ x. tokens_of text.now ≡ x.0.now ∷ tokens_of x.1.now) }
{
    let (start, end) = token(text, 0)?;
    Some((&text[start..end], &text[end..]))
}

fn end_of<'text>(word: &'text [u8]) -> Option<Form<'text>>
    ensures { (form : LineForm) → (forms_seen result ≡ Some form) ↔ AreTokensOf (word.now ∷ []) form }
{
    if word != END {
        return None;
    }
    Some(Form::End)
}

fn contradiction_of<'text>(
    word: &'text [u8],
    name: &'text [u8],
    cycle: &'text [u8],
) -> Option<Form<'text>>
    ensures { (form : LineForm) → (forms_seen result ≡ Some form) ↔ AreTokensOf (word.now ∷ name.now ∷ cycle.now ∷ []) form }
{
    if word != CONTRADICTION || !name_ok(name) {
        return None;
    }
    let cycle = read_u64(cycle)?;
    Some(Form::Contradiction { name, cycle })
}

fn fact_of<'text>(
    name: &'text [u8],
    cycle: &'text [u8],
    bit: &'text [u8],
    by: &'text [u8],
    target: &'text [u8],
    at: &'text [u8],
) -> Option<Form<'text>>
    ensures { (form : LineForm) → (forms_seen result ≡ Some form) ↔ AreTokensOf (name.now ∷ cycle.now ∷ bit.now ∷ by.now ∷ target.now ∷ at.now ∷ []) form }
{
    if by != BY || !name_ok(name) || !name_ok(target) {
        return None;
    }
    let cycle = read_u64(cycle)?;
    let bit = read_bit(bit)?;
    let at = read_u64(at)?;
    Some(Form::Fact {
        name,
        cycle,
        bit,
        target,
        at,
    })
}

fn read_bit(text: &[u8]) -> Option<bool>
    ensures { (bit : Bool) → (result ≡ Some bit) ↔ (text.now ≡ digit bit) }
{
    match text {
        [b'0'] => Some(false),
        [b'1'] => Some(true),
        _ => None,
    }
}
