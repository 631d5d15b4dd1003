//! Reads the form of one line.
ghost use Rattle.std.specs.Prelude.{◌≡◌, ◌<◌, ◌≤◌, ◌↔◌, ℕ, List, [], ◌∷◌, length, map, option_map, Some, IsNone, IfSome, IfOk, IsTrue, false};
ghost use denote.Bor.{Bor};
ghost use Rattle.std.specs.List.{prefix_len};
ghost use Rattle.std.specs.Str.{str_eq_ignore_ascii_case};
ghost use Rattle.sr_text.specs.Name.{is_name_byte};
ghost use Rattle.bench_reader.specs.Grammar.{Token, Name, Close, Equals, tokens, is_mark, mark_of, pin_tokens};
ghost use Rattle.bench_reader.specs.Found.{IsFound, form_of};

use sr_model::NoMemory;
use sr_text::{is_name_byte, skip_blanks};
use std::alloc::AllocFailed;

/// The form of a line, with its names where they stand in the text. A driver's pins stand beside it.
#[derive(Clone, Copy)]
pub(crate) enum Form<'text> {
    /// `INPUT(name)`
    Input(&'text [u8]),
    /// `OUTPUT(name)`
    Output(&'text [u8]),
    /// `target = word(pins)`
    Driver {
        target: &'text [u8],
        word: &'text [u8],
    },
}

/// The form that a text has, if it has one, and the pins that it has then.
pub(crate) fn read_form<'text>(
    text: &'text [u8],
    pins: &mut Vec<&'text [u8]>,
) -> Result<Option<Form<'text>>, NoMemory>
    ensures { IfOk result (λ form. IsFound [] text.now (form_of pins.new.items form)) }
{
    let Some((first, rest)) = read_name(text) else {
        return Ok(None);
    };
    match read_mark(rest, b'=') {
        Some(rest) => read_driver(first, rest, pins),
        None => Ok(read_port(first, rest)),
    }
}

/// An input or an output, behind its word.
fn read_port<'text>(word: &'text [u8], text: &'text [u8]) -> Option<Form<'text>>
    requires no_driver { (ts : List Token) → tokens text.now ≡ Some (Equals ∷ ts) → ⊥ }
    ensures { (pins : List (Bor (List ℕ))) → IsFound (Name word.now ∷ []) text.now (form_of pins result) }
{
    let rest = read_mark(text, b'(')?;
    let (name, rest) = read_name(rest)?;
    if !is_closed(rest) {
        return None;
    }
    if word.eq_ignore_ascii_case(b"INPUT") {
        Some(Form::Input(name))
    } else if word.eq_ignore_ascii_case(b"OUTPUT") {
        Some(Form::Output(name))
    } else {
        None
    }
}

/// A driver, behind its target and the equals sign.
fn read_driver<'text>(
    target: &'text [u8],
    text: &'text [u8],
    pins: &mut Vec<&'text [u8]>,
) -> Result<Option<Form<'text>>, NoMemory>
    ensures { IfOk result (λ form. IsFound (Name target.now ∷ Equals ∷ []) text.now (form_of pins.new.items form)) }
{
    let Some((word, rest)) = read_name(text) else {
        return Ok(None);
    };
    let Some(rest) = read_mark(rest, b'(') else {
        return Ok(None);
    };
    if read_pins(rest, pins)? {
        Ok(Some(Form::Driver { target, word }))
    } else {
        Ok(None)
    }
}

/// Reads one pin at least, with commas between them and a bracket behind the last. Whether the text is no more and no less.
fn read_pins<'text>(text: &'text [u8], pins: &mut Vec<&'text [u8]>) -> Result<bool, NoMemory>
    ensures found { IfOk result (λ whole. IsTrue whole → (tokens text.now ≡ Some (pin_tokens (map (λ pin. pin.now) pins.new.items))) × (0 < length pins.new.items)) }
    ensures none { IfOk result (λ whole. whole ≡ false → (names : List (List ℕ)) → 0 < length names → tokens text.now ≡ Some (pin_tokens names) → ⊥) }
{
    pins.clear();
    let mut rest = text;
    loop {
        let Some((pin, after)) = read_name(rest) else {
            return Ok(false);
        };
        match pins.push(pin) {
            Ok(()) => {}
            Err(AllocFailed { value: _ }) => return Err(NoMemory),
        }
        match read_mark(after, b',') {
            Some(after_comma) => rest = after_comma,
            None => return Ok(is_closed(after)),
        }
    }
}

/// The name at the front of a text, and what stands behind it.
fn read_name(text: &[u8]) -> Option<(&[u8], &[u8])>
    ensures some { IfSome result (λ x. tokens text.now ≡ option_map (λ ts. Name x.0.now ∷ ts) (tokens x.1.now)) }
    ensures none { IsNone result → (name : List ℕ) (ts : List Token) → tokens text.now ≡ Some (Name name ∷ ts) → ⊥ }
    ensures shorter { IfSome result (λ x. length x.1.now < length text.now) }
{
    let text = skip_blanks(text);
    let len = name_len(text);
    if len == 0 {
        None
    } else {
        Some(text.split_at(len))
    }
}

/// What stands behind a mark at the front of a text.
fn read_mark(text: &[u8], mark: u8) -> Option<&[u8]>
    requires { IsTrue (is_mark mark) }
    ensures some { IfSome result (λ rest. tokens text.now ≡ option_map (λ ts. mark_of mark ∷ ts) (tokens rest.now)) }
    ensures none { IsNone result → (ts : List Token) → tokens text.now ≡ Some (mark_of mark ∷ ts) → ⊥ }
    ensures shorter { IfSome result (λ rest. length rest.now < length text.now) }
{
    let (first, rest) = skip_blanks(text).split_first()?;
    if *first == mark { Some(rest) } else { None }
}

/// Whether a text is a closing bracket and blanks.
fn is_closed(text: &[u8]) -> bool
    ensures { IsTrue result ↔ (tokens text.now ≡ Some (Close ∷ [])) }
{
    match read_mark(text, b')') {
        Some(rest) => skip_blanks(rest).is_empty(),
        None => false,
    }
}

fn name_len(text: &[u8]) -> usize
    ensures { result ≡ prefix_len is_name_byte text.now }
{
    text.iter().take_while(|byte| is_name_byte(**byte)).count()
}
