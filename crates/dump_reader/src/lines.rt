//! The two tokens of a text.
ghost use Rattle.std.specs.Prelude.{◌≡◌, ◌↔◌, ℕ, List, Some};
ghost use Rattle.dump_reader.specs.Tokens.{HasTwoTokens, texts_of};

use sr_text::token;

/// The two tokens of a text that is no more than two tokens and blanks between them.
pub(crate) fn two_tokens(text: &[u8]) -> Option<(&[u8], &[u8])>
    ensures { (first second : List ℕ) → (texts_of result ≡ Some (first, second)) ↔ HasTwoTokens text.now first second }
{
    let (start, first_end) = token(text, 0)?;
    let (second_start, end) = token(text, first_end)?;
    if start > 0 || end < text.len() {
        return None;
    }
    Some((&text[..first_end], &text[second_start..]))
}
