//! A line without its comment, and its tokens.
ghost use Rattle.std.specs.Prelude.{◌≡◌, ◌<◌, ◌≤◌, ◌==◌, length, IfSome};
ghost use Rattle.std.specs.List.{prefix_len, suffix_len, position_or_len};
ghost use Rattle.sr_text.specs.Text.{is_blank, skip_blanks, drop_end_blanks, cut_line, token_at};

/// The line up to its first `#`, without blanks at either end. A blank is a tab, a carriage return or a space and nothing else.
/// The time is linear in the line's length.
#[tactic(auto, unfolding(crate::specs::Text::cut_line))]
pub fn cut(line: &[u8]) -> &[u8]
    ensures { result.now ≡ cut_line line.now }
{
    drop_end_blanks(skip_blanks(&line[..before_comment_len(line)]))
}

/// The text from its first byte that is not blank on.
pub fn skip_blanks(text: &[u8]) -> &[u8]
    ensures { result.now ≡ skip_blanks text.now }
{
    &text[blank_len(text)..]
}

/// The first token at or after `from`: a run of bytes that are not blank, as the index of its first byte and the index behind its last.
/// A `from` inside a token gives the rest of that token. The time is linear in what is passed over.
#[tactic(auto, unfolding(crate::specs::Text::token_at))]
pub fn token(line: &[u8], from: usize) -> Option<(usize, usize)>
    requires { from ≤ length line.now }
    ensures value { result ≡ token_at line.now from }
    ensures within { IfSome result (λ token. (from ≤ token.0) × (token.0 < token.1) × (token.1 ≤ length line.now)) }
{
    let start = from + blank_len(&line[from..]);
    if start < line.len() {
        Some((start, start + token_len(&line[start..])))
    } else {
        None
    }
}

/// The text up to its last byte that is not blank.
fn drop_end_blanks(text: &[u8]) -> &[u8]
    ensures { result.now ≡ drop_end_blanks text.now }
{
    &text[..text.len() - end_blank_len(text)]
}

/// How many bytes stand before the first `#`.
fn before_comment_len(line: &[u8]) -> usize
    ensures value { result ≡ position_or_len (λ b. b == 35) line.now }
    ensures within { result ≤ length line.now }
{
    line.iter().take_while(|byte| **byte != b'#').count()
}

/// How many blanks the text begins with.
fn blank_len(text: &[u8]) -> usize
    ensures value { result ≡ prefix_len is_blank text.now }
    ensures within { result ≤ length text.now }
{
    text.iter().take_while(|byte| is_blank(**byte)).count()
}

/// How many blanks the text ends with.
fn end_blank_len(text: &[u8]) -> usize
    ensures value { result ≡ suffix_len is_blank text.now }
    ensures within { result ≤ length text.now }
{
    text.iter()
        .rev()
        .take_while(|byte| is_blank(**byte))
        .count()
}

/// How many bytes stand before the first blank.
fn token_len(text: &[u8]) -> usize
    ensures value { result ≡ position_or_len is_blank text.now }
    ensures within { result ≤ length text.now }
{
    text.iter().take_while(|byte| !is_blank(**byte)).count()
}

fn is_blank(byte: u8) -> bool
    ensures { result ≡ is_blank byte }
{
    matches!(byte, b'\t' | b'\r' | b' ')
}
