//! Numbers in decimal.
ghost use Rattle.std.specs.Prelude.{◌≡◌, ◌↔◌, ◌+◌, ◌<◌, ◌≤◌, ◌^◌, ◌==◌, ◌||◌, ◌&&◌, ℕ, length, slice_index, nat_lt};
ghost use Rattle.std.specs.Fmt.{decimal};
ghost use Rattle.sr_text.specs.Numbers.{last_digit, thousandths, put_front};

use itoa::Buffer;

/// The number whose decimal form the text is: no sign, and no leading zero but in `0`. `None` where there is no such number below 2^64. The
/// time is linear in the text's length.
pub fn read_u64(text: &[u8]) -> Option<u64>
    ensures { (v : ℕ) → (result ≡ Some v) ↔ ((text.now ≡ decimal v) × (v < 2 ^ 64)) }
{
    if has_sign_or_leading_zero(text) {
        return None;
    }
    std::str::from_utf8(text).ok()?.parse().ok()
}

/// What `parse` reads and no decimal form has.
fn has_sign_or_leading_zero(text: &[u8]) -> bool
    ensures { result ≡ (slice_index text.now 0 == 43 || (slice_index text.now 0 == 48 && nat_lt 1 (length text.now))) }
{
    matches!(text, [b'+', ..] | [b'0', _, ..])
}

/// Writes the decimal form at the front and answers its length. The bytes behind it stand as they were.
pub fn write_u64(v: u64, into: &mut [u8; 20]) -> usize
    ensures len { result ≡ length (decimal v) }
    ensures short { result ≤ 20 }
    ensures text { into.new ≡ put_front (decimal v) into.old }
{
    write_decimal(v, into)
}

/// Writes a number of thousandths at the front, as `0.005` for 5, and answers its length. The bytes behind it stand as they were.
pub fn write_thousandths(v: u64, into: &mut [u8; 24]) -> usize
    ensures len { result ≡ length (thousandths v) }
    ensures short { result ≤ 24 }
    ensures text { into.new ≡ put_front (thousandths v) into.old }
{
    let len = write_decimal(v / 1000, into);
    let rest = [b'.', last_digit(v / 100), last_digit(v / 10), last_digit(v)];
    into[len..len + 4].copy_from_slice(&rest);
    len + 4
}

/// `write_u64` into any room that is large enough.
fn write_decimal(v: u64, into: &mut [u8]) -> usize
    requires { length (decimal v) ≤ length into.old }
    ensures len { result ≡ length (decimal v) }
    ensures short { result ≤ 20 }
    ensures text { into.new ≡ put_front (decimal v) into.old }
{
    let mut buffer = Buffer::new();
    let digits = buffer.format(v).as_bytes();
    into[..digits.len()].copy_from_slice(digits);
    digits.len()
}

/// The character of the ones.
fn last_digit(v: u64) -> u8
    ensures { result ≡ last_digit v }
{
    b'0' + (v % 10) as u8
}
