//! The numbers that words give to keys.
ghost use Rattle.std.specs.Prelude.{◌≡◌, ◌↔◌, ◌≤◌, IsTrue, Some, ℕ, map, Any};
ghost use Rattle.std.specs.Fmt.{decimal};
ghost use Rattle.std.specs.String.{string_bytes};
ghost use Rattle.restore_program.specs.Words.{IsBad, IsNumber};
ghost use Rattle.restore_program.specs.WordRules.{FindsNumber, FirstPlace, IsBadFor, key_rule_of, taken_by};

use crate::word_keys::{place_of, value_of};
use crate::word_rules::{Key, Takes};
use sr_text::read_u64;

/// The number that these words give to the key.
pub(crate) fn number_of(words: &[String], key: &Key) -> Option<u64>
    ensures { FindsNumber (key_rule_of key.now) (map string_bytes words.now) result }
{
    let place = place_of(words, key)?;
    let value = value_of(words[place].as_str(), key.name)?;
    number_in(value, key.takes)
}

/// The place of the first of these words that gives one of the keys a number which it may not have.
pub(crate) fn bad_number(words: &[String], keys: &[Key]) -> Option<usize>
    ensures { FirstPlace (λ word. Any (IsBadFor word) (map key_rule_of keys.now)) (map string_bytes words.now) result }
{
    for (i, word) in words.iter().enumerate() {
        if has_bad_number(word.as_str(), keys) {
            return Some(i);
        }
    }
    None
}

fn has_bad_number(word: &str, keys: &[Key]) -> bool
    ensures { IsTrue result ↔ Any (IsBadFor word.now) (map key_rule_of keys.now) }
{
    for key in keys {
        if is_bad_for(word, key) {
            return true;
        }
    }
    false
}

fn is_bad_for(word: &str, key: &Key) -> bool
    ensures { IsTrue result ↔ IsBadFor word.now (key_rule_of key.now) }
{
    match value_of(word, key.name) {
        Some(value) => is_bad(value, key.takes),
        None => false,
    }
}

fn is_bad(value: &str, takes: Takes) -> bool
    ensures { IsTrue result ↔ IsBad (taken_by takes) value.now }
{
    match takes {
        Takes::Number { .. } => number_in(value, takes).is_none(),
        Takes::Names | Takes::Choice => false,
    }
}

/// The number that the value stands for, if the key may have it.
fn number_in(value: &str, takes: Takes) -> Option<u64>
    ensures { (n : ℕ) → (result ≡ Some n) ↔ IsNumber (taken_by takes) value.now n }
{
    match takes {
        Takes::Number { least, most } => number_between(value, least, most),
        Takes::Names | Takes::Choice => None,
    }
}

fn number_between(value: &str, least: u64, most: u64) -> Option<u64>
    ensures { (n : ℕ) → (result ≡ Some n) ↔ ((value.now ≡ decimal n) × (least ≤ n) × (n ≤ most)) }
{
    let number = read_u64(value.as_bytes())?;
    if number < least || most < number {
        return None;
    }
    Some(number)
}
