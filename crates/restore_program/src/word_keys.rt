//! Words of the form `key=value`.
ghost use Rattle.std.specs.Prelude.{◌≡◌, ◌↔◌, IsTrue, Some, List, ℕ, codes, map, option_map, All, Any};
ghost use Rattle.std.specs.String.{string_bytes};
ghost use Rattle.restore_program.specs.Words.{Gives, HasShape, IsFor, IsGivenRight, Suits};
ghost use Rattle.restore_program.specs.WordRules.{FirstPlace, key_rule_of, taken_by};

use crate::word_rules::{Key, Takes};

/// The value that the word gives to the key of this name.
pub(crate) fn value_of<'word>(word: &'word str, name: &str) -> Option<&'word str>
    ensures { (value : List ℕ) → (option_map (λ v. v.now) result ≡ Some value) ↔ Gives word.now name.now value }
{
    let (key, value) = word.split_once('=')?;
    if key == name { Some(value) } else { None }
}

/// The place of the first of these words that gives the key a value.
pub(crate) fn place_of(words: &[String], key: &Key) -> Option<usize>
    ensures { FirstPlace (IsFor (key_rule_of key.now)) (map string_bytes words.now) result }
{
    for (i, word) in words.iter().enumerate() {
        if value_of(word.as_str(), key.name).is_some() {
            return Some(i);
        }
    }
    None
}

/// Whether one of these words gives the key the value `yes`.
pub(crate) fn is_chosen(words: &[String], key: &Key) -> bool
    ensures { IsTrue result ↔ Any (λ word. Gives word key.now.name.now (codes "yes")) (map string_bytes words.now) }
{
    for word in words {
        if gives_yes(word.as_str(), key.name) {
            return true;
        }
    }
    false
}

fn gives_yes(word: &str, name: &str) -> bool
    ensures { IsTrue result ↔ Gives word.now name.now (codes "yes") }
{
    match value_of(word, name) {
        Some(value) => value == "yes",
        None => false,
    }
}

/// Whether each of these words suits one of the keys, and the keys are given as they have to be.
pub(crate) fn suit_all(words: &[String], keys: &[Key]) -> bool
    ensures { IsTrue result ↔ (All (λ word. Any (Suits word) (map key_rule_of keys.now)) (map string_bytes words.now)
        × All (IsGivenRight (map string_bytes words.now)) (map key_rule_of keys.now)) }
{
    are_known(words, keys) && are_given(words, keys)
}

fn are_known(words: &[String], keys: &[Key]) -> bool
    ensures { IsTrue result ↔ All (λ word. Any (Suits word) (map key_rule_of keys.now)) (map string_bytes words.now) }
{
    for word in words {
        if !is_known(word.as_str(), keys) {
            return false;
        }
    }
    true
}

fn is_known(word: &str, keys: &[Key]) -> bool
    ensures { IsTrue result ↔ Any (Suits word.now) (map key_rule_of keys.now) }
{
    for key in keys {
        if suits(word, key) {
            return true;
        }
    }
    false
}

fn suits(word: &str, key: &Key) -> bool
    ensures { IsTrue result ↔ Suits word.now (key_rule_of key.now) }
{
    match value_of(word, key.name) {
        Some(value) => has_shape(value, key.takes),
        None => false,
    }
}

fn has_shape(value: &str, takes: Takes) -> bool
    ensures { IsTrue result ↔ HasShape (taken_by takes) value.now }
{
    match takes {
        Takes::Number { .. } => true,
        Takes::Names => value.split(',').all(|item| !item.is_empty()),
        Takes::Choice => value == "yes" || value == "no",
    }
}

fn are_given(words: &[String], keys: &[Key]) -> bool
    ensures { IsTrue result ↔ All (IsGivenRight (map string_bytes words.now)) (map key_rule_of keys.now) }
{
    for key in keys {
        if !is_given_right(words, key) {
            return false;
        }
    }
    true
}

/// Whether the words give the key at most once, and once where it has to be given.
fn is_given_right(words: &[String], key: &Key) -> bool
    ensures { IsTrue result ↔ IsGivenRight (map string_bytes words.now) (key_rule_of key.now) }
{
    match place_of(words, key) {
        Some(place) => place_of(&words[place + 1..], key).is_none(),
        None => !key.required,
    }
}
