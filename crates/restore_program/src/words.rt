//! Reads the words of the command line.
ghost use Rattle.std.specs.Prelude.{◌≡◌, ◌↔◌, ◌<◌, All, Any, Bool, Contains, IfErr, IsTrue, ℕ, List, OnOk, Some, Ok, Err, map, length};
ghost use Rattle.std.specs.List.{slice_get};
ghost use Rattle.std.specs.String.{string_bytes};
ghost use Rattle.restore_program.specs.Words.{IsBadNumber, IsCertify, IsCheck, IsCommand, IsPrint, IsShaped, Loads, Restores, Selects, Simulates, command_rules, later, load_rule, select_rule, simulate_rule};
ghost use Rattle.restore_program.specs.WordRules.{IsBadFor, command_rule_of};
ghost use Rattle.restore_program.specs.WordMeaning.{Means};

use crate::word_keys::{is_chosen, place_of, suit_all};
use crate::word_numbers::{bad_number, number_of};
use crate::word_rules::{
    ALL, CERTIFY, CHECK, CYCLES, Command, LOAD, NUMBER, PRINT, RESTORE, SEED, SELECT, SIGNALS,
    SIMULATE, TRACE, WIDTH,
};
use report::WordRefusal;

#[cfg(test)]
mod tests;

/// What the words ask for.
#[derive(Clone, Copy, Debug, PartialEq, Eq)]
pub enum Settings {
    /// The restoration of a netlist and a dump, the two words that follow; and whether every signal has a row.
    Restore { all: bool },
    /// The ranking of a netlist, the word that follows: so many of its flip-flops, by a run over so many cycles from this seed.
    Select { width: u32, cycles: u32, seed: u64 },
    /// A run of a netlist, the word that follows, over so many cycles from this seed; and the place of the word `trace=..` among the words.
    Simulate { cycles: u32, seed: u64, trace: u32 },
    /// The text of a netlist: the word that follows.
    Print,
    /// What follows in the netlist that is drawn from this number, with so many signals.
    Load { number: u64, signals: u32 },
    /// A certificate of what follows from a netlist and a dump, the two words that follow.
    Certify,
    /// The check of a certificate, the third word that follows, of the netlist and the dump before it.
    Check,
}

/// What the words of the command line, without the program's name, ask for. The first word is the command. Its files follow, and any text may
/// stand there. Then follow words `key=value` in any order, where the key ends at the first `=`.
///
/// - `restore NET DUMP`, with one key that may be left out: `all`, `yes` or `no`, and `no` where it is not given.
/// - `select NET`, with three keys, each of which has to be given: `width`, a number from 1 to 65,536; and `cycles` and `seed` as for `simulate`.
/// - `simulate NET`, with three keys, each of which has to be given: `cycles`, a number from 1 to 8,192; `seed`, any number below 2^64; and
///   `trace`, one or more names that are not empty, parted by commas.
/// - `print NET`, with no keys.
/// - `load`, with no files and two keys, each of which has to be given: `number`, any number below 2^64; and `signals`, a number from 16 to
///   65,536.
/// - `certify NET DUMP` and `check NET DUMP CERT`, with no keys.
///
/// It takes no memory, and the time is linear in the words' length.
pub fn read_words(words: &[String]) -> Result<Settings, WordRefusal>
    ensures restore { (all : Bool) → (result ≡ Ok (Settings.Restore all))
        ↔ ((netlist dump : List ℕ) × Restores (map string_bytes words.now) netlist dump all) }
    ensures select { (width cycles seed : ℕ) → (result ≡ Ok (Settings.Select width cycles seed))
        ↔ ((netlist : List ℕ) × Selects (map string_bytes words.now) netlist width cycles seed) }
    ensures simulate { (cycles seed trace : ℕ) → (result ≡ Ok (Settings.Simulate cycles seed trace))
        ↔ ((netlist : List ℕ) × Simulates (map string_bytes words.now) netlist cycles seed trace) }
    ensures print { (result ≡ Ok Settings.Print) ↔ IsPrint (map string_bytes words.now) }
    ensures load { (number signals : ℕ) → (result ≡ Ok (Settings.Load number signals)) ↔ Loads (map string_bytes words.now) number signals }
    ensures certify { (result ≡ Ok Settings.Certify) ↔ IsCertify (map string_bytes words.now) }
    ensures check { (result ≡ Ok Settings.Check) ↔ IsCheck (map string_bytes words.now) }

    // The shape is that of no command.
    ensures usage { (result ≡ Err WordRefusal.Usage) ↔ (¬ IsCommand (map string_bytes words.now)) }
    // The shape is that of a command, and a number is none that its key may have.
    ensures number { (place : ℕ) → (result ≡ Err (WordRefusal.Number place)) ↔ IsBadNumber (map string_bytes words.now) place }
{
    if is_shaped(words, &RESTORE) {
        Ok(Settings::Restore {
            all: is_chosen(&words[RESTORE.files + 1..], &ALL),
        })
    } else if is_shaped(words, &SELECT) {
        read_select(words)
    } else if is_shaped(words, &SIMULATE) {
        read_simulate(words)
    } else if is_shaped(words, &PRINT) {
        Ok(Settings::Print)
    } else if is_shaped(words, &LOAD) {
        read_load(words)
    } else if is_shaped(words, &CERTIFY) {
        Ok(Settings::Certify)
    } else if is_shaped(words, &CHECK) {
        Ok(Settings::Check)
    } else {
        Err(WordRefusal::Usage)
    }
}

/// Whether the words have the shape of the command.
fn is_shaped(words: &[String], command: &Command) -> bool
    ensures { IsTrue result ↔ IsShaped (command_rule_of command.now) (map string_bytes words.now) }
{
    has_files(words, command) && suit_all(&words[command.files + 1..], command.keys)
}

/// Whether the command's name and its files are there.
fn has_files(words: &[String], command: &Command) -> bool
    ensures { IsTrue result ↔ ((slice_get (map string_bytes words.now) 0 ≡ Some command.now.name.now) × (command.now.files < length words.now)) }
{
    command.files < words.len() && words[0].as_str() == command.name
}

/// Refuses the first bad number of words with the shape of this command of the table.
fn check_numbers(words: &[String], command: &Command) -> Result<(), WordRefusal>
    requires table { Contains command_rules (command_rule_of command.now) }
    requires shaped { IsShaped (command_rule_of command.now) (map string_bytes words.now) }
    ensures good { OnOk result (All (λ word. ¬ Any (IsBadFor word) (command_rule_of command.now).keys) (later (command_rule_of command.now) (map string_bytes words.now))) }
    ensures bad { IfErr result (λ refusal. Means (map string_bytes words.now) (Err refusal)) }
{
    let first = 1 + command.files;
    match bad_number(&words[first..], command.keys) {
        Some(place) => Err(WordRefusal::Number {
            place: (first + place) as u32,
        }),
        None => Ok(()),
    }
}

/// What the words of a `select` say.
fn read_select(words: &[String]) -> Result<Settings, WordRefusal>
    requires { IsShaped select_rule (map string_bytes words.now) }
    ensures { Means (map string_bytes words.now) result }
{
    check_numbers(words, &SELECT)?;
    let keyed = &words[1 + SELECT.files..];
    Ok(Settings::Select {
        width: number_of(keyed, &WIDTH).unwrap() as u32,
        cycles: number_of(keyed, &CYCLES).unwrap() as u32,
        seed: number_of(keyed, &SEED).unwrap(),
    })
}

/// What the words of a `simulate` say.
fn read_simulate(words: &[String]) -> Result<Settings, WordRefusal>
    requires { IsShaped simulate_rule (map string_bytes words.now) }
    ensures { Means (map string_bytes words.now) result }
{
    check_numbers(words, &SIMULATE)?;
    let first = 1 + SIMULATE.files;
    let keyed = &words[first..];
    Ok(Settings::Simulate {
        cycles: number_of(keyed, &CYCLES).unwrap() as u32,
        seed: number_of(keyed, &SEED).unwrap(),
        trace: (first + place_of(keyed, &TRACE).unwrap()) as u32,
    })
}

/// What the words of a `load` say.
fn read_load(words: &[String]) -> Result<Settings, WordRefusal>
    requires { IsShaped load_rule (map string_bytes words.now) }
    ensures { Means (map string_bytes words.now) result }
{
    check_numbers(words, &LOAD)?;
    let keyed = &words[1 + LOAD.files..];
    Ok(Settings::Load {
        number: number_of(keyed, &NUMBER).unwrap(),
        signals: number_of(keyed, &SIGNALS).unwrap() as u32,
    })
}
