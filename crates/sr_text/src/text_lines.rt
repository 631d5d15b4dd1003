//! The lines of a text that say something.
ghost use Rattle.std.specs.Prelude.{◌≡◌, ◌<◌, ◌^◌, ◌∷◌, [], IfSome, IsNone};
ghost use Rattle.sr_text.specs.Lines.{numbered, past_end, past, rest_of};

use crate::lines::cut;
use bstr::{ByteSlice, Lines};
use std::marker::Model;

/// The lines of a text, cut, each with its number, without those that are empty then. Lines count from 1. Each byte is read once.
#[derive(Drop)]
pub struct TextLines<'text> {
    lines: Lines<'text>,
    /// How many lines have been passed.
    passed: u64,
}

impl<'text> Model for TextLines<'text> {
    ghost use Rattle.std.specs.Prelude.{◌+◌, ◌<◌, ◌^◌, length};
    ghost use Rattle.sr_text.specs.Lines.{LinesLeft};

    ghost Value = { LinesLeft };

    ghost view = { λ t. record { passed = t.passed; lines = t.lines } };

    ghost invariant = { λ t. t.passed + length t.lines < 2 ^ 63 };
}

impl<'text> TextLines<'text> {
    pub fn new(text: &'text [u8]) -> TextLines<'text>
        ensures left { rest_of result ≡ numbered text.now }
        ensures past { past result ≡ past_end text.now }
    {
        TextLines {
            lines: text.lines(),
            passed: 0,
        }
    }

    /// How many lines have been passed, those that were empty too.
    pub fn passed(&self) -> u64
        ensures value { result ≡ self.now.passed }
        ensures small { result < 2 ^ 63 }
    {
        self.passed
    }

    /// The next line, and its number.
    pub fn next(&mut self) -> Option<(u64, &'text [u8])>
        ensures first { IfSome result (λ x. rest_of self.old ≡ (x.0, x.1.now) ∷ rest_of self.new) }
        ensures none { IsNone result → (rest_of self.old ≡ []) × (self.new.lines ≡ []) }
        ensures past { past self.new ≡ past self.old }
    {
        while let Some(line) = self.lines.next() {
            self.passed += 1;
            let text = cut(line);
            if !text.is_empty() {
                return Some((self.passed, text));
            }
        }
        None
    }
}
