//! The words of the kinds.
ghost use Rattle.std.specs.Prelude.{◌≡◌};
ghost use Rattle.bench_reader.specs.Kinds.{kind_named, kind_text};

use sr_model::Kind;

const KINDS: [Kind; 9] = [
    Kind::And,
    Kind::Nand,
    Kind::Or,
    Kind::Nor,
    Kind::Xor,
    Kind::Xnor,
    Kind::Not,
    Kind::Buf,
    Kind::Dff,
];

/// The kind that a word names, in any case: `BUF` is another word of `BUFF`.
pub(crate) fn kind_named(word: &[u8]) -> Option<Kind>
    ensures { result ≡ kind_named word.now }
{
    if word.eq_ignore_ascii_case(b"BUF") {
        return Some(Kind::Buf);
    }
    for kind in KINDS {
        if word.eq_ignore_ascii_case(kind_word(kind)) {
            return Some(kind);
        }
    }
    None
}

/// The word of a kind, as it is printed.
pub(crate) fn kind_word(kind: Kind) -> &'static [u8]
    ensures { result.now ≡ kind_text kind }
{
    match kind {
        Kind::And => b"AND",
        Kind::Nand => b"NAND",
        Kind::Or => b"OR",
        Kind::Nor => b"NOR",
        Kind::Xor => b"XOR",
        Kind::Xnor => b"XNOR",
        Kind::Not => b"NOT",
        Kind::Buf => b"BUFF",
        Kind::Dff => b"DFF",
    }
}
