//! The lines of what the words ask for and do not get.
ghost use Rattle.std.specs.Prelude.{◌≡◌, ◌<◌, ◌++◌, [], codes, get_or, length, map};
ghost use Rattle.std.specs.String.{string_bytes};
ghost use Rattle.report.specs.Refusals.{HasItem, IsKeyed, WordIsThere, item_of, key_of, many_cells_line, listed_names, width_over_line, word_line};
ghost use Rattle.report.specs.Writes.{Writes};

use crate::pieces::{digits, write_pieces, write_text};
use crate::refusal::WordRefusal;
use itoa::Buffer;
use sr_outside::{Sink, WriteFault};

/// Writes why the words are refused.
pub(crate) fn write_word_refusal<K: Sink>(
    out: &mut K,
    words: &[String],
    refusal: WordRefusal,
) -> Result<(), WriteFault>
    requires { WordIsThere (map string_bytes words.now) refusal }
    ensures { Writes K.written K.room K.faults out.old out.new result (word_line (map string_bytes words.now) refusal) }
{
    match refusal {
        WordRefusal::Usage => write_text(out, b"srestore: words: 22 usage\n"),
        WordRefusal::Number { place } => {
            let start: &[u8] = b"srestore: words: 23 number ";
            let end: &[u8] = b"\n";
            let key = key_of(words[place as usize].as_str());
            write_pieces(out, &[start, key.as_bytes(), end])
        }
    }
}

/// Writes why a name of a list is refused.
pub(crate) fn write_name<K: Sink>(
    out: &mut K,
    why: &'static [u8],
    words: &[String],
    place: u32,
    item: u32,
) -> Result<(), WriteFault>
    requires { HasItem (map string_bytes words.now) place item }
    ensures { Writes K.written K.room K.faults out.old out.new result (why.now ++ item_of (map string_bytes words.now) place item ++ codes "\n") }
{
    let end: &[u8] = b"\n";
    let name = name_in(words[place as usize].as_str(), item);
    write_pieces(out, &[why, name.as_bytes(), end])
}

/// Writes that the words ask for too many cells.
pub(crate) fn write_many_cells<K: Sink>(out: &mut K, product: u64) -> Result<(), WriteFault>
    ensures { Writes K.written K.room K.faults out.old out.new result (many_cells_line product) }
{
    let start: &[u8] = b"srestore: words: 17 too many cells ";
    let end: &[u8] = b"\n";
    let mut buffer = Buffer::new();
    let number = digits(&mut buffer, product);
    write_pieces(out, &[start, number, end])
}

/// Writes that more flip-flops are asked for than there are.
pub(crate) fn write_width_over<K: Sink>(out: &mut K, flip_flops: u32) -> Result<(), WriteFault>
    ensures { Writes K.written K.room K.faults out.old out.new result (width_over_line flip_flops) }
{
    let start: &[u8] = b"srestore: words: 25 width over ";
    let end: &[u8] = b"\n";
    let mut buffer = Buffer::new();
    let count = digits(&mut buffer, u64::from(flip_flops));
    write_pieces(out, &[start, count, end])
}

/// The key of a word `key=value`.
fn key_of(word: &str) -> &str
    requires { IsKeyed word.now }
    ensures { result.now ≡ key_of word.now }
{
    let (key, _) = word.split_once('=').unwrap();
    key
}

/// A name of the list that is the value of the word.
fn name_in(word: &str, item: u32) -> &str
    requires keyed { IsKeyed word.now }
    requires there { item < length (listed_names word.now) }
    ensures { result.now ≡ get_or (listed_names word.now) item [] }
{
    let (_, list) = word.split_once('=').unwrap();
    list.split(',').nth(item as usize).unwrap()
}
