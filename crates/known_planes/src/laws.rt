//! The laws of planes: functions that do nothing, with laws as their contracts.
ghost use Rattle.known_planes.specs.Laws.{BitsAreLiterals, LiteralsAreBits, LiteralsAreOfCells, ListsTellPlanes, LiteralsByBlock, MoreLiteralsCountMore, NewWordsAreLiterals, OtherLiteralsStay};

/// The bits of a block's words are the literals of its cells, and there are no others. With other words of a block, its cells have the literals of these words and
/// all others those that they had. A list with their words tells the planes.
pub fn planes_laws()
    ensures bits { BitsAreLiterals }
    ensures cells { LiteralsAreOfCells }
    ensures new { NewWordsAreLiterals }
    ensures others { OtherLiteralsStay }
    ensures lists { ListsTellPlanes }
{}

/// How many literals planes have, as `count_literals` counts them: the bits of both words, over all blocks. A literal more counts more, and there are at most 128 a
/// block.
pub fn count_laws()
    ensures by_block { LiteralsByBlock }
    ensures more { MoreLiteralsCountMore }
    ensures few { LiteralsAreBits }
{}
