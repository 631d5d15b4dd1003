//! Laws of the text of a netlist.
ghost use Rattle.bench_reader.specs.Laws.{HasOneReading, IsRefusedOnce, ReadTextsAreNotRefused, IsReadOrRefused, SpellsStatements};
ghost use Rattle.bench_reader.specs.PrintLaws.{IsReadBack};

/// Each text has one reading, or is refused in one way, and never both. What it states are statements that `build` takes.
pub fn bench_laws()
    ensures one_reading { HasOneReading }
    ensures one_refusal { IsRefusedOnce }
    ensures not_both { ReadTextsAreNotRefused }
    ensures read_or_refused { IsReadOrRefused }
    ensures statements { SpellsStatements }
{}

/// Reading the printed text of a netlist gives the same netlist.
pub fn print_laws()
    ensures { IsReadBack }
{}
