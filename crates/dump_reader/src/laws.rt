//! Laws of the text of a dump.
ghost use Rattle.dump_reader.specs.Laws.{HasOneReading, IsRefusedOnce, DumpsAreNotRefused, IsReadOrRefused, SpellsRecording, HasLiteralsOfRows, IsReadBack};

/// Each text is one dump of a netlist, or is refused in one way, and never both; and the printed text of a dump reads as that dump.
pub fn dump_laws()
    ensures one_reading { HasOneReading }
    ensures one_refusal { IsRefusedOnce }
    ensures not_both { DumpsAreNotRefused }
    ensures read_or_refused { IsReadOrRefused }
    ensures recording { SpellsRecording }
    ensures literals { HasLiteralsOfRows }
    ensures read_back { IsReadBack }
{}
