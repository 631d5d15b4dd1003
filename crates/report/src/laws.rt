//! Laws of the text of a table.
ghost use Rattle.report.specs.Laws.{ShowsEachOnce, ShowsSignals, TableAgain, TableIsDump, TableIsSound};

/// The text of a table is a dump of its netlist, with the rows that it shows. What is known from those rows makes the same rows again, and no contradiction. And each
/// execution that matches the dump that a table was made from has the table's bits. Its rows are of signals of the netlist, and none has two.
pub fn table_laws()
    ensures dump { TableIsDump }
    ensures again { TableAgain }
    ensures sound { TableIsSound }
    ensures shown_once { ShowsEachOnce }
    ensures shown_within { ShowsSignals }
{}
