//! Laws of certificates.
ghost use Rattle.certificates.specs.Laws.{ClashIsKnown, ContradictionExcludes, FactsAreKnown, FactsAreSound, IsRefusedOnce, IsValidOnce, IsValidOrRefused, ValidAreNotRefused};
ghost use Rattle.certificates.specs.Logs.{LogsAreIn, PrintedIsValid};

/// Each text is a valid certificate in one way, or is refused in one way, and never both. What a valid one says follows from the dump: it is so in every execution that matches the
/// dump, and with a contradiction there is none.
pub fn cert_laws()
    ensures one_validity { IsValidOnce }
    ensures one_refusal { IsRefusedOnce }
    ensures not_both { ValidAreNotRefused }
    ensures valid_or_refused { IsValidOrRefused }
    ensures known { FactsAreKnown }
    ensures clash { ClashIsKnown }
    ensures sound { FactsAreSound }
    ensures excludes { ContradictionExcludes }
{}

/// What `derive_log` gives of a dump names signals that are there, and its printed text is a valid certificate of its steps and its clash.
pub fn log_laws()
    ensures signals { LogsAreIn }
    ensures valid { PrintedIsValid }
{}
