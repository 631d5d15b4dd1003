//! Laws of logs: a function that does nothing, with the laws as its contract.
ghost use Rattle.plain_close.specs.LogLaws.{ClashIsFirst, DumpHasLog, HasOneLog, LogIsWhole};

/// Literals have one log at most, and those of a dump have one. Its clash is the least cell with both literals in the first level that has one; without one its steps have all that
/// follows beside the base.
pub fn log_laws()
    ensures one_log { HasOneLog }
    ensures exists { DumpHasLog }
    ensures clash { ClashIsFirst }
    ensures whole { LogIsWhole }
{}
