//! The laws of netlists: functions that do nothing, each with laws as its contract.
ghost use Rattle.netlist.specs.Checks.{HasFewSignals, HasFewPins, IsDrivenOnce};
ghost use Rattle.netlist.specs.Laws.{NamesHaveNumbers, MentionsHaveNumbers, NamesAreMentioned, NamesDiffer, DriversHavePinCounts, BreaksOnce, IsUndrivenOnce, RanksAreUnique, RanksExist, RanksExcludeLoops, LoopIsUnique, StatementsGiveCircuits, RefusalIsUnique, NetlistsAreNotRefused, IsNetlistOrRefused};

/// The names are those that are mentioned, and differ; each has a number, and the name with that number is its own; each driver has as many pins as its statement.
pub fn numbering_laws()
    ensures names { NamesHaveNumbers }
    ensures mentions { MentionsHaveNumbers }
    ensures mentioned { NamesAreMentioned }
    ensures differ { NamesDiffer }
    ensures pin_counts { DriversHavePinCounts }
{}

/// The line or the name of a refusal is the only one of its kind, and there is none where the rule is kept.
pub fn refusal_laws()
    ensures signals { BreaksOnce HasFewSignals }
    ensures pins { BreaksOnce HasFewPins }
    ensures drivers { BreaksOnce IsDrivenOnce }
    ensures undriven { IsUndrivenOnce }
{}

/// What ranks and loops say of each other.
pub fn rank_laws()
    ensures unique { RanksAreUnique }
    ensures exclude { RanksExcludeLoops }
    ensures exist { RanksExist }
    ensures one_loop { LoopIsUnique }
{}

/// Statements that stand for a netlist give what every netlist keeps, and are not refused; all others have one refusal.
pub fn circuit_laws()
    ensures circuit { StatementsGiveCircuits }
    ensures one_refusal { RefusalIsUnique }
    ensures never_both { NetlistsAreNotRefused }
    ensures netlist_or_refused { IsNetlistOrRefused }
{}
