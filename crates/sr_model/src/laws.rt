//! The laws of the definitions: functions that do nothing, each with a law as its contract.
//!
//! A law speaks of every netlist, every number of cycles and every set of literals that a test gives.
ghost use Rattle.sr_model.specs.Laws.{IsSound, HasBase, ClosureIsClosed, IsLeast, IsMonotone, IsUnionOfLevels, ContradictionExcludes, KnownIsSound, ForcedStaysBetween, ClosedBetweenIsAll, SameClosure, StableLevel, ForcedByCells, ForcedGrows};
ghost use Rattle.sr_model.specs.Decisions.{ClosureIsATest, ClashOrNone, DumpClashOrNone};
ghost use Rattle.sr_model.specs.KindLaws.{HasItsFamily, HasSomePins, PinCountIsDecided, FlipFlopIsDff};
ghost use Rattle.sr_model.specs.RuleLaws.{AndLikeForces, ParityForces};
ghost use Rattle.sr_model.specs.Worked.{RestoresR, RulesMissO};

/// The closure of a set of literals has the set, is closed, and is the least such set; it grows with the set, and is the union of the levels.
pub fn closure_laws()
    ensures has_base { HasBase }
    ensures is_closed { ClosureIsClosed }
    ensures least { IsLeast }
    ensures monotone { IsMonotone }
    ensures levels { IsUnionOfLevels }
{}

/// What the closure says of executions: each literal of it is one of every execution that has the base, and where it has both literals of a cell there is no such execution.
pub fn soundness_laws()
    ensures sound { IsSound }
    ensures excludes { ContradictionExcludes }
    ensures known { KnownIsSound }
{}

/// How a set grows from a base to its closure.
pub fn growing_laws()
    ensures forced { ForcedStaysBetween }
    ensures closed { ClosedBetweenIsAll }
    ensures same { SameClosure }
    ensures stable { StableLevel }
{}

/// What an instance forces: it depends on what is known of the instance's own cells, and grows with it.
pub fn forcing_laws()
    ensures by_cells { ForcedByCells }
    ensures grows { ForcedGrows }
{}

/// What can be decided. Whether a literal follows is a test's answer, over every netlist and number of cycles.
/// Where the base has finitely many cells, as that of a dump has, either no cell has both literals in the closure, or there is a first level and a least cell that has.
///
/// So each record has its table or its contradiction.
pub fn decision_laws()
    ensures closure { ClosureIsATest }
    ensures clash { ClashOrNone }
    ensures dump { DumpClashOrNone }
{}

/// What holds of each kind: how its target follows from its pins, and how many pins it may have.
pub fn kind_laws()
    ensures family { HasItsFamily }
    ensures some_pins { HasSomePins }
    ensures decided { PinCountIsDecided }
    ensures flip_flop { FlipFlopIsDff }
{}

/// What an instance forces, exactly, by its family.
pub fn rule_laws()
    ensures and_like { AndLikeForces }
    ensures parity { ParityForces }
{}

/// A record `q x1` restores `r` in cycle 1, through two gates in cycle 0.
pub fn worked_example()
    ensures { RestoresR }
{}

/// The rules are not complete: what follows only from two gates together is missed.
pub fn missed_example()
    ensures { RulesMissO }
{}
