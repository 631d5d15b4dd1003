//! The laws of what tasks force: functions that do nothing, each with laws as its contract.
ghost use Rattle.gate_rules.specs.Laws.{ForcedOnCells, ForcedByCells, ForcedByView, ForcedAtPlace, ClosedWhereDone, DoneOnce};

/// A task forces literals of its own cells, by what is known of these alone, whatever list of words shows it; in the mask of one cycle it forces what its instance there does.
pub fn forced_laws()
    ensures cells { ForcedOnCells }
    ensures by_cells { ForcedByCells }
    ensures view { ForcedByView }
    ensures place { ForcedAtPlace }
{}

/// Literals are closed exactly where each task is done, and what one turn of a task makes of literals without a contradiction is done, unless its flip-flop drives itself.
pub fn done_laws()
    ensures closed { ClosedWhereDone }
    ensures once { DoneOnce }
{}
