//! The laws of blocks and tasks and of waking: functions that do nothing, each with laws as its contract.
ghost use Rattle.unroll.specs.Laws.{BlocksBySignal, SignalsByBlock, BitsByCell, CellsByBit, TargetsByTask, TasksByTarget};
ghost use Rattle.unroll.specs.Laws.{CellsHaveRoles, ShareNoCell};
ghost use Rattle.unroll.specs.Laws.{EachInOneTask, AreItsBlocks, AreItsCells, HaveItsCells, AdjoinTheirTasks, AdjacentAreTasks, ForceFromNothing};
ghost use Rattle.unroll.specs.Laws.{FreshBitsWake, WokenAreTasks, WokenAreTargets};

/// The arithmetic of blocks: a block is that of a signal and a chunk, a cell that of a block and a bit, and a task that of a target and a chunk.
pub fn block_laws()
    ensures blocks { BlocksBySignal }
    ensures signals { SignalsByBlock }
    ensures bits { BitsByCell }
    ensures cells { CellsByBit }
    ensures targets { TargetsByTask }
    ensures tasks { TasksByTarget }
{}

/// The cells of an instance are its target's and its pins', and one task's instances share a cell only where its flip-flop drives itself.
pub fn cell_laws()
    ensures roles { CellsHaveRoles }
    ensures apart { ShareNoCell }
{}

/// Each instance is one of one task, and `has_cell` tells the cells of its instances. The blocks of a task are those of its signals, ascending; among them is the block of each cell of its instances, and the task
/// is one of those that this block is in, which are all tasks. The constant tasks are those with an instance that forces something where nothing is known.
pub fn task_laws()
    ensures instances { EachInOneTask }
    ensures blocks { AreItsBlocks }
    ensures cells { AreItsCells }
    ensures words { HaveItsCells }
    ensures adjacent { AdjoinTheirTasks }
    ensures tasks { AdjacentAreTasks }
    ensures constant { ForceFromNothing }
{}

/// Once bits of a block are fresh, each task with the cell of such a bit is one of those that `woken` of `SignalRecords` tells, which are all tasks.
pub fn wake_laws()
    ensures fresh { FreshBitsWake }
    ensures tasks { WokenAreTasks }
    ensures targets { WokenAreTargets }
{}
