//! A netlist over a number of cycles: which words have which cells, and which cells a gate or flip-flop joins.
//!
//! A block is 64 cycles of a signal, a task is a gate or flip-flop in 64 cycles. Both have a number; a signal in a chunk (`InChunk`) says the same with no division.
//!
//! `problem` has the netlist over its cycles with blocks and tasks, `words` the two words of a block and what is made of them, `task_blocks` the blocks of a task, `adjacency`
//! the tasks that a block is in, `records` in one place for each signal how it is driven and which signals are adjacent to it, with the tasks that wait once bits of a block are
//! fresh, `waiting` the tasks that wait, `constants` the tasks that force something where nothing is known, `bits` a word's bits, `pace` what a worker calls before a task, `laws`
//! the laws.
//!
//! Only the order in which `next` of `WaitingTasks` sweeps over the tasks is tested and not proved: its contract says that the task waits, and that there is one where some task
//! waits. The tests call each on a small netlist, or on 8,300 signals over four chunks. `Pace` has no clause: it sees nothing that it could change.
//!
//! Limits: `MAX_CYCLES` cycles and `MAX_BLOCKS` blocks, which the caller keeps; a task has `MAX_GATE_SIGNALS` blocks at most. `SignalRecords` takes memory linear in the signals
//! and pins, `WaitingTasks` a bit for each signal and chunk and one more for each 64 of them, and `constant_tasks` a number for each task that it lists; the caller makes the lists
//! of `words`, and nothing else takes any.
#![tactic(auto)]

mod adjacency;
mod bits;
mod constants;
mod laws;
mod pace;
mod problem;
mod records;
mod task_blocks;
#[cfg(test)]
mod tests;
mod waiting;
mod words;

pub use bits::is_set;
pub use laws::{block_laws, cell_laws, task_laws, wake_laws};
pub use pace::{NoPace, Pace};
pub use problem::{Block, InChunk, Problem, Task};
pub use records::{Shape, SignalRecord, SignalRecords, Woken};
pub use waiting::WaitingTasks;
pub use words::{Blocks, PinWord, PinWords, Tasks};
