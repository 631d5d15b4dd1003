//! Closes a set of literals under the one-gate rules on one thread: by tasks that wait, and level by level up to the first clash.
//!
//! `plain_closer` is the closer. `worklist` has the tasks that wait, and lets those wait that have a cell with something new; `turns` is the turn of a task: what it forces is
//! added, and the tasks about it wait. `few_blocks` says what a task with two or three blocks forces, `many_blocks` what any other does.
//!
//! `levels` finds the first clash, by `wavefront`: chunks that go on from level to level, each one after the one before it. In a step `chunk_tasks` lists what the waiting tasks of
//! the chunk force, and `changes` adds what is listed for it.
//!
//! `log` goes level by level, too, and logs each new literal with the least place that forces it, by `level_steps`.
//!
//! No contract sees how long a call takes: that `close_until_clash` goes no further once a cell has both literals is tested, not proved (`stops_at_a_clash` in
//! `tests/closing.rt`). A problem's limits are those of the closer; each call says what memory it takes.
#![tactic(auto)]

mod changes;
mod chunk_tasks;
mod few_blocks;
mod laws;
mod level_steps;
mod levels;
mod log;
mod many_blocks;
mod plain_closer;
#[cfg(test)]
mod tests;
mod turns;
mod wavefront;
mod worklist;

pub use laws::log_laws;
pub use levels::{Clash, first_clash};
pub use log::{Log, Step, Steps, derive_log};
pub use plain_closer::PlainCloser;
