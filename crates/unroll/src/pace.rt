//! What a worker calls before each task.
use crate::problem::Task;

/// Called by a worker before each of its tasks. It changes nothing that the worker holds; a test may keep workers waiting by it.
pub trait Pace: Sync {
    fn turn(&self, worker: u32, task: Task);
}

/// Does nothing.
#[derive(Clone, Copy, Debug)]
pub struct NoPace;

impl Pace for NoPace {
    fn turn(&self, _worker: u32, _task: Task) {}
}
