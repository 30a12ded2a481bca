//! Want of memory, told from task to task. Nothing is claimed of it: what a task returns never rests on it.
use std::sync::atomic::{AtomicBool, Ordering};

/// A flag that a task raises which finds no memory, so that tasks that wait for it stop waiting.
#[derive(Drop)]
pub struct Shortage {
    raised: AtomicBool,
}

impl Shortage {
    /// A flag that isn't raised.
    pub fn new() -> Shortage {
        Shortage {
            raised: AtomicBool::new(false),
        }
    }

    /// Tells the other tasks that this one has found no memory. It is never lowered.
    pub fn raise(&self) {
        self.raised.store(true, Ordering::SeqCst);
    }

    /// Whether a task has found no memory. A task that waits for others asks this between its loads, since they may have ended.
    pub fn is_raised(&self) -> bool {
        self.raised.load(Ordering::SeqCst)
    }
}
