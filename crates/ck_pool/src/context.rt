//! What all tasks of a job share.
use crate::shortage::Shortage;
use std::alloc::Global;

/// What all tasks of a job share: the runtime, the allocator, the dictionary, the gate, and the flag of a task that finds no memory.
#[derive(Drop)]
pub struct Context<'a, D, G, R> {
    pub rt: &'a R,
    pub alloc: Global,
    pub dict: &'a D,
    pub gate: &'a G,
    pub shortage: &'a Shortage,
}
