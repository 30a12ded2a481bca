//! The law of an array with one writer and many readers, over runs of its calls.
#![tactic(auto)]

mod client;
mod laws;

pub use client::{ARENA, ARENA_LOG, ArrayClient, LEAST_LOG, ROOT};
pub use laws::{Regions, array_law, reached_law};
