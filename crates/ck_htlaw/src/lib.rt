//! The law of a hash table with one writer and many readers, over runs of its calls.
#![tactic(auto)]

mod client;
mod laws;

pub use client::{HtClient, counters};
pub use laws::{Regions, reached_law, table_law};
