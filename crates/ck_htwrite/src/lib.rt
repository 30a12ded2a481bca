//! The writer's half of the hash table, after `ck_ht` of Concurrency Kit: its updates, step by step, in a domain whose client holds the table.
#![tactic(auto)]

mod calls;
mod cases;
mod copies;
mod entries;
mod growth;
mod rebuild;
mod state;
#[cfg(test)]
mod tests;
mod tidying;
mod updates;
mod writes;

pub use calls::{put, remove, set};
pub use ck_htlaw::HtClient;
pub use state::{HtState, Need, counter_count};
pub use tidying::tidy;
