//! A hash table with one writer and many readers, after `ck_ht` of Concurrency Kit.
#![tactic(auto)]

mod laws;
pub mod part;
mod table;
#[cfg(test)]
mod tests;
#[cfg(test)]
mod thread_tests;
mod updating;

pub use ck_htlaw::HtClient;
pub use table::{Ht, HtPass, HtWriter, home};
