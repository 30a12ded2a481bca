//! The calls of an array with one writer and many readers.
#![tactic(auto)]

mod array;
mod committing;
mod editing;
pub mod part;
mod state;
#[cfg(test)]
mod tests;
#[cfg(test)]
mod thread_tests;
mod writing;

pub use array::{Array, ArrayPass, ArrayWriter, home};
pub use ck_arraylaw::ArrayClient;
pub use state::ArrayState;
