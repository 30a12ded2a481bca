//! Workloads of any size from a seed: an update file, a query file, and the summary of their run.
//! `specs/Generated.antt` says what the files hold, `specs/Summaries.antt` what the summary does.
#![tactic(auto)]

mod files;
mod summary;
#[cfg(test)]
mod tests;

pub use files::{queries, updates};
pub use summary::{Summary, summary_text};
