//! The whole of `lookup`: from the words of the command line and the bytes of the files to the bytes of the report.
#![tactic(auto)]

mod fetch;
mod files;
mod job;
mod judging;
mod kinds;
mod list;
mod lookup;
mod making;
mod outcome;
mod program;
mod scripts;
mod table;
#[cfg(test)]
mod tests;

pub use lookup::run;
pub use making::make;
pub use outcome::{Outcome, line_of};
pub use program::{exit_code, run_program};
