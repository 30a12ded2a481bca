//! A judge of reports: whether a report is a legal one of given scripts. `specs/Verdict.antt` says what each verdict
//! means.
#![tactic(auto)]

mod bounds;
mod changes;
mod difference;
mod files;
mod history;
mod places;
mod replay;
mod search;
#[cfg(test)]
mod small_tests;
#[cfg(test)]
mod tests;
mod verdict;

pub use verdict::{Places, Verdict, judge};
