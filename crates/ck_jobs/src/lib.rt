//! Jobs over each structure.
#![tactic(auto)]

mod list_results;
#[cfg(test)]
mod list_tests;
mod on_array;
mod on_ht;
mod over_list;
mod over_table;
mod room;
#[cfg(test)]
mod room_tests;
#[cfg(test)]
mod tests;

pub use list_results::ListResults;
pub use on_array::OnArray;
pub use on_ht::OnHt;
pub use over_list::{ListJob, run_over_list};
pub use over_table::run_over_table;
