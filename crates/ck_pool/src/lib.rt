//! Tasks that run a job over a dictionary.
#![tactic(auto)]

mod context;
mod desk;
mod dict;
mod fork;
mod gather;
mod job;
mod known;
mod map_results;
mod on_snap;
mod over_snap;
mod query_lines;
mod query_run;
mod serving;
mod shortage;
#[cfg(test)]
mod tests;
mod updates;
mod waiting;
mod worker;

pub use dict::Dict;
pub use job::{Job, MapJob, Served};
pub use map_results::MapResults;
pub use over_snap::run_over_snap;
pub use serving::serve;
