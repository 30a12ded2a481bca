//! Records that come and go, and several members that retire and poll, after `ck_epoch` of Concurrency Kit in its general form.
//!
//! A visitor registers: it takes a record that is free, and is a member until it hands the record back. Every member opens sections,
//! retires items, scans the records and moves the global epoch on. No call waits, and none takes memory but `new`.
//!
//! Each call asks that its token was made with this registry, and that fewer than `MOST_CALLS` counted calls were made with it. Each call
//! makes atomic steps, and its contract names them. Whatever the schedule, the steps of all visitors are one true run, and in each true
//! run no item is dispatched while a section that is older is open.
#![tactic(auto)]

mod answers;
mod deferred;
mod ends;
mod laws;
mod layout;
mod opening;
mod registry;
mod retiring;
mod scanning;
mod sections;
#[cfg(test)]
mod tests;

pub use answers::{Advance, NoRecord, Scan};
pub use ends::{Member, Visitor};
pub use laws::registry_law;
pub use layout::MOST_CALLS;
pub use registry::Registry;
