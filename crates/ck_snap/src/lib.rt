//! A dictionary of two copies over `left_right`: readers look keys up in one copy and never wait for the writer's work on the other.
//! After `tie` a pass has seen the writer's whole log, so that each of its answers is the map's after some number of these updates.
#![tactic(auto)]

mod journal;
mod log;
mod opening;
mod publisher;
mod reading;
mod rule;
mod snapshot;
mod subscriber;
#[cfg(test)]
mod tests;
mod tokens;
mod tying;
mod version;
mod writing;

pub use tokens::{Snap, SnapPass, SnapWriter};
