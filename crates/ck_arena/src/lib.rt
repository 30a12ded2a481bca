//! What the arena of a structure over the epochs says of the pieces that its writer retired, how they go back to it, and why a call finds none
//! free.
#![tactic(auto)]

mod found;
mod returning;

pub use returning::{Pieces, give_all, poll_all};
