//! A reader's look at a hash table with one writer and many readers, after `ck_ht` of Concurrency Kit, over any domain whose client holds
//! the table.
#![tactic(auto)]

mod laws;
mod reading;
mod search;

pub use laws::{places_law, roots_law};
pub use reading::look;
