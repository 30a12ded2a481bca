//! Probe order, hashes, names and packed entries, on which the tables stand.
#![tactic(auto)]

mod entries;
mod hashes;
mod names;
mod probes;
#[cfg(test)]
mod tests;

pub use entries::{entry_law, pack, unpack};
pub use hashes::{code, key_code, mix};
pub use names::{Name, Style, canon};
pub use probes::{probe_order_law, slot};
