//! Words by which a writer tells its readers how many updates it has made, and each reader tells the writer how many answers it has
//! given: a client of `ck_epoch` around another client.
#![tactic(auto)]

mod calls;
mod laws;
mod signals;
#[cfg(test)]
mod tests;

pub use calls::{answered, mark, note, reached};
pub use laws::signals_law;
pub use signals::Signals;
