//! The calls of a table over any domain whose client holds it: a reader's look, and the writer's updates over its own lists.

pub use ck_htread::look;
pub use ck_htwrite::{HtState, Need, put, remove, set, tidy};
