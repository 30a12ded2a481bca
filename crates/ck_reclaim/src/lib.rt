//! Reclamation of a structure's pieces: what a reader may still look at is not taken again, whatever the structure.
//!
//! A structure links pieces of its words, unlinks them and retires them. `specs/Pieces.antt` says what is known of them by the writer's account
//! alone, and `specs/Reclaim.antt` what this gives readers.
#![tactic(auto)]

mod laws;

pub use laws::{Structure, pieces_law};
