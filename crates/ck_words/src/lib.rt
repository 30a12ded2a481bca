//! Places handed out from fixed arenas of words: blocks of 8 words, and pieces of a power of two
//! words. No word is ever in two pieces that are out.
#![tactic(auto)]

mod back;
mod blocks;
mod buddies;
mod tree;

pub use back::Back;
pub use blocks::Blocks;
pub use buddies::Buddies;

#[cfg(test)]
mod tests;
