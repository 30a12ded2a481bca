//! Where a piece goes back.

/// Where a piece goes back: the shelf that it is from, the place of its first word, and the log of
/// its length in words.
#[derive(Clone, Copy, PartialEq, Eq, Debug)]
pub struct Back {
    pub shelf: u64,
    pub at: u64,
    pub log: u64,
}

impl Back {
    /// The shelf of a piece from `Buddies`.
    pub const BUDDIES: u64 = 0;

    /// The shelf of a block from `Blocks`, whose log is 3.
    pub const BLOCKS: u64 = 1;
}
