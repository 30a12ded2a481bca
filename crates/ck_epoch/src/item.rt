//! What a writer retires.

/// A piece that a writer retires: the place of its first word, and the log of its length in words.
#[derive(Clone, Copy, PartialEq, Eq, Debug)]
pub struct Item {
    pub at: u64,
    pub log: u64,
}

/// An item that is pending, and the global epoch at which it was retired.
#[derive(Clone, Copy, Drop)]
pub struct Retired {
    pub item: Item,
    pub epoch: u64,
}
