//! What a look goes by, and what it finds.
use ck_history::Key;

/// A look at one region: its key with the key's hash, the root that was loaded, and the number that was loaded from the region's counter.
#[derive(Drop)]
pub(crate) struct Search {
    pub key: Key,
    pub root: u64,
    pub counter: u64,
    pub hash: u64,
}

/// What a slot has for a look.
#[derive(Clone, Copy)]
pub(crate) enum Finding {
    /// It is empty.
    Vacant,
    /// It is neither empty nor the key's.
    Other,
    /// It holds the key, with this value.
    Match { value: u64 },
}
