//! What is known of the one who updates a map and of those who look keys up in it.

use crate::update::{Reply, Update};

/// An answered update: an entry of the log of the one who updates.
#[derive(Clone, Copy, PartialEq, Eq, Debug)]
pub struct LogEntry<K> {
    pub update: Update<K>,
    pub reply: Reply,
}

/// The answer to a look-up in a structure that has one writer and many readers.
#[derive(Clone, Copy, PartialEq, Eq, Debug)]
pub enum Look {
    /// The key has this value.
    Found(u64),
    /// The key is absent.
    Absent,
    /// The writer was at work where the key would be, as the two loads of a counter show: look again.
    Again { before: u64, after: u64 },
}

/// Why the writer of a structure couldn't update it: it needed a piece of its arena, none was free, and the poll that it made then loaded this
/// record active with this epoch.
#[derive(Clone, Copy, PartialEq, Eq, Debug)]
pub struct Busy {
    pub rec: u64,
    pub epoch: u64,
}

/// An answered look-up, with its place: the number of updates after which the map gave this answer. Only contracts speak of it.
#[derive(Clone, Copy, PartialEq, Eq, Debug)]
pub struct Placed<K> {
    pub key: K,
    pub answer: Option<u64>,
    pub place: u64,
}
