//! How the words of a region are laid out: slot after slot.

/// How many words a slot has.
pub const SLOT_WORDS: u64 = 4;

/// The first word of a slot: its state.
pub const STATE: u64 = 0;

/// The second word: the low one of its key.
pub const LOW: u64 = 1;

/// The third word: the high one of its key.
pub const HIGH: u64 = 2;

/// The last word: its value.
pub const VALUE: u64 = 3;

/// The state of a slot that has had no key since the region was cleared.
pub const EMPTY: u64 = 0;

/// The state of a slot that has a key.
pub const FULL: u64 = 1;

/// The state of a slot whose key was removed, or moved away.
pub const TOMBSTONE: u64 = 2;
