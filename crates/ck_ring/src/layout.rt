//! Where the words of a ring lie, and how many calls may be made.

/// The word of the head, which is the position of the oldest item. Consumers exchange it.
pub const HEAD: usize = 0;

/// The word of the tail, which is the position that the next value gets. The producer alone stores it.
pub const TAIL: usize = 1;

/// The first word of the items: position p lies in word `ITEMS` + p mod size.
pub const ITEMS: usize = 2;

/// Fewer calls than this may be made with a consumer.
pub const MOST_CALLS: u64 = 1_099_511_627_776;

/// Fewer calls than this may be made with the producer, so that every position is at most this. It is 8 below `MOST_CALLS`.
pub const MOST_SENT: u64 = 1_099_511_627_768;
