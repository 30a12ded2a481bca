//! What each update touched, and the least place from some other on at which a key has some value.

/// What a key has after `place` updates, of which the last is one of this key. Ordered by key, and then by place.
#[derive(Clone, Copy, PartialEq, Eq, PartialOrd, Ord, Debug)]
pub struct Change<K> {
    pub key: K,
    pub place: u64,
    pub value: Option<u64>,
}

/// The same, ordered by key, then by value and then by place.
#[derive(Clone, Copy, PartialEq, Eq, PartialOrd, Ord, Debug)]
pub struct Given<K> {
    pub key: K,
    pub value: Option<u64>,
    pub place: u64,
}
