/// A query's key and what was found beside it.
#[derive(Clone, Copy, PartialEq, Eq, Debug)]
pub struct Asked<K> {
    pub key: K,
    pub found: Option<u64>,
}
