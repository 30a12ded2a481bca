/// An update of a map from keys to values.
#[derive(Clone, Copy, PartialEq, Eq, Debug)]
pub enum Update<K> {
    /// Adds the pair, or puts the value in place of the key's old one, as `ck_ht_set_spmc`.
    Set(K, u64),
    /// Adds the pair where the key is absent, as `ck_ht_put_spmc`.
    Put(K, u64),
    /// Takes the key's pair out, as `ck_ht_remove_spmc`.
    Del(K),
    /// Rebuilds the map without its tombstones, as `ck_ht_gc`. No pair changes.
    Tidy,
}

/// The reply to an update.
#[derive(Clone, Copy, PartialEq, Eq, Debug)]
pub enum Reply {
    /// The key was absent, and its pair was added.
    Fresh,
    /// The key had this value, which was replaced or taken out.
    Was(u64),
    /// The key has this value, and nothing changed.
    Has(u64),
    /// The key was absent, and nothing changed.
    Missing,
    /// The map was tidied.
    Tidied,
    /// The key is absent and the map has as many pairs as it may, and nothing changed.
    Full,
}
