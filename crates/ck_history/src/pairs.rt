//! Look-ups in, and edits of, pairs that are sorted by key.

ghost use Rattle.std.specs.Prelude.{◌≡◌, ℕ, IfOk, IsOk, MatchResult, OnOk, OnErr};
ghost use Rattle.ck_history.specs.Map.{IsMap, find, add, step};
ghost use Rattle.ck_history.specs.Index.{StandsAt, BelongsAt};
ghost use Rattle.ck_history.specs.Room.{HasRoom};
ghost use Rattle.ck_history.specs.declared.update.Update.TheVariants.{Set, Put, Del};
ghost use Rattle.ck_history.specs.declared.update.Reply.TheVariants.{Fresh};

use crate::update::Reply;
use std::alloc::AllocError;

/// The index of the key's pair, or else the index at which its pair belongs.
pub fn index_of<K: Ord + Copy>(pairs: &[(K, u64)], key: &K) -> Result<usize, usize>
    requires { IsMap K.cmp pairs.now }
    ensures { MatchResult result (StandsAt K.cmp key.now pairs.now) (BelongsAt K.cmp key.now pairs.now) }
{
    pairs.binary_search_by_key(key, |pair| pair.0)
}

/// The value beside the key.
pub fn find<K: Ord + Copy>(pairs: &[(K, u64)], key: &K) -> Option<u64>
    requires { IsMap K.cmp pairs.now }
    ensures { result ≡ find K.cmp pairs.now key.now }
{
    match index_of(pairs, key) {
        Ok(at) => Some(pairs[at].1),
        Err(_) => None,
    }
}

/// Adds the pair of an absent key at its index, unless there are `most` pairs.
pub fn add<K: Ord + Copy>(
    pairs: &mut Vec<(K, u64)>,
    most: u64,
    at: usize,
    key: K,
    value: u64,
) -> Result<Reply, AllocError>
    requires order { IsMap K.cmp pairs.old.items }
    requires index { BelongsAt K.cmp key pairs.old.items at }
    ensures order { IsMap K.cmp pairs.new.items }
    ensures reply { IfOk result (λ reply. reply ≡ (add K.cmp most pairs.old.items key value).1) }
    ensures ok { OnOk result (pairs.new.items ≡ (add K.cmp most pairs.old.items key value).0) }
    ensures err { OnErr result (pairs.new.items ≡ pairs.old.items) }
    ensures memory { OnErr result ((add K.cmp most pairs.old.items key value).1 ≡ Fresh) }
    ensures room { HasRoom most pairs.old → IsOk result × HasRoom most pairs.new }
{
    if pairs.len() as u64 >= most {
        return Ok(Reply::Full);
    }
    pairs.insert(at, (key, value))?;
    Ok(Reply::Fresh)
}

/// Makes a `Set`, in a map of at most `most` pairs. An `AllocError` comes only where a pair is added, and changes nothing.
pub fn set<K: Ord + Copy>(
    pairs: &mut Vec<(K, u64)>,
    most: u64,
    key: K,
    value: u64,
) -> Result<Reply, AllocError>
    requires { IsMap K.cmp pairs.old.items }
    ensures order { IsMap K.cmp pairs.new.items }
    ensures reply { IfOk result (λ reply. reply ≡ (step K.cmp most pairs.old.items (Set key value)).1) }
    ensures ok { OnOk result (pairs.new.items ≡ (step K.cmp most pairs.old.items (Set key value)).0) }
    ensures err { OnErr result (pairs.new.items ≡ pairs.old.items) }
    ensures memory { OnErr result ((step K.cmp most pairs.old.items (Set key value)).1 ≡ Fresh) }
    ensures room { HasRoom most pairs.old → IsOk result × HasRoom most pairs.new }
{
    match index_of(pairs, &key) {
        Ok(at) => {
            let old = pairs[at];
            pairs[at] = (old.0, value);
            Ok(Reply::Was(old.1))
        }
        Err(at) => add(pairs, most, at, key, value),
    }
}

/// Makes a `Put`, in a map of at most `most` pairs. An `AllocError` comes only where a pair is added, and changes nothing.
pub fn put<K: Ord + Copy>(
    pairs: &mut Vec<(K, u64)>,
    most: u64,
    key: K,
    value: u64,
) -> Result<Reply, AllocError>
    requires { IsMap K.cmp pairs.old.items }
    ensures order { IsMap K.cmp pairs.new.items }
    ensures reply { IfOk result (λ reply. reply ≡ (step K.cmp most pairs.old.items (Put key value)).1) }
    ensures ok { OnOk result (pairs.new.items ≡ (step K.cmp most pairs.old.items (Put key value)).0) }
    ensures err { OnErr result (pairs.new.items ≡ pairs.old.items) }
    ensures memory { OnErr result ((step K.cmp most pairs.old.items (Put key value)).1 ≡ Fresh) }
    ensures room { HasRoom most pairs.old → IsOk result × HasRoom most pairs.new }
{
    match index_of(pairs, &key) {
        Ok(at) => Ok(Reply::Has(pairs[at].1)),
        Err(at) => add(pairs, most, at, key, value),
    }
}

/// Makes a `Del`, which takes no memory.
pub fn remove<K: Ord + Copy>(pairs: &mut Vec<(K, u64)>, key: &K) -> Reply
    requires { IsMap K.cmp pairs.old.items }
    ensures order { IsMap K.cmp pairs.new.items }
    ensures reply { result ≡ (step K.cmp 0 pairs.old.items (Del key.now)).1 }
    ensures pairs { pairs.new.items ≡ (step K.cmp 0 pairs.old.items (Del key.now)).0 }
    ensures room { (most : ℕ) → HasRoom most pairs.old → HasRoom most pairs.new }
{
    match index_of(pairs, key) {
        Ok(at) => Reply::Was(pairs.remove(at).1),
        Err(_) => Reply::Missing,
    }
}
