//! One thread's run of the updates: their replies, the map after them, and what each touched.

ghost use Rattle.std.specs.Prelude.{◌≡◌, ◌+◌, ◌<◌, ◌^◌, ◌++◌, [], Some, None, IfOk, OnOk};
ghost use Rattle.ck_history.specs.Map.{find, add, step, after_from, replies};
ghost use Rattle.ck_history.specs.declared.update.Update.TheVariants.{Set, Del};
ghost use Rattle.ck_script.specs.Script.{said_of, updates};
ghost use Rattle.ck_judge.specs.Changes.{update_key, changes_at, changes_from};

use crate::changes::Change;
use ck_history::{Reply, Update};
use ck_script::{LineList, UpLine};
use std::alloc::{AllocError, Global};
use std::collections::BTreeMap;

/// What the updates did.
#[derive(Debug, Drop)]
pub struct Replayed<K> {
    /// Their replies, in order.
    pub replies: Vec<Reply>,
    /// The pairs after them, by ascending key.
    pub pairs: Vec<(K, u64)>,
    /// What they touched, in order.
    pub changes: Vec<Change<K>>,
}

/// The updates of an update file, in order.
pub fn list_updates<C: Copy, U: LineList<UpLine<C>>>(
    alloc: Global,
    ups: &U,
) -> Result<Vec<C>, AllocError>
    ensures { IfOk result (λ us. us.items ≡ updates (said_of (U.items ups.now))) }
{
    let mut us = Vec::new(alloc);
    for i in 0..ups.len() {
        match ups.what(i) {
            UpLine::Call(u) => us.push(u)?,
            UpLine::Hold { .. } => {}
        }
    }
    Ok(us)
}

/// Runs the updates on a map of at most `most` pairs. Each takes time in the logarithm of the number of pairs.
pub fn replay<K: Ord + Copy>(
    alloc: Global,
    us: &[Update<K>],
    most: u64,
) -> Result<Replayed<K>, AllocError>
    ensures replies { IfOk result (λ r. r.replies.items ≡ replies K.cmp most us.now) }
    ensures pairs { IfOk result (λ r. r.pairs.items ≡ after_from K.cmp most [] us.now) }
    ensures changes { IfOk result (λ r. r.changes.items ≡ changes_from K.cmp most [] 0 us.now) }
{
    let mut table: BTreeMap<K, u64> = BTreeMap::new(alloc);
    let mut replies = Vec::new(alloc);
    let mut changes = Vec::new(alloc);
    for (i, u) in us.iter().enumerate() {
        let (reply, value) = apply(&mut table, most, u)?;
        replies.push(reply)?;
        note(&mut changes, i as u64, update_key(u), value)?;
    }
    Ok(Replayed {
        replies,
        pairs: list_pairs(alloc, table)?,
        changes,
    })
}

// Makes one update. Gives its reply, and what its key has after it, if it has one.
fn apply<K: Ord + Copy>(
    table: &mut BTreeMap<K, u64>,
    most: u64,
    u: &Update<K>,
) -> Result<(Reply, Option<u64>), AllocError>
    ensures reply { IfOk result (λ r. r.0 ≡ (step K.cmp most table.old.entries u.now).1) }
    ensures map { OnOk result (table.new.entries ≡ (step K.cmp most table.old.entries u.now).0) }
    ensures value { IfOk result (λ r. (k : K) → update_key u.now ≡ Some k → r.1 ≡ find K.cmp table.new.entries k) }
{
    match *u {
        Update::Set(key, value) => set(table, most, key, value),
        Update::Put(key, value) => match table.get(&key).copied() {
            Some(old) => Ok((Reply::Has(old), Some(old))),
            None => add(table, most, key, value),
        },
        Update::Del(key) => Ok((remove(table, &key), None)),
        Update::Tidy => Ok((Reply::Tidied, None)),
    }
}

// Adds the pair or replaces the key's value. Only where the map is full does it look first whether the key is there.
fn set<K: Ord + Copy>(
    table: &mut BTreeMap<K, u64>,
    most: u64,
    key: K,
    value: u64,
) -> Result<(Reply, Option<u64>), AllocError>
    ensures reply { IfOk result (λ r. r.0 ≡ (step K.cmp most table.old.entries (Set key value)).1) }
    ensures map { OnOk result (table.new.entries ≡ (step K.cmp most table.old.entries (Set key value)).0) }
    ensures value { IfOk result (λ r. r.1 ≡ find K.cmp table.new.entries key) }
{
    if table.len() as u64 >= most && table.get(&key).is_none() {
        return Ok((Reply::Full, None));
    }
    match table.insert(key, value)? {
        Some(old) => Ok((Reply::Was(old), Some(value))),
        None => Ok((Reply::Fresh, Some(value))),
    }
}

// Adds the pair of an absent key, unless there are `most` pairs.
fn add<K: Ord + Copy>(
    table: &mut BTreeMap<K, u64>,
    most: u64,
    key: K,
    value: u64,
) -> Result<(Reply, Option<u64>), AllocError>
    requires { find K.cmp table.old.entries key ≡ None }
    ensures reply { IfOk result (λ r. r.0 ≡ (add K.cmp most table.old.entries key value).1) }
    ensures map { OnOk result (table.new.entries ≡ (add K.cmp most table.old.entries key value).0) }
    ensures value { IfOk result (λ r. r.1 ≡ find K.cmp table.new.entries key) }
{
    if table.len() as u64 >= most {
        return Ok((Reply::Full, None));
    }
    table.insert(key, value)?;
    Ok((Reply::Fresh, Some(value)))
}

// Takes the key's pair out.
fn remove<K: Ord + Copy>(table: &mut BTreeMap<K, u64>, key: &K) -> Reply
    ensures reply { result ≡ (step K.cmp 0 table.old.entries (Del key.now)).1 }
    ensures map { table.new.entries ≡ (step K.cmp 0 table.old.entries (Del key.now)).0 }
    ensures absent { find K.cmp table.new.entries key.now ≡ None }
{
    match table.remove(key) {
        Some(old) => Reply::Was(old),
        None => Reply::Missing,
    }
}

// The key of an update, if it has one.
fn update_key<K: Copy>(u: &Update<K>) -> Option<K>
    ensures { result ≡ update_key u.now }
{
    match *u {
        Update::Set(key, _) => Some(key),
        Update::Put(key, _) => Some(key),
        Update::Del(key) => Some(key),
        Update::Tidy => None,
    }
}

// Puts down what the key of an update has after it, where `place` updates stand before it.
fn note<K: Copy>(
    changes: &mut Vec<Change<K>>,
    place: u64,
    key: Option<K>,
    value: Option<u64>,
) -> Result<(), AllocError>
    requires { place + 1 < 2 ^ 64 }
    ensures { OnOk result (changes.new.items ≡ changes.old.items ++ changes_at key place value) }
{
    if let Some(key) = key {
        changes.push(Change {
            key,
            place: place + 1,
            value,
        })?;
    }
    Ok(())
}

// The pairs, by ascending key.
fn list_pairs<K: Ord + Copy>(
    alloc: Global,
    table: BTreeMap<K, u64>,
) -> Result<Vec<(K, u64)>, AllocError>
    ensures { IfOk result (λ pairs. pairs.items ≡ table.entries) }
{
    table.into_iter().collect(alloc)
}
