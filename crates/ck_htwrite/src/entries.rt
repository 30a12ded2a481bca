//! The map that the lists hold, as a list of its pairs.
ghost use Rattle.std.specs.Prelude.{◌≡◌, ◌≢◌, ℕ, ◌+◌, ◌*◌, ◌^◌, ◌<◌, ◌≤◌, [], length, slice_index, IfOk};
ghost use Rattle.std.specs.Ordering.{nat_cmp};
ghost use Rattle.std.specs.BTreeMap.{insert_entry};
ghost use Rattle.ck_history.specs.Key.{IsKey};
ghost use Rattle.ck_history.specs.Map.{Map};
ghost use Rattle.ck_htplan.specs.Region.{view_of};
ghost use Rattle.ck_htlaw.specs.Layout.{log_of};
ghost use Rattle.ck_htwrite.specs.Entries.{AreGathered, HoldsMap, key_in};

use crate::copies::word_in;
use crate::state::HtState;
use ck_history::Key;
use ck_htplan::{FULL, HIGH, LOW, STATE, VALUE};
use std::alloc::{AllocError, Global};
use std::collections::BTreeMap;

// How many numbers a word has.
const WORD: u128 = 1 << 64;

// The key of a full slot.
fn key_at(words: &Vec<u64>, at: u64) -> Key
    requires inside { 4 * at + 3 < length words.now.items }
    requires key { IsKey (key_in (view_of words.now.items) at) }
    ensures { result ≡ key_in (view_of words.now.items) at }
{
    let high = word_in(words, at, HIGH) as u128;
    let low = word_in(words, at, LOW) as u128;
    match Key::new(high * WORD + low) {
        Some(key) => key,
        None => unreachable!(),
    }
}

// Adds the pair of a slot, if it is full.
fn add_slot(pairs: &mut BTreeMap<Key, u64>, words: &Vec<u64>, at: u64) -> Result<(), AllocError>
    requires inside { 4 * at + 3 < length words.now.items }
    requires key { (view_of words.now.items).state at ≡ 1 → IsKey (key_in (view_of words.now.items) at) }
    ensures full { (view_of words.now.items).state at ≡ 1 → IfOk result (λ u. pairs.new.entries ≡ insert_entry nat_cmp pairs.old.entries (key_in (view_of words.now.items) at) ((view_of words.now.items).value at)) }
    ensures other { (view_of words.now.items).state at ≢ 1 → IfOk result (λ u. pairs.new.entries ≡ pairs.old.entries) }
{
    if word_in(words, at, STATE) != FULL {
        return Ok(());
    }
    let key = key_at(words, at);
    pairs.insert(key, word_in(words, at, VALUE))?;
    Ok(())
}

// The pairs of all slots.
fn gather(alloc: Global, state: &HtState) -> Result<BTreeMap<Key, u64>, AllocError>
    requires long { length state.now.words.items ≡ 2 ^ (log_of state.now.root + 2) }
    requires few { log_of state.now.root ≤ 19 }
    requires map { (m : Map ℕ) × HoldsMap (view_of state.now.words.items) (2 ^ log_of state.now.root) m }
    ensures pairs { (m : Map ℕ) → HoldsMap (view_of state.now.words.items) (2 ^ log_of state.now.root) m → IfOk result (λ r. AreGathered (view_of state.now.words.items) m (2 ^ log_of state.now.root) r.entries) }
{
    let mut pairs = BTreeMap::new(alloc);
    for slot in 0..state.slots() {
        add_slot(&mut pairs, &state.words, slot)?;
    }
    Ok(pairs)
}

// The pairs, by ascending key.
fn list_pairs(alloc: Global, pairs: BTreeMap<Key, u64>) -> Result<Vec<(Key, u64)>, AllocError>
    ensures { IfOk result (λ r. r.items ≡ pairs.entries) }
{
    pairs.into_iter().collect(alloc)
}

impl HtState {
    /// The pairs of the map, by ascending key. The only error is want of memory.
    pub fn entries(&self, alloc: Global) -> Result<Vec<(Key, u64)>, AllocError>
        requires long { length self.now.words.items ≡ 2 ^ (log_of self.now.root + 2) }
        requires few { log_of self.now.root ≤ 19 }
        requires map { (m : Map ℕ) × HoldsMap (view_of self.now.words.items) (2 ^ log_of self.now.root) m }
        ensures { (m : Map ℕ) → HoldsMap (view_of self.now.words.items) (2 ^ log_of self.now.root) m → IfOk result (λ r. r.items ≡ m) }
    {
        let pairs = gather(alloc, self)?;
        list_pairs(alloc, pairs)
    }
}
