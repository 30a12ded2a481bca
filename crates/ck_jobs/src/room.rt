//! How much room the updates of a job ask for.
ghost use Rattle.std.specs.Prelude.{◌≡◌, ◌<◌, ◌≤◌, ◌∷◌, [], ℕ, length, All, IfOk, OnOk, MatchOption};
ghost use Rattle.std.specs.Ordering.{nat_cmp};
ghost use Rattle.ck_history.specs.Map.{Map, IsMap, step};
ghost use Rattle.ck_script.specs.Script.{said_of, updates};
ghost use Rattle.ck_htlaw.specs.Actions.{most};
ghost use Rattle.ck_jobs.specs.Room.{brought, pairs_after, AreKeysOf, most_bounded};

use ck_history::{Key, Update};
use ck_script::{LineList, Lines, UpLine};
use std::alloc::{AllocError, Global};
use std::collections::HashSet;

/// A table has at most so many pairs.
const MOST_PAIRS: u64 = 262_144;

/// Up to so many pairs a bound on them does: to count them costs more than the memory that a table then takes too much.
const MOST_BOUNDED: u64 = 65_536;

// The key of which the line can add a pair.
fn brought_key(line: &UpLine<Update<Key>>) -> Option<Key>
    ensures { MatchOption result (brought (updates (line.now ∷ [])) ≡ []) (λ key. brought (updates (line.now ∷ [])) ≡ key ∷ []) }
{
    match line {
        UpLine::Call(Update::Set(key, _)) => Some(*key),
        UpLine::Call(Update::Put(key, _)) => Some(*key),
        _ => None,
    }
}

// A number of pairs that the map of these lines' updates never goes beyond. It is the least of three: how many `set` and `put` lines there are,
// the greatest key of these lines, since keys begin at 1, and how many pairs a table can have.
fn bound_of(lines: &Lines<UpLine<Update<Key>>>) -> u64
    ensures enough { (p : ℕ) → pairs_after (updates (said_of lines.now.items)) p ≤ result }
    ensures by_lines { result ≤ length (brought (updates (said_of lines.now.items))) }
    ensures by_keys { (greatest : ℕ) → All (λ key. key ≤ greatest) (brought (updates (said_of lines.now.items))) → result ≤ greatest }
    ensures by_tables { result ≤ most }
{
    let mut pairs = 0u64;
    let mut greatest = 0u128;
    for i in 0..lines.len() {
        if let Some(key) = brought_key(&lines.what(i)) {
            pairs += 1;
            greatest = greatest.max(key.get());
        }
    }
    greatest.min(u128::from(pairs).min(u128::from(MOST_PAIRS))) as u64
}

// Keeps the keys of a map in a set beside an update of it.
fn keep_keys(keys: &mut HashSet<u128>, update: &Update<Key>) -> Result<(), AllocError>
    ensures { OnOk result ((m : Map ℕ) → IsMap nat_cmp m → length m < most → AreKeysOf keys.old.keys m → AreKeysOf keys.new.keys (step nat_cmp most m update.now).0) }
{
    match update {
        Update::Set(key, _) => {
            keys.insert(key.get())?;
        }
        Update::Put(key, _) => {
            keys.insert(key.get())?;
        }
        Update::Del(key) => {
            keys.remove(&key.get());
        }
        Update::Tidy => {}
    }
    Ok(())
}

// How many pairs the map of these lines' updates has at most. They are counted in a set of its keys, until it is full.
fn count_pairs(alloc: Global, lines: &Lines<UpLine<Update<Key>>>) -> Result<u64, AllocError>
    ensures enough { IfOk result (λ pairs. (p : ℕ) → pairs_after (updates (said_of lines.now.items)) p ≤ pairs) }
    ensures reached { IfOk result (λ pairs. (p : ℕ) × (pairs_after (updates (said_of lines.now.items)) p ≡ pairs)) }
{
    let mut keys = HashSet::new(alloc);
    let mut pairs = 0;
    for i in 0..lines.len() {
        match lines.what(i) {
            UpLine::Call(update) => {
                if pairs < MOST_PAIRS {
                    keep_keys(&mut keys, &update)?;
                    pairs = pairs.max(keys.len() as u64);
                }
            }
            UpLine::Hold { .. } => {}
        }
    }
    Ok(pairs)
}

/// A number of pairs that the map of these lines' updates never goes beyond. Up to `MOST_BOUNDED` it may be a bound: the least of how many `set`
/// and `put` lines there are, of the greatest key of these lines, since keys begin at 1, and of how many pairs a table can have. Beyond, where
/// the table for them would take much memory, they are counted. The only error is want of memory.
pub fn pairs_of(alloc: Global, lines: &Lines<UpLine<Update<Key>>>) -> Result<u64, AllocError>
    ensures enough { IfOk result (λ pairs. (p : ℕ) → pairs_after (updates (said_of lines.now.items)) p ≤ pairs) }
    ensures by_lines { IfOk result (λ pairs. pairs ≤ length (brought (updates (said_of lines.now.items)))) }
    ensures by_keys { IfOk result (λ pairs. (greatest : ℕ) → All (λ key. key ≤ greatest) (brought (updates (said_of lines.now.items))) → pairs ≤ greatest) }
    ensures by_tables { IfOk result (λ pairs. pairs ≤ most) }
    ensures counted { IfOk result (λ pairs. most_bounded < pairs → (p : ℕ) × (pairs_after (updates (said_of lines.now.items)) p ≡ pairs)) }
{
    let bound = bound_of(lines);
    if bound <= MOST_BOUNDED {
        return Ok(bound);
    }
    count_pairs(alloc, lines)
}
