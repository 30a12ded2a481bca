ghost use Rattle.std.specs.Prelude.{◌≡◌, ◌+◌, ◌<◌, ◌≤◌, OnOk, IfOk, length, vec_len};
ghost use Rattle.ck_words.specs.Held.{HoldsPieces};

use super::*;
use std::alloc::{AllocError, Global};
use std::test::Fail;

/// Whether a value may be handed to another thread, and shared with it: it compiles.
fn is_for_threads<T: Send + Sync>(_value: &T) -> bool {
    true
}

#[test]
fn buddies_split_and_merge(rt: HostRuntime) -> Result<(), Fail> {
    let mut pool = Buddies::new(rt.alloc(), 0, 6, 4)?;
    assert!(rt; is_for_threads(&pool));
    let first = pool.take(4).ok_or("no piece of 16 words")?;
    let second = pool.take(5).ok_or("no piece of 32 words")?;
    let third = pool.take(4).ok_or("no second piece of 16 words")?;
    assert!(rt; first + 16 <= second || second + 32 <= first);
    assert!(rt; first + 16 <= third || third + 16 <= first);
    assert!(rt; third + 16 <= second || second + 32 <= third);
    assert_eq!(rt; pool.take(4), None);
    assert_eq!(rt; pool.free(), 0);
    pool.give(first, 4);
    assert_eq!(rt; pool.free(), 16);
    assert_eq!(rt; pool.take(5), None);
    Ok(())
}

#[test]
fn blocks_in_turn(rt: HostRuntime) -> Result<(), Fail> {
    let mut pool = Blocks::new(rt.alloc(), 0, 2)?;
    assert!(rt; is_for_threads(&pool));
    let first = pool.take().ok_or("no block")?;
    let second = pool.take().ok_or("no second block")?;
    assert!(rt; first + 8 <= second || second + 8 <= first);
    assert_eq!(rt; pool.take(), None);
    assert_eq!(rt; pool.free(), 0);
    pool.give(first);
    assert_eq!(rt; pool.free(), 1);
    assert_eq!(rt; pool.take(), Some(first));
    Ok(())
}

/// Takes a piece and puts it down.
fn take_one(
    pool: &mut Buddies,
    held: &mut Vec<(u64, u64)>,
    log: u64,
) -> Result<Option<u64>, AllocError>
    requires least { pool.old.log_min ≤ log }
    requires most { log ≤ pool.old.log_len }
    requires holds { HoldsPieces pool.old held.old.items }
    ensures holds { OnOk result (HoldsPieces pool.new held.new.items) }
    ensures min { pool.new.log_min ≡ pool.old.log_min }
    ensures len { pool.new.log_len ≡ pool.old.log_len }
{
    match pool.take(log) {
        Some(at) => {
            held.push((at, log))?;
            Ok(Some(at))
        }
        None => Ok(None),
    }
}

/// Gives a piece back, and strikes it out.
fn give_one(pool: &mut Buddies, held: &mut Vec<(u64, u64)>, i: usize) -> (u64, u64)
    requires within { i < vec_len held.old }
    requires holds { HoldsPieces pool.old held.old.items }
    ensures holds { HoldsPieces pool.new held.new.items }
    ensures fewer { vec_len held.new + 1 ≡ vec_len held.old }
    ensures min { pool.new.log_min ≡ pool.old.log_min }
    ensures len { pool.new.log_len ≡ pool.old.log_len }
{
    let (at, log) = held.remove(i);
    pool.give(at, log);
    (at, log)
}

/// Marks words as out or free, and tells whether all of them were marked otherwise before.
fn mark(words: &mut [bool], at: usize, len: usize, out: bool) -> bool {
    let mut all = true;
    for i in 0..words.len() {
        if at <= i && i - at < len {
            all = all && words[i] != out;
            words[i] = out;
        }
    }
    all
}

/// Whether each range of `len` words at a multiple of `len` has a word that is out.
fn is_each_range_blocked(words: &[bool], len: usize) -> bool
    requires { 0 < len }
{
    let mut blocked = true;
    for i in 0..words.len() {
        if i % len == 0 {
            if !blocked {
                return false;
            }
            blocked = false;
        }
        blocked = blocked || words[i];
    }
    blocked
}

fn free_count(words: &[bool]) -> usize {
    words.iter().filter(|word| !**word).count()
}

const FIRST: u64 = 40;

/// The next of a sequence of numbers that look random.
fn next(seed: u64) -> u64 {
    seed.wrapping_mul(6364136223846793005)
        .wrapping_add(1442695040888963407)
}

/// Takes a piece, and tells whether the list of words agrees.
fn take_agrees(
    pool: &mut Buddies,
    held: &mut Vec<(u64, u64)>,
    words: &mut [bool],
    log: u64,
) -> Result<bool, AllocError>
    requires least { pool.old.log_min ≤ log }
    requires most { log ≤ pool.old.log_len }
    requires small { log < 64 }
    requires holds { HoldsPieces pool.old held.old.items }
    ensures holds { OnOk result (HoldsPieces pool.new held.new.items) }
    ensures min { pool.new.log_min ≡ pool.old.log_min }
    ensures len { pool.new.log_len ≡ pool.old.log_len }
{
    let len = (1_usize << log).max(1);
    match take_one(pool, held, log)? {
        Some(at) => Ok(mark(words, at.wrapping_sub(FIRST) as usize, len, true)),
        None => Ok(is_each_range_blocked(words, len)),
    }
}

/// Gives a piece back, and tells whether the list of words agrees.
fn give_agrees(pool: &mut Buddies, held: &mut Vec<(u64, u64)>, words: &mut [bool], i: usize) -> bool
    requires within { i < vec_len held.old }
    requires holds { HoldsPieces pool.old held.old.items }
    ensures holds { HoldsPieces pool.new held.new.items }
    ensures min { pool.new.log_min ≡ pool.old.log_min }
    ensures len { pool.new.log_len ≡ pool.old.log_len }
{
    let (at, log) = give_one(pool, held, i);
    mark(
        words,
        at.wrapping_sub(FIRST) as usize,
        1 << (log % 64),
        false,
    )
}

/// Takes or gives a piece as the seed says, and tells whether the list of words agrees.
fn step_agrees(
    pool: &mut Buddies,
    held: &mut Vec<(u64, u64)>,
    words: &mut [bool],
    seed: u64,
) -> Result<bool, AllocError>
    requires min { pool.old.log_min ≡ 3 }
    requires len { pool.old.log_len ≡ 8 }
    requires holds { HoldsPieces pool.old held.old.items }
    ensures holds { OnOk result (HoldsPieces pool.new held.new.items) }
    ensures min { pool.new.log_min ≡ 3 }
    ensures len { pool.new.log_len ≡ 8 }
{
    if (seed >> 60) % 2 == 0 || held.is_empty() {
        return take_agrees(pool, held, words, 3 + (seed >> 40) % 6);
    }
    let i = (seed >> 20) as usize % held.len();
    Ok(give_agrees(pool, held, words, i))
}

#[test]
fn buddies_as_a_list_of_words(rt: HostRuntime) -> Result<(), Fail> {
    let mut pool = Buddies::new(rt.alloc(), FIRST, 8, 3)?;
    let mut words = vec![in rt.alloc(); false; 256]?;
    let mut held: Vec<(u64, u64)> = Vec::new(rt.alloc());
    let mut seed = 1;
    'steps: for _ in 0..2000u64 {
        seed = next(seed);
        let agrees = step_agrees(&mut pool, &mut held, &mut words, seed)?;
        assert!(rt; agrees);
        assert_eq!(rt; pool.free() as usize, free_count(&words));
    }
    'returns: while !held.is_empty() {
        let _ = give_one(&mut pool, &mut held, 0);
    }
    assert_eq!(rt; pool.free(), 256);
    assert_eq!(rt; pool.take(8), Some(FIRST));
    Ok(())
}
