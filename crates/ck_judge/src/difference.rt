//! Where two lists first differ.

ghost use Rattle.std.specs.Prelude.{◌≡◌, MatchOption, IsTrue, ◌↔◌};
ghost use Rattle.ck_judge.specs.Verdict.{AgreeAt, Agree, DifferFirstAt, SamePair};

use crate::history::same_key;
use ck_history::Reply;

/// The least number, from 1, at which the replies differ, one missing included.
pub fn first_reply(found: &[Reply], right: &[Reply]) -> Option<u64>
    ensures { MatchOption result (Agree (λ x y. x ≡ y) found.now right.now) (DifferFirstAt (λ x y. x ≡ y) found.now right.now) }
{
    let end = found.len().max(right.len());
    for i in 0..end {
        if !same_reply_at(found, right, i) {
            return Some(i as u64 + 1);
        }
    }
    None
}

// Whether both lists have the same reply there, or none.
fn same_reply_at(found: &[Reply], right: &[Reply], i: usize) -> bool
    ensures { IsTrue result ↔ AgreeAt (λ x y. x ≡ y) found.now right.now i }
{
    match (found.get(i), right.get(i)) {
        (None, None) => true,
        (Some(x), Some(y)) => same_reply(x, y),
        (None, Some(_)) => false,
        (Some(_), None) => false,
    }
}

// Whether the replies are the same.
fn same_reply(x: &Reply, y: &Reply) -> bool
    ensures { IsTrue result ↔ (x.now ≡ y.now) }
{
    x == y
}

/// The least number, from 1, at which the pairs differ, one missing included.
pub fn first_pair<K: Ord + Copy>(found: &[(K, u64)], right: &[(K, u64)]) -> Option<u64>
    ensures { MatchOption result (Agree (SamePair K.cmp) found.now right.now) (DifferFirstAt (SamePair K.cmp) found.now right.now) }
{
    let end = found.len().max(right.len());
    for i in 0..end {
        if !same_pair_at(found, right, i) {
            return Some(i as u64 + 1);
        }
    }
    None
}

// Whether both lists have the same pair there, or none.
fn same_pair_at<K: Ord + Copy>(found: &[(K, u64)], right: &[(K, u64)], i: usize) -> bool
    ensures { IsTrue result ↔ AgreeAt (SamePair K.cmp) found.now right.now i }
{
    match (found.get(i), right.get(i)) {
        (None, None) => true,
        (Some(x), Some(y)) => same_pair(x, y),
        (None, Some(_)) => false,
        (Some(_), None) => false,
    }
}

// Whether the keys are equal and the values the same.
fn same_pair<K: Ord + Copy>(x: &(K, u64), y: &(K, u64)) -> bool
    ensures { IsTrue result ↔ SamePair K.cmp x.now y.now }
{
    same_key(&x.0, &y.0) && x.1 == y.1
}
