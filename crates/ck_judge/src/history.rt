//! What each key has after how many updates, and the least place at which a key has some value.

ghost use Rattle.std.specs.Prelude.{◌≡◌, ◌+◌, ◌≤◌, ◌<◌, ◌^◌, ℕ, [], None, length, IfOk, MatchOption, IsTrue, ◌↔◌, map};
ghost use Rattle.std.specs.declared.cmp.Ordering.TheVariants.{Equal};
ghost use Rattle.ck_history.specs.Map.{answer_after};
ghost use Rattle.ck_judge.specs.Changes.{changes_from};
ghost use Rattle.ck_judge.specs.History.{IsHistory, NoAnswerFrom, IsNextAnswer, GivesNext, given_by};

use crate::changes::{Change, Given};
use crate::search::{Span, first_not_below};
use ck_history::Update;
use std::alloc::{AllocError, Global};

/// The updates, what they touched by key and place, and the same by key, value and place. Both lists are grouped by key
/// alike, and `groups` says where: no contract rests on it, since a search looks whether it ends in the group.
#[derive(Debug, Drop)]
pub struct History<K> {
    pub updates: Vec<Update<K>>,
    pub most: u64,
    pub changes: Vec<Change<K>>,
    pub given: Vec<Given<K>>,
    pub groups: Vec<Group<K>>,
}

/// A key, and where its changes begin.
#[derive(Clone, Copy, Debug)]
pub struct Group<K> {
    pub key: K,
    pub from: usize,
}

impl<K: Ord + Copy> History<K> {
    /// The history of updates on a map of at most `most` pairs, which touched this.
    pub fn new(
        alloc: Global,
        updates: Vec<Update<K>>,
        most: u64,
        mut changes: Vec<Change<K>>,
    ) -> Result<History<K>, AllocError>
        requires { changes.items ≡ changes_from K.cmp most [] 0 updates.items }
        ensures history { IfOk result (λ h. IsHistory K.cmp h) }
        ensures updates { IfOk result (λ h. h.updates.items ≡ updates.items) }
        ensures most { IfOk result (λ h. h.most ≡ most) }
    {
        changes.sort_unstable();
        // Made of changes that are sorted by key, this list is sorted by key already, and each group is short.
        let mut given = given_of(alloc, &changes)?;
        given.sort_unstable();
        let groups = groups_of(alloc, &changes)?;
        Ok(History {
            updates,
            most,
            changes,
            given,
            groups,
        })
    }

    /// The least place from `from` on at which the key has this value. It takes time in the logarithm of the number of
    /// updates.
    pub fn next_place(&self, key: &K, value: Option<u64>, from: u64) -> Option<u64>
        requires { IsHistory K.cmp self.now }
        ensures { MatchOption result (NoAnswerFrom K.cmp self.now key.now value from) (IsNextAnswer K.cmp self.now key.now value from) }
    {
        if from > self.updates.len() as u64 {
            return None;
        }
        let group = self.group_of(key);
        if same_value(self.value_at(key, from, group), value) {
            return Some(from);
        }
        self.next_given(key, value, from, group)
    }

    // Where the changes of the key are, if there are any.
    fn group_of(&self, key: &K) -> Span {
        let groups = self.groups.as_slice();
        let i = groups.partition_point(|group| group.key.cmp(key).is_lt());
        let all = self.changes.len();
        Span {
            from: groups.get(i).map_or(all, |group| group.from),
            to: groups.get(i + 1).map_or(all, |group| group.from),
        }
    }

    // What the key has after so many updates: what the last change up to there says.
    fn value_at(&self, key: &K, place: u64, group: Span) -> Option<u64>
        requires history { IsHistory K.cmp self.now }
        requires within { place ≤ length self.now.updates.items }
        ensures { result ≡ answer_after K.cmp self.now.most self.now.updates.items place key.now }
    {
        let changes = self.changes.as_slice();
        let at = first_not_below(
            changes,
            &Change {
                key: *key,
                place: place + 1,
                value: None,
            },
            group,
        );
        if at == 0 {
            return None;
        }
        let last = &changes[at - 1];
        if same_key(&last.key, key) {
            last.value
        } else {
            None
        }
    }

    // The least place from `from` on at which an update gave the key this value.
    fn next_given(&self, key: &K, value: Option<u64>, from: u64, group: Span) -> Option<u64>
        requires { IsHistory K.cmp self.now }
        ensures { GivesNext K.cmp self.now key.now value from result }
    {
        let given = self.given.as_slice();
        let at = first_not_below(
            given,
            &Given {
                key: *key,
                value,
                place: from,
            },
            group,
        );
        if at == given.len() {
            return None;
        }
        let first = &given[at];
        if gives(first, key, value) {
            Some(first.place)
        } else {
            None
        }
    }
}

// The changes, in the form that is sorted by value.
fn given_of<K: Copy>(alloc: Global, changes: &[Change<K>]) -> Result<Vec<Given<K>>, AllocError>
    ensures { IfOk result (λ given. given.items ≡ map given_by changes.now) }
{
    changes
        .iter()
        .map(|change| Given {
            key: change.key,
            value: change.value,
            place: change.place,
        })
        .collect(alloc)
}

// Where the changes of each key begin, in changes that are sorted.
fn groups_of<K: Ord + Copy>(
    alloc: Global,
    changes: &[Change<K>],
) -> Result<Vec<Group<K>>, AllocError> {
    let mut groups: Vec<Group<K>> = Vec::new(alloc);
    for (from, change) in changes.iter().enumerate() {
        if !ends_with(&groups, &change.key) {
            groups.push(Group {
                key: change.key,
                from,
            })?;
        }
    }
    Ok(groups)
}

// Whether the last group is that of the key.
fn ends_with<K: Ord>(groups: &[Group<K>], key: &K) -> bool {
    match groups.last() {
        Some(group) => same_key(&group.key, key),
        None => false,
    }
}

// Whether it is this key that was given this value.
fn gives<K: Ord + Copy>(given: &Given<K>, key: &K, value: Option<u64>) -> bool
    ensures { IsTrue result ↔ ((K.cmp given.now.key key.now ≡ Equal) × (given.now.value ≡ value)) }
{
    same_key(&given.key, key) && same_value(given.value, value)
}

/// Whether the keys are equal.
pub fn same_key<K: Ord>(a: &K, b: &K) -> bool
    ensures { IsTrue result ↔ (K.cmp a.now b.now ≡ Equal) }
{
    a.cmp(b).is_eq()
}

// Whether the two are the same.
fn same_value(a: Option<u64>, b: Option<u64>) -> bool
    ensures { IsTrue result ↔ (a ≡ b) }
{
    match (a, b) {
        (None, None) => true,
        (Some(x), Some(y)) => x == y,
        (None, Some(_)) => false,
        (Some(_), None) => false,
    }
}
