//! The least places of one file's answers.

ghost use Rattle.std.specs.Prelude.{◌≡◌, map, length, take, IfOk, MatchResult, MatchOption};
ghost use Rattle.ck_judge.specs.Bounds.{query_of};
ghost use Rattle.ck_judge.specs.History.{IsHistory};
ghost use Rattle.ck_judge.specs.Verdict.{IsLegalFile, IsFirstWrong, AreLeast};
ghost use Rattle.ck_judge.specs.Placing.{NoNextPlace, IsNextPlace};

use crate::bounds::Bounded;
use crate::history::{History, same_key};
use crate::verdict::Places;
use ck_report::Asked;
use std::alloc::{AllocError, Global};

/// The least places of a file's answers, or the number of the first that is wrong. The place of each answer is the least
/// from the one before it on, so no other list of places has a lower one anywhere.
pub fn place_file<K: Ord + Copy>(
    alloc: Global,
    history: &History<K>,
    queries: &[Bounded<K>],
    answers: &[Asked<K>],
) -> Result<Result<Places, u64>, AllocError>
    requires { IsHistory K.cmp history.now }
    ensures legal { IfOk result (λ placed. MatchResult placed (λ places. IsLegalFile K.cmp history.now.most history.now.updates.items (map query_of queries.now) answers.now) (λ number. IsFirstWrong K.cmp history.now.most history.now.updates.items (map query_of queries.now) answers.now number)) }
    ensures least { IfOk result (λ placed. MatchResult placed (λ places. AreLeast K.cmp history.now.most history.now.updates.items (map query_of queries.now) answers.now places) (λ number. Unit {0})) }
{
    let mut places = Vec::new(alloc);
    let mut last: u64 = 0;
    for (i, query) in queries.iter().enumerate() {
        if i >= answers.len() {
            return Ok(Err(i as u64 + 1));
        }
        let answer = &answers[i];
        match place_next(history, query, answer, last) {
            Some(place) => {
                places.push(place)?;
                last = place;
            }
            None => return Ok(Err(i as u64 + 1)),
        }
    }
    if answers.len() > queries.len() {
        return Ok(Err(queries.len() as u64 + 1));
    }
    Ok(Ok(Places { places }))
}

// The least place of an answer from `last` on.
fn place_next<K: Ord + Copy>(
    history: &History<K>,
    query: &Bounded<K>,
    answer: &Asked<K>,
    last: u64,
) -> Option<u64>
    requires { IsHistory K.cmp history.now }
    ensures { MatchOption result (NoNextPlace K.cmp history.now.most history.now.updates.items last (query_of query.now) answer.now) (IsNextPlace K.cmp history.now.most history.now.updates.items last (query_of query.now) answer.now) }
{
    if !same_key(&query.key, &answer.key) {
        return None;
    }
    match history.next_place(&query.key, answer.found, last.max(query.least)) {
        Some(place) => {
            if place <= query.greatest {
                Some(place)
            } else {
                None
            }
        }
        None => None,
    }
}
