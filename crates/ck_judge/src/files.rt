//! The least places of all files' answers.

ghost use Rattle.std.specs.Prelude.{◌≡◌, ◌+◌, ◌≤◌, ◌<◌, ◌^◌, length, drop, map, IfOk, MatchResult, ◌++◌};
ghost use Rattle.ck_report.specs.Reports.{AreNamed};
ghost use Rattle.ck_script.specs.Script.{said_of, updates, script_of};
ghost use Rattle.ck_judge.specs.History.{IsHistory};
ghost use Rattle.ck_judge.specs.Verdict.{HasAnswers, IsFirstWrongAnswer, AreLeastFrom};
ghost use Rattle.ck_judge.specs.Files.{as_lists, as_queries, next_answers, later_files};

use crate::bounds::{Bounded, read_bounds, read_holds, read_limits};
use crate::history::History;
use crate::places::place_file;
use crate::verdict::Places;
use ck_history::Update;
use ck_report::Asked;
use ck_script::{AskLine, LineList, UpLine};
use std::alloc::{AllocError, Global};

/// An answer that is wrong: the number of its file and its own, both from 1.
#[derive(Clone, Copy, Debug)]
pub struct WrongAnswer {
    pub file: u64,
    pub query: u64,
}

/// The queries of each query file with their bounds, where there are `all` updates. It makes one pass over the `hold`
/// lines for each query file.
pub fn read_files<K: Copy, U: LineList<UpLine<Update<K>>>, F: LineList<AskLine<K>>>(
    alloc: Global,
    ups: &U,
    asks: &[F],
    all: u64,
) -> Result<Vec<Vec<Bounded<K>>>, AllocError>
    requires { all ≡ length (updates (said_of (U.items ups.now))) }
    ensures { IfOk result (λ files. as_queries files.items ≡ (script_of (said_of (U.items ups.now)) (map said_of (map F.items asks.now))).files) }
{
    let held = read_holds(alloc, ups)?;
    let mut files = Vec::new(alloc);
    for (i, lines) in asks.iter().enumerate() {
        let limits = read_limits(alloc, &held, i as u64 + 1)?;
        let bounds = read_bounds(alloc, lines, &limits, all)?;
        files.push(bounds)?;
    }
    Ok(files)
}

/// The least places of each file's answers, or the first answer that is wrong.
pub fn place_files<K: Ord + Copy>(
    alloc: Global,
    history: &History<K>,
    files: &[Vec<Bounded<K>>],
    named: &[(u64, Vec<Asked<K>>)],
) -> Result<Result<Vec<Places>, WrongAnswer>, AllocError>
    requires history { IsHistory K.cmp history.now }
    requires named { AreNamed 1 (as_lists named.now) }
    ensures right { IfOk result (λ placed. MatchResult placed (λ least. HasAnswers K.cmp history.now.most history.now.updates.items (as_queries files.now) (as_lists named.now)) (λ wrong. IsFirstWrongAnswer K.cmp history.now.most history.now.updates.items (as_queries files.now) (as_lists named.now) wrong.file wrong.query)) }
    ensures least { IfOk result (λ placed. MatchResult placed (λ least. AreLeastFrom K.cmp history.now.most history.now.updates.items 1 (as_queries files.now) (as_lists named.now) least.items) (λ wrong. Unit {0})) }
{
    let mut least = Vec::new(alloc);
    let mut at = 0;
    for (i, queries) in files.iter().enumerate() {
        let file = i as u64 + 1;
        let answers = answers_at(named, at, file);
        match place_file(alloc, history, queries.as_slice(), answers)? {
            Ok(places) => least.push(places)?,
            Err(query) => return Ok(Err(WrongAnswer { file, query })),
        }
        at = pass(named, at, file);
    }
    if at < named.len() {
        let surplus = &named[at];
        return Ok(Err(WrongAnswer {
            file: surplus.0,
            query: 1,
        }));
    }
    Ok(Ok(least))
}

// The answers of the file, where it is the one that is named at this index, or none.
fn answers_at<'a, K: Copy>(
    named: &'a [(u64, Vec<Asked<K>>)],
    at: usize,
    file: u64,
) -> &'a [Asked<K>]
    ensures { result.now ≡ next_answers file (drop at (as_lists named.now)) }
{
    if at >= named.len() {
        return &[];
    }
    let entry = &named[at];
    if entry.0 == file {
        entry.1.as_slice()
    } else {
        &[]
    }
}

// The index past the file, where it is the one that is named at this index.
fn pass<K: Copy>(named: &[(u64, Vec<Asked<K>>)], at: usize, file: u64) -> usize
    requires { at ≤ length named.now }
    ensures past { drop result (as_lists named.now) ≡ later_files file (drop at (as_lists named.now)) }
    ensures within { result ≤ length named.now }
{
    if at >= named.len() {
        return at;
    }
    let entry = &named[at];
    if entry.0 == file { at + 1 } else { at }
}
