//! The verdict on a report.

ghost use Rattle.std.specs.Prelude.{◌≡◌, ◌↔◌, None, map, length, IfOk, IsTrue};
ghost use Rattle.ck_history.specs.Map.{after};
ghost use Rattle.ck_script.specs.Script.{said_of, script_of};
ghost use Rattle.ck_script.specs.Checks.{range_fault};
ghost use Rattle.ck_report.specs.Reports.{AreNamed, parts_of};
ghost use Rattle.ck_judge.specs.Files.{as_queries};
ghost use Rattle.ck_judge.specs.History.{IsHistory};
ghost use Rattle.ck_judge.specs.Verdict.{HasReplies, IsLegalReport, IsVerdict, is_legal};

use crate::bounds::Bounded;
use crate::difference::{first_pair, first_reply};
use crate::files::{place_files, read_files};
use crate::history::History;
use crate::replay::{Replayed, list_updates, replay};
use ck_history::Update;
use ck_report::MapReport;
use ck_script::{AskLine, LineList, UpLine};
use std::alloc::{AllocError, Global};
use std::marker::Model;

/// Places of a query file's answers, in order: after how many updates the map gives each answer.
#[derive(Debug, Drop)]
pub struct Places {
    pub places: Vec<u64>,
}

impl Model for Places {
    ghost use Rattle.std.specs.Prelude.{ℕ, List};

    ghost Value = { List ℕ };

    ghost view = { λ p. p.places.items };
}

/// What is wrong with a report beside the scripts that it is to be of, if anything is. It is the first of these that
/// applies, in the order `Reply`, `Place`, `Table`, `Legal`.
#[derive(Debug, Drop)]
pub enum Verdict {
    /// The report could have come from the scripts. `least` has for each query file the places of its answers, of which
    /// each is the least that it can be.
    Legal { least: Vec<Places> },
    /// The least number, from 1, at which the report's replies aren't those of the updates, one missing included.
    Reply { at: u64 },
    /// The first answer, by file and then by query, from 1, that is missing, surplus or of another key, or for which no
    /// places exist beside those before it in its file.
    Place { file: u64, query: u64 },
    /// The least number, from 1, at which the report's pairs aren't those of the map after all updates, one missing
    /// included.
    Table { at: u64 },
}

/// The verdict on a report of the given scripts, which is exact: the report is legal if and only if it has the updates'
/// replies and table, and the answers of each file have places, by the definition of legal answers. `most` is how many pairs the map may have. For n updates
/// and m answers it takes O((n + m) log (n + m)) steps, one pass over the `hold` lines for each query file, and O(n + m)
/// memory.
pub fn judge<K: Ord + Copy, U: LineList<UpLine<Update<K>>>, F: LineList<AskLine<K>>>(
    alloc: Global,
    ups: &U,
    asks: &[F],
    report: &MapReport<K>,
    most: u64,
) -> Result<Verdict, AllocError>
    requires ranges { range_fault (U.items ups.now) (map F.items asks.now) ≡ None }
    requires named { AreNamed 1 (parts_of report.now).files }
    ensures verdict { IfOk result (IsVerdict K.cmp most (script_of (said_of (U.items ups.now)) (map said_of (map F.items asks.now))) (parts_of report.now)) }
    ensures legal { IfOk result (λ verdict. IsTrue (is_legal verdict) ↔ IsLegalReport K.cmp most (script_of (said_of (U.items ups.now)) (map said_of (map F.items asks.now))) (parts_of report.now)) }
{
    let updates = list_updates(alloc, ups)?;
    let files = read_files(alloc, ups, asks, updates.len() as u64)?;
    judge_replies(alloc, updates, &files, report, most)
}

// The verdict, beside these updates and these queries of each file.
fn judge_replies<K: Ord + Copy>(
    alloc: Global,
    updates: Vec<Update<K>>,
    files: &[Vec<Bounded<K>>],
    report: &MapReport<K>,
    most: u64,
) -> Result<Verdict, AllocError>
    requires { AreNamed 1 (parts_of report.now).files }
    ensures { IfOk result (IsVerdict K.cmp most (record { updates = updates.items; files = as_queries files.now }) (parts_of report.now)) }
{
    let Replayed {
        replies,
        pairs,
        changes,
    } = replay(alloc, &updates, most)?;
    if let Some(at) = first_reply(&report.replies, &replies) {
        return Ok(Verdict::Reply { at });
    }
    let history = History::new(alloc, updates, most, changes)?;
    judge_answers(alloc, &history, files, report, &pairs)
}

// The verdict, where the replies are right and these are the pairs after all updates.
fn judge_answers<K: Ord + Copy>(
    alloc: Global,
    history: &History<K>,
    files: &[Vec<Bounded<K>>],
    report: &MapReport<K>,
    pairs: &[(K, u64)],
) -> Result<Verdict, AllocError>
    requires history { IsHistory K.cmp history.now }
    requires named { AreNamed 1 (parts_of report.now).files }
    requires replies { HasReplies K.cmp history.now.most (record { updates = history.now.updates.items; files = as_queries files.now }) (parts_of report.now) }
    requires pairs { pairs.now ≡ after K.cmp history.now.most history.now.updates.items (length history.now.updates.items) }
    ensures { IfOk result (IsVerdict K.cmp history.now.most (record { updates = history.now.updates.items; files = as_queries files.now }) (parts_of report.now)) }
{
    let named = report.answers.as_slice();
    match place_files(alloc, history, files, named)? {
        Err(wrong) => Ok(Verdict::Place {
            file: wrong.file,
            query: wrong.query,
        }),
        Ok(least) => match first_pair(&report.pairs, pairs) {
            Some(at) => Ok(Verdict::Table { at }),
            None => Ok(Verdict::Legal { least }),
        },
    }
}
