//! What was asked, beside what was answered, for some lines at a time.
ghost use Rattle.std.specs.Prelude.{◌≡◌, ◌+◌, ◌≤◌, ◌++◌, ◌∷◌, [], List, length, drop, IfOk};
ghost use Rattle.ck_script.specs.declared.line.AskLine.{AskLine};
ghost use Rattle.ck_script.specs.Script.{said_of};
ghost use Rattle.ck_report.specs.Pairing.{asked_lines};

use crate::asked::Asked;
use ck_script::{AskLine, LineList};
use std::alloc::AllocError;

/// Puts the queries among the lines from `start` on, before `end`, beside their answers, the first of these, into a block
/// that is empty. Returns how many answers are done.
pub fn pair_block<K: Copy, F: LineList<AskLine<K>>>(
    block: &mut Vec<Asked<K>>,
    lines: &F,
    start: usize,
    end: usize,
    answers: &[Option<u64>],
) -> Result<usize, AllocError>
    requires empty { block.old.items ≡ [] }
    requires lines { (start ≤ end) × (end ≤ length (F.items lines.now)) }
    ensures paired { IfOk result (λ done. block.new.items ++ asked_lines (said_of (drop end (F.items lines.now))) (drop done answers.now) ≡ asked_lines (said_of (drop start (F.items lines.now))) answers.now) }
    ensures within { IfOk result (λ done. done ≤ length answers.now) }
    ensures count { IfOk result (λ _. start + length block.new.items ≤ end) }
{
    let mut next = 0;
    for i in start..end {
        next = push_pair(block, &lines.what(i), answers, next)?;
    }
    Ok(next)
}

// Appends the query with the answer at `next`, if the line is a query, and returns the place of the next answer.
fn push_pair<K: Copy>(
    block: &mut Vec<Asked<K>>,
    line: &AskLine<K>,
    answers: &[Option<u64>],
    next: usize,
) -> Result<usize, AllocError>
    requires { next ≤ length answers.now }
    ensures next { IfOk result (λ after. after ≤ length answers.now) }
    ensures count { IfOk result (λ _. length block.new.items ≤ length block.old.items + 1) }
    ensures paired { IfOk result (λ after. (later : List (AskLine K)) → block.new.items ++ asked_lines later (drop after answers.now) ≡ block.old.items ++ asked_lines (line.now ∷ later) (drop next answers.now)) }
{
    match *line {
        AskLine::Wait { .. } => Ok(next),
        AskLine::Ask(key) => {
            if next == answers.len() {
                return Ok(next);
            }
            block.push(Asked {
                key,
                found: answers[next],
            })?;
            Ok(next + 1)
        }
    }
}
