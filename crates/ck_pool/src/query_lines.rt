//! The lines of one query file, in order, as far as they can be run.
ghost use Rattle.std.specs.Prelude.{◌≡◌, ◌+◌, ◌<◌, ◌≤◌, ◌*◌, ◌^◌, ◌++◌, ◌∷◌, [], ℕ, List, length, take, IfOk, MatchBool, Some};
ghost use Rattle.ck_history.specs.declared.event.ReaderEvent.{ReaderEvent};
ghost use Rattle.ck_script.specs.declared.line.AskLine.TheVariants.{Wait};
ghost use Rattle.ck_pool.specs.Limits.{most_job_lines, call_bound, start_call_bound};
ghost use Rattle.ck_pool.specs.Runs.{short_loads, QueryLineRan, QueriesRan};
ghost use Rattle.ck_pool.specs.Working.{IsHalted, RanTo, IsWaitLine, AreFew};

use crate::context::Context;
use crate::dict::Dict;
use ck_io::Gate;
use ck_script::{AskLine, LineList};
use std::alloc::AllocError;
use std::sync::Wait;

// Runs one line, and says whether it is done: a `wait` that its load doesn't meet isn't.
fn run_line<D: Dict, G: Gate, R: Wait>(
    context: &Context<D, G, R>,
    eye: &mut D::Eye,
    line: &AskLine<D::Ask>,
    answers: &mut Vec<D::Answer>,
) -> Result<bool, AllocError>
    requires ready { (D.eyes context.now.dict.now).ready eye.old }
    requires calls { (D.eyes context.now.dict.now).calls eye.old < call_bound }
    ensures ready { (D.eyes context.now.dict.now).ready eye.new }
    ensures calls { (D.eyes context.now.dict.now).calls eye.new ≤ (D.eyes context.now.dict.now).calls eye.old + 8 }
    ensures number { (D.eyes context.now.dict.now).number eye.new ≡ (D.eyes context.now.dict.now).number eye.old }
    ensures ran { IfOk result (λ done. MatchBool done
        ((events : List (ReaderEvent D.Ask D.Answer)) × (b : List D.Answer)
        × ((D.eyes context.now.dict.now).done eye.new ≡ (D.eyes context.now.dict.now).done eye.old ++ events)
        × (answers.new.items ≡ answers.old.items ++ b) × QueryLineRan line.now events b)
        ((n : ℕ) × (count : ℕ) × (line.now ≡ Wait n)
        × ((D.eyes context.now.dict.now).done eye.new ≡ (D.eyes context.now.dict.now).done eye.old ++ short_loads n (count ∷ []))
        × ((D.eyes context.now.dict.now).calls eye.new ≡ (D.eyes context.now.dict.now).calls eye.old) × (answers.new.items ≡ answers.old.items))) }
{
    match line {
        AskLine::Ask(ask) => {
            let answer = context.dict.query(context.rt, context.alloc, eye, ask)?;
            answers.push(answer)?;
            Ok(true)
        }
        AskLine::Wait { n } => Ok(context.dict.reached(context.rt, eye, *n).is_ok()),
    }
}

/// Runs a query file from line `next` on, up to its end or to a `wait` that its load doesn't meet, and returns the place of that line.
pub fn run_from<D: Dict, G: Gate, R: Wait>(
    context: &Context<D, G, R>,
    who: u64,
    eye: &mut D::Eye,
    lines: &D::AskFile,
    next: usize,
    answers: &mut Vec<D::Answer>,
) -> Result<Option<usize>, AllocError>
    requires ready { (D.eyes context.now.dict.now).ready eye.old }
    requires calls { (D.eyes context.now.dict.now).calls eye.old ≤ start_call_bound + 8 * next }
    requires lines { (next ≤ length (D.AskFile.items lines.now)) × (length (D.AskFile.items lines.now) ≤ most_job_lines) }
    ensures ready { (D.eyes context.now.dict.now).ready eye.new }
    ensures number { (D.eyes context.now.dict.now).number eye.new ≡ (D.eyes context.now.dict.now).number eye.old }
    ensures calls { IfOk result (λ waits_at. AreFew ((D.eyes context.now.dict.now).calls eye.new) waits_at) }
    ensures ran { IfOk result (λ waits_at. (events : List (ReaderEvent D.Ask D.Answer))
        × ((D.eyes context.now.dict.now).done eye.new ≡ (D.eyes context.now.dict.now).done eye.old ++ events)
        × ((before : List (ReaderEvent D.Ask D.Answer)) → QueriesRan (take next (D.AskFile.items lines.now)) before answers.old.items → RanTo (D.AskFile.items lines.now) waits_at (before ++ events) answers.new.items)) }
{
    for i in next..lines.len() {
        let line = lines.get(i);
        context.gate.before(who, line.line);
        if !run_line(context, eye, &line.what, answers)? {
            return Ok(Some(i));
        }
    }
    Ok(None)
}

/// Loads once more for the `wait` at line `at`, and goes on where that meets it.
pub fn retry_wait<D: Dict, G: Gate, R: Wait>(
    context: &Context<D, G, R>,
    who: u64,
    eye: &mut D::Eye,
    lines: &D::AskFile,
    at: usize,
    answers: &mut Vec<D::Answer>,
) -> Result<Option<usize>, AllocError>
    requires ready { (D.eyes context.now.dict.now).ready eye.old }
    requires calls { (D.eyes context.now.dict.now).calls eye.old ≤ start_call_bound + 8 * at }
    requires lines { length (D.AskFile.items lines.now) ≤ most_job_lines }
    requires waits { IsWaitLine (D.AskFile.items lines.now) at }
    ensures ready { (D.eyes context.now.dict.now).ready eye.new }
    ensures number { (D.eyes context.now.dict.now).number eye.new ≡ (D.eyes context.now.dict.now).number eye.old }
    ensures calls { IfOk result (λ waits_at. AreFew ((D.eyes context.now.dict.now).calls eye.new) waits_at) }
    ensures ran { IfOk result (λ waits_at. (events : List (ReaderEvent D.Ask D.Answer))
        × ((D.eyes context.now.dict.now).done eye.new ≡ (D.eyes context.now.dict.now).done eye.old ++ events)
        × ((before : List (ReaderEvent D.Ask D.Answer)) → IsHalted (D.AskFile.items lines.now) at before answers.old.items → RanTo (D.AskFile.items lines.now) waits_at (before ++ events) answers.new.items)) }
{
    let line = lines.what(at);
    if !run_line(context, eye, &line, answers)? {
        return Ok(Some(at));
    }
    let waits_at = run_from(context, who, eye, lines, at + 1, answers)?;
    Ok(waits_at)
}
