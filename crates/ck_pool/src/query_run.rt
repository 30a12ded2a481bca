//! A query file that a task has taken: how it is started, and how it goes on from a `wait`.
ghost use Rattle.std.specs.Prelude.{◌≡◌, ◌+◌, ◌<◌, ◌≤◌, ◌^◌, ◌∷◌, length, map, slice_get, IfOk, MatchOption, None};
ghost use Rattle.ck_pool.specs.Limits.{most_job_lines, start_call_bound};
ghost use Rattle.ck_pool.specs.Desk.{occurrences, all_parts, IsClerkOf};
ghost use Rattle.ck_pool.specs.Working.{IsFileRun, IsQueryRun, AreOnDesk};

use crate::context::Context;
use crate::desk::{Clerk, Desk};
use crate::dict::Dict;
use crate::query_lines::{retry_wait, run_from};
use crate::waiting::Waiting;
use ck_io::Gate;
use ck_script::LineList;
use std::alloc::AllocError;
use std::sync::Wait;

/// A file that a task has, with its eye and its answers so far, and the line of the `wait` at which it stands, unless it has ended.
#[derive(Drop)]
pub struct QueryRun<E, B> {
    pub file: usize,
    pub eye: E,
    pub answers: Vec<B>,
    pub waits_at: Option<usize>,
}

// Runs a file from its first line on.
fn run_file<D: Dict, G: Gate, R: Wait>(
    context: &Context<D, G, R>,
    eye: D::Eye,
    file: usize,
    lines: &D::AskFile,
) -> Result<QueryRun<D::Eye, D::Answer>, AllocError>
    requires ready { (D.eyes context.now.dict.now).ready eye }
    requires calls { (D.eyes context.now.dict.now).calls eye < start_call_bound }
    requires file { file < 2 ^ 63 }
    requires lines { length (D.AskFile.items lines.now) ≤ most_job_lines }
    ensures file { IfOk result (λ r. r.file ≡ file) }
    ensures run { IfOk result (λ r. IsFileRun (D.eyes context.now.dict.now) eye (D.AskFile.items lines.now) r) }
{
    // Room for all answers at once: a list that grows leaves its old places behind.
    let answers = Vec::with_capacity(context.alloc, lines.len())?;
    let mut run = QueryRun {
        file,
        eye,
        answers,
        waits_at: None,
    };
    let who = file as u64 + 1;
    run.waits_at = run_from(context, who, &mut run.eye, lines, 0, &mut run.answers)?;
    Ok(run)
}

/// Takes a file's eye, and runs the file from its first line on. `None` where another has taken it.
pub fn start<D: Dict, G: Gate, R: Wait>(
    context: &Context<D, G, R>,
    desk: &Desk<D::Eye>,
    clerk: &mut Clerk<D::Eye>,
    asks: &[D::AskFile],
    file: usize,
) -> Result<Option<QueryRun<D::Eye, D::Answer>>, AllocError>
    requires clerk { IsClerkOf desk.now clerk.old }
    requires files { AreOnDesk (D.eyes context.now.dict.now) desk.now.eyes (map D.AskFile.items asks.now) }
    requires file { file < length asks.now }
    ensures clerk { IsClerkOf desk.now clerk.new × (clerk.new.known.parts ≡ clerk.old.known.parts) }
    ensures ran { IfOk result (λ o. MatchOption o
        ((clerk.new ≡ clerk.old) × (clerk.old.known.parts ≡ all_parts → occurrences file clerk.old.known.took ≡ 1))
        (λ r. (r.file ≡ file) × IsQueryRun (D.eyes context.now.dict.now) desk.now.eyes (map D.AskFile.items asks.now) r × (clerk.new.known.took ≡ file ∷ clerk.old.known.took))) }
{
    let Some(eye) = desk.take(clerk, file) else {
        return Ok(None);
    };
    let run = run_file(context, eye, file, &asks[file])?;
    Ok(Some(run))
}

/// Loads once more where the file stands at a `wait`, and goes on where that meets it.
pub fn load_again<D: Dict, G: Gate, R: Wait>(
    context: &Context<D, G, R>,
    desk: &Desk<D::Eye>,
    asks: &[D::AskFile],
    run: QueryRun<D::Eye, D::Answer>,
) -> Result<QueryRun<D::Eye, D::Answer>, AllocError>
    requires run { IsQueryRun (D.eyes context.now.dict.now) desk.now.eyes (map D.AskFile.items asks.now) run }
    requires files { AreOnDesk (D.eyes context.now.dict.now) desk.now.eyes (map D.AskFile.items asks.now) }
    ensures file { IfOk result (λ r. r.file ≡ run.file) }
    ensures run { IfOk result (λ r. IsQueryRun (D.eyes context.now.dict.now) desk.now.eyes (map D.AskFile.items asks.now) r) }
{
    let Some(at) = run.waits_at else {
        return Ok(run);
    };
    let mut run = run;
    let who = run.file as u64 + 1;
    let lines = &asks[run.file];
    run.waits_at = retry_wait(context, who, &mut run.eye, lines, at, &mut run.answers)?;
    Ok(run)
}

/// Runs a file to its end, by loading again and again where it stands at a `wait`. Called after the join, when all updates have been made: no
/// other task is left that could find no memory, so it doesn't look at the flag.
pub fn finish<D: Dict, G: Gate, R: Wait>(
    context: &Context<D, G, R>,
    desk: &Desk<D::Eye>,
    asks: &[D::AskFile],
    run: QueryRun<D::Eye, D::Answer>,
) -> Result<QueryRun<D::Eye, D::Answer>, AllocError>
    requires run { IsQueryRun (D.eyes context.now.dict.now) desk.now.eyes (map D.AskFile.items asks.now) run }
    requires files { AreOnDesk (D.eyes context.now.dict.now) desk.now.eyes (map D.AskFile.items asks.now) }
    ensures file { IfOk result (λ r. r.file ≡ run.file) }
    ensures run { IfOk result (λ r. IsQueryRun (D.eyes context.now.dict.now) desk.now.eyes (map D.AskFile.items asks.now) r) }
    ensures ended { IfOk result (λ r. r.waits_at ≡ None) }
{
    let mut waiting = Waiting::new();
    let mut run = run;
    for _ in context.rt.forever() {
        if run.waits_at.is_none() {
            return Ok(run);
        }
        waiting.turn(context.rt);
        run = load_again(context, desk, asks, run)?;
    }
    unreachable!()
}
