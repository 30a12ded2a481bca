//! How the files come back from the workers.
ghost use Rattle.std.specs.Prelude.{◌≡◌, ◌≢◌, ◌+◌, ◌<◌, ◌≤◌, ℕ, [], ◌∷◌, length, vec_len, map, slice_get, take, IfOk, OnOk, MatchOption, All, Some, None};
ghost use Rattle.ck_pool.specs.declared.query_run.QueryRun.{QueryRun};
ghost use Rattle.ck_pool.specs.Desk.{occurrences, all_parts, IsClerkOf};
ghost use Rattle.ck_pool.specs.Working.{IsQueryRun, AreEnded, IsWorked, AreOnDesk, HasRuns, runs_of};

use crate::context::Context;
use crate::desk::{Clerk, Desk};
use crate::dict::Dict;
use crate::query_run::{QueryRun, finish, start};
use crate::worker::Worked;
use ck_io::Gate;
use std::alloc::AllocError;
use std::sync::Wait;

/// The files of all workers, and one clerk that has taken them.
pub fn gather<D: Dict, G: Gate, R: Wait>(
    context: &Context<D, G, R>,
    desk: &Desk<D::Eye>,
    clerk: &mut Clerk<D::Eye>,
    asks: &[D::AskFile],
    worked: Vec<Result<Worked<D::Eye, D::Answer>, AllocError>>,
    runs: &mut Vec<QueryRun<D::Eye, D::Answer>>,
) -> Result<(), AllocError>
    requires clerk { IsClerkOf desk.now clerk.old × (clerk.old.known.parts + vec_len worked ≡ all_parts) × (clerk.old.known.took ≡ []) }
    requires files { 0 < length desk.now.eyes }
    requires each { All (λ one. IfOk one (IsWorked (D.eyes context.now.dict.now) desk.now.eyes (map D.AskFile.items asks.now) desk.now)) worked.items }
    requires none { runs.old.items ≡ [] }
    ensures clerk { OnOk result (IsClerkOf desk.now clerk.new × (clerk.new.known.parts ≡ all_parts)) }
    ensures each { OnOk result (AreEnded (D.eyes context.now.dict.now) desk.now.eyes (map D.AskFile.items asks.now) runs.new.items) }
    ensures all { OnOk result (HasRuns clerk.new runs.new.items) }
{
    // Only the contract reads these: they say which dictionary and which lines the files were run with.
    let _context = context;
    let _asks = asks;
    let mut left = worked;
    while let Some(one) = left.pop() {
        let Worked {
            clerk: other,
            runs: mut more,
        } = one?;
        desk.join(clerk, other);
        runs.append(&mut more)?;
    }
    Ok(())
}

// The place of a run of this file.
fn find_run<E, B>(runs: &[QueryRun<E, B>], file: usize) -> Option<usize>
    ensures { MatchOption result (runs_of file runs.now ≡ 0) (λ k. (k < length runs.now) × ((r : QueryRun E B) → slice_get runs.now k ≡ Some r → r.file ≡ file)) }
{
    for (k, run) in runs.iter().enumerate() {
        if run.file == file {
            return Some(k);
        }
    }
    None
}

/// The ended run of a file. No clause tells a worker that its Empty came after the last number was put, so a file that no worker has taken
/// is taken and run here.
pub fn ended_run<D: Dict, G: Gate, R: Wait>(
    context: &Context<D, G, R>,
    desk: &Desk<D::Eye>,
    clerk: &mut Clerk<D::Eye>,
    asks: &[D::AskFile],
    runs: &mut Vec<QueryRun<D::Eye, D::Answer>>,
    file: usize,
) -> Result<QueryRun<D::Eye, D::Answer>, AllocError>
    requires clerk { IsClerkOf desk.now clerk.old × (clerk.old.known.parts ≡ all_parts) }
    requires files { AreOnDesk (D.eyes context.now.dict.now) desk.now.eyes (map D.AskFile.items asks.now) }
    requires file { file < length asks.now }
    requires each { AreEnded (D.eyes context.now.dict.now) desk.now.eyes (map D.AskFile.items asks.now) runs.old.items }
    requires all { occurrences file clerk.old.known.took ≡ runs_of file runs.old.items }
    ensures clerk { IsClerkOf desk.now clerk.new × (clerk.new.known.parts ≡ all_parts) }
    ensures took { IfOk result (λ _. (f : ℕ) → f ≢ file → occurrences f clerk.new.known.took ≡ occurrences f clerk.old.known.took) }
    ensures file { IfOk result (λ r. r.file ≡ file) }
    ensures run { IfOk result (λ r. IsQueryRun (D.eyes context.now.dict.now) desk.now.eyes (map D.AskFile.items asks.now) r × (r.waits_at ≡ None)) }
    ensures each { IfOk result (λ _. AreEnded (D.eyes context.now.dict.now) desk.now.eyes (map D.AskFile.items asks.now) runs.new.items) }
    ensures rest { IfOk result (λ _. (f : ℕ) → f ≢ file → runs_of f runs.new.items ≡ runs_of f runs.old.items) }
{
    if let Some(k) = find_run(runs, file) {
        return Ok(runs.remove(k));
    }
    let Some(run) = start(context, desk, clerk, asks, file)? else {
        unreachable!()
    };
    finish(context, desk, asks, run)
}
