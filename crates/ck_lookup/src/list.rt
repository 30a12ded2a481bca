//! The kind `list`.
ghost use Rattle.std.specs.Prelude.{◌≡◌, ◌≤◌, ◌∷◌, List, ℕ, IfErr, OnOk, length, map};
ghost use Rattle.ck_io.specs.Faults.{NeverFall};
ghost use Rattle.ck_io.specs.Sink.{appended};
ghost use Rattle.ck_report.specs.Streaming.{IsPutCause};
ghost use Rattle.ck_pool.specs.Results.{job_script};
ghost use Rattle.ck_lookup.specs.Headline.{IsTextOf};
ghost use Rattle.ck_lookup.specs.Causes.{outside, MayEndWith};
ghost use Rattle.ck_lookup.specs.Running.{MayBegin, HasPut};
ghost use Rattle.ck_lookup.specs.Lists.{list_kind};

use crate::job::job_of;
use crate::kinds::RunKind;
use crate::outcome::Outcome;
use ck_history::Edit;
use ck_io::{Gate, Shelf, Sink};
use ck_jobs::{ListJob, run_over_list};
use ck_report::{PutError, put_list_report};
use ck_script::{
    AskLine, Lines, RangeFault, ScriptError, UpLine, check_views, scan_edits, scan_views,
};
use std::alloc::Global;
use std::sync::Wait;
use std::thread::Threads;

/// Runs over a list.
#[derive(Clone, Copy, Debug)]
pub struct OverList;

impl RunKind for OverList {
    ghost use Rattle.ck_lookup.specs.Lists.{list_kind};

    type Call = Edit;

    type Ask = ();

    type UpFile = Lines<UpLine<Edit>>;

    type AskFile = Lines<AskLine<()>>;

    ghost kind = { list_kind };

    fn scan_updates(
        alloc: Global,
        bytes: &[u8],
    ) -> Result<(Lines<UpLine<Edit>>, bool), ScriptError> {
        scan_edits(alloc, bytes)
    }

    fn scan_queries(
        alloc: Global,
        bytes: &[u8],
    ) -> Result<(Lines<AskLine<()>>, bool), ScriptError> {
        scan_views(alloc, bytes)
    }

    fn surplus(asks: &[Lines<AskLine<()>>]) -> Option<RangeFault> {
        check_views(asks)
    }
}

/// Runs the files under these names over a list, and puts the report.
pub fn run_list<R: Threads + Wait + Sync, S: Shelf, K: Sink, G: Gate + Sync>(
    rt: &R,
    alloc: Global,
    updates: &str,
    queries: &[&str],
    workers: u64,
    shelf: &mut S,
    sink: &mut K,
    gate: &G,
) -> Outcome
    requires queries { (1 ≤ length queries.now) × (length queries.now ≤ 64) }
    requires workers { (1 ≤ workers) × (workers ≤ 16) }
    ensures ends { MayEndWith list_kind (outside (S.held shelf.old) (S.faults shelf.old) (S.faults shelf.new) (K.taken sink.old) (K.taken sink.new) (K.faults sink.old) (K.faults sink.new)) (updates.now ∷ map (λ name. name.now) queries.now) result }
    ensures held { S.held shelf.new ≡ S.held shelf.old }
    ensures shelf_lasting { NeverFall (S.faults shelf.old) (S.faults shelf.new) }
    ensures sink_lasting { K.faults sink.old ≤ K.faults sink.new }
{
    match job_of::<OverList, R, S>(rt, alloc, workers, updates, queries, shelf) {
        Err(refusal) => refusal,
        Ok(job) => match put_list(rt, alloc, &job, workers, sink, gate) {
            Ok(()) => Outcome::Done,
            Err(PutError::Failed) => Outcome::WriteFault,
            Err(PutError::Memory) => Outcome::NoMemory,
        },
    }
}

// Runs a job over a list, and then puts its report.
fn put_list<R: Threads + Wait + Sync, K: Sink, G: Gate + Sync>(
    rt: &R,
    alloc: Global,
    job: &ListJob,
    workers: u64,
    sink: &mut K,
    gate: &G,
) -> Result<(), PutError>
    requires workers { (1 ≤ workers) × (workers ≤ 16) }
    requires may { MayBegin job.now.ups.items (map (λ file. file.items) job.now.asks.items) }
    ensures all { OnOk result ((text : List ℕ) × IsTextOf list_kind (job_script job.now.ups.items (map (λ file. file.items) job.now.asks.items)) text × (K.taken sink.new ≡ appended (K.taken sink.old) text)) }
    ensures prefix { IfErr result (HasPut list_kind (job_script job.now.ups.items (map (λ file. file.items) job.now.asks.items)) (K.taken sink.old) (K.taken sink.new)) }
    ensures cause { IfErr result (λ error. IsPutCause error (K.faults sink.old) (K.faults sink.new)) }
    ensures lasting { K.faults sink.old ≤ K.faults sink.new }
{
    let answered = run_over_list(rt, alloc, job, workers, gate)?;
    put_list_report(
        rt,
        alloc,
        workers as u8,
        sink,
        &answered.replies,
        &answered.answers,
        &answered.members,
    )
}
