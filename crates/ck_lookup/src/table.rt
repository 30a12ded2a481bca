//! The kind `table`.
ghost use Rattle.std.specs.Prelude.{◌≡◌, ◌≤◌, ◌∷◌, List, ℕ, IfErr, OnOk, length, map};
ghost use Rattle.ck_io.specs.Faults.{NeverFall};
ghost use Rattle.ck_io.specs.Sink.{appended};
ghost use Rattle.ck_report.specs.Streaming.{IsPutCause};
ghost use Rattle.ck_pool.specs.Results.{job_script};
ghost use Rattle.ck_lookup.specs.Headline.{IsTextOf};
ghost use Rattle.ck_lookup.specs.Causes.{outside, MayEndWith};
ghost use Rattle.ck_lookup.specs.Running.{MayBegin, HasPut};
ghost use Rattle.ck_lookup.specs.Tables.{table_kind};

use crate::job::job_of;
use crate::kinds::RunKind;
use crate::outcome::Outcome;
use ck_history::{Key, Update};
use ck_io::{Gate, Shelf, Sink};
use ck_jobs::run_over_table;
use ck_pool::MapJob;
use ck_report::{PutError, put_report};
use ck_script::{AskLine, Lines, RangeFault, ScriptError, UpLine, scan_queries, scan_updates};
use std::alloc::Global;
use std::sync::Wait;
use std::thread::Threads;

/// Runs over a hash table.
#[derive(Clone, Copy, Debug)]
pub struct OverTable;

impl RunKind for OverTable {
    ghost use Rattle.ck_lookup.specs.Tables.{table_kind};

    type Call = Update<Key>;

    type Ask = Key;

    type UpFile = Lines<UpLine<Update<Key>>>;

    type AskFile = Lines<AskLine<Key>>;

    ghost kind = { table_kind };

    fn scan_updates(
        alloc: Global,
        bytes: &[u8],
    ) -> Result<(Lines<UpLine<Update<Key>>>, bool), ScriptError> {
        scan_updates(alloc, bytes)
    }

    fn scan_queries(
        alloc: Global,
        bytes: &[u8],
    ) -> Result<(Lines<AskLine<Key>>, bool), ScriptError> {
        scan_queries(alloc, bytes)
    }

    fn surplus(_asks: &[Lines<AskLine<Key>>]) -> Option<RangeFault> {
        None
    }
}

/// Runs the files under these names over a hash table whose orders go by `seed`, and puts the report.
pub fn run_table<R: Threads + Wait + Sync, S: Shelf, K: Sink, G: Gate + Sync>(
    rt: &R,
    alloc: Global,
    updates: &str,
    queries: &[&str],
    seed: u64,
    workers: u64,
    shelf: &mut S,
    sink: &mut K,
    gate: &G,
) -> Outcome
    requires queries { (1 ≤ length queries.now) × (length queries.now ≤ 64) }
    requires workers { (1 ≤ workers) × (workers ≤ 16) }
    ensures ends { MayEndWith table_kind (outside (S.held shelf.old) (S.faults shelf.old) (S.faults shelf.new) (K.taken sink.old) (K.taken sink.new) (K.faults sink.old) (K.faults sink.new)) (updates.now ∷ map (λ name. name.now) queries.now) result }
    ensures held { S.held shelf.new ≡ S.held shelf.old }
    ensures shelf_lasting { NeverFall (S.faults shelf.old) (S.faults shelf.new) }
    ensures sink_lasting { K.faults sink.old ≤ K.faults sink.new }
{
    match job_of::<OverTable, R, S>(rt, alloc, workers, updates, queries, shelf) {
        Err(refusal) => refusal,
        Ok(job) => match put_table(rt, alloc, seed, &job, workers, sink, gate) {
            Ok(()) => Outcome::Done,
            Err(PutError::Failed) => Outcome::WriteFault,
            Err(PutError::Memory) => Outcome::NoMemory,
        },
    }
}

// Runs a job over a hash table whose orders go by `seed`, and then puts its report.
fn put_table<R: Threads + Wait + Sync, K: Sink, G: Gate + Sync>(
    rt: &R,
    alloc: Global,
    seed: u64,
    job: &MapJob,
    workers: u64,
    sink: &mut K,
    gate: &G,
) -> Result<(), PutError>
    requires workers { (1 ≤ workers) × (workers ≤ 16) }
    requires may { MayBegin job.now.ups.items (map (λ file. file.items) job.now.asks.items) }
    ensures all { OnOk result ((text : List ℕ) × IsTextOf table_kind (job_script job.now.ups.items (map (λ file. file.items) job.now.asks.items)) text × (K.taken sink.new ≡ appended (K.taken sink.old) text)) }
    ensures prefix { IfErr result (HasPut table_kind (job_script job.now.ups.items (map (λ file. file.items) job.now.asks.items)) (K.taken sink.old) (K.taken sink.new)) }
    ensures cause { IfErr result (λ error. IsPutCause error (K.faults sink.old) (K.faults sink.new)) }
    ensures lasting { K.faults sink.old ≤ K.faults sink.new }
{
    let answered = run_over_table(rt, alloc, seed, job, workers, gate)?;
    put_report(
        rt,
        alloc,
        workers as u8,
        sink,
        &answered.replies,
        &job.asks,
        &answered.answers,
        &answered.pairs,
    )
}
