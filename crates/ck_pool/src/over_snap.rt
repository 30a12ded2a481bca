//! A job over a new snapshot dictionary.
ghost use Rattle.std.specs.Prelude.{◌≡◌, ◌<◌, ◌≤◌, ◌^◌, [], length, vec_len, map, IfOk, OnOk, All, None};
ghost use Rattle.ck_script.specs.Script.{said_of, holds};
ghost use Rattle.ck_script.specs.Checks.{range_fault};
ghost use Rattle.ck_snap.specs.Log.{most_pairs};
ghost use Rattle.ck_snap.specs.Tokens.{IsWriterOf, IsPassOf, AreFreshSnapPasses, fresh_writer, log};
ghost use Rattle.ck_pool.specs.Limits.{most_job_lines, most_query_files, most_workers, call_bound};
ghost use Rattle.ck_pool.specs.Served.{line_total};
ghost use Rattle.ck_pool.specs.Results.{job_script, AreMapResults};
ghost use Rattle.ck_pool.specs.Snapshots.{AllPlacedIn};

use crate::job::{MapJob, Served};
use crate::map_results::MapResults;
use crate::serving::serve;
use ck_io::Gate;
use ck_snap::{Snap, SnapPass, SnapWriter};
use std::alloc::{AllocError, Global};
use std::sync::Wait;
use std::thread::Threads;

// Ties each pass to the writer: then the places of its answers are known to be in the writer's log.
fn tie_all<R: Wait>(
    rt: &R,
    snap: &Snap,
    hand: &mut SnapWriter,
    passes: Vec<SnapPass>,
) -> Result<(), AllocError>
    requires hand { IsWriterOf snap.now hand.old × (hand.old.calls < call_bound) }
    requires passes { All (λ p. IsPassOf snap.now p × (p.calls < call_bound)) passes.items }
    requires count { vec_len passes ≤ most_query_files }
    ensures hand { IsWriterOf snap.now hand.new × (hand.new.done ≡ hand.old.done) }
    ensures tied { OnOk result (AllPlacedIn (log hand.old) passes.items) }
{
    let mut left = passes;
    while let Some(pass) = left.pop() {
        let mut pass = pass;
        snap.tie(rt, hand, &mut pass)?;
    }
    Ok(())
}

// Runs the job, ties the passes, and takes the pairs.
fn serve_and_tie<G: Gate + Sync, R: Threads + Wait + Sync>(
    rt: &R,
    alloc: Global,
    snap: &Snap,
    hand: &mut SnapWriter,
    passes: Vec<SnapPass>,
    job: &MapJob,
    workers: u64,
    gate: &G,
) -> Result<MapResults, AllocError>
    requires hand { hand.old ≡ fresh_writer snap.now }
    requires passes { AreFreshSnapPasses snap.now 0 passes.items × (vec_len passes ≡ length job.now.asks.items) × (snap.now.readers ≡ length job.now.asks.items) }
    requires files { (1 ≤ length job.now.asks.items) × (length job.now.asks.items ≤ most_query_files) }
    requires workers { (1 ≤ workers) × (workers ≤ most_workers) }
    requires lines { line_total job.now.ups.items (map (λ file. file.items) job.now.asks.items) ≤ most_job_lines }
    requires ranges { range_fault job.now.ups.items (map (λ file. file.items) job.now.asks.items) ≡ None }
    requires no_hold { holds 0 (said_of job.now.ups.items) ≡ [] }
    ensures hand { IsWriterOf snap.now hand.new }
    ensures answered { IfOk result (AreMapResults most_pairs (job_script job.now.ups.items (map (λ file. file.items) job.now.asks.items))) }
{
    let served = serve(rt, alloc, snap, hand, passes, job, workers, gate)?;
    let Served {
        replies,
        answers,
        eyes,
    } = served;
    tie_all(rt, snap, hand, eyes)?;
    let pairs = snap.entries(alloc, hand)?;
    Ok(MapResults {
        replies,
        answers,
        pairs,
    })
}

/// Runs a job over a new snapshot dictionary: its updates in one task, and its query files in `workers` others. The replies are those of the
/// map of one thread, the answers of each file are legal, and the pairs are those of that map after all updates. The only error is want of
/// memory.
///
/// The job has no `hold` line: a snapshot dictionary doesn't know how many answers a reader has.
pub fn run_over_snap<G: Gate + Sync, R: Threads + Wait + Sync>(
    rt: &R,
    alloc: Global,
    job: &MapJob,
    workers: u64,
    gate: &G,
) -> Result<MapResults, AllocError>
    requires files { (1 ≤ length job.now.asks.items) × (length job.now.asks.items ≤ most_query_files) }
    requires workers { (1 ≤ workers) × (workers ≤ most_workers) }
    requires lines { line_total job.now.ups.items (map (λ file. file.items) job.now.asks.items) ≤ most_job_lines }
    requires ranges { range_fault job.now.ups.items (map (λ file. file.items) job.now.asks.items) ≡ None }
    requires no_hold { holds 0 (said_of job.now.ups.items) ≡ [] }
    ensures { IfOk result (AreMapResults most_pairs (job_script job.now.ups.items (map (λ file. file.items) job.now.asks.items))) }
{
    let (snap, mut hand, passes) = Snap::new(rt, alloc, job.asks.len() as u64)?;
    let answered = serve_and_tie(rt, alloc, &snap, &mut hand, passes, job, workers, gate);
    snap.finish(rt, hand);
    answered
}
