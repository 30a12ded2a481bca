//! A job over a new hash table.
ghost use Rattle.std.specs.Prelude.{◌≡◌, ◌≤◌, [], length, vec_len, map, IfOk, All, None};
ghost use Rattle.ck_epoch.specs.Closing.{AreFreshPasses};
ghost use Rattle.ck_signal.specs.Signals.{readers};
ghost use Rattle.ck_script.specs.Script.{said_of, updates};
ghost use Rattle.ck_script.specs.Checks.{range_fault};
ghost use Rattle.ck_ht.specs.Ends.{IsPassReady};
ghost use Rattle.ck_ht.specs.Events.{pass_events, hand_events};
ghost use Rattle.ck_pool.specs.Limits.{most_job_lines, most_query_files, most_workers};
ghost use Rattle.ck_pool.specs.Served.{line_total};
ghost use Rattle.ck_pool.specs.Results.{job_script, AreMapResults};
ghost use Rattle.ck_jobs.specs.OnHt.{IsTableWriter};
ghost use Rattle.ck_jobs.specs.Results.{most_pairs};
ghost use Rattle.ck_jobs.specs.Room.{HasRoomThroughout};

use crate::on_ht::OnHt;
use crate::room::pairs_of;
use ck_epoch::Item;
use ck_ht::{Ht, HtPass, HtWriter, home};
use ck_io::Gate;
use ck_pool::{MapJob, MapResults, Served, serve};
use ck_words::Back;
use std::alloc::{AllocError, Global};
use std::marker::PhantomData;
use std::sync::Wait;
use std::thread::Threads;

// Runs the job, takes the pairs, and closes the table: the accounts of all ends are then the parts of one run.
fn serve_and_close<
    F: Fn(Item) -> Back + Send + Sync + Drop,
    G: Gate + Sync,
    R: Threads + Wait + Sync,
>(
    rt: &R,
    alloc: Global,
    dict: OnHt<F>,
    mut hand: HtWriter<F>,
    passes: Vec<HtPass>,
    job: &MapJob,
    workers: u64,
    gate: &G,
) -> Result<MapResults, AllocError>
    requires writer { IsTableWriter F.pre F.post dict.table hand }
    requires counted { hand.writer.calls ≡ 0 }
    requires events { hand_events dict.table.origin hand.writer.token ≡ [] }
    requires passes { (vec_len passes ≡ length job.now.asks.items) × AreFreshPasses dict.table 1 passes.items }
    requires ready { All (λ p. IsPassReady dict.table.origin p) passes.items }
    requires unused { All (λ p. pass_events dict.table.origin p.token ≡ []) passes.items }
    requires readers { readers dict.table.origin ≡ length job.now.asks.items }
    requires room { HasRoomThroughout dict.table.origin.config.client.client.arena_log (updates (said_of job.now.ups.items)) }
    requires files { (1 ≤ length job.now.asks.items) × (length job.now.asks.items ≤ most_query_files) }
    requires workers { (1 ≤ workers) × (workers ≤ most_workers) }
    requires lines { line_total job.now.ups.items (map (λ file. file.items) job.now.asks.items) ≤ most_job_lines }
    requires ranges { range_fault job.now.ups.items (map (λ file. file.items) job.now.asks.items) ≡ None }
    ensures { IfOk result (AreMapResults most_pairs (job_script job.now.ups.items (map (λ file. file.items) job.now.asks.items))) }
{
    let served = serve(rt, alloc, &dict, &mut hand, passes, job, workers, gate)?;
    let Served {
        replies,
        answers,
        eyes,
    } = served;
    let OnHt { table, .. } = dict;
    let pairs = table.entries(alloc, &hand)?;
    let _closed = table.close(hand, eyes);
    Ok(MapResults {
        replies,
        answers,
        pairs,
    })
}

/// Runs a job over a new hash table, whose orders go by `seed`: its updates in one task, and its query files in `workers` others. The replies
/// are those of the map of one thread, the answers of each file are legal, also by what its `wait` lines and the `hold` lines for it ask, and
/// the pairs are those of that map after all updates. The only error is want of memory: the table has room for all that the updates can bring.
pub fn run_over_table<G: Gate + Sync, R: Threads + Wait + Sync>(
    rt: &R,
    alloc: Global,
    seed: u64,
    job: &MapJob,
    workers: u64,
    gate: &G,
) -> Result<MapResults, AllocError>
    requires files { (1 ≤ length job.now.asks.items) × (length job.now.asks.items ≤ most_query_files) }
    requires workers { (1 ≤ workers) × (workers ≤ most_workers) }
    requires lines { line_total job.now.ups.items (map (λ file. file.items) job.now.asks.items) ≤ most_job_lines }
    requires ranges { range_fault job.now.ups.items (map (λ file. file.items) job.now.asks.items) ≡ None }
    ensures { IfOk result (AreMapResults most_pairs (job_script job.now.ups.items (map (λ file. file.items) job.now.asks.items))) }
{
    let pairs = pairs_of(alloc, &job.ups)?;
    let readers = job.asks.len() as u64;
    let (table, hand, passes) = Ht::with_room(
        alloc,
        seed,
        pairs,
        readers,
        |item: Item| home(item),
    )?;
    let dict = OnHt {
        table,
        of: PhantomData,
    };
    serve_and_close(rt, alloc, dict, hand, passes, job, workers, gate)
}
