//! A job over a new array.
ghost use Rattle.std.specs.Prelude.{◌≡◌, ◌≤◌, [], length, vec_len, map, IfOk, All, None};
ghost use Rattle.ck_epoch.specs.Closing.{AreFreshPasses};
ghost use Rattle.ck_signal.specs.Signals.{readers};
ghost use Rattle.ck_script.specs.Checks.{range_fault};
ghost use Rattle.ck_array.specs.Ends.{IsPassReady};
ghost use Rattle.ck_array.specs.Events.{pass_events, hand_events};
ghost use Rattle.ck_pool.specs.Limits.{most_job_lines, most_query_files, most_workers};
ghost use Rattle.ck_pool.specs.Served.{line_total};
ghost use Rattle.ck_pool.specs.Results.{job_script};
ghost use Rattle.ck_jobs.specs.OnArray.{IsArrayWriter};
ghost use Rattle.ck_jobs.specs.Lists.{AreListResults};

use crate::list_results::ListResults;
use crate::on_array::OnArray;
use ck_array::{Array, ArrayPass, ArrayWriter, home};
use ck_epoch::Item;
use ck_history::Edit;
use ck_io::Gate;
use ck_pool::{Job, Served, serve};
use ck_script::{AskLine, Lines, UpLine};
use ck_words::Back;
use std::alloc::{AllocError, Global};
use std::marker::PhantomData;
use std::sync::Wait;
use std::thread::Threads;

/// A job over a list, with its lines in little room.
pub type ListJob = Job<Lines<UpLine<Edit>>, Lines<AskLine<()>>>;

// Runs the job, takes the members, and closes the array: the accounts of all ends are then the parts of one run.
fn serve_and_close<
    F: Fn(Item) -> Back + Send + Sync + Drop,
    G: Gate + Sync,
    R: Threads + Wait + Sync,
>(
    rt: &R,
    alloc: Global,
    dict: OnArray<F>,
    mut hand: ArrayWriter<F>,
    passes: Vec<ArrayPass>,
    job: &ListJob,
    workers: u64,
    gate: &G,
) -> Result<ListResults, AllocError>
    requires writer { IsArrayWriter F.pre F.post dict.array hand }
    requires counted { hand.writer.calls ≡ 0 }
    requires events { hand_events dict.array.origin hand.writer.token ≡ [] }
    requires passes { (vec_len passes ≡ length job.now.asks.items) × AreFreshPasses dict.array 1 passes.items }
    requires ready { All (λ p. IsPassReady dict.array.origin p) passes.items }
    requires unused { All (λ p. pass_events dict.array.origin p.token ≡ []) passes.items }
    requires readers { readers dict.array.origin ≡ length job.now.asks.items }
    requires files { (1 ≤ length job.now.asks.items) × (length job.now.asks.items ≤ most_query_files) }
    requires workers { (1 ≤ workers) × (workers ≤ most_workers) }
    requires lines { line_total job.now.ups.items (map (λ file. file.items) job.now.asks.items) ≤ most_job_lines }
    requires ranges { range_fault job.now.ups.items (map (λ file. file.items) job.now.asks.items) ≡ None }
    ensures { IfOk result (AreListResults (job_script job.now.ups.items (map (λ file. file.items) job.now.asks.items))) }
{
    let served = serve(rt, alloc, &dict, &mut hand, passes, job, workers, gate)?;
    let Served {
        replies,
        answers,
        eyes,
    } = served;
    let OnArray { array, .. } = dict;
    let members = array.entries(alloc, &hand)?;
    let _closed = array.close(hand, eyes);
    Ok(ListResults {
        replies,
        answers,
        members,
    })
}

/// Runs a job over a new array: its edits in one task, and its query files in `workers` others. The replies are those of the lists of one thread,
/// the views of each file are legal, also by what its `wait` lines and the `hold` lines for it ask, and the members are those that are committed
/// after all edits. The only error is want of memory.
pub fn run_over_list<G: Gate + Sync, R: Threads + Wait + Sync>(
    rt: &R,
    alloc: Global,
    job: &ListJob,
    workers: u64,
    gate: &G,
) -> Result<ListResults, AllocError>
    requires files { (1 ≤ length job.now.asks.items) × (length job.now.asks.items ≤ most_query_files) }
    requires workers { (1 ≤ workers) × (workers ≤ most_workers) }
    requires lines { line_total job.now.ups.items (map (λ file. file.items) job.now.asks.items) ≤ most_job_lines }
    requires ranges { range_fault job.now.ups.items (map (λ file. file.items) job.now.asks.items) ≡ None }
    ensures { IfOk result (AreListResults (job_script job.now.ups.items (map (λ file. file.items) job.now.asks.items))) }
{
    let readers = job.asks.len() as u64;
    let (array, hand, passes) = Array::new(alloc, readers, |item: Item| home(item))?;
    let dict = OnArray {
        array,
        of: PhantomData,
    };
    serve_and_close(rt, alloc, dict, hand, passes, job, workers, gate)
}
