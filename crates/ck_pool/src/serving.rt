//! A job is run by tasks over one dictionary.
ghost use Rattle.std.specs.Prelude.{◌≡◌, ◌+◌, ◌<◌, ◌≤◌, ◌^◌, ◌++◌, ℕ, List, [], ◌∷◌, length, vec_len, map, IfOk, All, None};
ghost use Rattle.ck_run.specs.Tokens.{table};
ghost use Rattle.ck_ring.specs.State.{state, size_of};
ghost use Rattle.ck_script.specs.Checks.{range_fault};
ghost use Rattle.ck_pool.specs.Limits.{most_job_lines, most_query_files, most_workers, call_bound, start_call_bound};
ghost use Rattle.ck_pool.specs.Runs.{HoldReaders};
ghost use Rattle.ck_pool.specs.Served.{AreReady, AreInOrder, IsUpdateFileServed, WillFit, AreServed, line_total};
ghost use Rattle.ck_pool.specs.Desk.{all_parts, IsClerkOf};
ghost use Rattle.ck_pool.specs.Working.{AreOnDesk, AreEnded, HasRuns, IsWorker, numbers_below};

use crate::context::Context;
use crate::desk::{Clerk, Desk};
use crate::dict::Dict;
use crate::fork::run_both;
use crate::gather::{ended_run, gather};
use crate::job::{Job, Served};
use crate::query_run::QueryRun;
use crate::shortage::Shortage;
use crate::worker::Worker;
use ck_io::Gate;
use ck_ring::{Consumer, Producer, Ring};
use std::alloc::{AllocError, Global};
use std::sync::Wait;
use std::thread::Threads;

/// The size of the ring, as a power of two: it holds 127 numbers, and there are at most 64 files.
const RING_LOG: u64 = 7;

// A worker for each consumer.
fn team_of<E: Drop>(
    alloc: Global,
    desk: &Desk<E>,
    clerk: &mut Clerk<E>,
    ring: &Ring,
    consumers: Vec<Consumer>,
) -> Result<Vec<Worker<E>>, AllocError>
    requires clerk { IsClerkOf desk.now clerk.old }
    requires parts { vec_len consumers < clerk.old.known.parts }
    requires files { 0 < length desk.now.eyes }
    requires consumers { All (λ c. (table c ≡ ring.now) × ((state c).calls ≡ 0)) consumers.items }
    ensures clerk { IsClerkOf desk.now clerk.new × (clerk.new.known.took ≡ clerk.old.known.took) }
    ensures parts { IfOk result (λ v. clerk.new.known.parts + vec_len v ≡ clerk.old.known.parts) }
    ensures len { IfOk result (λ v. vec_len v ≡ vec_len consumers) }
    ensures each { IfOk result (λ v. All (IsWorker desk.now ring.now) v.items) }
{
    let _ring = ring; // only the contract reads it: it says whose consumers these are
    let mut team = Vec::new(alloc);
    let mut left = consumers;
    while let Some(consumer) = left.pop() {
        let other = desk.another(clerk);
        team.push(Worker {
            clerk: other,
            consumer,
        })?;
    }
    Ok(team)
}

// Puts the numbers of all files into the ring.
fn send_all(ring: &Ring, producer: &mut Producer, files: u64)
    requires table { table producer.old ≡ ring.now }
    requires new { ((state producer.old).calls ≡ 0) × ((state producer.old).sent ≡ []) }
    requires room { (files ≤ most_query_files) × (most_query_files < size_of ring.now.origin) }
    ensures { (state producer.new).sent ≡ numbers_below files }
{
    for file in 0..files {
        match ring.enqueue(producer, file) {
            Ok(()) => {}
            Err(_) => unreachable!(),
        }
    }
}

// The answers and the eyes of all files, in order.
fn collect<D: Dict, G: Gate, R: Wait>(
    context: &Context<D, G, R>,
    desk: &Desk<D::Eye>,
    clerk: &mut Clerk<D::Eye>,
    asks: &[D::AskFile],
    runs: &mut Vec<QueryRun<D::Eye, D::Answer>>,
) -> Result<(Vec<Vec<D::Answer>>, Vec<D::Eye>), AllocError>
    requires clerk { IsClerkOf desk.now clerk.old × (clerk.old.known.parts ≡ all_parts) }
    requires files { AreOnDesk (D.eyes context.now.dict.now) desk.now.eyes (map D.AskFile.items asks.now) }
    requires each { AreEnded (D.eyes context.now.dict.now) desk.now.eyes (map D.AskFile.items asks.now) runs.old.items }
    requires all { HasRuns clerk.old runs.old.items }
    ensures { IfOk result (λ x. AreServed (D.eyes context.now.dict.now) desk.now.eyes (map D.AskFile.items asks.now) x.1.items (map (λ file. file.items) x.0.items)) }
{
    let mut answers = Vec::new(context.alloc);
    let mut eyes = Vec::new(context.alloc);
    for file in 0..asks.len() {
        let run = ended_run(context, desk, clerk, asks, runs, file)?;
        let QueryRun {
            eye,
            answers: given,
            ..
        } = run;
        answers.push(given)?;
        eyes.push(eye)?;
    }
    Ok((answers, eyes))
}

// Runs the update file and all query files, by one task and by one for each consumer.
fn run_tasks<D: Dict, G: Gate + Sync, R: Threads + Wait + Sync>(
    context: &Context<D, G, R>,
    hand: &mut D::Hand,
    eyes: Vec<D::Eye>,
    job: &Job<D::UpFile, D::AskFile>,
    ring: &Ring,
    consumers: Vec<Consumer>,
) -> Result<Served<D>, AllocError>
    requires hand { (D.hands context.now.dict.now).ready hand.old × ((D.hands context.now.dict.now).calls hand.old < start_call_bound) }
    requires files { AreOnDesk (D.eyes context.now.dict.now) eyes.items (map D.AskFile.items job.now.asks.items) }
    requires lines { length (D.UpFile.items job.now.ups) ≤ most_job_lines }
    requires readers { HoldReaders (D.readers context.now.dict.now) (D.UpFile.items job.now.ups) }
    requires fits { WillFit (D.hands context.now.dict.now) hand.old (D.UpFile.items job.now.ups) }
    requires consumers { (vec_len consumers ≤ most_workers) × All (λ c. (table c ≡ ring.now) × ((state c).calls ≡ 0)) consumers.items }
    ensures hand { (D.hands context.now.dict.now).ready hand.new × ((D.hands context.now.dict.now).calls hand.new < call_bound) }
    ensures updates { IfOk result (λ served. IsUpdateFileServed (D.hands context.now.dict.now) hand.old (D.UpFile.items job.now.ups) hand.new served.replies.items) }
    ensures queries { IfOk result (λ served. AreServed (D.eyes context.now.dict.now) eyes.items (map D.AskFile.items job.now.asks.items) served.eyes.items (map (λ file. file.items) served.answers.items)) }
{
    let (desk, mut clerk) = Desk::new(context.alloc, eyes)?;
    let asks = job.asks.as_slice();
    let team = team_of(context.alloc, &desk, &mut clerk, ring, consumers)?;
    let (replies, worked) = run_both(context, hand, &job.ups, &desk, ring, team, asks);
    let replies = replies?;
    let worked = worked?;
    let mut runs = Vec::new(context.alloc);
    gather(context, &desk, &mut clerk, asks, worked, &mut runs)?;
    let (answers, eyes) = collect(context, &desk, &mut clerk, asks, &mut runs)?;
    Ok(Served {
        replies,
        answers,
        eyes,
    })
}

/// Runs a job: one task makes the updates, and `workers` tasks answer the queries of the files, all side by side. The lines of each file
/// are run in order: what was done with the hand and with each eye is what its lines ask for, with a load that is met at each `hold` and
/// each `wait`, and between these only loads that weren't met. The eyes come back in the order of their files.
///
/// The only error is want of memory. It drops the eyes.
pub fn serve<D: Dict, G: Gate + Sync, R: Threads + Wait + Sync>(
    rt: &R,
    alloc: Global,
    dict: &D,
    hand: &mut D::Hand,
    eyes: Vec<D::Eye>,
    job: &Job<D::UpFile, D::AskFile>,
    workers: u64,
    gate: &G,
) -> Result<Served<D>, AllocError>
    requires hand { (D.hands dict.now).ready hand.old × ((D.hands dict.now).calls hand.old < start_call_bound) }
    requires eyes { AreReady (D.eyes dict.now) eyes.items × AreInOrder (D.eyes dict.now) 0 eyes.items }
    requires files { (1 ≤ length job.now.asks.items) × (length job.now.asks.items ≤ most_query_files) × (length job.now.asks.items ≡ length eyes.items) }
    requires workers { (1 ≤ workers) × (workers ≤ most_workers) }
    requires lines { line_total (D.UpFile.items job.now.ups) (map D.AskFile.items job.now.asks.items) ≤ most_job_lines }
    requires ranges { range_fault (D.UpFile.items job.now.ups) (map D.AskFile.items job.now.asks.items) ≡ None }
    requires fits { WillFit (D.hands dict.now) hand.old (D.UpFile.items job.now.ups) }
    ensures hand { (D.hands dict.now).ready hand.new × ((D.hands dict.now).calls hand.new < call_bound) }
    ensures updates { IfOk result (λ served. IsUpdateFileServed (D.hands dict.now) hand.old (D.UpFile.items job.now.ups) hand.new served.replies.items) }
    ensures queries { IfOk result (λ served. AreServed (D.eyes dict.now) eyes.items (map D.AskFile.items job.now.asks.items) served.eyes.items (map (λ file. file.items) served.answers.items)) }
    ensures numbered { IfOk result (λ served. AreInOrder (D.eyes dict.now) 0 served.eyes.items) }
{
    let (ring, mut producer, consumers) = Ring::new(alloc, RING_LOG, workers)?;
    send_all(&ring, &mut producer, job.asks.len() as u64);
    let shortage = Shortage::new();
    let context = Context {
        rt,
        alloc,
        dict,
        gate,
        shortage: &shortage,
    };
    let served = run_tasks(&context, hand, eyes, job, &ring, consumers)?;
    Ok(served)
}
