//! Tasks in threads of their own.
ghost use Rattle.std.specs.Prelude.{◌≡◌, ◌<◌, ◌≤◌, ◌^◌, ◌++◌, List, length, vec_len, map, IfOk, All};
ghost use Rattle.ck_pool.specs.Limits.{most_job_lines, call_bound, start_call_bound};
ghost use Rattle.ck_pool.specs.Runs.{HoldReaders};
ghost use Rattle.ck_pool.specs.Served.{IsUpdateFileServed, WillFit};
ghost use Rattle.ck_pool.specs.Working.{AreOnDesk, IsWorker, IsWorked};

use crate::context::Context;
use crate::desk::Desk;
use crate::dict::Dict;
use crate::updates::run_updates;
use crate::worker::{Worked, Worker, work};
use ck_io::Gate;
use ck_ring::Ring;
use std::alloc::AllocError;
use std::sync::Wait;
use std::thread;
use std::thread::{Threads, join_mut};

// What a worker does. Where it finds no memory, the others are told.
fn work_or_tell<D: Dict, G: Gate, R: Wait>(
    context: &Context<D, G, R>,
    desk: &Desk<D::Eye>,
    ring: &Ring,
    worker: Worker<D::Eye>,
    asks: &[D::AskFile],
) -> Result<Worked<D::Eye, D::Answer>, AllocError>
    requires worker { IsWorker desk.now ring.now worker }
    requires files { AreOnDesk (D.eyes context.now.dict.now) desk.now.eyes (map D.AskFile.items asks.now) }
    ensures { IfOk result (IsWorked (D.eyes context.now.dict.now) desk.now.eyes (map D.AskFile.items asks.now) desk.now) }
{
    let worked = work(context, desk, ring, worker, asks);
    if worked.is_err() {
        context.shortage.raise();
    }
    worked
}

// What the task of the update file does. Where it finds no memory, the others are told.
fn update_or_tell<D: Dict, G: Gate, R: Wait>(
    context: &Context<D, G, R>,
    hand: &mut D::Hand,
    lines: &D::UpFile,
) -> Result<Vec<D::Reply>, AllocError>
    requires ready { (D.hands context.now.dict.now).ready hand.old }
    requires calls { ((D.hands context.now.dict.now).calls hand.old < start_call_bound) × (length (D.UpFile.items lines.now) ≤ most_job_lines) }
    requires readers { HoldReaders (D.readers context.now.dict.now) (D.UpFile.items lines.now) }
    requires fits { WillFit (D.hands context.now.dict.now) hand.old (D.UpFile.items lines.now) }
    ensures ready { (D.hands context.now.dict.now).ready hand.new }
    ensures calls { (D.hands context.now.dict.now).calls hand.new < call_bound }
    ensures ran { IfOk result (λ replies. IsUpdateFileServed (D.hands context.now.dict.now) hand.old (D.UpFile.items lines.now) hand.new replies.items) }
{
    let replies = run_updates(context, hand, lines);
    if replies.is_err() {
        context.shortage.raise();
    }
    replies
}

/// One task for each worker.
pub fn work_all<D: Dict, G: Gate + Sync, R: Threads + Wait + Sync>(
    context: &Context<D, G, R>,
    desk: &Desk<D::Eye>,
    ring: &Ring,
    workers: &mut Vec<Worker<D::Eye>>,
    asks: &[D::AskFile],
) -> Result<Vec<Result<Worked<D::Eye, D::Answer>, AllocError>>, AllocError>
    requires workers { All (IsWorker desk.now ring.now) workers.old.items }
    requires files { AreOnDesk (D.eyes context.now.dict.now) desk.now.eyes (map D.AskFile.items asks.now) }
    ensures len { IfOk result (λ v. vec_len v ≡ vec_len workers.old) }
    ensures each { IfOk result (λ v. All (λ one. IfOk one (IsWorked (D.eyes context.now.dict.now) desk.now.eyes (map D.AskFile.items asks.now) desk.now)) v.items) }
{
    let team = std::mem::replace(workers, Vec::new(context.alloc));
    let worked = thread::map_vec(
        context.rt,
        team,
        &|worker: Worker<D::Eye>| -> Result<Worked<D::Eye, D::Answer>, AllocError>
            requires { IsWorker desk.now ring.now worker × AreOnDesk (D.eyes context.now.dict.now) desk.now.eyes (map D.AskFile.items asks.now) }
            ensures { IfOk result (IsWorked (D.eyes context.entry.now.dict.now) desk.entry.now.eyes (map D.AskFile.items asks.entry.now) desk.entry.now) }
        { work_or_tell(context, desk, ring, worker, asks) },
    );
    // Here no worker has begun.
    if worked.is_err() {
        context.shortage.raise();
    }
    worked
}

/// The update file and the query files, side by side.
pub fn run_both<D: Dict, G: Gate + Sync, R: Threads + Wait + Sync>(
    context: &Context<D, G, R>,
    hand: &mut D::Hand,
    ups: &D::UpFile,
    desk: &Desk<D::Eye>,
    ring: &Ring,
    mut workers: Vec<Worker<D::Eye>>,
    asks: &[D::AskFile],
) -> (
    Result<Vec<D::Reply>, AllocError>,
    Result<Vec<Result<Worked<D::Eye, D::Answer>, AllocError>>, AllocError>,
)
    requires hand { (D.hands context.now.dict.now).ready hand.old × ((D.hands context.now.dict.now).calls hand.old < start_call_bound) × (length (D.UpFile.items ups.now) ≤ most_job_lines) × HoldReaders (D.readers context.now.dict.now) (D.UpFile.items ups.now) }
    requires fits { WillFit (D.hands context.now.dict.now) hand.old (D.UpFile.items ups.now) }
    requires workers { All (IsWorker desk.now ring.now) workers.items }
    requires files { AreOnDesk (D.eyes context.now.dict.now) desk.now.eyes (map D.AskFile.items asks.now) }
    ensures hand { (D.hands context.now.dict.now).ready hand.new × ((D.hands context.now.dict.now).calls hand.new < call_bound) }
    ensures updates { IfOk result.0 (λ replies. IsUpdateFileServed (D.hands context.now.dict.now) hand.old (D.UpFile.items ups.now) hand.new replies.items) }
    ensures len { IfOk result.1 (λ v. vec_len v ≡ vec_len workers) }
    ensures each { IfOk result.1 (λ v. All (λ one. IfOk one (IsWorked (D.eyes context.now.dict.now) desk.now.eyes (map D.AskFile.items asks.now) desk.now)) v.items) }
{
    let mut updates = || -> Result<Vec<D::Reply>, AllocError>
        requires { (D.hands context.now.dict.now).ready hand.now × ((D.hands context.now.dict.now).calls hand.now < start_call_bound) × (length (D.UpFile.items ups.now) ≤ most_job_lines) × HoldReaders (D.readers context.now.dict.now) (D.UpFile.items ups.now) × WillFit (D.hands context.now.dict.now) hand.now (D.UpFile.items ups.now) }
        ensures ready { (D.hands context.entry.now.dict.now).ready hand.exit.now }
        ensures calls { (D.hands context.entry.now.dict.now).calls hand.exit.now < call_bound }
        ensures ran { IfOk result (λ replies. IsUpdateFileServed (D.hands context.entry.now.dict.now) hand.entry.now (D.UpFile.items ups.entry.now) hand.exit.now replies.items) }
    { update_or_tell(context, hand, ups) };
    let mut queries = move || -> Result<
        Vec<Result<Worked<D::Eye, D::Answer>, AllocError>>,
        AllocError,
    >
        requires { All (IsWorker desk.now ring.now) workers.items × AreOnDesk (D.eyes context.now.dict.now) desk.now.eyes (map D.AskFile.items asks.now) }
        ensures len { IfOk result (λ v. vec_len v ≡ vec_len workers.entry) }
        ensures each { IfOk result (λ v. All (λ one. IfOk one (IsWorked (D.eyes context.entry.now.dict.now) desk.entry.now.eyes (map D.AskFile.items asks.entry.now) desk.entry.now)) v.items) }
    { work_all(context, desk, ring, &mut workers, asks) };
    join_mut(context.rt, &mut updates, &mut queries)
}
