//! What a worker does: it takes files by the numbers that come through the ring, and runs each to its end.
ghost use Rattle.std.specs.Prelude.{◌≡◌, ◌+◌, ◌<◌, ◌≤◌, ◌^◌, ℕ, length, vec_len, map, slice_get, [], true, false, IfOk, OnOk, None, Some};
ghost use Rattle.ck_run.specs.Tokens.{table};
ghost use Rattle.ck_pool.specs.declared.query_run.QueryRun.{QueryRun};
ghost use Rattle.ck_pool.specs.Desk.{IsClerkOf};
ghost use Rattle.ck_pool.specs.Working.{AreOnDesk, AreQueryRuns, AreEnded, HasRuns, runs_of, IsWorked, IsWorker, MayDequeue, MayDequeueAgain, FoundRingEmpty};

use crate::context::Context;
use crate::desk::{Clerk, Desk};
use crate::dict::Dict;
use crate::query_run::{QueryRun, load_again, start};
use crate::waiting::Waiting;
use ck_io::Gate;
use ck_ring::{Consumer, Ring, Take};
use std::alloc::AllocError;
use std::sync::Wait;

/// What a worker begins with.
#[derive(Drop)]
pub struct Worker<E> {
    pub clerk: Clerk<E>,
    pub consumer: Consumer,
}

/// What a worker ends with: the files that its clerk has taken.
#[derive(Drop)]
pub struct Worked<E, B> {
    pub clerk: Clerk<E>,
    pub runs: Vec<QueryRun<E, B>>,
}

// Asks the ring once for a number.
fn dequeue(ring: &Ring, consumer: &mut Consumer) -> Take
    requires table { table consumer.old ≡ ring.now }
    requires may { MayDequeue consumer.old }
    ensures table { table consumer.new ≡ ring.now }
    ensures may { MayDequeueAgain result consumer.new }
{
    ring.try_dequeue(consumer)
}

// Takes the file of the next number, and runs it until it can't go on. False where there was no number.
fn take_one<D: Dict, G: Gate, R: Wait>(
    context: &Context<D, G, R>,
    desk: &Desk<D::Eye>,
    ring: &Ring,
    clerk: &mut Clerk<D::Eye>,
    consumer: &mut Consumer,
    asks: &[D::AskFile],
    runs: &mut Vec<QueryRun<D::Eye, D::Answer>>,
) -> Result<bool, AllocError>
    requires clerk { IsClerkOf desk.now clerk.old }
    requires ring { (table consumer.old ≡ ring.now) × MayDequeue consumer.old }
    requires files { AreOnDesk (D.eyes context.now.dict.now) desk.now.eyes (map D.AskFile.items asks.now) }
    requires each { AreQueryRuns (D.eyes context.now.dict.now) desk.now.eyes (map D.AskFile.items asks.now) runs.old.items }
    requires all { HasRuns clerk.old runs.old.items }
    ensures clerk { IsClerkOf desk.now clerk.new × (clerk.new.known.parts ≡ clerk.old.known.parts) }
    ensures table { table consumer.new ≡ ring.now }
    ensures may { IfOk result (λ more. more ≡ true → MayDequeue consumer.new) }
    ensures empty { IfOk result (λ more. more ≡ false → FoundRingEmpty consumer.new) }
    ensures each { OnOk result (AreQueryRuns (D.eyes context.now.dict.now) desk.now.eyes (map D.AskFile.items asks.now) runs.new.items) }
    ensures all { OnOk result (HasRuns clerk.new runs.new.items) }
{
    match dequeue(ring, consumer) {
        Take::Empty { .. } => return Ok(false),
        Take::Lost { .. } => {}
        Take::Item(number) => {
            if number < asks.len() as u64 {
                if let Some(run) = start(context, desk, clerk, asks, number as usize)? {
                    runs.push(run)?;
                }
            }
        }
    }
    Ok(true)
}

// Takes files until the ring is empty. Each is run until it can't go on before the next is taken.
fn take_all<D: Dict, G: Gate, R: Wait>(
    context: &Context<D, G, R>,
    desk: &Desk<D::Eye>,
    ring: &Ring,
    clerk: &mut Clerk<D::Eye>,
    consumer: &mut Consumer,
    asks: &[D::AskFile],
    runs: &mut Vec<QueryRun<D::Eye, D::Answer>>,
) -> Result<(), AllocError>
    requires clerk { IsClerkOf desk.now clerk.old × (clerk.old.known.took ≡ []) }
    requires ring { (table consumer.old ≡ ring.now) × MayDequeue consumer.old }
    requires files { AreOnDesk (D.eyes context.now.dict.now) desk.now.eyes (map D.AskFile.items asks.now) }
    requires none { runs.old.items ≡ [] }
    ensures clerk { IsClerkOf desk.now clerk.new × (clerk.new.known.parts ≡ clerk.old.known.parts) }
    ensures empty { OnOk result (FoundRingEmpty consumer.new) }
    ensures each { OnOk result (AreQueryRuns (D.eyes context.now.dict.now) desk.now.eyes (map D.AskFile.items asks.now) runs.new.items) }
    ensures all { OnOk result (HasRuns clerk.new runs.new.items) }
{
    for _ in context.rt.forever() {
        if !take_one(context, desk, ring, clerk, consumer, asks, runs)? {
            return Ok(());
        }
    }
    unreachable!()
}

// Whether all files have ended.
fn all_ended<E, B>(runs: &[QueryRun<E, B>]) -> bool
    ensures { result ≡ true → (k : ℕ) (r : QueryRun E B) → slice_get runs.now k ≡ Some r → r.waits_at ≡ None }
{
    for run in runs {
        if run.waits_at.is_some() {
            return false;
        }
    }
    true
}

// Loads once more for each file that stands at a `wait`, and tells whether one of them went on. The files move to the other vector, so that no round
// takes memory once both have grown.
fn load_all<D: Dict, G: Gate, R: Wait>(
    context: &Context<D, G, R>,
    desk: &Desk<D::Eye>,
    asks: &[D::AskFile],
    runs: &mut Vec<QueryRun<D::Eye, D::Answer>>,
    others: &mut Vec<QueryRun<D::Eye, D::Answer>>,
) -> Result<bool, AllocError>
    requires files { AreOnDesk (D.eyes context.now.dict.now) desk.now.eyes (map D.AskFile.items asks.now) }
    requires each { AreQueryRuns (D.eyes context.now.dict.now) desk.now.eyes (map D.AskFile.items asks.now) runs.old.items }
    requires none { others.old.items ≡ [] }
    ensures each { OnOk result (AreQueryRuns (D.eyes context.now.dict.now) desk.now.eyes (map D.AskFile.items asks.now) others.new.items) }
    ensures all { OnOk result ((f : ℕ) → runs_of f others.new.items ≡ runs_of f runs.old.items) }
    ensures none { OnOk result (runs.new.items ≡ []) }
{
    let mut went_on = false;
    while let Some(run) = runs.pop() {
        let stood_at = run.waits_at;
        let run = load_again(context, desk, asks, run)?;
        went_on = went_on || run.waits_at != stood_at;
        others.push(run)?;
    }
    Ok(went_on)
}

// Runs all files to their ends, in turn.
fn finish_all<D: Dict, G: Gate, R: Wait>(
    context: &Context<D, G, R>,
    desk: &Desk<D::Eye>,
    asks: &[D::AskFile],
    runs: Vec<QueryRun<D::Eye, D::Answer>>,
) -> Result<Vec<QueryRun<D::Eye, D::Answer>>, AllocError>
    requires files { AreOnDesk (D.eyes context.now.dict.now) desk.now.eyes (map D.AskFile.items asks.now) }
    requires each { AreQueryRuns (D.eyes context.now.dict.now) desk.now.eyes (map D.AskFile.items asks.now) runs.items }
    ensures each { IfOk result (λ v. AreEnded (D.eyes context.now.dict.now) desk.now.eyes (map D.AskFile.items asks.now) v.items) }
    ensures all { IfOk result (λ v. (f : ℕ) → runs_of f v.items ≡ runs_of f runs.items) }
{
    let mut waiting = Waiting::new();
    let mut runs = runs;
    let mut others = Vec::new(context.alloc);
    for _ in context.rt.forever() {
        if all_ended(&runs) {
            return Ok(runs);
        }
        // The task of the updates may have ended for want of memory, and then the waits are never met.
        if context.shortage.is_raised() {
            return Err(AllocError);
        }
        waiting.turn(context.rt);
        if load_all(context, desk, asks, &mut runs, &mut others)? {
            waiting = Waiting::new();
        }
        std::mem::swap(&mut runs, &mut others);
    }
    unreachable!()
}

/// Takes files until the ring is empty, and runs all of them to their ends.
pub fn work<D: Dict, G: Gate, R: Wait>(
    context: &Context<D, G, R>,
    desk: &Desk<D::Eye>,
    ring: &Ring,
    worker: Worker<D::Eye>,
    asks: &[D::AskFile],
) -> Result<Worked<D::Eye, D::Answer>, AllocError>
    requires worker { IsWorker desk.now ring.now worker }
    requires files { AreOnDesk (D.eyes context.now.dict.now) desk.now.eyes (map D.AskFile.items asks.now) }
    ensures { IfOk result (IsWorked (D.eyes context.now.dict.now) desk.now.eyes (map D.AskFile.items asks.now) desk.now) }
{
    let Worker {
        mut clerk,
        mut consumer,
    } = worker;
    let mut runs = Vec::new(context.alloc);
    take_all(
        context,
        desk,
        ring,
        &mut clerk,
        &mut consumer,
        asks,
        &mut runs,
    )?;
    let runs = finish_all(context, desk, asks, runs)?;
    Ok(Worked { clerk, runs })
}
