//! The summary of a generated run.
ghost use Rattle.std.specs.Prelude.{◌≡◌, ◌≤◌, [], ◌∷◌, length, map, IfOk};
ghost use Rattle.ck_gen.specs.Generated.{lines_of_updates, lines_of_queries, numbered};
ghost use Rattle.ck_lookup.specs.Making.{made_text, PutsText};

use crate::outcome::Outcome;
use ck_gen::{Summary, queries, summary_text, updates};
use ck_history::{Key, Update};
use ck_io::{OpenGate, Sink, put_all};
use ck_jobs::run_over_table;
use ck_pool::{Job, MapJob};
use ck_script::{AskLine, Lines, ScriptError, UpLine, read_queries, read_updates};
use std::alloc::{AllocError, Global};
use std::sync::Wait;
use std::thread::Threads;

/// How many tasks answer the queries.
const WORKERS: u64 = 4;

/// The text of the summary of the run that a seed generates: `lines` updates, at most 999,999, and as many queries, each
/// after all updates. The files are generated, read as any script is, and run on a table by tasks side by side; since
/// each query waits for all updates, the text doesn't depend on the schedule. The only error is want of memory.
pub fn make<R: Threads + Wait + Sync>(
    rt: &R,
    alloc: Global,
    seed: u64,
    lines: u64,
) -> Result<Vec<u8>, AllocError>
    requires { lines ≤ 999999 }
    ensures { IfOk result (λ text. text.items ≡ made_text seed lines) }
{
    let job = generated_job(alloc, seed, lines)?;
    let answered = run_over_table(rt, alloc, seed, &job, WORKERS, &OpenGate)?;
    let answers = &answered.answers[0];
    summary_text(
        alloc,
        &Summary::new(&answered.replies, answers, &answered.pairs),
    )
}

/// Puts the summary of a seed.
pub fn run_make<R: Threads + Wait + Sync, K: Sink>(
    rt: &R,
    alloc: Global,
    seed: u64,
    lines: u64,
    sink: &mut K,
) -> Outcome
    requires { lines ≤ 999999 }
    ensures ends { PutsText (made_text seed lines) (K.taken sink.old) (K.taken sink.new) (K.faults sink.old) (K.faults sink.new) result }
    ensures lasting { K.faults sink.old ≤ K.faults sink.new }
{
    match make(rt, alloc, seed, lines) {
        Ok(text) => match put_all(sink, &text) {
            Ok(()) => Outcome::Done,
            Err(_) => Outcome::WriteFault,
        },
        Err(_) => Outcome::NoMemory,
    }
}

// The job of the generated files.
fn generated_job(alloc: Global, seed: u64, lines: u64) -> Result<MapJob, AllocError>
    requires { lines ≤ 999999 }
    ensures updates { IfOk result (λ job. job.ups.items ≡ numbered 1 (lines_of_updates seed lines)) }
    ensures queries { IfOk result (λ job. map (λ file. file.items) job.asks.items ≡ numbered 1 (lines_of_queries seed lines) ∷ []) }
{
    let ups = generated_updates(alloc, seed, lines)?;
    let asked = generated_queries(alloc, seed, lines)?;
    let mut asks = Vec::new(alloc);
    asks.push(asked)?;
    Ok(Job { ups, asks })
}

// The lines of the generated update file.
fn generated_updates(
    alloc: Global,
    seed: u64,
    lines: u64,
) -> Result<Lines<UpLine<Update<Key>>>, AllocError>
    requires { lines ≤ 999999 }
    ensures { IfOk result (λ ups. ups.items ≡ numbered 1 (lines_of_updates seed lines)) }
{
    let file = updates(alloc, seed, lines)?;
    match read_updates(alloc, &file) {
        Ok(ups) => Ok(ups),
        Err(ScriptError::Memory) => Err(AllocError),
        // A generated file is in the grammar.
        Err(ScriptError::Fault(_)) => unreachable!(),
    }
}

// The lines of the generated query file.
fn generated_queries(
    alloc: Global,
    seed: u64,
    lines: u64,
) -> Result<Lines<AskLine<Key>>, AllocError>
    requires { lines ≤ 999999 }
    ensures { IfOk result (λ asks. asks.items ≡ numbered 1 (lines_of_queries seed lines)) }
{
    let file = queries(alloc, seed, lines)?;
    match read_queries(alloc, &file) {
        Ok(asks) => Ok(asks),
        Err(ScriptError::Memory) => Err(AllocError),
        Err(ScriptError::Fault(_)) => unreachable!(),
    }
}
