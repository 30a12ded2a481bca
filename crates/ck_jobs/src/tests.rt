//! Jobs over new tables, in which each `wait` and each `hold` leaves one answer. An update that doesn't mark, or a query that doesn't note,
//! would leave some of them waiting for good.
ghost use Rattle.std.specs.Prelude.{◌≡◌, ◌≤◌, length, map, IfOk, None};
ghost use Rattle.ck_script.specs.Checks.{range_fault};
ghost use Rattle.ck_pool.specs.Limits.{most_job_lines, most_workers};
ghost use Rattle.ck_pool.specs.Served.{line_total};

use crate::run_over_table;
use ck_history::{Key, Reply, Update};
use ck_io::OpenGate;
use ck_pool::{Job, MapJob, MapResults};
use ck_script::{AskLine, Lines, UpLine};
use std::alloc::{AllocError, Global};
use std::sync::Wait;
use std::test::Fail;
use std::thread::Threads;

// The updates `set 1 10; hold 1 1` and then this one, beside the queries `wait 1; get 1; wait 2; get 1`.
fn held_job(alloc: Global, last: Update<Key>) -> Result<MapJob, AllocError>
    ensures files { IfOk result (λ job. length job.asks.items ≡ 1) }
    ensures lines { IfOk result (λ job. line_total job.ups.items (map (λ file. file.items) job.asks.items) ≤ most_job_lines) }
    ensures ranges { IfOk result (λ job. range_fault job.ups.items (map (λ file. file.items) job.asks.items) ≡ None) }
{
    let key = Key::new(1).unwrap();
    let ups = Lines::numbered(
        alloc,
        [
            UpLine::Call(Update::Set(key, 10)),
            UpLine::Hold { file: 1, n: 1 },
            UpLine::Call(last),
        ]
        .as_slice(),
    )?;
    let lines = Lines::numbered(
        alloc,
        [
            AskLine::Wait { n: 1 },
            AskLine::Ask(key),
            AskLine::Wait { n: 2 },
            AskLine::Ask(key),
        ]
        .as_slice(),
    )?;
    let mut asks = Vec::new(alloc);
    asks.push(lines)?;
    Ok(Job { ups, asks })
}

// The updates `set 80 1; set 443 2; del 80`, beside `wait 3; get 80; get 443` and `wait 3; get 443`.
fn waiting_job(alloc: Global) -> Result<MapJob, AllocError>
    ensures files { IfOk result (λ job. length job.asks.items ≡ 2) }
    ensures lines { IfOk result (λ job. line_total job.ups.items (map (λ file. file.items) job.asks.items) ≤ most_job_lines) }
    ensures ranges { IfOk result (λ job. range_fault job.ups.items (map (λ file. file.items) job.asks.items) ≡ None) }
{
    let low = Key::new(80).unwrap();
    let high = Key::new(443).unwrap();
    let ups = Lines::numbered(
        alloc,
        [
            UpLine::Call(Update::Set(low, 1)),
            UpLine::Call(Update::Set(high, 2)),
            UpLine::Call(Update::Del(low)),
        ]
        .as_slice(),
    )?;
    let first = Lines::numbered(
        alloc,
        [
            AskLine::Wait { n: 3 },
            AskLine::Ask(low),
            AskLine::Ask(high),
        ]
        .as_slice(),
    )?;
    let second = Lines::numbered(
        alloc,
        [AskLine::Wait { n: 3 }, AskLine::Ask(high)].as_slice(),
    )?;
    let mut asks = Vec::new(alloc);
    asks.push(first)?;
    asks.push(second)?;
    Ok(Job { ups, asks })
}

// The results of that job.
fn held_results<R: Threads + Wait + Sync>(
    rt: &R,
    alloc: Global,
    last: Update<Key>,
    workers: u64,
) -> Result<MapResults, AllocError>
    requires { (1 ≤ workers) × (workers ≤ most_workers) }
{
    let job = held_job(alloc, last)?;
    run_over_table(rt, alloc, 7, &job, workers, &OpenGate)
}

#[test]
fn a_value_is_set_once_the_answer_before_is_noted(rt: HostRuntime) -> Result<(), Fail> {
    let key = Key::new(1).unwrap();
    for workers in [1, 2, 16] {
        let results = held_results(&rt, rt.alloc(), Update::Set(key, 20), workers)?;
        assert_eq!(rt;
            results.replies.as_slice(),
            [Reply::Fresh, Reply::Was(10)].as_slice()
        );
        assert_eq!(rt; results.answers.len(), 1);
        assert_eq!(rt;
            results.answers[0].as_slice(),
            [Some(10), Some(20)].as_slice()
        );
        assert_eq!(rt; results.pairs.len(), 1);
        assert_eq!(rt; results.pairs[0].1, 20);
    }
    Ok(())
}

#[test]
fn a_key_is_removed_once_the_answer_before_is_noted(rt: HostRuntime) -> Result<(), Fail> {
    let key = Key::new(1).unwrap();
    for workers in [1, 2, 16] {
        let results = held_results(&rt, rt.alloc(), Update::Del(key), workers)?;
        assert_eq!(rt;
            results.replies.as_slice(),
            [Reply::Fresh, Reply::Was(10)].as_slice()
        );
        assert_eq!(rt; results.answers.len(), 1);
        assert_eq!(rt; results.answers[0].as_slice(), [Some(10), None].as_slice());
        assert_eq!(rt; results.pairs.len(), 0);
    }
    Ok(())
}

#[test]
fn queries_wait_until_the_updates_are_marked(rt: HostRuntime) -> Result<(), Fail> {
    let alloc = rt.alloc();
    for workers in [1, 2, 16] {
        let job = waiting_job(alloc)?;
        let results = run_over_table(&rt, alloc, 0, &job, workers, &OpenGate)?;
        let replies = [Reply::Fresh, Reply::Fresh, Reply::Was(1)];
        assert_eq!(rt; results.replies.as_slice(), replies.as_slice());
        assert_eq!(rt; results.answers.len(), 2);
        assert_eq!(rt; results.answers[0].as_slice(), [None, Some(2)].as_slice());
        assert_eq!(rt; results.answers[1].as_slice(), [Some(2)].as_slice());
        assert_eq!(rt; results.pairs.len(), 1);
        assert_eq!(rt; results.pairs[0].0.get(), 443);
        assert_eq!(rt; results.pairs[0].1, 2);
    }
    Ok(())
}
