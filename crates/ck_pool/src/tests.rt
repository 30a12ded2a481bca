//! Jobs over a dictionary of the tests' own.
ghost use Rattle.std.specs.Prelude.{◌≡◌, ◌≤◌, [], length, map, IfOk, None};
ghost use Rattle.ck_script.specs.Checks.{range_fault};
ghost use Rattle.ck_script.specs.Script.{said_of, holds};
ghost use Rattle.ck_pool.specs.Limits.{most_job_lines, most_workers};
ghost use Rattle.ck_pool.specs.Served.{line_total};

use crate::{Dict, Job, MapJob, Served, run_over_snap, serve};
use ck_history::{Key, Reply, Update};
use ck_io::OpenGate;
use ck_script::{AskLine, Lines, Numbered, UpLine};
use std::alloc::{AllocError, Global};
use std::sync::Wait;
use std::sync::atomic::{AtomicBool, AtomicU64, Ordering};
use std::test::Fail;
use std::thread::Threads;

/// What was done with the hand.
#[derive(Drop)]
enum Made {
    Update(Update<Key>, Reply),
    Load(u64, u64),
}

/// What was done with an eye.
#[derive(Drop)]
enum Seen {
    Query(Key, Option<u64>),
    Load(u64, Result<(), u64>),
}

/// The hand keeps its events.
#[derive(Drop)]
struct TestHand {
    events: Vec<Made>,
}

/// An eye keeps its number and its events, and counts its loads.
#[derive(Drop)]
struct TestEye {
    number: u64,
    events: Vec<Seen>,
    loads: u64,
}

/// How a dictionary behaves.
#[derive(Clone, Copy)]
struct Manner {
    /// So many loads of each eye find no update.
    short_loads: u64,
    /// Later loads of an eye find the updates that were made. Else they find as many as they ask for.
    follows: bool,
    /// An update and a query each hold until the other has started.
    meets: bool,
    /// A query holds until the hand has loaded so often.
    loads_before: u64,
    /// Updates find no memory.
    update_fails: bool,
    /// Queries find no memory.
    query_fails: bool,
}

/// Each call answers at once.
const PLAIN: Manner = Manner {
    short_loads: 0,
    follows: false,
    meets: false,
    loads_before: 0,
    update_fails: false,
    query_fails: false,
};

/// A dictionary for two readers that keeps no pairs. It counts what was done with its ends.
#[derive(Drop)]
struct TestDict<W> {
    rt: W,
    manner: Manner,
    updates: AtomicU64,
    first_answers: AtomicU64,
    second_answers: AtomicU64,
    hand_loads: AtomicU64,
    update_started: AtomicBool,
    query_started: AtomicBool,
    update_met: AtomicBool,
    query_met: AtomicBool,
}

/// How many turns a call holds at most.
const MANY_TURNS: u64 = 1_000_000_000;

// Tells that one call has started, and holds until the other has, or for a long time.
fn meet(mine: &AtomicBool, other: &AtomicBool, met: &AtomicBool) {
    mine.store(true, Ordering::SeqCst);
    for _turn in 0..MANY_TURNS {
        if other.load(Ordering::SeqCst) {
            met.store(true, Ordering::SeqCst);
            return;
        }
    }
}

// Holds until the count is as high, or for a long time.
fn hold_until(count: &AtomicU64, enough: u64) {
    for _turn in 0..MANY_TURNS {
        if count.load(Ordering::SeqCst) >= enough {
            return;
        }
    }
}

impl<W> TestDict<W> {
    // How many queries a reader has answered.
    fn answers_of(&self, reader: u64) -> &AtomicU64 {
        if reader == 0 {
            &self.first_answers
        } else {
            &self.second_answers
        }
    }
}

impl<W: Wait + Sync> Dict for TestDict<W> {
    ghost use Rattle.std.specs.Prelude.{◌<◌, map};
    ghost use Rattle.ck_history.specs.declared.event.WriterEvent.TheVariants.{Updated, Told};
    ghost use Rattle.ck_history.specs.declared.event.ReaderEvent.TheVariants.{Answered, Reached};
    ghost use Rattle.ck_pool.specs.declared.tests.Made.TheVariants as made;
    ghost use Rattle.ck_pool.specs.declared.tests.Seen.TheVariants as seen;

    type Call = Update<Key>;

    type Reply = Reply;

    type Ask = Key;

    type Answer = Option<u64>;

    type UpFile = Lines<UpLine<Update<Key>>>;

    type AskFile = Lines<AskLine<Key>>;

    type Hand = TestHand;

    type Eye = TestEye;

    ghost hands = { λ dict. record {
      ready = λ hand. Unit {0};
      calls = λ hand. 0;
      done = λ hand. map (elim [ made.Update u r ↦ Updated u r | made.Load reader k ↦ Told reader k ]) hand.events.items;
      fits = λ hand call. Unit {0};
    } };

    ghost eyes = { λ dict. record {
      ready = λ eye. eye.number < 2;
      number = λ eye. eye.number;
      calls = λ eye. 0;
      done = λ eye. map (elim [ seen.Query k a ↦ Answered k a | seen.Load n found ↦ Reached n found ]) eye.events.items;
    } };

    ghost readers = { λ dict. 2 };

    ghost numbered = { λ dict eye ready. ready };

    fn update<R: Wait>(
        &self,
        _rt: &R,
        _alloc: Global,
        hand: &mut TestHand,
        call: &Update<Key>,
    ) -> Result<Reply, AllocError> {
        if self.manner.update_fails {
            return Err(AllocError);
        }
        if self.manner.meets {
            meet(&self.update_started, &self.query_started, &self.update_met);
        }
        hand.events.push(Made::Update(*call, Reply::Fresh))?;
        self.updates.fetch_add(1, Ordering::SeqCst);
        Ok(Reply::Fresh)
    }

    fn query<R: Wait>(
        &self,
        _rt: &R,
        _alloc: Global,
        eye: &mut TestEye,
        ask: &Key,
    ) -> Result<Option<u64>, AllocError> {
        if self.manner.query_fails {
            return Err(AllocError);
        }
        if self.manner.meets {
            meet(&self.query_started, &self.update_started, &self.query_met);
        }
        hold_until(&self.hand_loads, self.manner.loads_before);
        eye.events.push(Seen::Query(*ask, None))?;
        self.answers_of(eye.number).fetch_add(1, Ordering::SeqCst);
        Ok(None)
    }

    fn reached<R: Wait>(&self, rt: &R, eye: &mut TestEye, n: u64) -> Result<(), u64> {
        let count = if eye.loads < self.manner.short_loads {
            0
        } else if self.manner.follows {
            self.updates.load(Ordering::SeqCst)
        } else {
            n
        };
        let found = if count < n { Err(count) } else { Ok(()) };
        if eye.events.push(Seen::Load(n, found)).is_err() {
            for _ in rt.forever() {}
            unreachable!()
        }
        eye.loads = eye.loads.saturating_add(1);
        found
    }

    fn answered(&self, hand: &mut TestHand, reader: u64) -> u64 {
        let count = self.answers_of(reader).load(Ordering::SeqCst);
        if hand.events.push(Made::Load(reader, count)).is_err() {
            for _ in self.rt.forever() {}
            unreachable!()
        }
        self.hand_loads.fetch_add(1, Ordering::SeqCst);
        count
    }
}

// A job of one `set` line, and of one query file of a `get` line, with a `wait` line before it or not.
fn small_job(alloc: Global, waits: bool) -> Result<MapJob, AllocError>
    ensures files { IfOk result (λ job. length job.asks.items ≡ 1) }
    ensures no_hold { IfOk result (λ job. holds 0 (said_of job.ups.items) ≡ []) }
    ensures lines { IfOk result (λ job. line_total job.ups.items (map (λ file. file.items) job.asks.items) ≤ most_job_lines) }
    ensures ranges { IfOk result (λ job. range_fault job.ups.items (map (λ file. file.items) job.asks.items) ≡ None) }
{
    let key = Key::new(1).unwrap();
    let ups = Lines::numbered(alloc, [UpLine::Call(Update::Set(key, 5))].as_slice())?;
    let mut lines = Lines::new(alloc);
    if waits {
        lines.push(Numbered {
            line: 1,
            what: AskLine::Wait { n: 1 },
        })?;
    }
    lines.push(Numbered {
        line: 2,
        what: AskLine::Ask(key),
    })?;
    let mut asks = Vec::new(alloc);
    asks.push(lines)?;
    Ok(Job { ups, asks })
}

// A job whose `set` line stands after a `hold` for the query of the second file. The query of the first file waits for that update.
fn crossed_job(alloc: Global) -> Result<MapJob, AllocError>
    ensures files { IfOk result (λ job. length job.asks.items ≡ 2) }
    ensures lines { IfOk result (λ job. line_total job.ups.items (map (λ file. file.items) job.asks.items) ≤ most_job_lines) }
    ensures ranges { IfOk result (λ job. range_fault job.ups.items (map (λ file. file.items) job.asks.items) ≡ None) }
{
    let key = Key::new(1).unwrap();
    let ups = Lines::numbered(
        alloc,
        [
            UpLine::Hold { file: 2, n: 1 },
            UpLine::Call(Update::Set(key, 5)),
        ]
        .as_slice(),
    )?;
    let first = Lines::numbered(
        alloc,
        [AskLine::Wait { n: 1 }, AskLine::Ask(key)].as_slice(),
    )?;
    let second = Lines::numbered(alloc, [AskLine::Ask(key)].as_slice())?;
    let mut asks = Vec::new(alloc);
    asks.push(first)?;
    asks.push(second)?;
    Ok(Job { ups, asks })
}

// An eye with which nothing was done.
fn new_eye(alloc: Global, number: u64) -> TestEye
    ensures { result.number ≡ number }
{
    TestEye {
        number,
        events: Vec::new(alloc),
        loads: 0,
    }
}

// Serves a small job with one worker.
fn serve_small<W: Threads + Wait + Sync>(
    alloc: Global,
    dict: &TestDict<W>,
    waits: bool,
) -> Result<Served<TestDict<W>>, AllocError> {
    let job = small_job(alloc, waits)?;
    let mut hand = TestHand {
        events: Vec::new(alloc),
    };
    let mut eyes = Vec::new(alloc);
    eyes.push(new_eye(alloc, 0))?;
    serve(&dict.rt, alloc, dict, &mut hand, eyes, &job, 1, &OpenGate)
}

// Serves the crossed job.
fn serve_crossed<W: Threads + Wait + Sync>(
    alloc: Global,
    dict: &TestDict<W>,
    hand: &mut TestHand,
    workers: u64,
) -> Result<Served<TestDict<W>>, AllocError>
    requires { (1 ≤ workers) × (workers ≤ most_workers) }
{
    let job = crossed_job(alloc)?;
    let mut eyes = Vec::new(alloc);
    eyes.push(new_eye(alloc, 0))?;
    eyes.push(new_eye(alloc, 1))?;
    serve(&dict.rt, alloc, dict, hand, eyes, &job, workers, &OpenGate)
}

// A dictionary with which nothing was done.
fn dict_of<W>(rt: W, manner: Manner) -> TestDict<W> {
    TestDict {
        rt,
        manner,
        updates: AtomicU64::new(0),
        first_answers: AtomicU64::new(0),
        second_answers: AtomicU64::new(0),
        hand_loads: AtomicU64::new(0),
        update_started: AtomicBool::new(false),
        query_started: AtomicBool::new(false),
        update_met: AtomicBool::new(false),
        query_met: AtomicBool::new(false),
    }
}

// Whether the update was made after three loads that found no answer of the second file, or more, and one that found it.
fn was_held(events: &[Made]) -> bool {
    match events {
        [
            Made::Load(1, 0),
            Made::Load(1, 0),
            Made::Load(1, 0),
            ..,
            Made::Load(1, 1),
            Made::Update(..),
        ] => true,
        _ => false,
    }
}

#[test]
fn a_wait_is_loaded_again_until_it_is_met(rt: HostRuntime) -> Result<(), Fail> {
    let dict = dict_of(
        rt,
        Manner {
            short_loads: 3,
            ..PLAIN
        },
    );
    let served = serve_small(rt.alloc(), &dict, true)?;
    assert_eq!(rt; served.replies.as_slice(), [Reply::Fresh].as_slice());
    assert_eq!(rt; served.answers.len(), 1);
    assert_eq!(rt; served.answers[0].as_slice(), [None].as_slice());
    assert_eq!(rt; served.eyes.len(), 1);
    assert_eq!(rt; served.eyes[0].loads, 4);
    Ok(())
}

#[test]
fn an_update_and_a_query_run_at_once(rt: HostRuntime) -> Result<(), Fail> {
    let dict = dict_of(
        rt,
        Manner {
            meets: true,
            ..PLAIN
        },
    );
    serve_small(rt.alloc(), &dict, false)?;
    assert_eq!(rt; dict.update_met.load(Ordering::SeqCst), true);
    assert_eq!(rt; dict.query_met.load(Ordering::SeqCst), true);
    Ok(())
}

// One worker must go on with the second file while the first stands at its `wait`.
#[test]
fn a_hold_is_loaded_again_until_it_is_met(rt: HostRuntime) -> Result<(), Fail> {
    let manner = Manner {
        follows: true,
        loads_before: 3,
        ..PLAIN
    };
    for workers in [1, 2] {
        let dict = dict_of(rt, manner);
        let mut hand = TestHand {
            events: Vec::new(rt.alloc()),
        };
        let served = serve_crossed(rt.alloc(), &dict, &mut hand, workers)?;
        assert_eq!(rt; was_held(&hand.events), true);
        assert_eq!(rt; served.answers.len(), 2);
    }
    Ok(())
}

// The task of the updates stands at its `hold`, or a worker at its `wait`, when another task finds no memory.
#[test]
fn all_tasks_end_where_one_finds_no_memory(rt: HostRuntime) -> Result<(), Fail> {
    for (workers, update_fails) in [(1, false), (2, false), (1, true), (2, true)] {
        let manner = Manner {
            follows: true,
            update_fails,
            query_fails: !update_fails,
            ..PLAIN
        };
        let dict = dict_of(rt, manner);
        let mut hand = TestHand {
            events: Vec::new(rt.alloc()),
        };
        let served = serve_crossed(rt.alloc(), &dict, &mut hand, workers);
        assert_eq!(rt; served.is_err(), true);
    }
    Ok(())
}

#[test]
fn a_job_runs_over_snapshots(rt: HostRuntime) -> Result<(), Fail> {
    for workers in [1, 2, 16] {
        let job = small_job(rt.alloc(), true)?;
        let answered = run_over_snap(&rt, rt.alloc(), &job, workers, &OpenGate)?;
        assert_eq!(rt; answered.replies.as_slice(), [Reply::Fresh].as_slice());
        assert_eq!(rt; answered.answers.len(), 1);
        assert_eq!(rt; answered.answers[0].as_slice(), [Some(5)].as_slice());
        assert_eq!(rt; answered.pairs.len(), 1);
        assert_eq!(rt; answered.pairs[0].1, 5);
    }
    Ok(())
}
