//! Runs of several tasks at once.
use super::{owned, ran, shelved};
use crate::{Outcome, run};
use ck_io::{Gate, MemShelf, MemSink};
use std::alloc::{AllocError, Global};
use std::sync::Wait;
use std::sync::atomic::Ordering::SeqCst;
use std::sync::atomic::{AtomicBool, AtomicU64};
use std::test::Fail;
use std::thread::Threads;

// A gate that holds two lines, each given by its file and its number, until the other is reached, or for a long time.
#[derive(Drop)]
struct MeetingGate {
    first: (u64, u64),
    second: (u64, u64),
    first_reached: AtomicBool,
    second_reached: AtomicBool,
    first_met: AtomicBool,
    second_met: AtomicBool,
}

impl MeetingGate {
    fn new(first: (u64, u64), second: (u64, u64)) -> MeetingGate {
        MeetingGate {
            first,
            second,
            first_reached: AtomicBool::new(false),
            second_reached: AtomicBool::new(false),
            first_met: AtomicBool::new(false),
            second_met: AtomicBool::new(false),
        }
    }
}

// Tells that one line is reached, and holds until the other is, or for a long time.
fn hold(mine: &AtomicBool, other: &AtomicBool, met: &AtomicBool) {
    mine.store(true, SeqCst);
    for _turn in 0..1_000_000_000u64 {
        if other.load(SeqCst) {
            met.store(true, SeqCst);
            return;
        }
    }
}

impl Gate for MeetingGate {
    fn before(&self, who: u64, line: u64) {
        if self.first.0 == who && self.first.1 == line {
            hold(&self.first_reached, &self.second_reached, &self.first_met);
        }
        if self.second.0 == who && self.second.1 == line {
            hold(&self.second_reached, &self.first_reached, &self.second_met);
        }
    }
}

// Whether a run of these words over these files reaches both lines at once.
fn meets<R: Threads + Wait + Sync>(
    rt: &R,
    alloc: Global,
    words: &[&str],
    texts: &[&str],
    gate: &MeetingGate,
) -> Result<bool, AllocError> {
    let words = owned(alloc, words)?;
    let mut shelf = MemShelf::new(shelved(alloc, texts)?, Vec::new(alloc));
    let mut sink = MemSink::new(alloc, 1000, 1000, Vec::new(alloc))?;
    let outcome = run(rt, alloc, &words, &mut shelf, &mut sink, gate);
    Ok(outcome == Outcome::Done && gate.first_met.load(SeqCst) && gate.second_met.load(SeqCst))
}

#[test]
fn two_query_files_run_at_once(rt: HostRuntime) -> Result<(), Fail> {
    let gate = MeetingGate::new((1, 1), (2, 1));
    let words = ["table", "--workers", "2", "u", "q", "r"];
    let texts = ["", "get 1\n", "get 1\n"];
    assert_eq!(rt; meets(&rt, rt.alloc(), &words, &texts, &gate)?, true);
    Ok(())
}

#[test]
fn updates_run_beside_queries(rt: HostRuntime) -> Result<(), Fail> {
    let gate = MeetingGate::new((0, 2), (1, 1));
    let words = ["table", "--workers", "1", "u", "q"];
    let texts = ["set 1 5\nset 1 6\n", "get 1\n"];
    assert_eq!(rt; meets(&rt, rt.alloc(), &words, &texts, &gate)?, true);
    Ok(())
}

// A gate that holds the lines of query files until so many were reached, or for so many turns, and counts those that saw it.
#[derive(Drop)]
struct GatheringGate {
    wanted: u64,
    turns: u64,
    reached: AtomicU64,
    met: AtomicU64,
}

impl Gate for GatheringGate {
    fn before(&self, who: u64, _line: u64) {
        if who == 0 {
            return;
        }
        self.reached.fetch_add(1, SeqCst);
        for _turn in 0..self.turns {
            if self.reached.load(SeqCst) >= self.wanted {
                self.met.fetch_add(1, SeqCst);
                return;
            }
        }
    }
}

// How many of the lines of query files, one in each, see that all of them were reached.
fn gathered<R: Threads + Wait + Sync>(
    rt: &R,
    alloc: Global,
    words: &[&str],
    texts: &[&str],
    turns: u64,
) -> Result<u64, AllocError> {
    let gate = GatheringGate {
        wanted: texts.len().saturating_sub(1) as u64,
        turns,
        reached: AtomicU64::new(0),
        met: AtomicU64::new(0),
    };
    let words = owned(alloc, words)?;
    let mut shelf = MemShelf::new(shelved(alloc, texts)?, Vec::new(alloc));
    let mut sink = MemSink::new(alloc, 1000, 1000, Vec::new(alloc))?;
    let _ = run(rt, alloc, &words, &mut shelf, &mut sink, &gate);
    Ok(gate.met.load(SeqCst))
}

// With one task the first line goes on alone, and only the second finds both reached.
#[test]
fn one_worker_answers_one_file_at_a_time(rt: HostRuntime) -> Result<(), Fail> {
    let words = ["table", "--workers", "1", "u", "q", "r"];
    let texts = ["", "get 1\n", "get 1\n"];
    assert_eq!(rt; gathered(&rt, rt.alloc(), &words, &texts, 10_000_000)?, 1);
    Ok(())
}

#[test]
fn four_workers_answer_four_files_at_once(rt: HostRuntime) -> Result<(), Fail> {
    let words = ["table", "--workers", "4", "u", "q", "r", "s", "t"];
    let texts = ["", "get 1\n", "get 1\n", "get 1\n", "get 1\n"];
    assert_eq!(rt;
        gathered(&rt, rt.alloc(), &words, &texts, 1_000_000_000)?,
        4
    );
    Ok(())
}

#[test]
fn a_query_without_a_wait_has_either_answer(rt: HostRuntime) -> Result<(), Fail> {
    let alloc = rt.alloc();
    let words = ["table", "u", "q"];
    let (outcome, taken) = ran(
        &rt,
        alloc,
        &words,
        shelved(alloc, &["set 7 10\n", "get 7\n"])?,
    )?;
    assert_eq!(rt; outcome, Outcome::Done);
    let before = b"u 1 fresh\nq 1 1 7 absent\nt 7 = 10\nend\n";
    let after = b"u 1 fresh\nq 1 1 7 = 10\nt 7 = 10\nend\n";
    let legal = taken.as_slice() == before.as_slice() || taken.as_slice() == after.as_slice();
    assert_eq!(rt; legal, true);
    Ok(())
}
