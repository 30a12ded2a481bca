//! How reports reach the sink.
use super::{GATED, NotingGate, owned, shelved};
use crate::{Outcome, run};
use ck_io::{MemShelf, OpenGate, Sink, SinkFailed};
use std::sync::atomic::Ordering::SeqCst;
use std::test::Fail;

// A sink that takes at most so many bytes of a piece, and notes how many each put is offered.
const TAKEN: usize = 40_000;

#[derive(Drop)]
struct NotingSink {
    offered: Vec<usize>,
}

impl Sink for NotingSink {
    ghost use Rattle.std.specs.Prelude.{None};

    ghost taken = { λ _. None };

    ghost faults = { λ _. 0 };

    fn put(&mut self, piece: &[u8]) -> Result<u64, SinkFailed> {
        let _ = self.offered.push(piece.len());
        Ok(piece.len().min(TAKEN) as u64)
    }
}

// The report has 138,906 bytes: `u 1 fresh`, the replies 2 to 10,000, each `u I was 10`, one pair, and `end`.
#[test]
fn offers_all_that_is_left_or_the_next_65536_bytes(rt: HostRuntime) -> Result<(), Fail> {
    let alloc = rt.alloc();
    let mut text = String::new(alloc);
    for _ in 0..10_000 {
        text.push_str("set 7 10\n")?;
    }
    let words = owned(alloc, &["table", "u", "q"])?;
    let mut shelf = MemShelf::new(shelved(alloc, &[text.as_str(), ""])?, Vec::new(alloc));
    let offered = Vec::new(alloc);
    let mut sink = NotingSink { offered };
    let outcome = run(&rt, alloc, &words, &mut shelf, &mut sink, &OpenGate);
    assert_eq!(rt; outcome, Outcome::Done);
    assert_eq!(rt;
        sink.offered.as_slice(),
        [65536usize, 65536, 58906, 18906].as_slice()
    );
    Ok(())
}

// A sink that takes all, and notes at each put how many lines have run.
#[derive(Drop)]
struct WatchingSink<'a> {
    gate: &'a NotingGate,
    lines: Vec<u64>,
}

impl Sink for WatchingSink<'_> {
    ghost use Rattle.std.specs.Prelude.{None};

    ghost taken = { λ _. None };

    ghost faults = { λ _. 0 };

    fn put(&mut self, piece: &[u8]) -> Result<u64, SinkFailed> {
        let _ = self.lines.push(self.gate.calls.load(SeqCst));
        Ok(piece.len() as u64)
    }
}

#[test]
fn puts_nothing_before_the_last_line_has_run(rt: HostRuntime) -> Result<(), Fail> {
    let alloc = rt.alloc();
    let gate = NotingGate::new(alloc, 20)?;
    let words = owned(alloc, &["table", "u", "q", "r"])?;
    let mut shelf = MemShelf::new(shelved(alloc, GATED)?, Vec::new(alloc));
    let lines = Vec::new(alloc);
    let mut sink = WatchingSink { gate: &gate, lines };
    let outcome = run(&rt, alloc, &words, &mut shelf, &mut sink, &gate);
    assert_eq!(rt; outcome, Outcome::Done);
    assert_eq!(rt; sink.lines.as_slice(), [7u64].as_slice());
    Ok(())
}
