//! Summaries of generated runs.
use super::ran_with_faults;
use crate::{Outcome, make};
use std::alloc::{AllocError, Global};
use std::sync::Wait;
use std::test::Fail;
use std::thread::Threads;

// A seed and a number of lines, and the text of their summary.
const SUMMARIES: &[(&str, &str, &str)] = &[
    (
        "5",
        "0",
        "made 0\nfresh 0\nwas 0\nhas 0\nmissing 0\nfound 0\nabsent 0\nkeys 0\nsum 0\nend\n",
    ),
    (
        "0",
        "1",
        "made 1\nfresh 1\nwas 0\nhas 0\nmissing 0\nfound 0\nabsent 1\nkeys 1\nsum 160026932984690918\nend\n",
    ),
    (
        "7",
        "20000",
        "made 20000\nfresh 12931\nwas 2008\nhas 652\nmissing 4409\nfound 14955\nabsent 5045\nkeys 12265\nsum 1428571058952938657\nend\n",
    ),
];

// What a run of `make` puts, where the calls of the sink with these numbers fail.
fn made<R: Threads + Wait + Sync>(
    rt: &R,
    alloc: Global,
    seed: &str,
    lines: &str,
    fails: Vec<u64>,
) -> Result<(Outcome, Vec<u8>), AllocError> {
    let words = ["make", seed, lines];
    ran_with_faults(
        rt,
        alloc,
        &words,
        Vec::new(alloc),
        Vec::new(alloc),
        50,
        fails,
    )
}

#[test]
fn puts_summaries(rt: HostRuntime) -> Result<(), Fail> {
    let alloc = rt.alloc();
    for (seed, lines, text) in SUMMARIES {
        let (outcome, taken) = made(&rt, alloc, seed, lines, Vec::new(alloc))?;
        assert_eq!(rt; outcome, Outcome::Done);
        assert_eq!(rt; taken.as_slice(), text.as_bytes());
    }
    Ok(())
}

#[test]
fn a_summary_stops_at_a_fault(rt: HostRuntime) -> Result<(), Fail> {
    let alloc = rt.alloc();
    let (seed, lines, text) = SUMMARIES[1];
    let fails = vec![in alloc; 2u64]?;
    let (outcome, taken) = made(&rt, alloc, seed, lines, fails)?;
    assert_eq!(rt; outcome, Outcome::WriteFault);
    assert_eq!(rt; taken.as_slice(), &text.as_bytes()[..50]);
    Ok(())
}

// The summary was computed elsewhere, by a program of a few lines.
const LARGE: &str =
    "made 200000\nfresh 65263\nwas 84856\nhas 28071\nmissing 21810\nfound 150397\nabsent 49603\nkeys 36875\nsum 10333317909888161561\nend\n";

#[test]
fn a_large_summary(rt: HostRuntime) -> Result<(), Fail> {
    let text = make(&rt, rt.alloc(), 7, 200_000)?;
    assert_eq!(rt; text.as_slice(), LARGE.as_bytes());
    Ok(())
}
