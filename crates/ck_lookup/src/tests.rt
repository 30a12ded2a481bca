//! Whole runs over a shelf and a sink in memory.
ghost use Rattle.std.specs.Prelude.{◌≤◌};

use crate::{Outcome, exit_code, line_of, run};
use ck_io::{Gate, MemShelf, MemSink, OpenGate, Shelf, ShelfError};
use ck_script::Why;
use std::alloc::{AllocError, Global};
use std::process::ExitCode;
use std::sync::Wait;
use std::sync::atomic::AtomicU64;
use std::sync::atomic::Ordering::SeqCst;
use std::test::Fail;
use std::thread::Threads;

mod judge;
mod lists;
mod make;
mod puts;
mod threads;

// Runs words over files into a sink.
fn ran_into<R: Threads + Wait + Sync>(
    rt: &R,
    alloc: Global,
    words: &[&str],
    files: Vec<(String, Vec<u8>)>,
    shelf_fails: Vec<u64>,
    sink: &mut MemSink,
) -> Result<Outcome, AllocError> {
    let words = owned(alloc, words)?;
    let mut shelf = MemShelf::new(files, shelf_fails);
    Ok(run(rt, alloc, &words, &mut shelf, sink, &OpenGate))
}

// The words as `run` takes them.
fn owned(alloc: Global, words: &[&str]) -> Result<Vec<String>, AllocError> {
    let mut list = Vec::new(alloc);
    for word in words {
        list.push(String::from_str(alloc, word)?)?;
    }
    Ok(list)
}

// The same into a sink with room for every report here, which takes at most `most` bytes a call. Gives the outcome and what the sink took.
fn ran_with_faults<R: Threads + Wait + Sync>(
    rt: &R,
    alloc: Global,
    words: &[&str],
    files: Vec<(String, Vec<u8>)>,
    shelf_fails: Vec<u64>,
    most: u64,
    sink_fails: Vec<u64>,
) -> Result<(Outcome, Vec<u8>), AllocError>
    requires { 1 ≤ most }
{
    let mut sink = MemSink::new(alloc, 4000000, most, sink_fails)?;
    let outcome = ran_into(rt, alloc, words, files, shelf_fails, &mut sink)?;
    let taken = Vec::from_slice(alloc, sink.bytes())?;
    Ok((outcome, taken))
}

// `ran_with_faults` where nothing fails.
fn ran<R: Threads + Wait + Sync>(
    rt: &R,
    alloc: Global,
    words: &[&str],
    files: Vec<(String, Vec<u8>)>,
) -> Result<(Outcome, Vec<u8>), AllocError> {
    let (shelf_fails, sink_fails) = (Vec::new(alloc), Vec::new(alloc));
    ran_with_faults(rt, alloc, words, files, shelf_fails, 65536, sink_fails)
}

// Files under one-letter names, from u on.
fn shelved(alloc: Global, texts: &[&str]) -> Result<Vec<(String, Vec<u8>)>, AllocError> {
    let mut files = Vec::new(alloc);
    for (name, text) in ["u", "q", "r", "s", "t"].iter().zip(texts.iter()) {
        files.push((
            String::from_str(alloc, name)?,
            Vec::from_slice(alloc, text.as_bytes())?,
        ))?;
    }
    Ok(files)
}

// Scripts of one update file and of one or two query files, and what a run of them puts.
const REPORTS: &[(&[&str], &str)] = &[
    (&["", "get 7\n"], "q 1 1 7 absent\nend\n"),
    (
        &["set 7 10\n", "wait 1\nget 7\n"],
        "u 1 fresh\nq 1 1 7 = 10\nt 7 = 10\nend\n",
    ),
    (
        &["put 1 5\nput 1 6\ntidy\n", ""],
        "u 1 fresh\nu 2 has 5\nu 3 tidied\nt 1 = 5\nend\n",
    ),
    (
        &[
            "set 1 10\nhold 1 1\nset 1 20\n",
            "wait 1\nget 1\nwait 2\nget 1\n",
        ],
        "u 1 fresh\nu 2 was 10\nq 1 1 1 = 10\nq 1 2 1 = 20\nt 1 = 20\nend\n",
    ),
    (
        &[
            "set 1 5\nhold 1 1\ndel 1\n",
            "wait 1\nget 1\nwait 2\nget 1\n",
        ],
        "u 1 fresh\nu 2 was 5\nq 1 1 1 = 5\nq 1 2 1 absent\nend\n",
    ),
    (&["set 1 5", ""], "u 1 fresh\nt 1 = 5\nend\n"),
    (
        &[
            "set 340282366920938463463374607431768211454 3\nset 18446744073709551616 2\nset 18446744073709551615 1\n",
            "",
        ],
        "u 1 fresh\nu 2 fresh\nu 3 fresh\nt 18446744073709551615 = 1\nt 18446744073709551616 = 2\nt 340282366920938463463374607431768211454 = 3\nend\n",
    ),
    (
        &["del 9\nset 9 1\nset 9 1", ""],
        "u 1 missing\nu 2 fresh\nu 3 was 1\nt 9 = 1\nend\n",
    ),
    (
        &[
            "set 18446744073709551616 5\nset 1 6\n",
            "wait 2\nget 18446744073709551616\nget 1\n",
        ],
        "u 1 fresh\nu 2 fresh\nq 1 1 18446744073709551616 = 5\nq 1 2 1 = 6\nt 1 = 6\nt 18446744073709551616 = 5\nend\n",
    ),
];

#[test]
fn prints_reports(rt: HostRuntime) -> Result<(), Fail> {
    let alloc = rt.alloc();
    for (texts, report) in REPORTS {
        let (outcome, taken) = ran(&rt, alloc, &["table", "u", "q"], shelved(alloc, texts)?)?;
        assert_eq!(rt; outcome, Outcome::Done);
        assert_eq!(rt; taken.as_slice(), report.as_bytes());
    }
    Ok(())
}

// Scripts that are refused, and how.
const REFUSED: &[(&[&str], Outcome)] = &[
    (
        &["set 0 1\n", ""],
        Outcome::BadScript {
            file: 0,
            line: 1,
            why: Why::Key,
        },
    ),
    (
        &["set 1 1\n\nset 1 5\r\n", ""],
        Outcome::BadScript {
            file: 0,
            line: 3,
            why: Why::Number,
        },
    ),
    (
        &["set 340282366920938463463374607431768211455 1\n", ""],
        Outcome::BadScript {
            file: 0,
            line: 1,
            why: Why::Key,
        },
    ),
    (
        &["set 340282366920938463463374607431768211456 1\n", ""],
        Outcome::BadScript {
            file: 0,
            line: 1,
            why: Why::Number,
        },
    ),
    (
        &["set 1 1\n\r\n", ""],
        Outcome::BadScript {
            file: 0,
            line: 2,
            why: Why::Verb,
        },
    ),
    (
        &["set  1 5\n", ""],
        Outcome::BadScript {
            file: 0,
            line: 1,
            why: Why::Shape,
        },
    ),
    (
        &["set 1 1\n", "get 1\nget\n"],
        Outcome::BadScript {
            file: 1,
            line: 2,
            why: Why::Shape,
        },
    ),
    (
        &["set 1 1\nset 2 2\nset 3 3\n", "wait 4\n"],
        Outcome::BadScript {
            file: 1,
            line: 1,
            why: Why::Beyond,
        },
    ),
    (
        &["hold 2 1\n", "get 1\n"],
        Outcome::BadScript {
            file: 0,
            line: 1,
            why: Why::Beyond,
        },
    ),
    (
        &["hold 1 1\nset 1 10\n", "wait 1\nget 1\n"],
        Outcome::BadScript {
            file: 0,
            line: 1,
            why: Why::Circle,
        },
    ),
    (
        &[
            "set 1 10\nhold 1 2\nset 1 20\n",
            "wait 1\nget 1\nwait 2\nget 1\n",
        ],
        Outcome::BadScript {
            file: 0,
            line: 2,
            why: Why::Circle,
        },
    ),
    (
        &["hold 1 1\nset 1 10\n", "wait 1\nget 1\nwait 2\n"],
        Outcome::BadScript {
            file: 1,
            line: 3,
            why: Why::Beyond,
        },
    ),
    (&["set 1 1\n"], Outcome::ReadFault { file: 1 }),
];

#[test]
fn refuses_with_the_cause(rt: HostRuntime) -> Result<(), Fail> {
    let alloc = rt.alloc();
    for (texts, refusal) in REFUSED {
        let (outcome, taken) = ran(&rt, alloc, &["table", "u", "q"], shelved(alloc, texts)?)?;
        assert_eq!(rt; outcome, *refusal);
        assert!(rt; taken.is_empty());
    }
    let line = line_of(
        alloc,
        &Outcome::BadScript {
            file: 0,
            line: 1,
            why: Why::Circle,
        },
    )?;
    assert_eq!(rt; line.as_str(), "lookup: file 0 line 1: circle");
    Ok(())
}

// Scripts that several tasks read, since the update file is large, and the outcome.
const LARGE: &[(&[&str], Outcome)] = &[
    (&["set 7 10\n", "get 7\n", "get 8\n"], Outcome::Done),
    (
        &["set 0 1\n", "get\n", "get 8\n"],
        Outcome::BadScript {
            file: 0,
            line: 2,
            why: Why::Key,
        },
    ),
    (
        &["set 7 10\n", "get 7\nget\n", "got 8\n"],
        Outcome::BadScript {
            file: 1,
            line: 2,
            why: Why::Shape,
        },
    ),
    (
        &["set 7 10\n", "get 7\n", "wait 2\n"],
        Outcome::BadScript {
            file: 2,
            line: 1,
            why: Why::Beyond,
        },
    ),
];

#[test]
fn large_files_are_read_side_by_side(rt: HostRuntime) -> Result<(), Fail> {
    let alloc = rt.alloc();
    for (texts, expected) in LARGE {
        let mut files = shelved(alloc, texts)?;
        let mut updates = Vec::new(alloc);
        for _ in 0..131_072 {
            updates.push(b'#')?;
        }
        updates.push(b'\n')?;
        updates.extend_from_slice(texts[0].as_bytes())?;
        assert!(rt; !files.is_empty());
        files[0] = (String::from_str(alloc, "u")?, updates);
        let (outcome, taken) = ran(
            &rt,
            alloc,
            &["table", "--workers", "2", "u", "q", "r"],
            files,
        )?;
        assert_eq!(rt; outcome, *expected);
        assert_eq!(rt; taken.is_empty(), *expected != Outcome::Done);
    }
    Ok(())
}

#[test]
fn puts_nothing_for_words_that_are_not_of_the_form(rt: HostRuntime) -> Result<(), Fail> {
    let alloc = rt.alloc();
    let cases: [&[&str]; 4] = [&[], &["table", "u"], &["make", "1"], &["judge", "u", "q"]];
    for words in cases {
        let files = shelved(alloc, &["set 7 10\n", "get 7\n"])?;
        let fails = vec![in alloc; 1u64]?;
        let (outcome, taken) = ran_with_faults(
            &rt,
            alloc,
            words,
            files,
            fails,
            65536,
            Vec::new(alloc),
        )?;
        assert_eq!(rt; outcome, Outcome::Usage);
        assert!(rt; taken.is_empty());
    }
    let line = line_of(alloc, &Outcome::Usage)?;
    assert_eq!(rt;
        line.as_str(),
        "usage: lookup table|names|list [--seed N] [--workers N] [--fold] UPDATES QUERY.."
    );
    Ok(())
}

// Two query files, and the report of 88 bytes.
const TWO: &[&str] = &[
    "set 80 1\nset 443 2\ndel 80\n",
    "wait 3\nget 80\nget 443\n",
    "wait 3\nget 443\n",
];

const TWO_REPORT: &[u8] =
    b"u 1 fresh\nu 2 fresh\nu 3 was 1\nq 1 1 80 absent\nq 1 2 443 = 2\nq 2 1 443 = 2\nt 443 = 2\nend\n";

#[test]
fn answers_two_files(rt: HostRuntime) -> Result<(), Fail> {
    let alloc = rt.alloc();
    for workers in ["--workers=1", "--workers=2", "--workers=16"] {
        let words = ["table", workers, "u", "q", "r"];
        let (outcome, taken) = ran(&rt, alloc, &words, shelved(alloc, TWO)?)?;
        assert_eq!(rt; outcome, Outcome::Done);
        assert_eq!(rt; taken.as_slice(), TWO_REPORT);
    }
    Ok(())
}

#[test]
fn names_the_file_that_fails(rt: HostRuntime) -> Result<(), Fail> {
    let alloc = rt.alloc();
    for call in 1..4u64 {
        let files = shelved(alloc, TWO)?;
        let fails = vec![in alloc; call]?;
        let (outcome, taken) = ran_with_faults(
            &rt,
            alloc,
            &["table", "u", "q", "r"],
            files,
            fails,
            65536,
            Vec::new(alloc),
        )?;
        assert_eq!(rt; outcome, Outcome::ReadFault { file: call - 1 });
        assert!(rt; taken.is_empty());
    }
    Ok(())
}

// The sink takes 7 bytes a call: the report needs 13 calls, and each of them may fail.
#[test]
fn keeps_what_was_put_before_a_fault(rt: HostRuntime) -> Result<(), Fail> {
    let alloc = rt.alloc();
    for call in 1..15usize {
        let files = shelved(alloc, TWO)?;
        let fails = vec![in alloc; call as u64]?;
        let (outcome, taken) = ran_with_faults(
            &rt,
            alloc,
            &["table", "u", "q", "r"],
            files,
            Vec::new(alloc),
            7,
            fails,
        )?;
        if call < 14 {
            assert_eq!(rt; outcome, Outcome::WriteFault);
            assert_eq!(rt; taken.as_slice(), &TWO_REPORT[..(call - 1) * 7]);
        } else {
            assert_eq!(rt; outcome, Outcome::Done);
            assert_eq!(rt; taken.as_slice(), TWO_REPORT);
        }
    }
    Ok(())
}

#[test]
fn keeps_the_five_bytes_that_a_small_sink_took(rt: HostRuntime) -> Result<(), Fail> {
    let alloc = rt.alloc();
    let files = shelved(alloc, &["set 7 10\n", "get 7\n"])?;
    let fails = vec![in alloc; 2u64]?;
    let mut sink = MemSink::new(alloc, 100, 5, fails)?;
    let words = ["table", "u", "q"];
    let outcome = ran_into(&rt, alloc, &words, files, Vec::new(alloc), &mut sink)?;
    assert_eq!(rt; outcome, Outcome::WriteFault);
    assert_eq!(rt; sink.bytes(), b"u 1 f".as_slice());
    Ok(())
}

#[test]
fn refuses_files_past_a_limit(rt: HostRuntime) -> Result<(), Fail> {
    let alloc = rt.alloc();
    for (byte, count) in [(b'#', 33554433usize), (b'\n', 1000001)] {
        let mut files = Vec::new(alloc);
        files.push((String::from_str(alloc, "u")?, vec![in alloc; byte; count]?))?;
        let (outcome, taken) = ran(&rt, alloc, &["table", "u", "q"], files)?;
        assert_eq!(rt; outcome, Outcome::TooLarge { file: 0 });
        assert!(rt; taken.is_empty());
    }
    Ok(())
}

// 262,144 keys fill the table.
#[test]
fn fills_the_table(rt: HostRuntime) -> Result<(), Fail> {
    let alloc = rt.alloc();
    let mut text = String::new(alloc);
    for k in 1..262145u32 {
        text.push_str(format!(in alloc; "set {k} {k}\n")?.as_str())?;
    }
    text.push_str("set 700000 1\nset 1 9\n")?;
    let files = shelved(alloc, &[text.as_str(), ""])?;
    let mut sink = MemSink::new(alloc, 16000000, 65536, Vec::new(alloc))?;
    let words = ["table", "u", "q"];
    let outcome = ran_into(&rt, alloc, &words, files, Vec::new(alloc), &mut sink)?;
    assert_eq!(rt; outcome, Outcome::Done);
    let report = String::from_utf8(Vec::from_slice(alloc, sink.bytes())?)?;
    assert!(rt;
        report
            .as_str()
            .contains("\nu 262145 full\nu 262146 was 1\nt 1 = 9\nt 2 = 2\n")
    );
    assert!(rt; report.as_str().ends_with("\nt 262144 = 262144\nend\n"));
    Ok(())
}

// A gate that notes the file and the line of each call.
#[derive(Drop)]
struct NotingGate {
    calls: AtomicU64,
    files: Vec<AtomicU64>,
    lines: Vec<AtomicU64>,
}

impl NotingGate {
    // Notes up to so many calls.
    fn new(alloc: Global, room: usize) -> Result<NotingGate, AllocError> {
        let mut files = Vec::new(alloc);
        let mut lines = Vec::new(alloc);
        for _ in 0..room {
            files.push(AtomicU64::new(0))?;
            lines.push(AtomicU64::new(0))?;
        }
        let calls = AtomicU64::new(0);
        Ok(NotingGate {
            calls,
            files,
            lines,
        })
    }

    // The lines of a file, in the order of the calls.
    fn lines_of(&self, alloc: Global, file: u64) -> Result<Vec<u64>, AllocError> {
        let mut lines = Vec::new(alloc);
        let calls = self.calls.load(SeqCst) as usize;
        for (noted, line) in self.files.iter().zip(self.lines.iter()).take(calls) {
            if noted.load(SeqCst) == file {
                lines.push(line.load(SeqCst))?;
            }
        }
        Ok(lines)
    }
}

impl Gate for NotingGate {
    fn before(&self, who: u64, line: u64) {
        let call = self.calls.fetch_add(1, SeqCst) as usize;
        if let (Some(file), Some(noted)) = (self.files.get(call), self.lines.get(call)) {
            file.store(who, SeqCst);
            noted.store(line, SeqCst);
        }
    }
}

// Files with blank lines and comments, and the numbers of the lines that run.
const GATED: &[&str] = &[
    "# two updates\nset 1 5\n\nset 2 6\n",
    "\nget 1\n# the second\nwait 2\nget 2",
    "wait 1\n\n\nget 2\n",
];

const GATED_LINES: &[&[u64]] = &[&[2, 4], &[2, 4, 5], &[1, 4]];

#[test]
fn calls_the_gate_once_before_each_line(rt: HostRuntime) -> Result<(), Fail> {
    let alloc = rt.alloc();
    let gate = NotingGate::new(alloc, 20)?;
    let words = owned(alloc, &["table", "u", "q", "r"])?;
    let mut shelf = MemShelf::new(shelved(alloc, GATED)?, Vec::new(alloc));
    let mut sink = MemSink::new(alloc, 1000, 1000, Vec::new(alloc))?;
    let outcome = run(&rt, alloc, &words, &mut shelf, &mut sink, &gate);
    assert_eq!(rt; outcome, Outcome::Done);
    assert_eq!(rt; gate.calls.load(SeqCst), 7);
    for (file, wanted) in GATED_LINES.iter().enumerate() {
        let lines = gate.lines_of(alloc, file as u64)?;
        assert_eq!(rt; lines.as_slice(), *wanted, "of file {file}");
    }
    Ok(())
}

// A shelf of empty files that notes the limit of each fetch.
#[derive(Drop)]
struct NotingShelf {
    limits: Vec<u64>,
}

impl Shelf for NotingShelf {
    ghost use Rattle.std.specs.Prelude.{Some, []};

    ghost held = { λ _ _. Some [] };

    ghost faults = { λ _ _. 0 };

    fn fetch(&mut self, alloc: Global, _name: &str, limit: u64) -> Result<Vec<u8>, ShelfError> {
        match self.limits.push(limit) {
            Ok(()) => Ok(Vec::new(alloc)),
            Err(_) => Err(ShelfError::Memory),
        }
    }
}

#[test]
fn fetches_each_file_with_the_limit_of_one(rt: HostRuntime) -> Result<(), Fail> {
    let alloc = rt.alloc();
    let words = owned(alloc, &["table", "u", "q", "r"])?;
    let limits = Vec::new(alloc);
    let mut shelf = NotingShelf { limits };
    let mut sink = MemSink::new(alloc, 1000, 1000, Vec::new(alloc))?;
    let outcome = run(&rt, alloc, &words, &mut shelf, &mut sink, &OpenGate);
    assert_eq!(rt; outcome, Outcome::Done);
    assert_eq!(rt; shelf.limits.as_slice(), [33554432u64; 3].as_slice());
    Ok(())
}

// All names that aren't held share one count, so no clause tells the first of them from the second.
#[test]
fn names_the_first_of_two_files_that_are_not_held(rt: HostRuntime) -> Result<(), Fail> {
    let alloc = rt.alloc();
    for (words, file) in [(["table", "v", "w", "u"], 0), (["table", "u", "v", "w"], 1)] {
        let (outcome, taken) = ran(&rt, alloc, &words, shelved(alloc, &["set 7 10\n"])?)?;
        assert_eq!(rt; outcome, Outcome::ReadFault { file });
        assert!(rt; taken.is_empty());
    }
    Ok(())
}

#[test]
fn ends_with_the_status(rt: HostRuntime) {
    assert!(rt; exit_code(&Outcome::Done) == ExitCode::SUCCESS);
    assert!(rt; exit_code(&Outcome::WriteFault) == ExitCode::from(7));
}
