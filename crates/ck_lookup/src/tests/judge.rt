//! Judgments on reports.
use super::{ran, ran_with_faults, shelved};
use crate::{Outcome, line_of};
use ck_script::Why;
use std::test::Fail;

const WORDS: &[&str] = &["judge", "table", "u", "q", "r"];

const TWICE: (&str, &str) = ("set 1 10\nset 1 20\n", "wait 1\nget 1\nwait 2\nget 1\n");

const ONCE: (&str, &str) = ("set 7 10\n", "wait 1\nget 7\n");

const HELD: (&str, &str) = ("set 1 10\nhold 1 1\nset 1 20\n", "get 1\n");

const ANY: (&str, &str) = ("set 7 10\n", "get 7\n");

// Scripts and a report, and the line and the outcome of the judgment on it.
const JUDGED: &[((&str, &str), &str, &str, Outcome)] = &[
    (
        TWICE,
        "u 1 fresh\nu 2 was 10\nq 1 1 1 = 10\nq 1 2 1 = 20\nt 1 = 20\nend\n",
        "legal\n",
        Outcome::Done,
    ),
    (
        TWICE,
        "u 1 fresh\nu 2 was 10\nq 1 1 1 = 10\nq 1 2 1 = 10\nt 1 = 20\nend\n",
        "place 1 2\n",
        Outcome::Illegal,
    ),
    (
        ONCE,
        "u 1 was 3\nq 1 1 7 = 10\nt 7 = 10\nend\n",
        "reply 1\n",
        Outcome::Illegal,
    ),
    (
        ONCE,
        "u 1 fresh\nq 1 1 7 = 10\nt 7 = 11\nend\n",
        "table 1\n",
        Outcome::Illegal,
    ),
    (
        ANY,
        "u 1 fresh\nq 1 1 7 = 10\nt 7 = 10\nend\n",
        "legal\n",
        Outcome::Done,
    ),
    (
        ANY,
        "u 1 fresh\nq 1 1 7 absent\nt 7 = 10\nend\n",
        "legal\n",
        Outcome::Done,
    ),
    (
        ANY,
        "u 1 fresh\nq 1 1 7 = 11\nt 7 = 10\nend\n",
        "place 1 1\n",
        Outcome::Illegal,
    ),
    (
        ONCE,
        "u 1 fresh\nq 1 1 7 = 10\nt 7 = 10\n",
        "",
        Outcome::BadReport { line: 4 },
    ),
    (
        ("hold 1 1\nset 1 10\n", "wait 1\nget 1\n"),
        "end\n",
        "",
        Outcome::BadScript {
            file: 0,
            line: 1,
            why: Why::Circle,
        },
    ),
    (
        HELD,
        "u 1 fresh\nu 2 was 10\nq 1 1 1 = 10\nt 1 = 20\nend\n",
        "legal\n",
        Outcome::Done,
    ),
    (
        HELD,
        "u 1 fresh\nu 2 was 10\nq 1 1 1 = 20\nt 1 = 20\nend\n",
        "place 1 1\n",
        Outcome::Illegal,
    ),
    (
        ("", "wait 1\n"),
        "no report",
        "",
        Outcome::BadScript {
            file: 1,
            line: 1,
            why: Why::Beyond,
        },
    ),
];

#[test]
fn judges_reports(rt: HostRuntime) -> Result<(), Fail> {
    let alloc = rt.alloc();
    for ((updates, queries), report, line, judged) in JUDGED {
        let (outcome, taken) = ran(
            &rt,
            alloc,
            WORDS,
            shelved(alloc, &[updates, queries, report])?,
        )?;
        assert_eq!(rt; outcome, *judged, "of {report}");
        assert_eq!(rt; taken.as_slice(), line.as_bytes());
    }
    let line = line_of(alloc, &Outcome::BadReport { line: 4 })?;
    assert_eq!(rt; line.as_str(), "lookup: report line 4");
    let line = line_of(alloc, &Outcome::Illegal)?;
    assert_eq!(rt; line.as_str(), "lookup: not legal");
    Ok(())
}

// The report is fetched last, and counts as the other files do.
#[test]
fn a_report_is_a_file_too(rt: HostRuntime) -> Result<(), Fail> {
    let alloc = rt.alloc();
    let (updates, queries) = ONCE;
    let (outcome, _) = ran(&rt, alloc, WORDS, shelved(alloc, &[updates, queries])?)?;
    assert_eq!(rt; outcome, Outcome::ReadFault { file: 2 });
    let mut files = shelved(alloc, &[updates, queries])?;
    let long = vec![in alloc; b'\n'; 1000001]?;
    files.push((String::from_str(alloc, "r")?, long))?;
    let (outcome, taken) = ran(&rt, alloc, WORDS, files)?;
    assert_eq!(rt; outcome, Outcome::TooLarge { file: 2 });
    assert!(rt; taken.is_empty());
    Ok(())
}

#[test]
fn a_verdict_stops_at_a_fault(rt: HostRuntime) -> Result<(), Fail> {
    let alloc = rt.alloc();
    let ((updates, queries), report, line, _) = JUDGED[1];
    let files = shelved(alloc, &[updates, queries, report])?;
    let fails = vec![in alloc; 2u64]?;
    let (outcome, taken) = ran_with_faults(&rt, alloc, WORDS, files, Vec::new(alloc), 4, fails)?;
    assert_eq!(rt; outcome, Outcome::WriteFault);
    assert_eq!(rt; taken.as_slice(), &line.as_bytes()[..4]);
    Ok(())
}
