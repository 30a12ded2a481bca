use crate::judge;
use ck_history::Key;
use ck_report::read_map_report;
use ck_script::{LineList, Lines, Numbered, UpLine, check_ranges, read_queries, read_updates};
use std::alloc::{AllocError, Global};
use std::test::Fail;

// The verdict on a report of one query file, printed. A line `hold 1 1` stands before the update of line `held`, if there
// is one.
pub(crate) fn verdict_text(
    alloc: Global,
    updates: &[u8],
    held: Option<u64>,
    queries: &[u8],
    report: &[u8],
) -> Result<String, Fail> {
    let read = read_updates::<Key>(alloc, updates)?;
    let mut ups = Lines::new(alloc);
    for i in 0..read.len() {
        let line = read.get(i);
        if held == Some(line.line) {
            ups.push(Numbered {
                line: line.line,
                what: UpLine::Hold { file: 1, n: 1 },
            })?;
        }
        ups.push(line)?;
    }
    let mut asks = Vec::new(alloc);
    asks.push(read_queries::<Key>(alloc, queries)?)?;
    if let Some(_) = check_ranges(&ups, &asks) {
        return Ok(String::from_str(alloc, "beyond")?);
    }
    let report = read_map_report::<Key>(alloc, report)?;
    let verdict = judge(alloc, &ups, &asks, &report, 65536)?;
    Ok(format!(in alloc; "{verdict:?}")?)
}

const TWICE: &[u8] = b"set 1 10\nset 1 20\n";

const WAITING: &[u8] = b"wait 1\nget 1\nwait 2\nget 1\n";

#[test]
fn worked_reports_have_their_verdicts(rt: HostRuntime) -> Result<(), Fail> {
    let once: &[u8] = b"set 7 10\n";
    let after: &[u8] = b"wait 1\nget 7\n";
    let any: &[u8] = b"get 7\n";
    let cases: [(&[u8], &[u8], &[u8], &str); 7] = [
        (
            TWICE,
            WAITING,
            b"u 1 fresh\nu 2 was 10\nq 1 1 1 = 10\nq 1 2 1 = 20\nt 1 = 20\nend\n",
            "Legal { least: [Places { places: [1, 2] }] }",
        ),
        (
            TWICE,
            WAITING,
            b"u 1 fresh\nu 2 was 10\nq 1 1 1 = 10\nq 1 2 1 = 10\nt 1 = 20\nend\n",
            "Place { file: 1, query: 2 }",
        ),
        (
            once,
            after,
            b"u 1 was 3\nq 1 1 7 = 10\nt 7 = 10\nend\n",
            "Reply { at: 1 }",
        ),
        (
            once,
            after,
            b"u 1 fresh\nq 1 1 7 = 10\nt 7 = 11\nend\n",
            "Table { at: 1 }",
        ),
        (
            once,
            any,
            b"u 1 fresh\nq 1 1 7 = 10\nt 7 = 10\nend\n",
            "Legal { least: [Places { places: [1] }] }",
        ),
        (
            once,
            any,
            b"u 1 fresh\nq 1 1 7 absent\nt 7 = 10\nend\n",
            "Legal { least: [Places { places: [0] }] }",
        ),
        (
            once,
            any,
            b"u 1 fresh\nq 1 1 7 = 11\nt 7 = 10\nend\n",
            "Place { file: 1, query: 1 }",
        ),
    ];
    for (updates, queries, report, text) in cases {
        let found = verdict_text(rt.alloc(), updates, Some(2), queries, report)?;
        assert_eq!(rt; found.as_str(), text);
    }
    Ok(())
}

// each report has one fault
#[test]
fn each_fault_has_its_verdict(rt: HostRuntime) -> Result<(), Fail> {
    let cases: [(&[u8], &str); 12] = [
        (
            b"u 1 fresh\nq 1 1 1 = 10\nq 1 2 1 = 20\nt 1 = 20\nend\n",
            "Reply { at: 2 }",
        ),
        (
            b"u 1 fresh\nu 2 was 11\nq 1 1 1 = 10\nq 1 2 1 = 20\nt 1 = 20\nend\n",
            "Reply { at: 2 }",
        ),
        (
            b"u 1 fresh\nu 2 was 10\nu 3 missing\nq 1 1 1 = 10\nq 1 2 1 = 20\nt 1 = 20\nend\n",
            "Reply { at: 3 }",
        ),
        (
            b"u 1 fresh\nu 2 was 10\nq 1 1 1 = 10\nt 1 = 20\nend\n",
            "Place { file: 1, query: 2 }",
        ),
        (
            b"u 1 fresh\nu 2 was 10\nt 1 = 20\nend\n",
            "Place { file: 1, query: 1 }",
        ),
        (
            b"u 1 fresh\nu 2 was 10\nq 1 1 1 = 10\nq 1 2 1 = 20\nq 1 3 1 = 20\nt 1 = 20\nend\n",
            "Place { file: 1, query: 3 }",
        ),
        (
            b"u 1 fresh\nu 2 was 10\nq 1 1 1 = 10\nq 1 2 1 = 20\nq 3 1 1 = 20\nt 1 = 20\nend\n",
            "Place { file: 3, query: 1 }",
        ),
        (
            b"u 1 fresh\nu 2 was 10\nq 1 1 2 = 10\nq 1 2 1 = 20\nt 1 = 20\nend\n",
            "Place { file: 1, query: 1 }",
        ),
        (
            b"u 1 fresh\nu 2 was 10\nq 1 1 1 = 20\nq 1 2 1 = 20\nt 1 = 20\nend\n",
            "Place { file: 1, query: 1 }",
        ),
        (
            b"u 1 fresh\nu 2 was 10\nq 1 1 1 = 10\nq 1 2 1 = 20\nend\n",
            "Table { at: 1 }",
        ),
        (
            b"u 1 fresh\nu 2 was 10\nq 1 1 1 = 10\nq 1 2 1 = 20\nt 1 = 20\nt 2 = 20\nend\n",
            "Table { at: 2 }",
        ),
        (
            b"u 1 fresh\nu 2 was 10\nq 1 1 1 = 10\nq 1 2 1 = 20\nt 1 = 10\nend\n",
            "Table { at: 1 }",
        ),
    ];
    for (report, text) in cases {
        let found = verdict_text(rt.alloc(), TWICE, Some(2), WAITING, report)?;
        assert_eq!(rt; found.as_str(), text);
    }
    Ok(())
}
