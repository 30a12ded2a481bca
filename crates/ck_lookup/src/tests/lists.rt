//! Whole runs over lists.
use super::{ran, shelved};
use crate::Outcome;
use ck_script::Why;
use std::alloc::{AllocError, Global};
use std::sync::Wait;
use std::test::Fail;
use std::thread::Threads;

// What a run over a list comes to, and what it puts.
fn listed<R: Threads + Wait + Sync>(
    rt: &R,
    alloc: Global,
    texts: &[&str],
) -> Result<(Outcome, Vec<u8>), AllocError> {
    let words = ["list", "u", "q"];
    ran(rt, alloc, &words, shelved(alloc, texts)?)
}

// A line so many times, and then these.
fn lines(alloc: Global, line: &str, count: u32, last: &str) -> Result<String, AllocError> {
    let mut text = String::new(alloc);
    for _ in 0..count {
        text.push_str(line)?;
    }
    text.push_str(last)?;
    Ok(text)
}

#[test]
fn prints_the_committed_list(rt: HostRuntime) -> Result<(), Fail> {
    let alloc = rt.alloc();
    let updates = "add 3\nadd 4\ndrop 3\nhold 1 1\ncommit\n";
    let (outcome, taken) = listed(&rt, alloc, &[updates, "all\nwait 4\nall\n"])?;
    assert_eq!(rt; outcome, Outcome::Done);
    assert_eq!(rt;
        taken.as_slice(),
        b"u 1 added\nu 2 added\nu 3 dropped\nu 4 committed\nq 1 1 empty\nq 1 2 = 4\nt 4\nend\n".as_slice()
    );
    Ok(())
}

#[test]
fn fills_the_pending_list(rt: HostRuntime) -> Result<(), Fail> {
    let alloc = rt.alloc();
    let updates = lines(alloc, "add 0\n", 4097, "drop 1\n")?;
    let (outcome, taken) = listed(&rt, alloc, &[updates.as_str(), ""])?;
    assert_eq!(rt; outcome, Outcome::Done);
    let report = String::from_utf8(taken)?;
    assert!(rt;
        report
            .as_str()
            .ends_with("\nu 4096 added\nu 4097 full\nu 4098 missing\nend\n")
    );
    Ok(())
}

// 1,001 queries are one too many, and a `wait` for more than there is comes first.
#[test]
fn refuses_a_query_too_many(rt: HostRuntime) -> Result<(), Fail> {
    let alloc = rt.alloc();
    for (last, line, why) in [("", 1001, Why::Many), ("wait 1\n", 1002, Why::Beyond)] {
        let queries = lines(alloc, "all\n", 1001, last)?;
        let (outcome, taken) = listed(&rt, alloc, &["", queries.as_str()])?;
        assert_eq!(rt; outcome, Outcome::BadScript { file: 1, line, why });
        assert!(rt; taken.is_empty());
    }
    Ok(())
}
