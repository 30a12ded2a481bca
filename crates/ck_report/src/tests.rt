use crate::{Asked, ReportError, View, put_list_report, read_map_report, report_list, report_map};
use ck_history::{EditReply, Key, Reply};
use ck_io::MemSink;
use std::alloc::{AllocError, Global};
use std::test::Fail;

fn key(number: u128) -> Result<Key, Fail> {
    Ok(Key::new(number).ok_or("a key")?)
}

// The answers of two files, of which the first asks nothing.
fn second_file(alloc: Global, asked: &[Asked<Key>]) -> Result<Vec<Vec<Asked<Key>>>, AllocError> {
    let mut files = Vec::new(alloc);
    files.push(Vec::new(alloc))?;
    files.push(Vec::from_slice(alloc, asked)?)?;
    Ok(files)
}

#[test]
fn each_line_is_printed(rt: HostRuntime) -> Result<(), Fail> {
    let replies = [
        Reply::Fresh,
        Reply::Was(0),
        Reply::Has(18446744073709551615),
        Reply::Missing,
        Reply::Tidied,
        Reply::Full,
    ];
    let (seven, largest) = (key(7)?, key(340282366920938463463374607431768211454)?);
    let asked = [
        Asked {
            key: seven,
            found: Some(10),
        },
        Asked {
            key: largest,
            found: None,
        },
    ];
    let answers = second_file(rt.alloc(), &asked)?;
    let pairs = [(seven, 10), (largest, 0)];
    let text = report_map(rt.alloc(), &replies, &answers, &pairs)?;
    let lines =
        b"u 1 fresh\nu 2 was 0\nu 3 has 18446744073709551615\nu 4 missing\nu 5 tidied\nu 6 full\n\
q 2 1 7 = 10\nq 2 2 340282366920938463463374607431768211454 absent\n\
t 7 = 10\nt 340282366920938463463374607431768211454 = 0\nend\n";
    assert_eq!(rt; text.as_slice(), lines.as_slice());
    Ok(())
}

#[test]
fn the_parts_are_read(rt: HostRuntime) -> Result<(), Fail> {
    let text = b"u 1 fresh\nq 1 1 7 = 10\nq 3 1 7 absent\nt 7 = 10\nend\n";
    let report = read_map_report(rt.alloc(), text.as_slice())?;
    let seven = key(7)?;
    assert_eq!(rt; report.replies.as_slice(), [Reply::Fresh].as_slice());
    assert_eq!(rt; report.pairs.as_slice(), [(seven, 10)].as_slice());
    assert_eq!(rt; report.answers.len(), 2);
    for ((file, answers), (number, found)) in report
        .answers
        .iter()
        .zip([(1, Some(10)), (3, None)])
    {
        assert_eq!(rt; *file, number);
        assert_eq!(rt;
            answers.as_slice(),
            [Asked { key: seven, found }].as_slice()
        );
    }
    Ok(())
}

// The line of the fault, or 0 for a report.
fn fault_line(alloc: Global, text: &[u8]) -> Result<u64, ReportError> {
    match read_map_report::<Key>(alloc, text) {
        Ok(_) => Ok(0),
        Err(ReportError::Fault { line }) => Ok(line),
        Err(ReportError::Memory) => Err(ReportError::Memory),
    }
}

const TEXTS: &[(&[u8], u64)] = &[
    (b"u 1 fresh\nq 1 1 7 = 10\nt 7 = 10\nend\n", 0),
    (b"u 1 fresh\nq 1 1 7 = 10\n", 3),
    (b"q 1 1 7 = 10\nu 1 fresh\nt 7 = 10\nend\n", 2),
    (b"", 1),
    (b"end\n", 0),
    (b"end", 1),
    (b"u 1 fresh\nend", 2),
    (b"end\nend\n", 2),
    (b"end\n\n", 2),
    (b"u 0 fresh\nend\n", 1),
    (b"u 1 fresh\nu 3 fresh\nend\n", 2),
    (b"u 01 fresh\nend\n", 1),
    (b"u 1  fresh\nend\n", 1),
    (b"u 1 fresh \nend\n", 1),
    (b"u 1 fresh\r\nend\n", 1),
    (b"u 1 was\nend\n", 1),
    (b"u 1 was 18446744073709551615\nend\n", 0),
    (b"u 1 was 18446744073709551616\nend\n", 1),
    (b"q 64 1 7 absent\nend\n", 0),
    (b"q 65 1 7 absent\nend\n", 1),
    (b"q 0 1 7 absent\nend\n", 1),
    (b"q 1 2 7 absent\nend\n", 1),
    (b"q 2 1 7 absent\nq 1 1 7 absent\nend\n", 2),
    (b"q 1 1 7 absent\nq 1 2 7 absent\nq 1 2 7 absent\nend\n", 3),
    (b"t 9 = 1\nt 10 = 1\nend\n", 0),
    (b"t 10 = 1\nt 9 = 1\nend\n", 2),
    (b"t 7 = 1\nt 7 = 1\nend\n", 2),
    (b"t 7 absent\nend\n", 1),
    (b"t 0 = 1\nend\n", 1),
    (b"t 7 = 1\nq 1 1 7 = 1\nend\n", 2),
];

#[test]
fn the_first_fault_is_named(rt: HostRuntime) -> Result<(), Fail> {
    for (text, line) in TEXTS {
        assert_eq!(rt; fault_line(rt.alloc(), text)?, *line);
    }
    Ok(())
}

fn view(alloc: Global, members: &[u64]) -> Result<View, AllocError> {
    Ok(View {
        members: Vec::from_slice(alloc, members)?,
    })
}

#[test]
fn each_line_of_a_list_is_put(rt: HostRuntime) -> Result<(), Fail> {
    let alloc = rt.alloc();
    let replies = [
        EditReply::Added,
        EditReply::Full,
        EditReply::Dropped,
        EditReply::Missing,
        EditReply::Committed,
    ];
    let mut first = Vec::new(alloc);
    first.push(view(alloc, &[])?)?;
    first.push(view(alloc, &[7, 0, 18446744073709551615])?)?;
    let mut third = Vec::new(alloc);
    third.push(view(alloc, &[5])?)?;
    let answers = [first, Vec::new(alloc), third];
    let mut sink = MemSink::new(alloc, 1000, 1000, Vec::new(alloc))?;
    put_list_report(&rt, alloc, 1, &mut sink, &replies, &answers, &[5, 6])?;
    let lines = b"u 1 added\nu 2 full\nu 3 dropped\nu 4 missing\nu 5 committed\n\
q 1 1 empty\nq 1 2 = 7 0 18446744073709551615\nq 3 1 = 5\n\
t 5\nt 6\nend\n";
    assert_eq!(rt; sink.bytes(), lines.as_slice());
    let text = report_list(alloc, &replies, &answers, &[5, 6])?;
    assert_eq!(rt; text.as_slice(), lines.as_slice());
    Ok(())
}
