use super::*;
use ck_history::{Edit, Key, Update};
use std::alloc::Global;
use std::mem::size_of;
use std::test::Fail;

// The fault of what was read, if it has one. There is ample memory.
fn fault_of<T: Drop>(read: Result<T, ScriptError>) -> Result<Option<(u64, Why)>, Fail> {
    match read {
        Ok(_) => Ok(None),
        Err(ScriptError::Fault(fault)) => Ok(Some((fault.line, fault.why))),
        Err(error) => Err(error)?,
    }
}

// The lines of these numbers, kept as the readers keep them.
fn numbered<L: CompactLine>(alloc: Global, said: &[(u64, L)]) -> Result<Lines<L>, Fail> {
    let mut lines = Lines::new(alloc);
    for (line, what) in said {
        lines.push(Numbered {
            line: *line,
            what: *what,
        })?;
    }
    Ok(lines)
}

// What is kept, line by line.
fn listed<L: CompactLine>(alloc: Global, lines: &Lines<L>) -> Result<Vec<Numbered<L>>, Fail> {
    let mut list = Vec::new(alloc);
    for i in 0..lines.len() {
        list.push(lines.get(i))?;
    }
    Ok(list)
}

#[test]
fn the_first_fault_of_update_files(rt: HostRuntime) -> Result<(), Fail> {
    let cases = [
        ("", None),
        ("set 1 2", None),
        ("set 18446744073709551615 18446744073709551615\n", None),
        ("set 18446744073709551616 0", None),
        ("set 340282366920938463463374607431768211454 1", None),
        (
            "set 340282366920938463463374607431768211455 1",
            Some((1, Why::Key)),
        ),
        (
            "set 340282366920938463463374607431768211456 1",
            Some((1, Why::Number)),
        ),
        ("set 0 1", Some((1, Why::Key))),
        ("set 1 18446744073709551616", Some((1, Why::Number))),
        ("del 07", Some((1, Why::Number))),
        ("set 1 00", Some((1, Why::Number))),
        ("set 1 2\nset", Some((2, Why::Shape))),
        ("set  1 2", Some((1, Why::Shape))),
        ("put 1 2 ", Some((1, Why::Shape))),
        ("tidy ", Some((1, Why::Shape))),
        ("put x", Some((1, Why::Shape))),
        ("put 0 x", Some((1, Why::Key))),
        ("put x 1", Some((1, Why::Number))),
        ("set 1 2\r\n", Some((1, Why::Number))),
        ("set 1 2\n\r\n", Some((2, Why::Verb))),
        (" tidy", Some((1, Why::Verb))),
        ("hold 1 1\nset 1 2\nhold 0 18446744073709551615", None),
        ("hold 1", Some((1, Why::Shape))),
        ("hold 1 1 1", Some((1, Why::Shape))),
        ("hold x 01", Some((1, Why::Number))),
        ("hold 1 18446744073709551616", Some((1, Why::Number))),
        ("hold 01 1", Some((1, Why::Number))),
        ("wait 1", Some((1, Why::Verb))),
        ("\n# set\n\nset 1 2\n#\ndel\nget 1", Some((6, Why::Shape))),
    ];
    for (text, want) in cases {
        let got = fault_of(read_updates::<Key>(rt.alloc(), text.as_bytes()))?;
        assert_eq!(rt; got, want, "{text}");
    }
    Ok(())
}

#[test]
fn the_first_fault_of_query_files(rt: HostRuntime) -> Result<(), Fail> {
    let cases = [
        ("get 1\nwait 0\nwait 18446744073709551615", None),
        ("wait 18446744073709551616", Some((1, Why::Number))),
        ("wait", Some((1, Why::Shape))),
        ("get 0", Some((1, Why::Key))),
        ("get 1 2", Some((1, Why::Shape))),
        ("#\n\nget 1\ntidy", Some((4, Why::Verb))),
    ];
    for (text, want) in cases {
        let got = fault_of(read_queries::<Key>(rt.alloc(), text.as_bytes()))?;
        assert_eq!(rt; got, want, "{text}");
    }
    Ok(())
}

#[test]
fn each_prefix_of_an_update_file(rt: HostRuntime) -> Result<(), Fail> {
    let bytes = b"set 80 1\nset 443 2\ndel 80\n".as_slice();
    let lawful = [0, 8, 9, 18, 19, 24, 25, 26];
    let verbs = [1, 2, 10, 11, 20, 21];
    let numbers = [7, 17, 23];
    for length in 0..bytes.len() + 1 {
        let line = if length < 10 {
            1
        } else if length < 20 {
            2
        } else {
            3
        };
        let want = if lawful.contains(&length) {
            None
        } else if verbs.contains(&length) {
            Some((line, Why::Verb))
        } else if numbers.contains(&length) {
            Some((line, Why::Number))
        } else {
            Some((line, Why::Shape))
        };
        let got = fault_of(read_updates::<Key>(rt.alloc(), &bytes[..length]))?;
        assert_eq!(rt; got, want, "{length} bytes");
    }
    Ok(())
}

#[test]
fn lines_have_their_numbers_and_keys_their_words(rt: HostRuntime) -> Result<(), Fail> {
    let key = Key::new(18446744073709551616).ok_or("key")?;
    let said = read_updates::<Key>(
        rt.alloc(),
        b"\n# 1\nset 18446744073709551616 2\n\ntidy".as_slice(),
    )?;
    let want = [
        Numbered {
            line: 3,
            what: UpLine::Call(Update::Set(key, 2)),
        },
        Numbered {
            line: 5,
            what: UpLine::Call(Update::Tidy),
        },
    ];
    assert_eq!(rt; listed(rt.alloc(), &said)?.as_slice(), want.as_slice());
    let mut word = Vec::new(rt.alloc());
    key.print_word(&mut word)?;
    assert_eq!(rt; word.as_slice(), b"18446744073709551616".as_slice());
    Ok(())
}

// What is kept of a line is most of a run's memory.
#[test]
fn a_line_is_kept_in_few_bytes(rt: HostRuntime) {
    // One byte more is kept beside each of these.
    assert_eq!(rt;
        size_of::<(u64, <UpLine<Update<Key>> as CompactLine>::Rest)>(),
        16
    );
    assert_eq!(rt; size_of::<(u64, <AskLine<Key> as CompactLine>::Rest)>(), 8);
}

#[test]
fn lines_that_ask_for_too_much(rt: HostRuntime) -> Result<(), Fail> {
    let alloc = rt.alloc();
    let set = UpLine::Call(Edit::Commit);
    let all = AskLine::Ask(());
    let hold = |file, n| UpLine::Hold { file, n };
    let cases = [
        // three updates and `wait 4`
        (
            [set, set, set],
            [AskLine::Wait { n: 4 }, all],
            Some((1, 1)),
            None,
        ),
        ([set, set, set], [all, AskLine::Wait { n: 3 }], None, None),
        ([set, hold(0, 0), set], [all, all], Some((0, 2)), None),
        ([set, hold(2, 0), set], [all, all], Some((0, 2)), None),
        (
            [hold(1, 2), set, hold(1, 3)],
            [all, all],
            Some((0, 3)),
            None,
        ),
        // `hold 1 1; set 1 10` with `wait 1; get 1`, and a later `hold`
        (
            [hold(1, 1), set, hold(1, 1)],
            [AskLine::Wait { n: 1 }, all],
            None,
            Some((0, 1)),
        ),
        (
            [hold(1, 0), set, hold(1, 1)],
            [AskLine::Wait { n: 1 }, all],
            None,
            None,
        ),
        (
            [hold(1, 1), set, set],
            [all, AskLine::Wait { n: 1 }],
            None,
            None,
        ),
    ];
    for (what, asked, range, circle) in cases {
        let ups = Lines::numbered(alloc, what.as_slice())?;
        let asks = [Lines::numbered(alloc, asked.as_slice())?];
        assert_eq!(rt;
            check_ranges(&ups, asks.as_slice()).map(|x| (x.file, x.line)),
            range
        );
        if range.is_none() {
            assert_eq!(rt;
                check_circles(&ups, asks.as_slice()).map(|x| (x.file, x.line)),
                circle
            );
        }
    }
    Ok(())
}

// `set 1 10; hold 1 2; set 1 20` with `wait 1; get 1; wait 2; get 1`
#[test]
fn a_hold_for_a_query_after_a_wait_for_more(rt: HostRuntime) -> Result<(), Fail> {
    let alloc = rt.alloc();
    let ups = read_updates::<Key>(alloc, b"set 1 10\nhold 1 2\nset 1 20".as_slice())?;
    let asks = [read_queries::<Key>(alloc, b"wait 1\nget 1\nwait 2\nget 1".as_slice())?];
    assert_eq!(rt; check_ranges(&ups, asks.as_slice()), None);
    assert_eq!(rt;
        check_circles(&ups, asks.as_slice()),
        Some(RangeFault { file: 0, line: 2 })
    );
    Ok(())
}

// Each kind of line, wide keys, and lines whose numbers jump.
#[test]
fn lines_are_kept_in_rows(rt: HostRuntime) -> Result<(), Fail> {
    let alloc = rt.alloc();
    let short = Key::new(18446744073709551615).ok_or("key")?;
    let wide = Key::new(18446744073709551616).ok_or("key")?;
    let widest = Key::new(340282366920938463463374607431768211454).ok_or("key")?;
    let said = [
        (1, UpLine::Call(Update::Set(short, 5))),
        (4, UpLine::Call(Update::Put(wide, 6))),
        (5, UpLine::Call(Update::Del(short))),
        (6, UpLine::Call(Update::Tidy)),
        (8, UpLine::Call(Update::Set(widest, u64::MAX))),
        (u64::MAX, UpLine::Hold { file: 64, n: 3 }),
    ];
    let ups = numbered(alloc, said.as_slice())?;
    assert_eq!(rt; ups.len(), 6);
    for (i, (line, what)) in said.iter().enumerate() {
        assert!(rt; i < ups.len());
        assert_eq!(rt;
            ups.get(i),
            Numbered {
                line: *line,
                what: *what
            }
        );
        assert_eq!(rt; ups.what(i), *what);
    }
    let asked = [
        (1, AskLine::Ask(short)),
        (2, AskLine::Wait { n: 3 }),
        (4, AskLine::Ask(wide)),
    ];
    let asks = numbered(alloc, asked.as_slice())?;
    let counted = Lines::numbered(alloc, [AskLine::Ask(short), AskLine::Ask(wide)].as_slice())?;
    assert_eq!(rt; counted.len(), 2);
    assert_eq!(rt; counted.get(1).line, 2);
    assert_eq!(rt; counted.what(1), AskLine::Ask(wide));
    for (i, (line, what)) in asked.iter().enumerate() {
        assert!(rt; i < asks.len());
        assert_eq!(rt;
            asks.get(i),
            Numbered {
                line: *line,
                what: *what
            }
        );
    }
    Ok(())
}

#[test]
fn the_first_fault_of_update_files_of_lists(rt: HostRuntime) -> Result<(), Fail> {
    let cases = [
        (
            "add 0\nadd 18446744073709551615\ndrop 7\ncommit\nhold 1 0",
            None,
        ),
        ("# a list\n\ncommit", None),
        ("add", Some((1, Why::Shape))),
        ("add 1 2", Some((1, Why::Shape))),
        ("add 01", Some((1, Why::Number))),
        ("drop 18446744073709551616", Some((1, Why::Number))),
        ("commit ", Some((1, Why::Shape))),
        ("add 1\nset 1 2", Some((2, Why::Verb))),
        ("all", Some((1, Why::Verb))),
        ("hold 1", Some((1, Why::Shape))),
        ("hold -1 1", Some((1, Why::Number))),
    ];
    for (text, want) in cases {
        let got = fault_of(read_edits(rt.alloc(), text.as_bytes()))?;
        assert_eq!(rt; got, want, "{text}");
    }
    Ok(())
}

#[test]
fn the_first_fault_of_query_files_of_lists(rt: HostRuntime) -> Result<(), Fail> {
    let cases = [
        ("all\nwait 0\n\nall", None),
        ("all 1", Some((1, Why::Shape))),
        ("all ", Some((1, Why::Shape))),
        ("wait", Some((1, Why::Shape))),
        ("wait x", Some((1, Why::Number))),
        ("all\nget 1", Some((2, Why::Verb))),
        ("add 1", Some((1, Why::Verb))),
    ];
    for (text, want) in cases {
        let got = fault_of(read_views(rt.alloc(), text.as_bytes()))?;
        assert_eq!(rt; got, want, "{text}");
    }
    Ok(())
}

#[test]
fn edits_and_views_have_the_numbers_of_their_lines(rt: HostRuntime) -> Result<(), Fail> {
    let alloc = rt.alloc();
    let (edits, holds) = scan_edits(alloc, b"drop 3\n\nhold 2 1\nadd 7\ncommit".as_slice())?;
    let want = [
        Numbered {
            line: 1,
            what: UpLine::Call(Edit::Drop(3)),
        },
        Numbered {
            line: 3,
            what: UpLine::Hold { file: 2, n: 1 },
        },
        Numbered {
            line: 4,
            what: UpLine::Call(Edit::Add(7)),
        },
        Numbered {
            line: 5,
            what: UpLine::Call(Edit::Commit),
        },
    ];
    assert_eq!(rt; listed(alloc, &edits)?.as_slice(), want.as_slice());
    assert!(rt; holds);
    let (views, waits) = scan_views(alloc, b"#\nall\n".as_slice())?;
    let want = [Numbered {
        line: 2,
        what: AskLine::Ask(()),
    }];
    assert_eq!(rt; listed(alloc, &views)?.as_slice(), want.as_slice());
    assert!(rt; !waits);
    Ok(())
}

// A file of so many `all` lines, of which `wait 0` stands on every second line.
fn views_of(alloc: Global, count: u64) -> Result<Lines<AskLine<()>>, Fail> {
    let mut lines = Lines::new(alloc);
    for i in 0..count {
        lines.push(Numbered {
            line: i.wrapping_mul(2),
            what: AskLine::Wait { n: 0 },
        })?;
        lines.push(Numbered {
            line: i.wrapping_mul(2).wrapping_add(1),
            what: AskLine::Ask(()),
        })?;
    }
    Ok(lines)
}

#[test]
fn one_view_too_many(rt: HostRuntime) -> Result<(), Fail> {
    let alloc = rt.alloc();
    let cases = [
        (1000, 0, 0, None),
        (1001, 5, 0, Some((1, 2001))),
        (999, 1, 0, None),
        (999, 1, 3, Some((3, 1))),
        (500, 0, 501, Some((3, 1001))),
    ];
    for (a, b, c, want) in cases {
        let asks = [
            views_of(alloc, a)?,
            views_of(alloc, b)?,
            views_of(alloc, c)?,
        ];
        assert_eq!(rt;
            check_views(asks.as_slice()).map(|x| (x.file, x.line)),
            want
        );
    }
    Ok(())
}
