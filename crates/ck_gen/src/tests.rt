use crate::{Summary, queries, summary_text, updates};
use ck_history::{Key, Reply};
use std::test::Fail;

#[test]
fn one_line_of_seed_0(rt: HostRuntime) -> Result<(), Fail> {
    assert_eq!(rt;
        updates(rt.alloc(), 0, 1)?.as_slice(),
        b"put 6605 3025583356\n".as_slice()
    );
    assert_eq!(rt;
        queries(rt.alloc(), 0, 1)?.as_slice(),
        b"wait 1\nget 1\n".as_slice()
    );
    Ok(())
}

#[test]
fn no_line(rt: HostRuntime) -> Result<(), Fail> {
    assert_eq!(rt; updates(rt.alloc(), 5, 0)?.as_slice(), b"".as_slice());
    assert_eq!(rt;
        queries(rt.alloc(), 5, 0)?.as_slice(),
        b"wait 0\n".as_slice()
    );
    Ok(())
}

#[test]
fn each_count_has_its_line(rt: HostRuntime) -> Result<(), Fail> {
    let key = Key::new(6605).ok_or("a key")?;
    let replies = [
        Reply::Fresh,
        Reply::Was(1),
        Reply::Was(2),
        Reply::Has(3),
        Reply::Missing,
    ];
    let summary = Summary::new(&replies, &[None, Some(1), None], &[(key, 3025583356)]);
    let text = summary_text(rt.alloc(), &summary)?;
    assert_eq!(rt;
        text.as_slice(),
        b"made 5\nfresh 1\nwas 2\nhas 1\nmissing 1\nfound 1\nabsent 2\nkeys 1\nsum 160026932984690918\nend\n".as_slice()
    );
    Ok(())
}
