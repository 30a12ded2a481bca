use super::*;
use std::test::Fail;

#[test]
fn lines_are_counted_and_cut(rt: HostRuntime) -> Result<(), Fail> {
    let cases: [(&[u8], u64, &[u8], &[u8]); 6] = [
        (b"set 1 2", 1, b"set 1 2", b""),
        (b"set 1 2\n", 1, b"set 1 2", b""),
        (b"\n", 1, b"", b""),
        (b"\n\n", 2, b"", b"\n"),
        (b"a\r\nb", 2, b"a\r", b"b"),
        (b"a\n\nb\n", 3, b"a", b"\nb\n"),
    ];
    for (text, count, line, later) in cases {
        assert_eq!(rt; count_lines(text), count);
        assert_eq!(rt; first_line(text), (line, later));
    }
    assert_eq!(rt; count_lines(b""), 0);
    assert_eq!(rt; cut(b"set", b' '), (b"set".as_slice(), None));
    assert_eq!(rt;
        cut(b" 1 2", b' '),
        (b"".as_slice(), Some(b"1 2".as_slice()))
    );
    Ok(())
}

#[test]
fn numbers_are_read(rt: HostRuntime) -> Result<(), Fail> {
    let cases: [(&[u8], Option<u64>); 9] = [
        (b"0", Some(0)),
        (b"18446744073709551615", Some(18446744073709551615)),
        (b"18446744073709551616", None),
        (b"", None),
        (b"00", None),
        (b"07", None),
        (b"+7", None),
        (b"7 ", None),
        (b"x", None),
    ];
    for (word, want) in cases {
        assert_eq!(rt; read_number(word), want);
    }
    assert_eq!(rt; read_decimal(b"16", 16), Some(16));
    assert_eq!(rt; read_decimal(b"17", 16), None);
    assert_eq!(rt; number_prefix(b"443 2"), Some((443, 3)));
    assert_eq!(rt; number_prefix(b"0443 2"), None);
    Ok(())
}

#[test]
fn numbers_are_written(rt: HostRuntime) -> Result<(), Fail> {
    let cases: [(u128, &[u8]); 5] = [
        (0, b"0"),
        (10, b"10"),
        (18446744073709551615, b"18446744073709551615"),
        (18446744073709551616, b"18446744073709551616"),
        (u128::MAX, b"340282366920938463463374607431768211455"),
    ];
    for (n, want) in cases {
        let mut out = Vec::new(rt.alloc());
        print_number(&mut out, n)?;
        assert_eq!(rt; out.as_slice(), want);
        let mut text = [b'x'; 50];
        let start = prepend_wide_number(&mut text, 49, n);
        assert_eq!(rt; &text[start..49], want);
        assert_eq!(rt; text[49], b'x');
    }
    let mut text = [b'x'; 24];
    let start = prepend_number(&mut text, 24, 1000);
    let first = prepend_bytes(&mut text, start, b"u ");
    assert_eq!(rt; &text[first..], b"u 1000".as_slice());
    Ok(())
}
