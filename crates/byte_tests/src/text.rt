use cp_base::Bytes;
use cp_text::{
    hex_bytes, next_line, number, push_hex, push_number, push_piece, push_signed, signed,
    split_part,
};
use std::test::Fail;

#[test]
fn numbers_are_read(rt: HostRuntime) {
    for (text, wanted) in [
        ("", None),
        ("0", Some(0)),
        ("00", None),
        ("01", None),
        ("9", Some(9)),
        ("10", Some(10)),
        ("0512", None),
        ("18446744073709551615", Some(u64::MAX)),
        ("18446744073709551616", None),
        ("100000000000000000000", None),
        ("+1", None),
        ("-1", None),
        (" 1", None),
        ("1 ", None),
        ("1/", None),
        ("1:", None),
        ("1\0", None),
        ("\u{b1}", None),
        ("1\u{ff}", None),
    ] {
        assert_eq!(rt; number(text.as_bytes()), wanted, "at {text:?}");
    }
}

#[test]
fn signed_numbers_are_read(rt: HostRuntime) {
    for (text, wanted) in [
        ("", None),
        ("-", None),
        ("0", Some(0)),
        ("-0", None),
        ("-1", Some(-1)),
        ("-01", None),
        ("--1", None),
        ("+1", None),
        ("9223372036854775807", Some(i64::MAX)),
        ("9223372036854775808", None),
        ("-9223372036854775808", Some(i64::MIN)),
        ("-9223372036854775809", None),
    ] {
        assert_eq!(rt; signed(text.as_bytes()), wanted, "at {text:?}");
    }
}

#[test]
fn hex_texts_are_read(rt: HostRuntime) -> Result<(), Fail> {
    let read = hex_bytes(rt.alloc(), b"0aff7f")?.ok_or("refused")?;
    assert_eq!(rt; read.as_slice(), [10, 255, 127].as_slice());
    let none = hex_bytes(rt.alloc(), b"")?.ok_or("refused")?;
    assert_eq!(rt; none.len(), 0);
    for text in [
        "0A", "A0", "a", "0a0", "0g", "0`", "0/", "0:", "0\0", "\u{e1}",
    ] {
        assert!(rt;
            hex_bytes(rt.alloc(), text.as_bytes())?.is_none(),
            "at {text:?}"
        );
    }
    Ok(())
}

#[test]
fn texts_are_written(rt: HostRuntime) -> Result<(), Fail> {
    let mut out = Bytes::new(rt.alloc());
    push_piece(&mut out, b"n=")?;
    push_number(&mut out, 0)?;
    push_piece(&mut out, b" ")?;
    push_number(&mut out, u64::MAX)?;
    push_piece(&mut out, b" ")?;
    push_signed(&mut out, i64::MIN)?;
    push_piece(&mut out, b" ")?;
    push_hex(&mut out, b"\x00\x9a\xff")?;
    assert_eq!(rt;
        out.as_slice(),
        b"n=0 18446744073709551615 -9223372036854775808 009aff".as_slice()
    );
    Ok(())
}

#[test]
fn long_hex_is_written_and_read(rt: HostRuntime) -> Result<(), Fail> {
    let bytes = Bytes::filled(rt.alloc(), 1000, 171)?;
    let mut out = Bytes::new(rt.alloc());
    push_hex(&mut out, bytes.as_slice())?;
    assert_eq!(rt; out.len(), 2000);
    let read = hex_bytes(rt.alloc(), out.as_slice())?.ok_or("no hex")?;
    assert_eq!(rt; read.as_slice(), bytes.as_slice());
    Ok(())
}

#[test]
fn texts_are_cut(rt: HostRuntime) {
    let (front, rest) = split_part(b"ab:c:", b':');
    assert_eq!(rt; front, b"ab".as_slice());
    assert_eq!(rt; rest, Some(b"c:".as_slice()));
    let (front, rest) = split_part(b":", b':');
    assert_eq!(rt; front, b"".as_slice());
    assert_eq!(rt; rest, Some(b"".as_slice()));
    let (front, rest) = split_part(b"ab", b':');
    assert_eq!(rt; front, b"ab".as_slice());
    assert_eq!(rt; rest, None);
}

#[test]
fn lines_are_cut(rt: HostRuntime) {
    assert_eq!(rt;
        next_line(b"a b\n\nc"),
        Some((b"a b".as_slice(), b"\nc".as_slice()))
    );
    assert_eq!(rt; next_line(b"\n"), Some((b"".as_slice(), b"".as_slice())));
    assert_eq!(rt; next_line(b"a b"), None);
    assert_eq!(rt; next_line(b""), None);
}
