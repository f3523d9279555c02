//! Texts and lines: what they are stands in the witnesses of `sm_text`.

ghost use Rattle.std.specs.Prelude.{◌≤◌, length};

use crate::made::MEMORY;
use sm_text::{
    LineSpan, LineWriter, RefusalKind, TokenAt, is_name, line_at, line_count, number, signed,
    token_at,
};
use std::process::Abort;

#[test]
fn texts_are_read(rt: HostRuntime) {
    has_two_lines(&rt, b"ab\r\ncd\n");
    assert!(rt; token_at(b"p m1:", 1) == TokenAt::Run(2, 4));
    assert!(rt; is_name(b"m1"));
    is_number(&rt, b"18446744073709551615", Some(u64::MAX));
    is_number(&rt, b"18446744073709551616", None);
    assert!(rt; signed(b"-9223372036854775807", i64::MAX) == Some(-i64::MAX));
}

/// Makes sure that a text has two lines, of which the second is two bytes from the fourth on.
fn has_two_lines(rt: &impl Abort, text: &[u8])
    requires { length text.now ≤ 8 }
{
    let second = LineSpan {
        start: 4,
        stop: 6,
        next: 7,
    };
    assert!(rt; line_at(text, 4) == Some(second));
    assert!(rt; line_at(text, 7).is_none());
    assert!(rt; line_count(text) == 2);
}

/// Makes sure which number is written.
fn is_number(rt: &impl Abort, run: &[u8], value: Option<u64>) {
    assert!(rt; number(run, u64::MAX) == value);
}

fn puts(rt: &impl Abort, line: &mut LineWriter, piece: &[u8], value: u64, signed: i64) {
    line.put_bytes(piece).expect(rt, MEMORY);
    line.put_number(value).expect(rt, MEMORY);
    line.put_bytes(b",").expect(rt, MEMORY);
    line.put_signed(signed).expect(rt, MEMORY);
}

#[test]
fn a_line_is_put_together(rt: HostRuntime) {
    let mut line = LineWriter::new(rt.alloc(), 8).expect(&rt, MEMORY);
    puts(&rt, &mut line, b"gone", 7, -1);
    line.clear();
    let name = RefusalKind::NotBuilt.name();
    puts(&rt, &mut line, name.as_bytes(), u64::MAX, i64::MIN);
    assert!(rt; line.bytes() == b"NotBuilt18446744073709551615,-9223372036854775808".as_slice());
    line.clear();
    puts(&rt, &mut line, b"", 0, 10);
    assert!(rt; line.bytes() == b"0,10".as_slice());
    assert!(rt; line.into_bytes().as_slice() == b"0,10".as_slice());
}

/// Makes sure that a piece stands alone on an empty line, and behind itself.
fn is_put(rt: &impl Abort, line: &mut LineWriter, piece: &[u8], twice: &[u8]) {
    line.clear();
    line.put_bytes(piece).expect(rt, MEMORY);
    assert!(rt; line.bytes() == piece);
    line.put_bytes(piece).expect(rt, MEMORY);
    assert!(rt; line.bytes() == twice);
}

#[test]
fn pieces_of_each_length_are_put(rt: HostRuntime) {
    let mut line = LineWriter::new(rt.alloc(), 4).expect(&rt, MEMORY);
    is_put(&rt, &mut line, b"a", b"aa");
    is_put(&rt, &mut line, b"ab", b"abab");
    is_put(&rt, &mut line, b"abc", b"abcabc");
    is_put(&rt, &mut line, b"abcd", b"abcdabcd");
    is_put(&rt, &mut line, b"abcde", b"abcdeabcde");
    is_put(&rt, &mut line, b"abcdefgh", b"abcdefghabcdefgh");
    is_put(&rt, &mut line, b"abcdefghi", b"abcdefghiabcdefghi");
    is_put(
        &rt,
        &mut line,
        b"0123456789abcdef",
        b"0123456789abcdef0123456789abcdef",
    );
    is_put(
        &rt,
        &mut line,
        b"0123456789abcdefg",
        b"0123456789abcdefg0123456789abcdefg",
    );
}
