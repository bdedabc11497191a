//! Lines out of pieces, of bytes without a line feed at their end, and lines of which some are kept.

use spy_lines::{Lines, NoNewline};
use std::test::Fail;

#[test]
fn pieces_of_a_line_are_joined(rt: HostRuntime) -> Result<(), Fail> {
    let mut lines = Lines::new(rt.alloc());
    let fed = lines.feed(b"\nab").is_ok() && lines.feed(b"c\nd\n").is_ok();
    let Ok(list) = lines.finish() else {
        return Err("lines without an end".into());
    };
    assert!(rt; fed);
    assert_eq!(rt; list.len(), 3);
    let mut rest = list.iter();
    for (k, line) in [b"".as_slice(), b"abc", b"d"].iter().enumerate() {
        assert_eq!(rt; list.line(k), Some(*line));
        assert_eq!(rt; rest.next(), Some(*line));
    }
    assert!(rt; rest.next().is_none());
    let unended = Lines::of(b"a\nb".to_vec(rt.alloc())?).finish();
    assert!(rt; unended.err() == Some(NoNewline { line: 2 }));
    Ok(())
}

#[test]
fn the_second_and_fourth_line_are_kept(rt: HostRuntime) -> Result<(), Fail> {
    let Ok(list) = Lines::of(b"a\nbcd\n\nef\ng\n".to_vec(rt.alloc())?).finish() else {
        return Err("lines without an end".into());
    };
    let mut lines = list.keeping();
    for (k, line) in [b"a".as_slice(), b"bcd", b"", b"ef", b"g"]
        .iter()
        .enumerate()
    {
        assert_eq!(rt; lines.line(), Some(*line));
        if k % 2 == 1 {
            lines.keep();
        } else {
            lines.pass();
        }
    }
    assert!(rt; lines.line().is_none());
    // There is no line that could be kept.
    lines.keep();
    assert_eq!(rt; lines.finish().as_slice(), b"bcd\nef\n".as_slice());
    Ok(())
}
