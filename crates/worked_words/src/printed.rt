//! `print`, and the faults of lines.

use std::alloc::Global;
use std::test::Fail;
use worked_answers::{
    GATHERED_REDUCTIONS, STALE_COPY, Status, TURNED_WRITES, TWO_OPERATORS, TWO_TASKS,
    WRITE_THEN_READ, answer, with_line,
};

#[test]
fn a_log_prints_as_itself(rt: HostRuntime) -> Result<(), Fail> {
    let alloc = rt.alloc();
    let logs = [
        TWO_TASKS,
        WRITE_THEN_READ,
        STALE_COPY,
        GATHERED_REDUCTIONS,
        TWO_OPERATORS,
        TURNED_WRITES,
        // No rule on whole logs is judged, and a log without records prints as nothing.
        b"end 7\nlegion-spy 2\nend 0\n",
        b"",
    ];
    for log in logs {
        let (status, text) = answer(alloc, "print", log)?;
        assert!(rt; status == Status::Yes);
        assert_eq!(rt; text.as_slice(), log);
    }
    Ok(())
}

#[test]
fn comments_and_blank_lines_are_dropped(rt: HostRuntime) -> Result<(), Fail> {
    let alloc = rt.alloc();
    for command in ["print", "ordered"] {
        for log in [WRITE_THEN_READ, TWO_TASKS] {
            let noted = with_line(alloc, log, 1, b"legion-spy 1\n# note\n")?;
            let (status, text) = answer(alloc, command, &noted)?;
            let (plain_status, plain) = answer(alloc, command, log)?;
            assert!(rt; status == plain_status);
            assert_eq!(rt; text, plain);
        }
    }
    let (status, text) = answer(alloc, "print", b"# note\n\n#\n")?;
    assert!(rt; status == Status::Yes);
    assert_eq!(rt; text.as_slice(), b"".as_slice());
    Ok(())
}

#[test]
fn the_least_faulty_line_is_shown(rt: HostRuntime) -> Result<(), Fail> {
    let alloc = rt.alloc();
    let cases: [(usize, &[u8], &[u8]); 8] = [
        (2, b"jspace 1 0-3", b"fault 2 word\n"),
        (9, b"inst 1 1 1 1 plan", b"fault 9 form\n"),
        (9, b"inst 01 1 1 1 plain", b"fault 9 number\n"),
        (2, b"ispace 1 3,1", b"fault 2 order\n"),
        (9, b"inst 4294967296 1 1 1 plain", b"fault 9 number\n"),
        (3, b"# note\n\nfields 1 1,1", b"fault 5 order\n"),
        (1, b"task 0\njspace 1", b"fault 1 number\n"),
        // After the last line feed nothing may stand, whatever the lines are.
        (15, b"end 12", b"fault 15 newline\n"),
    ];
    for command in ["print", "ordered"] {
        for (number, text, report) in cases {
            let log = with_line(alloc, WRITE_THEN_READ, number, text)?;
            let (status, said) = answer(alloc, command, &log)?;
            assert!(rt; status == Status::Fault, "line {number}");
            assert_eq!(rt; said.as_slice(), report, "line {number}");
        }
        let whole = WRITE_THEN_READ.len();
        let (status, said) = answer(alloc, command, &WRITE_THEN_READ[..whole.wrapping_sub(1)])?;
        assert!(rt; status == Status::Fault);
        assert_eq!(rt; said.as_slice(), b"fault 14 newline\n".as_slice());
    }
    Ok(())
}

/// That many bytes `#`, and a line feed after them if asked for.
fn long_comment(alloc: Global, count: usize, ended: bool) -> Result<Vec<u8>, Fail> {
    let mut bytes = Vec::new(alloc);
    for _ in 0..count {
        bytes.push(b'#')?;
    }
    if ended {
        bytes.push(b'\n')?;
    }
    Ok(bytes)
}

#[test]
fn an_input_has_64_mebibytes_at_most(rt: HostRuntime) -> Result<(), Fail> {
    let alloc = rt.alloc();
    let most = long_comment(alloc, 67_108_863, true)?;
    let (status, text) = answer(alloc, "print", &most)?;
    assert!(rt; status == Status::Yes);
    assert_eq!(rt; text.as_slice(), b"".as_slice());
    let (status, text) = answer(alloc, "check", &most)?;
    assert!(rt; status == Status::Fault);
    assert_eq!(rt; text.as_slice(), b"fault 2 header\n".as_slice());
    let more = long_comment(alloc, 67_108_865, false)?;
    for command in ["check", "print"] {
        let (status, text) = answer(alloc, command, &more)?;
        assert!(rt; status == Status::Fault);
        assert_eq!(rt; text.as_slice(), b"fault 0 too-long\n".as_slice());
    }
    Ok(())
}
