//! Calls of `run` over memory.

use spy_cli::{Status, run};
use spy_io::{MemSink, MemSource};
use std::alloc::Global;
use std::test::Fail;

/// The words of a command line, which is cut at each space. Where two spaces follow one another there is an empty word between, and an empty line has no words.
pub fn words_of(alloc: Global, line: &str) -> Result<Vec<String>, Fail> {
    let mut words = Vec::new(alloc);
    if line.is_empty() {
        return Ok(words);
    }
    for word in line.split(' ') {
        words.push(String::from_str(alloc, word)?)?;
    }
    Ok(words)
}

/// A log of these lines between header and end.
pub fn framed(alloc: Global, lines: &[u8]) -> Result<Vec<u8>, Fail> {
    let mut log = b"legion-spy 1\n".to_vec(alloc)?;
    log.extend_from_slice(lines)?;
    let mut count = 0u64;
    for byte in lines {
        if *byte == b'\n' {
            count = count.wrapping_add(1);
        }
    }
    let end = format!(in alloc; "end {count}\n")?;
    log.extend_from_slice(end.as_bytes())?;
    Ok(log)
}

/// The status of a command line over an input, and what it writes.
pub fn answer(alloc: Global, line: &str, log: &[u8]) -> Result<(Status, Vec<u8>), Fail> {
    let words = words_of(alloc, line)?;
    let mut source = MemSource::new(log.to_vec(alloc)?, 1000, Vec::new(alloc));
    let mut sink = MemSink::with_room(alloc, 65_536, 1000, Vec::new(alloc))
        .ok()
        .ok_or("no memory")?;
    let status = run(alloc, &words, &mut source, &mut sink);
    Ok((status, sink.held().to_vec(alloc)?))
}

/// The status of `why` over an input, and what it writes: the read is told by the task, the requirement, the point and the field.
pub fn answer_why(alloc: Global, read: [&str; 4], log: &[u8]) -> Result<(Status, Vec<u8>), Fail> {
    let [task, req, point, field] = read;
    let line = format!(in alloc; "why --task {task} --req {req} --point {point} --field {field}")?;
    answer(alloc, &line, log)
}

/// The log with another text in the place of one line, counted from 1.
pub fn with_line(alloc: Global, log: &[u8], number: usize, text: &[u8]) -> Result<Vec<u8>, Fail> {
    let mut changed = Vec::new(alloc);
    for (i, line) in log.split(|b| *b == b'\n').enumerate() {
        if i > 0 {
            changed.extend_from_slice(b"\n")?;
        }
        let here = i.wrapping_add(1) == number;
        changed.extend_from_slice(if here { text } else { line })?;
    }
    Ok(changed)
}

/// The number with which an edit begins, and the text after it.
fn edit_parts(edit: &[u8]) -> (usize, &[u8]) {
    let mut number = 0usize;
    let mut rest = edit;
    while let [digit, more @ ..] = rest {
        rest = more;
        if *digit == b' ' {
            break;
        }
        number = number
            .wrapping_mul(10)
            .wrapping_add(usize::from(digit.wrapping_sub(b'0')));
    }
    (number, rest)
}

/// Adds what edits put in the place of a line, and says whether there are any.
fn push_edits(changed: &mut Vec<u8>, edits: &[u8], number: usize) -> Result<bool, Fail> {
    let mut found = false;
    for edit in edits.split(|b| *b == b'\n') {
        let (at, text) = edit_parts(edit);
        if at == number {
            found = true;
            if !text.is_empty() {
                changed.extend_from_slice(text)?;
                changed.extend_from_slice(b"\n")?;
            }
        }
    }
    Ok(found)
}

/// The log with other texts in the place of some lines. Each line of `edits` is the number of a line of the log, a space, and a text that takes its place, after those of earlier edits of that line; a number alone takes the line away.
pub fn edited(alloc: Global, log: &[u8], edits: &[u8]) -> Result<Vec<u8>, Fail> {
    let mut changed = Vec::new(alloc);
    let mut number = 0usize;
    for line in log.split(|b| *b == b'\n') {
        number = number.wrapping_add(1);
        if !push_edits(&mut changed, edits, number)? {
            changed.extend_from_slice(line)?;
            changed.extend_from_slice(b"\n")?;
        }
    }
    // What stands after the last line feed is no line.
    let _line_feed = changed.pop();
    Ok(changed)
}

/// The status of a command over a log with other texts in the place of some lines, and what it writes.
pub fn answer_edited(
    alloc: Global,
    command: &str,
    log: &[u8],
    edits: &[u8],
) -> Result<(Status, Vec<u8>), Fail> {
    let log = edited(alloc, log, edits)?;
    answer(alloc, command, &log)
}
