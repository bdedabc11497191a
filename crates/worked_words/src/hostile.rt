//! Logs at the limits and past them, and logs that are cut off.

use std::alloc::Global;
use std::test::Fail;
use worked_answers::{Status, WRITE_THEN_READ, answer, framed};

/// Lines of so many merges, none of which waits.
fn merges(alloc: Global, count: u64) -> Result<Vec<u8>, Fail> {
    let mut lines = Vec::new(alloc);
    for i in 1..count.wrapping_add(1) {
        let line = format!(in alloc; "merge {i} -\n")?;
        lines.extend_from_slice(line.as_bytes())?;
    }
    Ok(lines)
}

/// Lines of 66 spaces, so many of which are each cut from the one before.
fn depths(alloc: Global, depth: u64) -> Result<Vec<u8>, Fail> {
    let mut lines = Vec::new(alloc);
    for i in 1..67u64 {
        let line = format!(in alloc; "ispace {i} 0\n")?;
        lines.extend_from_slice(line.as_bytes())?;
    }
    for i in 1..depth.wrapping_add(1) {
        let next = i.wrapping_add(1);
        let two = format!(in alloc; "part {i} {i} disjoint\nsub {i} 0 {next}\n")?;
        lines.extend_from_slice(two.as_bytes())?;
    }
    Ok(lines)
}

#[rattlefmt::skip]
#[test]
fn logs_that_ask_much(rt: HostRuntime) -> Result<(), Fail> {
    let alloc = rt.alloc();
    let rows: [(Vec<u8>, &[u8]); 15] = [
        (merges(alloc, 131_072)?, b"accepted tasks 0 operations 0 reads 0\n"),
        (merges(alloc, 131_073)?, b"fault 131074 too-many-records\n"),
        (depths(alloc, 64)?, b"accepted tasks 0 operations 0 reads 0\n"),
        (depths(alloc, 65)?, b"fault 197 too-deep\n"),
        (b"merge 4294967295 4294967295\n".to_vec(alloc)?, b"cycle 4294967295\n"),
        (b"merge 4294967296 -\n".to_vec(alloc)?, b"fault 2 number\n"),
        (b"merge 0 -\n".to_vec(alloc)?, b"fault 2 number\n"),
        (b"ispace 4294967295 4294967295\n".to_vec(alloc)?, b"accepted tasks 0 operations 0 reads 0\n"),
        (b"ispace 1 5-5\n".to_vec(alloc)?, b"fault 2 order\n"),
        (b"ispace 1 0-1048575\nfields 1 1\ntree 1 1 1\ninst 1 1 1 1 plain\ninst 2 1 1 1 plain\n".to_vec(alloc)?, b"fault 6 too-many-cells\n"),
        (b"ispace 1 0-1048575\nfields 1 1\ntree 1 1 1\ninst 1 1 1 1 plain\nput 1 1 1 0 1 -\nput 1 1 1 0 2 1\nput 1 1 1 0 3 2\nput 1 1 1 0 4 3\n".to_vec(alloc)?, b"accepted tasks 0 operations 4 reads 0\n"),
        (b"ispace 1 0-1048575\nfields 1 1\ntree 1 1 1\ninst 1 1 1 1 plain\nput 1 1 1 0 1 -\nput 1 1 1 0 2 1\nput 1 1 1 0 3 2\nput 1 1 1 0 4 3\nput 1 1 1 0 5 4\n".to_vec(alloc)?, b"fault 10 too-many-accesses\n"),
        (b"task 1\n".to_vec(alloc)?, b"fault 2 no-run\n"),
        (b"ispace 1 0\nispace 1 1\n".to_vec(alloc)?, b"fault 3 repeated-id\n"),
        (b"".to_vec(alloc)?, b"accepted tasks 0 operations 0 reads 0\n"),
    ];
    for (lines, report) in rows {
        let (_, said) = answer(alloc, "check", &framed(alloc, &lines)?)?;
        assert_eq!(rt; said.as_slice(), report);
    }
    Ok(())
}

/// These lines, as many merges as a log may have records, and the other lines.
fn crowded(alloc: Global, before: &[u8], after: &[u8]) -> Result<Vec<u8>, Fail> {
    let mut lines = before.to_vec(alloc)?;
    lines.extend_from_slice(&merges(alloc, 131_072)?)?;
    lines.extend_from_slice(after)?;
    Ok(lines)
}

/// Logs with too many records, whose first records ask of those that come after all that the limit allows.
#[rattlefmt::skip]
#[test]
fn logs_with_too_many_records(rt: HostRuntime) -> Result<(), Fail> {
    let alloc = rt.alloc();
    let rows: [(&[u8], &[u8], &[u8]); 11] = [
        (b"merge 200000 200001\n", b"merge 200001 -\nmerge 200002 -\n", b"fault 131074 too-many-records\n"),
        (b"merge 200000 200003\n", b"merge 200001 -\nmerge 200002 -\n", b"fault 2 undefined-event\n"),
        (b"task 1\n", b"run 1 200001 -\nmerge 200002 -\n", b"fault 131074 too-many-records\n"),
        (b"task 1\n", b"merge 200001 -\nmerge 200002 -\n", b"fault 2 no-run\n"),
        (b"task 1\nrun 1 200000 -\nserial 1\n", b"serial 1\n", b"fault 131074 too-many-records\n"),
        (b"task 1\nrun 1 200000 -\nserial 1\n", b"task 2\nrun 2 200001 -\nserial 2\n", b"fault 131074 too-many-records\n"),
        (b"task 1\nrun 1 200000 -\nserial 1\n", b"task 2\nrun 2 200001 -\n", b"fault 4 serial\n"),
        (b"task 1\nrun 1 200000 -\nserial 1\n", b"merge 200001 -\n", b"fault 131074 too-many-records\n"),
        (b"merge 200000 -\n", b"merge 200001 -\nlegion-spy 1\nlegion-spy 1\n", b"fault 131076 header\n"),
        (b"merge 200000 -\n", b"merge 200001 -\nend 131074\nmerge 200002 -\n", b"fault 131077 ended\n"),
        (b"merge 200000 -\n", b"merge 200001 -\nmerge x -\n", b"fault 131076 form\n"),
    ];
    for (before, after, report) in rows {
        let lines = crowded(alloc, before, after)?;
        let (_, said) = answer(alloc, "check", &framed(alloc, &lines)?)?;
        assert_eq!(rt; said.as_slice(), report);
        let (_, listed) = answer(alloc, "deps", &framed(alloc, &lines)?)?;
        assert_eq!(rt; listed.as_slice(), report);
    }
    Ok(())
}

/// Each front of a log without the whole line of `end`: it ends within a line, or is empty, or has no `end`.
#[test]
fn logs_that_are_cut_off(rt: HostRuntime) -> Result<(), Fail> {
    let alloc = rt.alloc();
    let mut lines = 1u64;
    let mut whole = true;
    for n in 0..WRITE_THEN_READ.len() {
        let (status, said) = answer(alloc, "check", WRITE_THEN_READ.get(..n).unwrap_or(b""))?;
        let code = if n == 0 {
            "header"
        } else if whole {
            "ended"
        } else {
            "newline"
        };
        let report = format!(in alloc; "fault {lines} {code}\n")?;
        assert!(rt; status == Status::Fault);
        assert_eq!(rt; said.as_slice(), report.as_bytes());
        whole = WRITE_THEN_READ.get(n) == Some(&b'\n');
        if whole {
            lines = lines.wrapping_add(1);
        }
    }
    Ok(())
}
