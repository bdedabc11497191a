//! Logs of the second version, whose points have a column and a row, each through `run`.

use std::alloc::Global;
use std::test::Fail;
use worked_answers::{
    STALE_COPY, Status, TWO_TASKS, WRITE_THEN_READ, answer, answer_edited, answer_why,
    block_halos as made_log, digest,
};

/// Logs of the first version, changed to ones of the second.
#[rattlefmt::skip]
#[test]
fn logs_of_two_dimensions(rt: HostRuntime) -> Result<(), Fail> {
    let alloc = rt.alloc();
    let rows: [(&str, &[u8], &[u8], Status, &[u8]); 27] = [
        // The points of a log of the first version are the first column.
        ("check", WRITE_THEN_READ, b"1 legion-spy 2", Status::Yes, b"accepted tasks 2 operations 2 reads 4\n"),
        ("check", WRITE_THEN_READ, b"1 legion-spy 2\n2 ispace 1 -", Status::Yes, b"accepted tasks 2 operations 2 reads 0\n"),
        ("check", STALE_COPY, b"1 legion-spy 2", Status::Refused, b"differ task 3 req 1 point 0 field 1 got out:1 want out:2\n"),
        // A write and a read of 2^40 points, and one that does not wait.
        ("check", WRITE_THEN_READ, b"1 legion-spy 2\n2 ispace 1 0-1048575:0-1048575", Status::Yes, b"accepted tasks 2 operations 2 reads 1099511627776\n"),
        ("check", WRITE_THEN_READ, b"1 legion-spy 2\n2 ispace 1 0-1048575:0-1048575\n13 run 2 2 -", Status::Refused, b"race 1 2 inst 1 point 0 field 1\n"),
        ("ordered", WRITE_THEN_READ, b"1 legion-spy 2\n2 ispace 1 0-1048575:0-1048575\n13 run 2 2 -", Status::Refused, b"unordered 1 2 tree 1 point 0 field 1\n"),
        ("deps", WRITE_THEN_READ, b"1 legion-spy 2\n2 ispace 1 3-5:7,6:6-9", Status::Yes, b"before 1 2 tree 1 point 12884901895 field 1\ndeps items 2 before 1 turn 0\n"),
        // A copy of the left half alone.
        ("check", STALE_COPY, b"1 legion-spy 2\n2 ispace 1 0-1048575:0-1048575\n2 ispace 2 0-524287:0-1048575\n17 run 2 2 1\n18 copy 1 2 2 1 3 2\n20 end 19", Status::Refused, b"differ task 3 req 1 point 2251799813685248 field 1 got raw want out:2\n"),
        // All points but those of the last column, the last row, or the last point are as many reads as may be; all are too many.
        ("check", WRITE_THEN_READ, b"1 legion-spy 2\n2 ispace 1 0-4294967295:0-4294967294", Status::Yes, b"accepted tasks 2 operations 2 reads 18446744069414584320\n"),
        ("check", WRITE_THEN_READ, b"1 legion-spy 2\n2 ispace 1 0-4294967294:0-4294967295,4294967295:0-4294967294", Status::Yes, b"accepted tasks 2 operations 2 reads 18446744073709551615\n"),
        ("check", WRITE_THEN_READ, b"1 legion-spy 2\n2 ispace 1 0-4294967295:0-4294967295", Status::Fault, b"fault 14 too-many-reads\n"),
        ("ordered", WRITE_THEN_READ, b"1 legion-spy 2\n2 ispace 1 0-4294967295:0-4294967295", Status::Fault, b"fault 14 too-many-reads\n"),
        ("deps", TWO_TASKS, b"1 legion-spy 2\n2 ispace 1 0-4294967295:0-4294967295\n8 req 2 1 1 1 wd ex", Status::Fault, b"fault 11 too-many-reads\n"),
        ("deps", TWO_TASKS, b"1 legion-spy 2\n2 ispace 1 0-4294967295:0-4294967295\n6 req 1 1 1 1 wd ex\n8 req 2 1 1 1 wd ex", Status::Yes, b"before 1 2 tree 1 point 0 field 1\ndeps items 2 before 1 turn 0\n"),
        // A task may not read and write one point, and no point twice.
        ("check", WRITE_THEN_READ, b"1 legion-spy 2\n2 ispace 1 0-9:0-9\n2 ispace 2 9:0-9\n2 part 1 1 aliased\n2 sub 1 0 2\n6 req 1 1 1 1 wd ex\n6 req 1 1 2 1 ro ex\n14 end 16", Status::Fault, b"fault 10 self-interference\n"),
        ("ordered", WRITE_THEN_READ, b"1 legion-spy 2\n2 ispace 1 0-9:0-9\n2 ispace 2 9:0-9\n2 ispace 3 0-8:0-9\n2 part 1 1 disjoint\n2 sub 1 0 2\n2 sub 1 1 3\n6 req 1 1 3 1 wd ex\n6 req 1 1 2 1 ro ex\n14 end 18", Status::Yes, b"ordered tasks 2 pairs 1\n"),
        // Pieces that share a point, and one that reaches out.
        ("ordered", TWO_TASKS, b"1 legion-spy 2\n2 ispace 1 0-9:0-9\n2 part 1 1 disjoint\n2 ispace 2 0-4:0-9\n2 sub 1 0 2\n2 ispace 3 4-9:9\n2 sub 1 1 3\n11 end 14", Status::Fault, b"fault 7 not-disjoint\n"),
        ("ordered", TWO_TASKS, b"1 legion-spy 2\n2 ispace 1 0-9:0-9\n2 part 1 1 disjoint\n2 ispace 2 0-4:0-10\n2 sub 1 0 2\n11 end 12", Status::Fault, b"fault 5 not-within\n"),
        ("spare", WRITE_THEN_READ, b"1 legion-spy 2\n2 ispace 1 0-1048575:0-1048575\n13 run 2 2 1,1", Status::Yes, b"spare 2 1\nspare waits 1 of 2\n"),
        // Rectangles that do not stand in bands, and ones in a log of the first version.
        ("check", WRITE_THEN_READ, b"1 legion-spy 2\n2 ispace 1 0-3:0,2-5:0", Status::Fault, b"fault 2 order\n"),
        ("print", WRITE_THEN_READ, b"1 legion-spy 2\n2 ispace 1 0-3:0,2-5:0", Status::Fault, b"fault 2 order\n"),
        ("ordered", TWO_TASKS, b"2 ispace 1 0:0-3", Status::Fault, b"fault 2 version\n"),
        ("deps", TWO_TASKS, b"2 ispace 1 0:0-3", Status::Fault, b"fault 2 version\n"),
        ("spare", TWO_TASKS, b"2 ispace 1 0:0-3", Status::Fault, b"fault 2 version\n"),
        ("nested", TWO_TASKS, b"2 ispace 1 0:0-3", Status::Fault, b"fault 2 version\n"),
        // There are two versions.
        ("check", WRITE_THEN_READ, b"1 legion-spy 3", Status::Fault, b"fault 1 header\n"),
        ("check", WRITE_THEN_READ, b"1 legion-spy 2\n1 legion-spy 2", Status::Fault, b"fault 2 header\n"),
    ];
    for (command, log, edits, status, report) in rows {
        let (ended, said) = answer_edited(alloc, command, log, edits)?;
        assert_eq!(rt; said.as_slice(), report);
        assert!(rt; ended == status);
    }
    Ok(())
}

/// A log of the second version of these lines.
fn plane_log(alloc: Global, lines: &[u8]) -> Result<Vec<u8>, Fail> {
    let mut log = b"legion-spy 2\n".to_vec(alloc)?;
    log.extend_from_slice(lines)?;
    let mut count = 0u64;
    for byte in lines {
        if *byte == b'\n' {
            count = count.wrapping_add(1);
        }
    }
    let end = format!(in alloc; "end {count}\n")?;
    log.extend_from_slice(end.as_bytes())?;
    Ok(log)
}

/// The line of a space of points on a diagonal, which cut the plane into as many columns and rows.
fn diagonal(alloc: Global, id: u64, count: u64) -> Result<Vec<u8>, Fail> {
    let mut line = Vec::new(alloc);
    line.extend_from_slice(format!(in alloc; "ispace {id} 0:0")?.as_bytes())?;
    for i in 1..count {
        line.extend_from_slice(format!(in alloc; ",{i}:{i}")?.as_bytes())?;
    }
    line.extend_from_slice(b"\n")?;
    Ok(line)
}

/// The line of a space of so many points in the first column, in every other row from one on.
fn comb(alloc: Global, id: u64, row: u64, count: u64) -> Result<Vec<u8>, Fail> {
    let mut line = Vec::new(alloc);
    line.extend_from_slice(format!(in alloc; "ispace {id} 0:{row}")?.as_bytes())?;
    for i in 1..count {
        let next = i.wrapping_mul(2).wrapping_add(row);
        line.extend_from_slice(format!(in alloc; ",0:{next}")?.as_bytes())?;
    }
    line.extend_from_slice(b"\n")?;
    Ok(line)
}

/// A log in which so many records of a kind follow on others.
fn repeated(
    alloc: Global,
    first: &[u8],
    count: u64,
    of: &str,
    behind: &str,
) -> Result<Vec<u8>, Fail> {
    let mut lines = first.to_vec(alloc)?;
    for i in 1..=count {
        let line = format!(in alloc; "{of} {i} {behind}\n")?;
        lines.extend_from_slice(line.as_bytes())?;
    }
    plane_log(alloc, &lines)
}

/// Whether a command says this of a log.
fn says(alloc: Global, command: &str, log: &[u8], report: &[u8]) -> Result<bool, Fail> {
    let (_, said) = answer(alloc, command, log)?;
    Ok(said.as_slice() == report)
}

/// Spaces of many rectangles, held against each other by the cells of the grid, and against the whole plane by what was found before.
#[test]
fn large_spaces(rt: HostRuntime) -> Result<(), Fail> {
    let alloc = rt.alloc();
    let mut lines = b"ispace 1 0-1:0-4095\n".to_vec(alloc)?;
    // The rows of space 2 are even, space 3 lacks the last of them, and those of space 4 are odd.
    lines.extend_from_slice(&comb(alloc, 2, 0, 1_100)?)?;
    lines.extend_from_slice(&comb(alloc, 3, 0, 1_099)?)?;
    lines.extend_from_slice(&comb(alloc, 4, 1, 1_100)?)?;
    lines.extend_from_slice(b"fields 1 1\ntree 1 1 1\n")?;
    // What is put lies within its instance, but for the last.
    let mut puts = lines.to_vec(alloc)?;
    puts.extend_from_slice(b"inst 1 1 2 1 plain\ninst 2 1 3 1 plain\ninst 3 1 1 1 plain\n")?;
    puts.extend_from_slice(
        b"put 1 2 1 0 1 -\nput 1 3 1 0 2 1\nput 3 2 1 0 3 2\nput 3 2 1 0 4 3\n",
    )?;
    let within = plane_log(alloc, &puts)?;
    assert!(rt;
        says(
            alloc,
            "check",
            &within,
            b"accepted tasks 0 operations 4 reads 0\n"
        )?
    );
    puts.extend_from_slice(b"put 2 2 1 0 5 4\n")?;
    let outside = plane_log(alloc, &puts)?;
    assert!(rt; says(alloc, "check", &outside, b"fault 15 not-covered\n")?);
    // Two requirements that share no point, and a third that shares points with the first.
    lines.extend_from_slice(b"part 1 1 aliased\nsub 1 0 2\nsub 1 1 3\nsub 1 2 4\n")?;
    lines.extend_from_slice(b"task 1\nrun 1 1 -\nreq 1 1 2 1 rw ex\nreq 1 1 4 1 rw ex\n")?;
    let apart = plane_log(alloc, &lines)?;
    assert!(rt; says(alloc, "ordered", &apart, b"ordered tasks 1 pairs 0\n")?);
    lines.extend_from_slice(b"req 1 1 3 1 rw ex\n")?;
    let shared = plane_log(alloc, &lines)?;
    assert!(rt; says(alloc, "ordered", &shared, b"fault 16 self-interference\n")?);
    Ok(())
}

/// Logs that just keep the limits of the second version, and ones that break them.
#[test]
fn planes_at_the_limits(rt: HostRuntime) -> Result<(), Fail> {
    let alloc = rt.alloc();
    // Cells of the grid.
    let most = plane_log(alloc, &diagonal(alloc, 1, 1_024)?)?;
    assert!(rt;
        says(
            alloc,
            "check",
            &most,
            b"accepted tasks 0 operations 0 reads 0\n"
        )?
    );
    let over = plane_log(alloc, &diagonal(alloc, 1, 1_025)?)?;
    for command in ["check", "ordered", "deps", "spare", "nested", "launched"] {
        assert!(rt; says(alloc, command, &over, b"fault 2 too-many-atoms\n")?);
    }
    // Cells of instances: 4,096 of the grid and so many instances.
    let mut lines = b"ispace 1 0-63:0-63\n".to_vec(alloc)?;
    lines.extend_from_slice(&diagonal(alloc, 2, 64)?)?;
    lines.extend_from_slice(b"fields 1 1,2\ntree 1 1 1\n")?;
    let most = repeated(alloc, &lines, 256, "inst", "1 1 1 plain")?;
    assert!(rt; says(alloc, "ordered", &most, b"ordered tasks 0 pairs 0\n")?);
    let over = repeated(alloc, &lines, 257, "inst", "1 1 1 plain")?;
    assert!(rt; says(alloc, "ordered", &over, b"fault 263 too-many-cells\n")?);
    // Accesses.
    let most = repeated(alloc, &lines, 512, "fill", "1 1 1,2 0")?;
    assert!(rt; says(alloc, "ordered", &most, b"ordered tasks 0 pairs 0\n")?);
    let over = repeated(alloc, &lines, 513, "fill", "1 1 1,2 0")?;
    assert!(rt; says(alloc, "ordered", &over, b"fault 519 too-many-accesses\n")?);
    // Load: as many requirements that reduce as instances.
    lines.extend_from_slice(b"redop 1\ntask 1000\nrun 1000 1 -\n")?;
    for i in 1..=128u64 {
        let two = format!(in alloc; "req 1000 1 1 1 red:1 ex\ninst {i} 1 1 1 plain\n")?;
        lines.extend_from_slice(two.as_bytes())?;
    }
    let most = plane_log(alloc, &lines)?;
    assert!(rt; says(alloc, "ordered", &most, b"ordered tasks 1 pairs 0\n")?);
    lines.extend_from_slice(b"inst 129 1 2 1 plain\n")?;
    let over = plane_log(alloc, &lines)?;
    assert!(rt; says(alloc, "ordered", &over, b"fault 266 too-much-load\n")?);
    Ok(())
}

/// A halo exchange of 4 by 4 blocks, and the same with a corner that is never taken over.
#[rattlefmt::skip]
#[test]
fn halos_of_blocks(rt: HostRuntime) -> Result<(), Fail> {
    let alloc = rt.alloc();
    let block_halos = made_log(alloc, false)?;
    let stale_corner = made_log(alloc, true)?;
    assert_eq!(rt; digest(&block_halos), 17_848_463_644_846_752_359);
    assert_eq!(rt; digest(&stale_corner), 5_352_689_094_574_528_425);
    let rows: [(&[u8], &[u8], &[u8]); 2] = [
        (&block_halos, b"accepted tasks 32 operations 132 reads 968\n", b"ordered tasks 32 pairs 100\n"),
        (&stale_corner, b"differ task 33 req 1 point 47244640267 field 2 got const:0 want out:12\n", b"unordered 12 33 tree 1 point 47244640267 field 2\n"),
    ];
    for (log, checked, ordered) in rows {
        assert!(rt; says(alloc, "check", log, checked)?);
        let (_, said) = answer(alloc, "ordered", log)?;
        assert_eq!(rt; said.as_slice(), ordered);
    }
    let reads: [(&[u8], [&str; 4], &[u8]); 1] = [
        (&stale_corner, ["33", "1", "47244640267", "2"], b"why task 33 req 1 point 47244640267 field 2\nput 16 inst 16 adds 0\n"),
    ];
    for (log, read, links) in reads {
        let (_, said) = answer_why(alloc, read, log)?;
        assert_eq!(rt; said.as_slice(), links);
    }
    Ok(())
}
