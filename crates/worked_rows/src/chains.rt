//! What waits order: in one step, in two or in three, and over more or later ones, of which marks have to tell, block by block.

use std::alloc::Global;
use std::test::Fail;
use worked_answers::{Status, answer, answer_edited, framed};

/// A task writes what another reads.
const WRITE_AND_READ: &[u8] = b"legion-spy 1
ispace 1 0
fields 1 1
tree 1 1 1
inst 1 1 1 1 plain
task 1
req 1 1 1 1 wd ex
map 1 1 1 1
task 2
req 2 1 1 1 ro ex
map 2 1 1 1
run 1 1 -
run 2 2 1
end 12
";

/// A task reads a point of an instance that holds what there is at the start.
const ONE_READER: &[u8] = b"ispace 1 0
fields 1 1
tree 1 1 1
inst 1 1 1 1 home
task 1
req 1 1 1 1 ro ex
map 1 1 1 1
run 1 1 -
";

/// A log of 70 such tasks, each of which waits on the one before it, and of one that writes the point and waits on an event.
fn many_readers(alloc: Global, event: u64) -> Result<Vec<u8>, Fail> {
    let mut lines = ONE_READER.to_vec(alloc)?;
    for before in 1..70u64 {
        let task = before.wrapping_add(1);
        let reader = format!(in alloc;
            "task {task}\nreq {task} 1 1 1 ro ex\nmap {task} 1 1 1\nrun {task} {task} {before}\n"
        )?;
        lines.extend_from_slice(reader.as_bytes())?;
    }
    let writer = format!(in alloc;
        "task 71\nreq 71 1 1 1 wd ex\nmap 71 1 1 1\nrun 71 71 {event}\n"
    )?;
    lines.extend_from_slice(writer.as_bytes())?;
    framed(alloc, &lines)
}

#[test]
#[rattlefmt::skip]
fn ordered_by_chains_of_waits(rt: HostRuntime) -> Result<(), Fail> {
    let alloc = rt.alloc();
    let rows: [(&[u8], Status, &[u8]); 8] = [
        (b"", Status::Yes, b"accepted tasks 2 operations 2 reads 1\n"),
        (b"13 merge 3 1\n13 run 2 2 3\n14 end 13", Status::Yes, b"accepted tasks 2 operations 2 reads 1\n"),
        (b"13 merge 3 1\n13 merge 4 3\n13 run 2 2 4\n14 end 14", Status::Yes, b"accepted tasks 2 operations 2 reads 1\n"),
        (b"13 merge 3 1\n13 merge 4 3\n13 merge 5 4\n13 run 2 2 5\n14 end 15", Status::Yes, b"accepted tasks 2 operations 2 reads 1\n"),
        (b"13 run 2 2 -", Status::Refused, b"race 1 2 inst 1 point 0 field 1\n"),
        (b"13 merge 3 -\n13 merge 4 3\n13 run 2 2 4\n14 end 14", Status::Refused, b"race 1 2 inst 1 point 0 field 1\n"),
        (b"13 merge 3 1\n13 run 2 2 -\n14 end 13", Status::Refused, b"race 1 2 inst 1 point 0 field 1\n"),
        // The reader is before the writer.
        (b"12 run 2 2 -\n12 merge 3 2\n13 run 1 1 3\n14 end 13", Status::Refused, b"differ task 2 req 1 point 0 field 1 got raw want out:1\n"),
    ];
    for (edits, status, report) in rows {
        let (ended, said) = answer_edited(alloc, "check", WRITE_AND_READ, edits)?;
        assert_eq!(rt; said.as_slice(), report);
        assert!(rt; ended == status);
    }
    Ok(())
}

#[test]
#[rattlefmt::skip]
fn tasks_ordered_by_chains_of_waits(rt: HostRuntime) -> Result<(), Fail> {
    let alloc = rt.alloc();
    let rows: [(&[u8], Status, &[u8]); 6] = [
        (b"", Status::Yes, b"ordered tasks 2 pairs 1\n"),
        (b"13 merge 3 1\n13 merge 4 3\n13 run 2 2 4\n14 end 14", Status::Yes, b"ordered tasks 2 pairs 1\n"),
        (b"13 merge 3 1\n13 merge 4 3\n13 merge 5 4\n13 run 2 2 5\n14 end 15", Status::Yes, b"ordered tasks 2 pairs 1\n"),
        (b"13 run 2 2 -", Status::Refused, b"unordered 1 2 tree 1 point 0 field 1\n"),
        (b"13 merge 3 1\n13 run 2 2 -\n14 end 13", Status::Refused, b"unordered 1 2 tree 1 point 0 field 1\n"),
        (b"12 run 2 2 -\n12 merge 3 2\n13 run 1 1 3\n14 end 13", Status::Refused, b"unordered 1 2 tree 1 point 0 field 1\n"),
    ];
    for (edits, status, report) in rows {
        let (ended, said) = answer_edited(alloc, "ordered", WRITE_AND_READ, edits)?;
        assert_eq!(rt; said.as_slice(), report);
        assert!(rt; ended == status);
    }
    Ok(())
}

#[test]
fn ordered_behind_many_readers(rt: HostRuntime) -> Result<(), Fail> {
    let alloc = rt.alloc();
    // The writer waits on the last reader alone, or on the last but one.
    let rows: [(u64, Status, &[u8]); 2] = [
        (
            70,
            Status::Yes,
            b"accepted tasks 71 operations 71 reads 70\n",
        ),
        (69, Status::Refused, b"race 70 71 inst 1 point 0 field 1\n"),
    ];
    for (event, status, report) in rows {
        let log = many_readers(alloc, event)?;
        let (ended, said) = answer(alloc, "check", &log)?;
        assert_eq!(rt; said.as_slice(), report);
        assert!(rt; ended == status);
    }
    Ok(())
}

/// What two tasks do, of which one writes what the other reads, before the run of the second.
const WRITTEN: &[u8] = b"ispace 1 0
fields 1 1
tree 1 1 1
inst 1 1 1 1 plain
task 1
req 1 1 1 1 wd ex
map 1 1 1 1
task 2
req 2 1 1 1 ro ex
map 2 1 1 1
run 1 1 -
";

/// A log of these, where the second waits on 40 merges, and then on an event.
fn many_waits(alloc: Global, event: u64) -> Result<Vec<u8>, Fail> {
    let mut lines = WRITTEN.to_vec(alloc)?;
    let mut waits = Vec::new(alloc);
    for merge in 3..43u64 {
        let line = format!(in alloc; "merge {merge} -\n")?;
        lines.extend_from_slice(line.as_bytes())?;
        let wait = format!(in alloc; "{merge},")?;
        waits.extend_from_slice(wait.as_bytes())?;
    }
    lines.extend_from_slice(b"run 2 2 ")?;
    lines.extend_from_slice(waits.as_slice())?;
    let last = format!(in alloc; "{event}\n")?;
    lines.extend_from_slice(last.as_bytes())?;
    framed(alloc, &lines)
}

#[test]
fn ordered_by_the_last_of_many_waits(rt: HostRuntime) -> Result<(), Fail> {
    let alloc = rt.alloc();
    // The last wait is on the writer, or on a merge once more.
    let rows: [(u64, Status, &[u8]); 2] = [
        (1, Status::Yes, b"accepted tasks 2 operations 2 reads 1\n"),
        (3, Status::Refused, b"race 1 2 inst 1 point 0 field 1\n"),
    ];
    for (event, status, report) in rows {
        let log = many_waits(alloc, event)?;
        let (ended, said) = answer(alloc, "check", &log)?;
        assert_eq!(rt; said.as_slice(), report);
        assert!(rt; ended == status);
    }
    Ok(())
}

/// A log of what two tasks do, where the second waits on the last of 2,100 merges in a chain, so that three blocks of nodes lie between them. The first of these waits on `first`.
fn long_chain(alloc: Global, first: &[u8]) -> Result<Vec<u8>, Fail> {
    let mut lines = WRITTEN.to_vec(alloc)?;
    lines.extend_from_slice(b"merge 3 ")?;
    lines.extend_from_slice(first)?;
    lines.extend_from_slice(b"\n")?;
    for before in 3..2102u64 {
        let merge = before.wrapping_add(1);
        let line = format!(in alloc; "merge {merge} {before}\n")?;
        lines.extend_from_slice(line.as_bytes())?;
    }
    lines.extend_from_slice(b"run 2 2 2102\n")?;
    framed(alloc, &lines)
}

#[test]
#[rattlefmt::skip]
fn ordered_by_a_long_chain(rt: HostRuntime) -> Result<(), Fail> {
    let alloc = rt.alloc();
    // The chain begins at the writer, or at nothing.
    let rows: [(&str, &[u8], Status, &[u8]); 4] = [
        ("check", b"1", Status::Yes, b"accepted tasks 2 operations 2 reads 1\n"),
        ("ordered", b"1", Status::Yes, b"ordered tasks 2 pairs 1\n"),
        ("check", b"-", Status::Refused, b"race 1 2 inst 1 point 0 field 1\n"),
        ("ordered", b"-", Status::Refused, b"unordered 1 2 tree 1 point 0 field 1\n"),
    ];
    for (command, first, status, report) in rows {
        let log = long_chain(alloc, first)?;
        let (ended, said) = answer(alloc, command, &log)?;
        assert_eq!(rt; said.as_slice(), report);
        assert!(rt; ended == status);
    }
    Ok(())
}
