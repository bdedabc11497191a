//! Launch logs under `expand` and `launched`, each through `run`.

use std::alloc::Global;
use std::test::Fail;
use worked_answers::{Status, answer, answer_edited, framed};

/// Two tasks of a launch write a half of a region each.
const HALVES: &[u8] = b"legion-spy 1
ispace 1 0-3
part 1 1 aliased
ispace 2 0-1
sub 1 0 2
ispace 3 2-3
sub 1 1 3
fields 1 1
tree 1 1 1
launch 1 0,1
lreq 1 1 1 1 wd ex
inst 1 1 1 1 plain
map 1 1 1 1
map 2 1 1 1
run 1 1 -
run 2 2 -
end 15
";

/// The log that it stands for.
const HALVES_WRITTEN: &[u8] = b"legion-spy 1
ispace 1 0-3
part 1 1 aliased
ispace 2 0-1
sub 1 0 2
ispace 3 2-3
sub 1 1 3
fields 1 1
tree 1 1 1
task 1
task 2
req 1 1 2 1 wd ex
req 2 1 3 1 wd ex
inst 1 1 1 1 plain
map 1 1 1 1
map 2 1 1 1
run 1 1 -
run 2 2 -
end 17
";

/// Changes of this log, with the report of `launched`. What `expand` writes of each has the same report under `check`; or `expand` has the same report, which is then a fault of the launch log.
#[rattlefmt::skip]
#[test]
fn launches_with_some_lines_changed(rt: HostRuntime) -> Result<(), Fail> {
    let alloc = rt.alloc();
    let (status, written) = answer(alloc, "expand", HALVES)?;
    assert!(rt; status == Status::Yes);
    assert_eq!(rt; written.as_slice(), HALVES_WRITTEN);
    // The report, the status of `launched`, and that of `expand`.
    let rows: [(&[u8], Status, Status, &[u8]); 32] = [
        (b"", Status::Yes, Status::Yes, b"accepted tasks 2 operations 2 reads 0\n"),
        (b"6 ispace 3 1-3", Status::Fault, Status::Fault, b"fault 11 launch-interference\n"),
        // Halves of a plane, and ones that share a column.
        (b"1 legion-spy 2\n2 ispace 1 0-1048575:0-1048575\n4 ispace 2 0-524287:0-1048575\n6 ispace 3 524288-1048575:0-1048575", Status::Yes, Status::Yes, b"accepted tasks 2 operations 2 reads 0\n"),
        (b"1 legion-spy 2\n2 ispace 1 0-1048575:0-1048575\n4 ispace 2 0-524287:0-1048575\n6 ispace 3 524287-1048575:0-1048575", Status::Fault, Status::Fault, b"fault 11 launch-interference\n"),
        (b"10 launch 1 0,2", Status::Fault, Status::Fault, b"fault 11 unknown-id\n"),
        (b"11 lreq 1 1 1 1 wd ex\n11 req 2 1 1 1 ro ex\n17 end 16", Status::Fault, Status::Fault, b"fault 12 launch-interference\n"),
        // What is written is checked: its cycle, its race, its fault on a line of its own.
        (b"15 run 1 1 2\n16 run 2 2 1", Status::Refused, Status::Yes, b"cycle 1 2\n"),
        (b"12 inst 1 1 1 1 plain\n12 task 3\n12 req 3 1 1 1 rw ex\n14 map 2 1 1 1\n14 map 3 1 1 1\n16 run 2 2 -\n16 run 3 3 1\n17 end 19", Status::Refused, Status::Yes, b"race 2 3 inst 1 point 2 field 1\n"),
        (b"13", Status::Fault, Status::Fault, b"fault 16 count\n"),
        (b"13\n17 end 14", Status::Fault, Status::Yes, b"fault 12 unmapped\n"),
        (b"16\n17 end 14", Status::Fault, Status::Yes, b"fault 11 no-run\n"),
        (b"6 ispace 3 4-5", Status::Fault, Status::Yes, b"fault 7 not-within\n"),
        // One launch more: its id is another, or the same.
        (b"10 launch 1 0,1\n10 launch 3 0\n17 end 16", Status::Fault, Status::Yes, b"fault 12 no-run\n"),
        (b"10 launch 1 0,1\n10 launch 1 0\n17 end 16", Status::Fault, Status::Fault, b"fault 11 repeated-id\n"),
        (b"10 launch 1 0,1\n10 launch 2 0\n17 end 16", Status::Fault, Status::Yes, b"fault 12 repeated-id\n"),
        // The launch and the subspaces of a requirement are there before it.
        (b"11 lreq 2 1 1 1 wd ex", Status::Fault, Status::Fault, b"fault 11 unknown-id\n"),
        (b"10 lreq 1 1 1 1 wd ex\n11 launch 1 0,1", Status::Fault, Status::Fault, b"fault 10 unknown-id\n"),
        (b"7\n11 lreq 1 1 1 1 wd ex\n11 sub 1 1 3", Status::Fault, Status::Fault, b"fault 10 unknown-id\n"),
        (b"11 lreq 1 1 2 1 wd ex", Status::Fault, Status::Fault, b"fault 11 unknown-id\n"),
        // The id of the last task is an id.
        (b"11 lreq 1 1 1 1 wd ex\n11 launch 4294967295 0\n17 end 16", Status::Fault, Status::Yes, b"fault 14 no-run\n"),
        (b"11 lreq 1 1 1 1 wd ex\n11 launch 4294967295 0,1\n17 end 16", Status::Fault, Status::Fault, b"fault 12 launch-range\n"),
        // Tasks of one launch that share a point may read it, and reduce there with one operator.
        (b"6 ispace 3 1-3\n11 lreq 1 1 1 1 ro ex", Status::Refused, Status::Yes, b"differ task 1 req 1 point 0 field 1 got raw want init\n"),
        (b"6 ispace 3 1-3\n9 tree 1 1 1\n9 redop 1\n11 lreq 1 1 1 1 red:1 ex\n17 end 16", Status::Yes, Status::Yes, b"accepted tasks 2 operations 2 reads 0\n"),
        (b"6 ispace 3 1-3\n11 lreq 1 1 1 1 red:1 at\n11 lreq 1 1 1 1 red:2 at\n17 end 16", Status::Fault, Status::Fault, b"fault 12 launch-interference\n"),
        (b"6 ispace 3 1-3\n11 lreq 1 1 1 1 rw at", Status::Fault, Status::Fault, b"fault 11 launch-interference\n"),
        // A task of another launch may use what a task of this one uses.
        (b"11 lreq 1 1 1 1 wd ex\n11 launch 3 0\n11 lreq 3 1 1 1 ro ex\n14 map 2 1 1 1\n14 map 3 1 1 1\n16 run 2 2 -\n16 run 3 3 1\n17 end 19", Status::Yes, Status::Yes, b"accepted tasks 3 operations 3 reads 2\n"),
        // Faults of lines and of the frame.
        (b"10 launch 1", Status::Fault, Status::Fault, b"fault 10 form\n"),
        (b"10 launch 0 0,1", Status::Fault, Status::Fault, b"fault 10 number\n"),
        (b"10 launch 1 1,0", Status::Fault, Status::Fault, b"fault 10 order\n"),
        (b"10 group 1 0", Status::Fault, Status::Fault, b"fault 10 word\n"),
        (b"1", Status::Fault, Status::Fault, b"fault 1 header\n"),
        (b"17", Status::Fault, Status::Fault, b"fault 17 ended\n"),
    ];
    for (edits, judged, expanded, report) in rows {
        let (ended, said) = answer_edited(alloc, "launched", HALVES, edits)?;
        assert_eq!(rt; said.as_slice(), report);
        assert!(rt; ended == judged);
        let (ended, written) = answer_edited(alloc, "expand", HALVES, edits)?;
        assert!(rt; ended == expanded);
        if ended == Status::Yes {
            let (_, checked) = answer(alloc, "check", &written)?;
            assert_eq!(rt; checked.as_slice(), report);
        } else {
            assert_eq!(rt; written.as_slice(), report);
        }
    }
    Ok(())
}

/// A list of so many colours, from 0 on.
fn colours(alloc: Global, count: u64) -> Result<String, Fail> {
    let mut list = String::new(alloc);
    for i in 0..count {
        let next = format!(in alloc; "{i}")?;
        if i > 0 {
            list.push_str(",")?;
        }
        list.push_str(&next)?;
    }
    Ok(list)
}

/// Lines of so many launches of 4,096 tasks each, and then of one task more.
fn many_launches(alloc: Global, count: u64, more: &[u8]) -> Result<Vec<u8>, Fail> {
    let all = colours(alloc, 4096)?;
    let mut lines = Vec::new(alloc);
    for i in 0..count {
        let base = i.wrapping_mul(4096).wrapping_add(1);
        let line = format!(in alloc; "launch {base} {all}\n")?;
        lines.extend_from_slice(line.as_bytes())?;
    }
    lines.extend_from_slice(more)?;
    Ok(lines)
}

/// A list of so many fields of five digits.
fn fields(alloc: Global, count: u64) -> Result<String, Fail> {
    let mut list = String::from_str(alloc, "10000")?;
    for i in 10_001..count.wrapping_add(10_000) {
        let next = format!(in alloc; ",{i}")?;
        list.push_str(&next)?;
    }
    Ok(list)
}

/// Lines of a launch of 4,096 tasks, each of which reads one space in 2,723 fields, and then a field space of this id. With the id 1 what they write with its frame has as many bytes as an input may have.
fn long_text(alloc: Global, id: &str) -> Result<Vec<u8>, Fail> {
    let mut lines = Vec::new(alloc);
    for i in 0..4096u64 {
        let line = format!(in alloc; "sub 1 {i} 1\n")?;
        lines.extend_from_slice(line.as_bytes())?;
    }
    let all = colours(alloc, 4096)?;
    let asked = fields(alloc, 2723)?;
    let more = fields(alloc, 1545)?;
    let rest = format!(in alloc;
        "launch 10001 {all}\nlreq 10001 1 1 {asked} ro ex\nfields {id} {more}\n"
    )?;
    lines.extend_from_slice(rest.as_bytes())?;
    Ok(lines)
}

/// Launch logs that just keep a limit, and ones that pass it. The fault of one that keeps it is one of the log that is written.
#[rattlefmt::skip]
#[test]
fn launches_at_their_limits(rt: HostRuntime) -> Result<(), Fail> {
    let alloc = rt.alloc();
    let wide = format!(in alloc; "launch 1 {}\n", colours(alloc, 4096)?)?;
    let wider = format!(in alloc; "launch 1 {}\n", colours(alloc, 4097)?)?;
    let rows: [(Vec<u8>, &[u8]); 6] = [
        (wide.as_bytes().to_vec(alloc)?, b"fault 2 no-run\n"),
        (wider.as_bytes().to_vec(alloc)?, b"fault 2 launch-range\n"),
        (many_launches(alloc, 32, b"")?, b"fault 2 no-run\n"),
        (many_launches(alloc, 32, b"launch 200000 7\n")?, b"fault 34 too-many-records\n"),
        (long_text(alloc, "1")?, b"fault 2 unknown-id\n"),
        (long_text(alloc, "10")?, b"fault 4101 too-long\n"),
    ];
    for (lines, report) in rows {
        let (_, said) = answer(alloc, "launched", &framed(alloc, &lines)?)?;
        assert_eq!(rt; said.as_slice(), report);
    }
    Ok(())
}
