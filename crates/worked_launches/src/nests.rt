//! Nested logs under `nested`, each through `run`.

use std::alloc::Global;
use std::test::Fail;
use worked_answers::{Status, answer, answer_edited, framed};

/// The task that writes is a member of a group that may do all, and the one that reads a member of a group below, which may read.
const BELOW: &[u8] = b"legion-spy 1
ispace 1 0-3
fields 1 1
tree 1 1 1
task 1
req 1 1 1 1 rw ex
task 2
req 2 1 1 1 ro ex
group 1 0
greq 1 1 1 1 rw
group 2 1
greq 2 1 1 1 ro
member 1 1
member 2 2
run 1 1 -
run 2 2 1
end 9
";

/// Two halves of a region with two fields, a whole that is apart, and a group for the region and one for a half.
const HALVES: &[u8] = b"legion-spy 1
ispace 1 0-7
part 1 1 disjoint
ispace 2 0-3
sub 1 0 2
ispace 3 4-7
sub 1 1 3
ispace 4 0-7
fields 1 1,2
tree 1 1 1
group 1 0
greq 1 1 2 1,2 rw
greq 1 1 3 1,2 rw
group 2 1
greq 2 1 2 1 rw
task 1
req 1 1 2 1 rw ex
member 1 2
run 1 1 -
end 12
";

/// Changes of the first log, and the report of each.
#[rattlefmt::skip]
#[test]
fn two_tasks_in_groups(rt: HostRuntime) -> Result<(), Fail> {
    let alloc = rt.alloc();
    let rows: [(&[u8], Status, &[u8]); 28] = [
        (b"", Status::Yes, b"nested tasks 2 groups 2 free 0\n"),
        (b"1 legion-spy 2", Status::Yes, b"nested tasks 2 groups 2 free 0\n"),
        (b"13 member 1 2", Status::Refused, b"unlicensed task 1 req 1 group 2 tree 1 point 0 field 1\n"),
        (b"6 req 1 1 1 1 ro ex\n10 greq 1 1 1 1 ro\n11 group 2 0", Status::Yes, b"nested tasks 2 groups 2 free 1\n"),
        (b"10 greq 1 1 1 1 wd", Status::Refused, b"unlicensed group 2 req 1 group 1 tree 1 point 0 field 1\n"),
        // A group without a privilege licenses nothing, and is free of all others.
        (b"10", Status::Refused, b"unlicensed group 2 req 1 group 1 tree 1 point 0 field 1\n"),
        (b"10\n12\n13\n14", Status::Yes, b"nested tasks 0 groups 2 free 0\n"),
        (b"10\n11 group 2 0\n13", Status::Yes, b"nested tasks 1 groups 2 free 1\n"),
        // Groups beside each other that interfere, and that do not.
        (b"11 group 2 0", Status::Yes, b"nested tasks 2 groups 2 free 0\n"),
        (b"12 greq 2 1 1 1 ro\n12 group 3 1\n12 greq 3 1 1 1 rw", Status::Yes, b"nested tasks 2 groups 3 free 0\n"),
        (b"12 greq 2 1 1 1 ro\n12 group 3 1\n12 greq 3 1 1 1 ro", Status::Yes, b"nested tasks 2 groups 3 free 1\n"),
        // The task of a member that asks for nothing may be in any group, and one that is in none asks nobody.
        (b"6\n13 member 1 2\n17 end 8", Status::Yes, b"nested tasks 2 groups 2 free 0\n"),
        (b"13", Status::Yes, b"nested tasks 1 groups 2 free 0\n"),
        // The groups stand before the header, and after the end.
        (b"1 group 1 0\n1 group 2 1\n1 legion-spy 1\n9\n11", Status::Yes, b"nested tasks 2 groups 2 free 0\n"),
        (b"9\n10\n11\n12\n13\n14\n17 end 9\n17 group 1 0\n17 greq 1 1 1 1 rw\n17 group 2 1\n17 greq 2 1 1 1 ro\n17 member 1 1\n17 member 2 2", Status::Yes, b"nested tasks 2 groups 2 free 0\n"),
        (b"17 end 15", Status::Fault, b"fault 17 count\n"),
        // A privilege of the parent that stands later licenses too.
        (b"10\n14 member 2 2\n14 greq 1 1 1 1 rw", Status::Yes, b"nested tasks 2 groups 2 free 0\n"),
        // Ids that repeat, and that are not there.
        (b"11 group 1 0", Status::Fault, b"fault 11 repeated-id\n"),
        (b"14 member 1 2", Status::Fault, b"fault 14 repeated-id\n"),
        (b"9 group 1 2", Status::Fault, b"fault 9 unknown-id\n"),
        (b"11 group 2 2", Status::Fault, b"fault 11 unknown-id\n"),
        (b"12 greq 3 1 1 1 ro", Status::Fault, b"fault 12 unknown-id\n"),
        (b"12 greq 2 1 2 1 ro", Status::Fault, b"fault 12 unknown-id\n"),
        (b"13 member 3 1", Status::Fault, b"fault 13 unknown-id\n"),
        (b"13 member 1 0", Status::Fault, b"fault 13 unknown-id\n"),
        // Faults of the plain records come before those of groups, and the serial order is not judged.
        (b"11 group 1 0\n15\n17 end 8", Status::Fault, b"fault 5 no-run\n"),
        (b"8 req 2 1 1 1 ro ex\n8 serial 2 1\n17 end 10", Status::Yes, b"nested tasks 2 groups 2 free 0\n"),
        (b"9 group 0 0", Status::Fault, b"fault 9 number\n"),
    ];
    for (edits, judged, report) in rows {
        let (ended, said) = answer_edited(alloc, "nested", BELOW, edits)?;
        assert_eq!(rt; said.as_slice(), report);
        assert!(rt; ended == judged);
    }
    Ok(())
}

/// Changes of the second log: what several privileges license together, and the rules on privileges.
#[rattlefmt::skip]
#[test]
fn privileges_on_halves(rt: HostRuntime) -> Result<(), Fail> {
    let alloc = rt.alloc();
    let rows: [(&[u8], Status, &[u8]); 20] = [
        (b"", Status::Yes, b"nested tasks 1 groups 2 free 0\n"),
        // Two privileges of the parent license together: two halves, and two fields.
        (b"15 greq 2 1 1 1,2 rw", Status::Yes, b"nested tasks 1 groups 2 free 0\n"),
        (b"12 greq 1 1 1 1 rw\n13 greq 1 1 1 2 rw\n15 greq 2 1 1 1,2 rw", Status::Yes, b"nested tasks 1 groups 2 free 0\n"),
        (b"13\n15 greq 2 1 1 1 rw", Status::Refused, b"unlicensed group 2 req 1 group 1 tree 1 point 4 field 1\n"),
        (b"13 greq 1 1 3 1 rw\n15 greq 2 1 1 1,2 rw", Status::Refused, b"unlicensed group 2 req 1 group 1 tree 1 point 4 field 2\n"),
        (b"13 greq 1 1 3 1,2 ro\n15 greq 2 1 1 1,2 rw", Status::Refused, b"unlicensed group 2 req 1 group 1 tree 1 point 4 field 1\n"),
        // Halves of all points of two dimensions.
        (b"1 legion-spy 2\n2 ispace 1 0-4294967295:0-4294967295\n4 ispace 2 0-2147483647:0-4294967295\n6 ispace 3 2147483648-4294967295:0-4294967295\n8 ispace 4 0:0", Status::Yes, b"nested tasks 1 groups 2 free 0\n"),
        (b"1 legion-spy 2\n2 ispace 1 0-4294967295:0-4294967295\n4 ispace 2 0-2147483647:0-4294967295\n6 ispace 3 2147483648-4294967295:0-4294967295\n8 ispace 4 0:0\n13\n15 greq 2 1 1 1 rw", Status::Refused, b"unlicensed group 2 req 1 group 1 tree 1 point 9223372036854775808 field 1\n"),
        // The second requirement of a task, and the second privilege of a group.
        (b"17 req 1 1 2 1 rw ex\n17 req 1 1 3 1 ro ex\n20 end 13", Status::Refused, b"unlicensed task 1 req 2 group 2 tree 1 point 4 field 1\n"),
        (b"15 greq 2 1 2 1 rw\n15 greq 2 1 2 2 ro", Status::Yes, b"nested tasks 1 groups 2 free 0\n"),
        (b"12 greq 1 1 2 1 rw\n15 greq 2 1 2 1 rw\n15 greq 2 1 2 2 ro", Status::Refused, b"unlicensed group 2 req 2 group 1 tree 1 point 0 field 2\n"),
        // Which privileges license which.
        (b"15 greq 2 1 2 1 red:1\n17\n20 end 11", Status::Yes, b"nested tasks 1 groups 2 free 0\n"),
        (b"12 greq 1 1 2 1 red:1\n15 greq 2 1 2 1 red:2", Status::Refused, b"unlicensed group 2 req 1 group 1 tree 1 point 0 field 1\n"),
        (b"15 greq 2 1 2 1 wd", Status::Refused, b"unlicensed task 1 req 1 group 2 tree 1 point 0 field 1\n"),
        // Groups of the halves side by side, and of a half and a point that both have.
        (b"15 greq 2 1 2 1 rw\n15 group 3 1\n15 greq 3 1 3 1 rw", Status::Yes, b"nested tasks 1 groups 3 free 1\n"),
        (b"15 greq 2 1 2 1 rw\n15 group 3 1\n15 greq 3 1 1 2 rw", Status::Yes, b"nested tasks 1 groups 3 free 1\n"),
        (b"15 greq 2 1 2 1 rw\n15 group 3 1\n15 greq 3 1 1 1 ro", Status::Yes, b"nested tasks 1 groups 3 free 0\n"),
        // A space outside the tree, and a field that the tree does not have.
        (b"13 greq 1 1 4 1,2 rw", Status::Fault, b"fault 13 not-in-tree\n"),
        (b"13 greq 1 1 3 1,3 rw", Status::Fault, b"fault 13 fields\n"),
        (b"13 greq 1 1 3", Status::Fault, b"fault 13 form\n"),
    ];
    for (edits, judged, report) in rows {
        let (ended, said) = answer_edited(alloc, "nested", HALVES, edits)?;
        assert_eq!(rt; said.as_slice(), report);
        assert!(rt; ended == judged);
    }
    Ok(())
}

/// The log of two halves with so many groups, each below the one before, and then these lines, all after its end.
fn many_groups(alloc: Global, count: u64, more: &[u8]) -> Result<Vec<u8>, Fail> {
    let mut log = framed(alloc, b"ispace 1 0\nfields 1 1\ntree 1 1 1\n")?;
    for i in 0..count {
        let line = format!(in alloc; "group {} {i}\n", i.wrapping_add(1))?;
        log.extend_from_slice(line.as_bytes())?;
    }
    log.extend_from_slice(more)?;
    Ok(log)
}

/// A nested log with one group, and so many privileges of it.
fn many_privileges(alloc: Global, count: u64) -> Result<Vec<u8>, Fail> {
    let mut log = many_groups(alloc, 1, b"")?;
    for _ in 0..count {
        log.extend_from_slice(b"greq 1 1 1 1 ro\n")?;
    }
    Ok(log)
}

/// Nested logs that just keep a limit, and ones that pass it.
#[rattlefmt::skip]
#[test]
fn groups_at_their_limits(rt: HostRuntime) -> Result<(), Fail> {
    let alloc = rt.alloc();
    let rows: [(Vec<u8>, &[u8]); 4] = [
        (many_groups(alloc, 1024, b"")?, b"nested tasks 0 groups 1024 free 0\n"),
        (many_groups(alloc, 1024, b"group 2000 0\n")?, b"fault 1030 too-many-groups\n"),
        (many_privileges(alloc, 131_071)?, b"nested tasks 0 groups 1 free 0\n"),
        (many_privileges(alloc, 131_072)?, b"fault 131078 too-many-records\n"),
    ];
    for (log, report) in rows {
        let (_, said) = answer(alloc, "nested", &log)?;
        assert_eq!(rt; said.as_slice(), report);
    }
    Ok(())
}

/// No other command reads the lines of a nested log, and `nested` reads a log in which nothing is nested.
#[rattlefmt::skip]
#[test]
fn nested_lines_are_those_of_nested(rt: HostRuntime) -> Result<(), Fail> {
    let alloc = rt.alloc();
    let others: [(&str, &[u8], &[u8]); 10] = [
        ("check", b"", b"fault 9 word\n"),
        ("ordered", b"", b"fault 9 word\n"),
        ("deps", b"", b"fault 9 word\n"),
        ("spare", b"", b"fault 9 word\n"),
        ("print", b"", b"fault 9 word\n"),
        ("expand", b"", b"fault 9 word\n"),
        ("launched", b"", b"fault 9 word\n"),
        ("nested", b"9\n10\n11\n12\n13\n14", b"nested tasks 0 groups 0 free 0\n"),
        ("nested", b"9 launch 1 0", b"fault 9 word\n"),
        ("nested", b"1\n2\n3\n4\n5\n6\n7\n8\n9\n10\n11\n12\n13\n14\n15\n16\n17", b"fault 1 header\n"),
    ];
    for (command, edits, report) in others {
        let (_, said) = answer_edited(alloc, command, BELOW, edits)?;
        assert_eq!(rt; said.as_slice(), report);
    }
    Ok(())
}
