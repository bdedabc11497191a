//! The worked examples of whole logs, each through `run`.

use std::test::Fail;
use worked_answers::{
    GATHERED_REDUCTIONS, STALE_COPY, Status, TURNED_WRITES, TWO_OPERATORS, TWO_TASKS,
    WRITE_THEN_READ, answer, answer_edited,
};

/// The log of two tasks, with some lines changed.
#[rattlefmt::skip]
#[test]
fn orders_and_dependences_of_two_tasks(rt: HostRuntime) -> Result<(), Fail> {
    let alloc = rt.alloc();
    let rows: [(&str, &[u8], &[u8], Status, &[u8]); 22] = [
        // Two tasks over one region.
        ("ordered", TWO_TASKS, b"", Status::Yes, b"ordered tasks 2 pairs 1\n"),
        ("deps", TWO_TASKS, b"", Status::Yes, b"before 1 2 tree 1 point 0 field 1\ndeps items 2 before 1 turn 0\n"),
        ("ordered", TWO_TASKS, b"10 run 2 2 -", Status::Refused, b"unordered 1 2 tree 1 point 0 field 1\n"),
        ("ordered", TWO_TASKS, b"10 run 2 2 1,1", Status::Yes, b"ordered tasks 2 pairs 1\n"),
        ("ordered", TWO_TASKS, b"6 req 1 1 1 1 ro ex", Status::Yes, b"ordered tasks 2 pairs 0\n"),
        ("ordered", TWO_TASKS, b"1 # a comment\n1 #\n1 legion-spy 1", Status::Yes, b"ordered tasks 2 pairs 1\n"),
        // Waits in a cycle, on no event, and through merges.
        ("ordered", TWO_TASKS, b"9 run 1 1 2", Status::Refused, b"cycle 1 2\n"),
        ("ordered", TWO_TASKS, b"9 run 1 1 1", Status::Refused, b"cycle 1\n"),
        ("deps", TWO_TASKS, b"9 run 1 1 2", Status::Yes, b"before 1 2 tree 1 point 0 field 1\ndeps items 2 before 1 turn 0\n"),
        ("ordered", TWO_TASKS, b"10 run 2 2 7", Status::Fault, b"fault 10 undefined-event\n"),
        ("ordered", TWO_TASKS, b"9 run 1 1 -\n9 merge 2 1\n9 merge 3 2\n10 run 2 4 3\n11 end 11", Status::Yes, b"ordered tasks 2 pairs 1\n"),
        ("ordered", TWO_TASKS, b"10 run 2 2 1\n10 merge 3 5\n10 merge 4 3\n10 merge 5 4\n11 end 12", Status::Refused, b"cycle 3 4 5\n"),
        // A cycle is shown before two tasks that are not ordered.
        ("ordered", TWO_TASKS, b"10 run 2 2 -\n10 merge 3 3\n11 end 10", Status::Refused, b"cycle 3\n"),
        // An atomic pair, taken in turn; and one that may not be turned.
        ("ordered", TWO_TASKS, b"6 req 1 1 1 1 rw at\n8 req 2 1 1 1 rw at\n8 serial 2 1\n9 run 2 2 -\n10 run 1 1 2\n11 end 10", Status::Yes, b"ordered tasks 2 pairs 1\n"),
        ("deps", TWO_TASKS, b"6 req 1 1 1 1 rw at\n8 req 2 1 1 1 rw at\n8 serial 2 1\n9 run 2 2 -\n10 run 1 1 2\n11 end 10", Status::Yes, b"turn 2 1 tree 1 point 0 field 1\ndeps items 2 before 0 turn 1\n"),
        ("deps", TWO_TASKS, b"6 req 1 1 1 1 rw ex\n8 req 2 1 1 1 rw ex\n8 serial 2 1\n9 run 2 2 -\n10 run 1 1 2\n11 end 10", Status::Fault, b"fault 9 serial-order\n"),
        ("ordered", TWO_TASKS, b"6 req 1 1 1 1 rw at\n8 req 2 1 1 1 rw at\n8 serial 1\n8 serial 2\n11 end 11", Status::Yes, b"ordered tasks 2 pairs 1\n"),
        // The line is the one that lists the earlier item.
        ("ordered", TWO_TASKS, b"8 req 2 1 1 1 ro ex\n8 serial 2\n8 serial 1\n11 end 11", Status::Fault, b"fault 10 serial-order\n"),
        ("ordered", TURNED_WRITES, b"", Status::Yes, b"ordered tasks 2 pairs 1\n"),
        ("ordered", TURNED_WRITES, b"6 req 1 1 1 1 rw ex\n8 req 2 1 1 1 rw ex", Status::Fault, b"fault 9 serial-order\n"),
        // Fills are items, and no tasks.
        ("ordered", TWO_TASKS, b"8 req 2 1 1 1 ro ex\n8 fill 9 1 1 1 0\n11 end 10", Status::Yes, b"ordered tasks 2 pairs 1\n"),
        ("deps", TWO_TASKS, b"8 req 2 1 1 1 ro ex\n8 fill 9 1 1 1 0\n11 end 10", Status::Yes, b"before 1 2 tree 1 point 0 field 1\nbefore 1 9 tree 1 point 0 field 1\nbefore 2 9 tree 1 point 0 field 1\ndeps items 3 before 3 turn 0\n"),
    ];
    for (command, log, edits, status, report) in rows {
        let (ended, said) = answer_edited(alloc, command, log, edits)?;
        assert_eq!(rt; said.as_slice(), report);
        assert!(rt; ended == status);
    }
    Ok(())
}

/// Logs with instances, copies and reductions, with some lines changed.
#[rattlefmt::skip]
#[test]
fn orders_and_dependences_with_instances(rt: HostRuntime) -> Result<(), Fail> {
    let alloc = rt.alloc();
    let rows: [(&str, &[u8], &[u8], Status, &[u8]); 13] = [
        // Instances and copies.
        ("deps", WRITE_THEN_READ, b"", Status::Yes, b"before 1 2 tree 1 point 0 field 1\ndeps items 2 before 1 turn 0\n"),
        ("ordered", WRITE_THEN_READ, b"13 run 2 2 -", Status::Refused, b"unordered 1 2 tree 1 point 0 field 1\n"),
        ("ordered", WRITE_THEN_READ, b"12 run 1 1 2", Status::Refused, b"cycle 1 2\n"),
        ("ordered", WRITE_THEN_READ, b"2 ispace 1 -\n13 run 2 2 -", Status::Yes, b"ordered tasks 2 pairs 0\n"),
        ("ordered", WRITE_THEN_READ, b"12 run 1 1 -\n12 merge 2 1\n12 merge 3 2\n13 run 2 4 3\n14 end 14", Status::Yes, b"ordered tasks 2 pairs 1\n"),
        ("ordered", WRITE_THEN_READ, b"13 run 2 2 1\n13 merge 3 5\n13 merge 4 3\n13 merge 5 4\n14 end 15", Status::Refused, b"cycle 3 4 5\n"),
        ("ordered", WRITE_THEN_READ, b"4 tree 1 1 1\n4 tree 2 1 1\n8 req 2 2 1 1 wd ex\n9 inst 1 1 1 1 plain\n9 inst 2 2 1 1 plain\n11 map 2 1 1 2\n13 run 2 2 -\n14 end 14", Status::Yes, b"ordered tasks 2 pairs 0\n"),
        ("ordered", STALE_COPY, b"", Status::Yes, b"ordered tasks 3 pairs 3\n"),
        ("ordered", STALE_COPY, b"8 req 2 1 1 1 ro ex\n10 req 3 1 1 1 wd ex\n16 run 1 1 -\n17 run 2 2 1\n18 run 3 3 -\n19\n20 end 17", Status::Refused, b"unordered 1 3 tree 1 point 0 field 1\n"),
        // Reductions.
        ("ordered", GATHERED_REDUCTIONS, b"", Status::Yes, b"ordered tasks 3 pairs 2\n"),
        ("ordered", TWO_OPERATORS, b"", Status::Refused, b"unordered 1 2 tree 1 point 0 field 1\n"),
        ("ordered", TWO_OPERATORS, b"10 req 2 1 1 1 red:1 ex", Status::Yes, b"ordered tasks 2 pairs 0\n"),
        ("deps", TWO_OPERATORS, b"", Status::Yes, b"before 1 2 tree 1 point 0 field 1\ndeps items 2 before 1 turn 0\n"),
    ];
    for (command, log, edits, status, report) in rows {
        let (ended, said) = answer_edited(alloc, command, log, edits)?;
        assert_eq!(rt; said.as_slice(), report);
        assert!(rt; ended == status);
    }
    Ok(())
}

/// Logs under `spare`, with some lines changed.
#[rattlefmt::skip]
#[test]
fn waits_that_others_imply(rt: HostRuntime) -> Result<(), Fail> {
    let alloc = rt.alloc();
    let rows: [(&str, &[u8], &[u8], Status, &[u8]); 11] = [
        ("spare", WRITE_THEN_READ, b"", Status::Yes, b"spare waits 0 of 1\n"),
        ("spare", STALE_COPY, b"19 run 3 4 1,3", Status::Yes, b"spare 4 1\nspare waits 1 of 4\n"),
        ("spare", TWO_TASKS, b"10 run 2 2 1,1", Status::Yes, b"spare 2 1\nspare waits 1 of 2\n"),
        ("spare", TWO_TASKS, b"10 run 2 2 1,1,1", Status::Yes, b"spare 2 1\nspare 2 1\nspare waits 2 of 3\n"),
        ("spare", TWO_TASKS, b"10 run 2 2 -", Status::Yes, b"spare waits 0 of 0\n"),
        ("spare", TWO_TASKS, b"10 run 2 2 1\n10 merge 3 2,1,2,1\n11 end 10", Status::Yes, b"spare 3 1\nspare 3 2\nspare 3 1\nspare waits 3 of 5\n"),
        ("spare", TWO_TASKS, b"9 merge 4 2,1\n9 run 1 1 -\n10 run 2 2 1\n10 merge 3 2,4\n11 end 11", Status::Yes, b"spare 4 1\nspare 3 2\nspare waits 2 of 5\n"),
        ("spare", WRITE_THEN_READ, b"12 run 1 1 2", Status::Refused, b"cycle 1 2\n"),
        ("spare", TWO_TASKS, b"9 run 1 1 1", Status::Refused, b"cycle 1\n"),
        ("spare", TWO_TASKS, b"10 run 2 2 7", Status::Fault, b"fault 10 undefined-event\n"),
        ("spare", TURNED_WRITES, b"6 req 1 1 1 1 rw ex\n8 req 2 1 1 1 rw ex", Status::Fault, b"fault 9 serial-order\n"),
    ];
    for (command, log, edits, status, report) in rows {
        let (ended, said) = answer_edited(alloc, command, log, edits)?;
        assert_eq!(rt; said.as_slice(), report);
        assert!(rt; ended == status);
    }
    Ok(())
}

/// A log whose frame or lines are changed to have a fault.
#[rattlefmt::skip]
#[test]
fn frames_and_lines_with_faults(rt: HostRuntime) -> Result<(), Fail> {
    let alloc = rt.alloc();
    let rows: [(&str, &[u8], &[u8], Status, &[u8]); 8] = [
        // The frame of a log.
        ("ordered", WRITE_THEN_READ, b"14", Status::Fault, b"fault 14 ended\n"),
        ("ordered", WRITE_THEN_READ, b"14 end 11", Status::Fault, b"fault 14 count\n"),
        ("deps", WRITE_THEN_READ, b"1 legion-spy 3", Status::Fault, b"fault 1 header\n"),
        ("ordered", WRITE_THEN_READ, b"14 end 12\n14 end 12", Status::Fault, b"fault 15 ended\n"),
        // Faults of lines come first.
        ("ordered", WRITE_THEN_READ, b"9 inst 1 1 1 1 plan\n14", Status::Fault, b"fault 9 form\n"),
        ("ordered", WRITE_THEN_READ, b"9 inst 01 1 1 1 plain", Status::Fault, b"fault 9 number\n"),
        ("ordered", WRITE_THEN_READ, b"2 ispace 1 3,1", Status::Fault, b"fault 2 order\n"),
        ("deps", WRITE_THEN_READ, b"2 jspace 1 0-3", Status::Fault, b"fault 2 word\n"),
    ];
    for (command, log, edits, status, report) in rows {
        let (ended, said) = answer_edited(alloc, command, log, edits)?;
        assert_eq!(rt; said.as_slice(), report);
        assert!(rt; ended == status);
    }
    Ok(())
}

#[rattlefmt::skip]
#[test]
fn whole_logs(rt: HostRuntime) -> Result<(), Fail> {
    let alloc = rt.alloc();
    let rows: [(&str, &[u8], Status, &[u8]); 17] = [
        ("ordered", b"", Status::Fault, b"fault 1 header\n"),
        ("deps", b"# nothing\n", Status::Fault, b"fault 2 header\n"),
        ("ordered", b"legion-spy 1\nispace 1 0-1048575\nend 1\n", Status::Yes, b"ordered tasks 0 pairs 0\n"),
        ("deps", b"legion-spy 1\nend 0\n", Status::Yes, b"deps items 0 before 0 turn 0\n"),
        ("spare", b"", Status::Fault, b"fault 1 header\n"),
        ("spare", b"legion-spy 1\nend 0\n", Status::Yes, b"spare waits 0 of 0\n"),
        ("ordered", b"legion-spy 1\nispace 1 0-1048575\nispace 2 5\nend 2\n", Status::Fault, b"fault 3 too-many-points\n"),
        ("ordered", b"legion-spy 1\nispace 1 0-9\npart 1 1 disjoint\nispace 2 0-5\nsub 1 0 2\nispace 3 5-9\nsub 1 1 3\nend 6\n", Status::Fault, b"fault 7 not-disjoint\n"),
        ("ordered", b"legion-spy 1\nispace 1 0-9\npart 1 1 aliased\nispace 2 0-5\nsub 1 0 2\nispace 3 5-9\nsub 1 1 3\nend 6\n", Status::Yes, b"ordered tasks 0 pairs 0\n"),
        ("check", b"legion-spy 1\nispace 1 0-1048575\nispace 2 5\nend 2\n", Status::Fault, b"fault 3 too-many-points\n"),
        ("check", b"legion-spy 1\nispace 1 0-9\npart 1 1 disjoint\nispace 2 0-5\nsub 1 0 2\nispace 3 5-9\nsub 1 1 3\nend 6\n", Status::Fault, b"fault 7 not-disjoint\n"),
        ("check", b"legion-spy 1\nispace 1 0-9\npart 1 1 aliased\nispace 2 0-5\nsub 1 0 2\nispace 3 5-9\nsub 1 1 3\nend 6\n", Status::Yes, b"accepted tasks 0 operations 0 reads 0\n"),
        // Pieces of an aliased partition: only those that share a point interfere, and it is the least that is shown.
        ("ordered", b"legion-spy 1\nispace 1 0-9\npart 1 1 aliased\nispace 2 0-4\nsub 1 0 2\nispace 3 4-9\nsub 1 1 3\nispace 4 6-7\nsub 1 2 4\nfields 1 1,2\ntree 1 1 1\ntask 1\nreq 1 1 2 1,2 rw ex\ntask 2\nreq 2 1 4 1,2 rw ex\ntask 3\nreq 3 1 3 2 ro ex\nrun 1 1 -\nrun 2 2 -\nrun 3 3 1,2\nend 19\n", Status::Yes, b"ordered tasks 3 pairs 2\n"),
        ("ordered", b"legion-spy 1\nispace 1 0-9\npart 1 1 aliased\nispace 2 0-4\nsub 1 0 2\nispace 3 4-9\nsub 1 1 3\nispace 4 6-7\nsub 1 2 4\nfields 1 1,2\ntree 1 1 1\ntask 1\nreq 1 1 2 1,2 rw ex\ntask 2\nreq 2 1 4 1,2 rw ex\ntask 3\nreq 3 1 3 2 ro ex\nrun 1 1 -\nrun 2 2 -\nrun 3 3 1\nend 19\n", Status::Refused, b"unordered 2 3 tree 1 point 6 field 2\n"),
        ("ordered", b"legion-spy 1\nispace 1 0-9\npart 1 1 aliased\nispace 2 0-4\nsub 1 0 2\nispace 3 4-9\nsub 1 1 3\nispace 4 6-7\nsub 1 2 4\nfields 1 1,2\ntree 1 1 1\ntask 1\nreq 1 1 2 1,2 rw ex\ntask 2\nreq 2 1 4 1,2 rw ex\ntask 3\nreq 3 1 3 2 ro ex\nrun 1 1 -\nrun 2 2 -\nrun 3 3 -\nend 19\n", Status::Refused, b"unordered 1 3 tree 1 point 4 field 2\n"),
        ("deps", b"legion-spy 1\nispace 1 0-9\npart 1 1 aliased\nispace 2 0-4\nsub 1 0 2\nispace 3 4-9\nsub 1 1 3\nispace 4 6-7\nsub 1 2 4\nfields 1 1,2\ntree 1 1 1\ntask 1\nreq 1 1 2 1,2 rw ex\ntask 2\nreq 2 1 4 1,2 rw ex\ntask 3\nreq 3 1 3 2 ro ex\nrun 1 1 -\nrun 2 2 -\nrun 3 3 -\nend 19\n", Status::Yes, b"before 1 3 tree 1 point 4 field 2\nbefore 2 3 tree 1 point 6 field 2\ndeps items 3 before 2 turn 0\n"),
        // A kind that is stronger at a later place than at the least one.
        ("deps", b"legion-spy 1\nispace 1 0-1\nispace 2 0\nispace 3 1\npart 1 1 disjoint\nsub 1 0 2\nsub 1 1 3\nfields 1 1\ntree 1 1 1\ntask 1\nreq 1 1 2 1 rw at\nreq 1 1 3 1 rw ex\ntask 2\nreq 2 1 1 1 rw at\nrun 1 1 -\nrun 2 2 1\nend 15\n", Status::Yes, b"before 1 2 tree 1 point 0 field 1\ndeps items 2 before 1 turn 0\n"),
    ];
    for (command, log, status, report) in rows {
        let (ended, said) = answer(alloc, command, log)?;
        assert_eq!(rt; said.as_slice(), report);
        assert!(rt; ended == status);
    }
    Ok(())
}
