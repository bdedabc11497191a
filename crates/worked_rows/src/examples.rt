//! The logs of the folder `examples` with their reports, as its page lists them, and the faults of the logs that `docs/FORMAT.md` gives as examples. `.ci/examples` holds the files and the pages against these tables.

use std::alloc::Global;
use std::test::Fail;
use worked_answers::{
    EARLY_HALO, FILL_NEVER_PUT, FOLDED_EARLY, FOLDED_TWICE, FRESH_COPY, FULL_BARRIERS,
    GATHERED_REDUCTIONS, HALO_EXCHANGE, HALO_STENCIL, HALO_STENCIL_UNORDERED, LAUNCHED_HALO,
    LAUNCHED_OVERLAP, MERGED_WAITS, MISSING_COPY, MISSING_WAIT, NESTED_HALVES, NESTED_OVERREACH,
    NEVER_EMPTIED, STALE_COPY, STALE_HALO, Status, TURNED_WRITES, TWO_OPERATORS, TWO_TASKS,
    TWO_TASKS_UNORDERED, UNSTATED_TURN, WAITS_IN_A_CYCLE, WRITE_THEN_READ, WRITER_APART, answer,
    answer_why,
};

/// The records of a log without comments and blank lines, each on its line.
fn without_comments(alloc: Global, log: &[u8]) -> Result<Vec<u8>, Fail> {
    let mut records = Vec::new(alloc);
    for line in log.split(|b| *b == b'\n') {
        if line.first().is_some_and(|b| *b != b'#') {
            records.extend_from_slice(line)?;
            records.extend_from_slice(b"\n")?;
        }
    }
    Ok(records)
}

#[rattlefmt::skip]
#[test]
fn examples_have_their_reports(rt: HostRuntime) -> Result<(), Fail> {
    let alloc = rt.alloc();
    let rows: [(&[u8], &[u8], &[u8]); 24] = [
        (WRITE_THEN_READ, b"accepted tasks 2 operations 2 reads 4\n", b"ordered tasks 2 pairs 1\n"),
        (MISSING_WAIT, b"race 1 2 inst 1 point 0 field 1\n", b"unordered 1 2 tree 1 point 0 field 1\n"),
        (MERGED_WAITS, b"accepted tasks 3 operations 3 reads 8\n", b"ordered tasks 3 pairs 2\n"),
        (FULL_BARRIERS, b"accepted tasks 6 operations 6 reads 40\n", b"ordered tasks 6 pairs 10\n"),
        (WAITS_IN_A_CYCLE, b"cycle 1 2\n", b"cycle 1 2\n"),
        (MISSING_COPY, b"differ task 2 req 1 point 0 field 1 got raw want out:1\n", b"ordered tasks 2 pairs 1\n"),
        (STALE_COPY, b"differ task 3 req 1 point 0 field 1 got out:1 want out:2\n", b"ordered tasks 3 pairs 3\n"),
        (FRESH_COPY, b"accepted tasks 3 operations 4 reads 8\n", b"ordered tasks 3 pairs 3\n"),
        (WRITER_APART, b"accepted tasks 3 operations 3 reads 4\n", b"unordered 1 3 tree 1 point 0 field 1\n"),
        (FILL_NEVER_PUT, b"differ task 2 req 1 point 0 field 1 got raw want const:0\n", b"ordered tasks 1 pairs 0\n"),
        (GATHERED_REDUCTIONS, b"accepted tasks 3 operations 5 reads 1\n", b"ordered tasks 3 pairs 2\n"),
        (FOLDED_TWICE, b"differ task 3 req 1 point 0 field 1 got init+1[1.1*2,2.1*2] want init+1[1.1*1,2.1*1]\n", b"ordered tasks 3 pairs 2\n"),
        (FOLDED_EARLY, b"race 3 4 inst 2 point 0 field 1\n", b"unordered 2 3 tree 1 point 0 field 1\n"),
        (NEVER_EMPTIED, b"differ task 3 req 1 point 0 field 1 got raw want init+1[1.1*1,2.1*1]\n", b"ordered tasks 3 pairs 2\n"),
        (TWO_OPERATORS, b"race 1 2 inst 1 point 0 field 1\n", b"unordered 1 2 tree 1 point 0 field 1\n"),
        (TURNED_WRITES, b"accepted tasks 2 operations 2 reads 8\n", b"ordered tasks 2 pairs 1\n"),
        (UNSTATED_TURN, b"differ task 2 req 1 point 0 field 1 got init want out:1\n", b"unordered 1 2 tree 1 point 0 field 1\n"),
        (HALO_EXCHANGE, b"accepted tasks 4 operations 8 reads 18\n", b"ordered tasks 4 pairs 4\n"),
        (STALE_HALO, b"differ task 4 req 1 point 4 field 1 got const:0 want out:3\n", b"ordered tasks 4 pairs 4\n"),
        (EARLY_HALO, b"differ task 4 req 1 point 4 field 1 got const:0 want out:3\n", b"ordered tasks 4 pairs 4\n"),
        (TWO_TASKS, b"fault 6 unmapped\n", b"ordered tasks 2 pairs 1\n"),
        (TWO_TASKS_UNORDERED, b"fault 6 unmapped\n", b"unordered 1 2 tree 1 point 0 field 1\n"),
        (HALO_STENCIL, b"fault 23 unmapped\n", b"ordered tasks 6 pairs 7\n"),
        (HALO_STENCIL_UNORDERED, b"fault 23 unmapped\n", b"unordered 3 5 tree 1 point 7 field 1\n"),
    ];
    for (log, checked, ordered) in rows {
        let (_, said) = answer(alloc, "check", log)?;
        assert_eq!(rt; said.as_slice(), checked);
        let (_, said) = answer(alloc, "ordered", log)?;
        assert_eq!(rt; said.as_slice(), ordered);
        let (_, printed) = answer(alloc, "print", log)?;
        assert_eq!(rt; printed, without_comments(alloc, log)?);
    }
    Ok(())
}

#[rattlefmt::skip]
#[test]
fn examples_have_their_lists(rt: HostRuntime) -> Result<(), Fail> {
    let alloc = rt.alloc();
    let rows: [(&str, &[u8], &[u8]); 7] = [
        ("deps", WRITE_THEN_READ, b"before 1 2 tree 1 point 0 field 1\ndeps items 2 before 1 turn 0\n"),
        ("deps", FILL_NEVER_PUT, b"before 1 2 tree 1 point 0 field 1\ndeps items 2 before 1 turn 0\n"),
        ("deps", GATHERED_REDUCTIONS, b"before 1 3 tree 1 point 0 field 1\nbefore 2 3 tree 1 point 0 field 1\ndeps items 3 before 2 turn 0\n"),
        ("deps", TURNED_WRITES, b"turn 2 1 tree 1 point 0 field 1\ndeps items 2 before 0 turn 1\n"),
        ("deps", MERGED_WAITS, b"before 1 3 tree 1 point 0 field 1\nbefore 2 3 tree 1 point 4 field 1\ndeps items 3 before 2 turn 0\n"),
        ("spare", FULL_BARRIERS, b"spare 6 1\nspare 6 2\nspare waits 2 of 10\n"),
        ("spare", STALE_COPY, b"spare waits 0 of 3\n"),
    ];
    for (command, log, listed) in rows {
        let (_, said) = answer(alloc, command, log)?;
        assert_eq!(rt; said.as_slice(), listed);
    }
    Ok(())
}

#[rattlefmt::skip]
#[test]
fn examples_tell_where_values_came_from(rt: HostRuntime) -> Result<(), Fail> {
    let alloc = rt.alloc();
    let rows: [(&[u8], [&str; 4], &[u8]); 6] = [
        (STALE_COPY, ["3", "1", "0", "1"], b"why task 3 req 1 point 0 field 1\ncopy 2 inst 2 adds 0\nwrite 1 inst 1 adds 0\n"),
        (FRESH_COPY, ["3", "1", "0", "1"], b"why task 3 req 1 point 0 field 1\ncopy 3 inst 2 adds 0\nwrite 2 inst 1 adds 0\n"),
        (MISSING_COPY, ["2", "1", "0", "1"], b"why task 2 req 1 point 0 field 1\nstart inst 2 adds 0\n"),
        (EARLY_HALO, ["4", "1", "4", "1"], b"why task 4 req 1 point 4 field 1\ncopy 6 inst 1 adds 0\nput 2 inst 2 adds 0\n"),
        (STALE_HALO, ["4", "1", "4", "1"], b"why task 4 req 1 point 4 field 1\nput 1 inst 1 adds 0\n"),
        (FOLDED_TWICE, ["3", "1", "0", "1"], b"why task 3 req 1 point 0 field 1\nstart inst 1 adds 2\n"),
    ];
    for (log, read, links) in rows {
        let (status, said) = answer_why(alloc, read, log)?;
        assert!(rt; status == Status::Yes);
        assert_eq!(rt; said.as_slice(), links);
    }
    Ok(())
}

/// Each launch log under `launched`. What `expand` writes of it has the same report under `check`, or is the same fault.
#[rattlefmt::skip]
#[test]
fn examples_of_launches_have_their_reports(rt: HostRuntime) -> Result<(), Fail> {
    let alloc = rt.alloc();
    let rows: [(&[u8], &[u8]); 2] = [
        (LAUNCHED_HALO, b"accepted tasks 4 operations 8 reads 18\n"),
        (LAUNCHED_OVERLAP, b"fault 13 launch-interference\n"),
    ];
    for (log, launched) in rows {
        let (_, said) = answer(alloc, "launched", log)?;
        assert_eq!(rt; said.as_slice(), launched);
        let (status, written) = answer(alloc, "expand", log)?;
        if status == Status::Yes {
            let (_, checked) = answer(alloc, "check", &written)?;
            assert_eq!(rt; checked.as_slice(), launched);
        } else {
            assert_eq!(rt; written.as_slice(), launched);
        }
    }
    Ok(())
}

/// Each nested log under `nested`.
#[rattlefmt::skip]
#[test]
fn examples_of_groups_have_their_reports(rt: HostRuntime) -> Result<(), Fail> {
    let alloc = rt.alloc();
    let rows: [(&[u8], &[u8]); 2] = [
        (NESTED_HALVES, b"nested tasks 4 groups 3 free 1\n"),
        (NESTED_OVERREACH, b"unlicensed group 4 req 2 group 2 tree 1 point 4 field 1\n"),
    ];
    for (log, report) in rows {
        let (_, said) = answer(alloc, "nested", log)?;
        assert_eq!(rt; said.as_slice(), report);
    }
    Ok(())
}

/// The examples of faults in `docs/FORMAT.md` that are whole logs.
#[rattlefmt::skip]
#[test]
fn faults_are_as_the_page_has_them(rt: HostRuntime) -> Result<(), Fail> {
    let alloc = rt.alloc();
    let rows: [(&[u8], &[u8]); 27] = [
        (b"legion-spy 1\nend 1\n", b"fault 2 count\n"),
        (b"legion-spy 1\ntask 1\ntask 1\nrun 1 1 -\nend 3\n", b"fault 3 repeated-id\n"),
        (b"legion-spy 1\ntask 1\nreq 1 1 1 1 ro ex\nrun 1 1 -\nend 3\n", b"fault 3 unknown-id\n"),
        (b"legion-spy 1\nispace 1 0-1048576\nend 1\n", b"fault 2 too-many-points\n"),
        (b"legion-spy 1\nispace 1 0-1\nispace 2 0\npart 1 1 aliased\nsub 1 0 2\nsub 1 1 2\nend 5\n", b"fault 6 space-in-two\n"),
        (b"legion-spy 1\nispace 1 0-1\nispace 2 0\npart 1 1 aliased\npart 2 2 aliased\nsub 1 0 2\nend 5\n", b"fault 6 late-sub\n"),
        (b"legion-spy 1\nispace 1 0-1\nispace 2 1-2\npart 1 1 aliased\nsub 1 0 2\nend 4\n", b"fault 5 not-within\n"),
        (b"legion-spy 1\nispace 1 0-1\nispace 2 0-1\nispace 3 1\npart 1 1 disjoint\nsub 1 0 2\nsub 1 1 3\nend 6\n", b"fault 7 not-disjoint\n"),
        (b"legion-spy 1\nispace 1 0-1\nispace 2 0\npart 1 1 aliased\nsub 1 0 2\nfields 1 1\ntree 1 2 1\nend 6\n", b"fault 7 not-root\n"),
        (b"legion-spy 1\nispace 1 0\nispace 2 0\nfields 1 1\ntree 1 1 1\nfill 1 1 2 1 0\nend 5\n", b"fault 6 not-in-tree\n"),
        (b"legion-spy 1\nispace 1 0\nfields 1 1\ntree 1 1 1\nfill 1 1 1 2 0\nend 4\n", b"fault 5 fields\n"),
        (b"legion-spy 1\nispace 1 0\nfields 1 1\ntree 1 1 1\ntask 1\nreq 1 1 1 1 ro ex\nreq 1 1 1 1 rw ex\nrun 1 1 -\nend 7\n", b"fault 7 self-interference\n"),
        (b"legion-spy 1\nispace 1 0\nfields 1 1\ntree 1 1 1\ntree 2 1 1\ninst 1 1 1 1 plain\ninst 2 2 1 1 plain\ncopy 1 2 1 1 1 -\nend 7\n", b"fault 8 wrong-tree\n"),
        (b"legion-spy 1\nispace 1 0\nfields 1 1\ntree 1 1 1\ninst 1 1 1 1 plain\nreset 1 1 1 1 -\nend 5\n", b"fault 6 wrong-kind\n"),
        (b"legion-spy 1\nispace 1 0-1\nispace 2 0\nfields 1 1\ntree 1 1 1\ninst 1 1 2 1 plain\nput 1 1 1 0 1 -\nend 6\n", b"fault 7 not-covered\n"),
        (b"legion-spy 1\nispace 1 0\nfields 1 1\ntree 1 1 1\ntask 1\nreq 1 1 1 1 ro ex\ninst 1 1 1 1 plain\nmap 1 1 1 1\nmap 1 1 1 1\nrun 1 1 -\nend 9\n", b"fault 9 mapped-twice\n"),
        (b"legion-spy 1\ntask 1\nend 1\n", b"fault 2 no-run\n"),
        (b"legion-spy 1\ntask 1\nrun 1 1 -\nrun 1 2 -\nend 3\n", b"fault 4 two-runs\n"),
        (b"legion-spy 1\nmerge 1 -\nmerge 1 -\nend 2\n", b"fault 3 repeated-event\n"),
        (b"legion-spy 1\nmerge 1 2\nend 1\n", b"fault 2 undefined-event\n"),
        (b"legion-spy 1\ntask 1\ntask 2\nserial 1\nrun 1 1 -\nrun 2 2 -\nend 5\n", b"fault 4 serial\n"),
        (b"legion-spy 1\nispace 1 0-1048575\nfields 1 1,2\ntree 1 1 1\ninst 1 1 1 1,2 plain\nend 4\n", b"fault 5 too-many-cells\n"),
        (b"legion-spy 1\nispace 1 0-1048575\nfields 1 1,2,3,4,5\ntree 1 1 1\nfill 1 1 1 1,2,3,4,5 0\nend 4\n", b"fault 5 too-many-accesses\n"),
        (b"legion-spy 1\nispace 1 0:0-3\nend 1\n", b"fault 2 version\n"),
        (b"legion-spy 2\nispace 1 0-4294967295:0-4294967295\nfields 1 1\ntree 1 1 1\ntask 1\nreq 1 1 1 1 ro ex\nrun 1 1 -\nend 6\n", b"fault 8 too-many-reads\n"),
        (b"legion-spy 1\nispace 1 0\nfields 1 1\ntree 1 1 1\nfill 1 1 1 1 0\nfill 2 1 1 1 0\nserial 2 1\nend 6\n", b"fault 7 serial-order\n"),
        (b"legion-spy 1\nispace 1 0\nfields 1 1\ntree 1 1 1\ntask 1\nreq 1 1 1 1 ro ex\nrun 1 1 -\nend 6\n", b"fault 6 unmapped\n"),
    ];
    for (log, fault) in rows {
        let (_, said) = answer(alloc, "check", log)?;
        assert_eq!(rt; said.as_slice(), fault);
    }
    Ok(())
}
