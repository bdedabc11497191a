//! Where values came from that tasks read, each question through `run`.

use std::test::Fail;
use worked_answers::{
    FRESH_COPY, GATHERED_REDUCTIONS, MISSING_WAIT, STALE_COPY, Status, TURNED_WRITES, TWO_TASKS,
    WAITS_IN_A_CYCLE, WRITE_THEN_READ, answer_why, edited,
};

/// Two tasks that reduce into the instance which a third one reads.
const TWO_REDUCTIONS: &[u8] = b"legion-spy 1
ispace 1 0
fields 1 1
tree 1 1 1
redop 1
task 1
req 1 1 1 1 red:1 ex
task 2
req 2 1 1 1 red:1 ex
task 3
req 3 1 1 1 ro ex
inst 1 1 1 1 home
map 1 1 1 1
map 2 1 1 1
map 3 1 1 1
run 1 1 -
run 2 2 -
run 3 3 1,2
end 17
";

/// A value that goes through three instances, with a reduction in the second.
const THREE_INSTANCES: &[u8] = b"legion-spy 1
ispace 1 0
fields 1 1
tree 1 1 1
redop 1
task 1
req 1 1 1 1 wd ex
task 2
req 2 1 1 1 red:1 ex
task 3
req 3 1 1 1 ro ex
inst 1 1 1 1 plain
inst 2 1 1 1 plain
inst 3 1 1 1 plain
map 1 1 1 1
map 2 1 1 2
map 3 1 1 3
run 1 1 -
copy 1 2 1 1 2 1
run 2 3 2
copy 2 3 1 1 4 3
run 3 5 4
end 21
";

#[rattlefmt::skip]
#[test]
fn values_are_traced_back(rt: HostRuntime) -> Result<(), Fail> {
    let alloc = rt.alloc();
    let rows: [(&[u8], &[u8], [&str; 4], Status, &[u8]); 27] = [
        // Copies, and what they copied.
        (STALE_COPY, b"", ["3", "1", "0", "1"], Status::Yes, b"why task 3 req 1 point 0 field 1\ncopy 2 inst 2 adds 0\nwrite 1 inst 1 adds 0\n"),
        (FRESH_COPY, b"", ["3", "1", "0", "1"], Status::Yes, b"why task 3 req 1 point 0 field 1\ncopy 3 inst 2 adds 0\nwrite 2 inst 1 adds 0\n"),
        (THREE_INSTANCES, b"", ["3", "1", "0", "1"], Status::Yes, b"why task 3 req 1 point 0 field 1\ncopy 4 inst 3 adds 0\ncopy 2 inst 2 adds 1\nwrite 1 inst 1 adds 0\n"),
        (THREE_INSTANCES, b"18 put 1 1 1 7 1 -\n18 run 1 6 4", ["3", "1", "0", "1"], Status::Fault, b"fault 24 count\n"),
        (THREE_INSTANCES, b"18 put 1 1 1 7 1 -\n18 run 1 6 4\n23 end 22", ["3", "1", "0", "1"], Status::Yes, b"why task 3 req 1 point 0 field 1\ncopy 4 inst 3 adds 0\ncopy 2 inst 2 adds 1\nput 1 inst 1 adds 0\n"),
        // What a task writes and then changes, and what it reads itself.
        (STALE_COPY, b"", ["2", "1", "3", "1"], Status::Yes, b"why task 2 req 1 point 3 field 1\nwrite 1 inst 1 adds 0\n"),
        (WRITE_THEN_READ, b"", ["2", "1", "3", "1"], Status::Yes, b"why task 2 req 1 point 3 field 1\nwrite 1 inst 1 adds 0\n"),
        (TURNED_WRITES, b"", ["2", "1", "0", "1"], Status::Yes, b"why task 2 req 1 point 0 field 1\nstart inst 1 adds 0\n"),
        (TURNED_WRITES, b"", ["1", "1", "0", "1"], Status::Yes, b"why task 1 req 1 point 0 field 1\nwrite 2 inst 1 adds 0\n"),
        // What was added on the way: into the instance itself, or folded into it from a reduction instance.
        (TWO_REDUCTIONS, b"", ["3", "1", "0", "1"], Status::Yes, b"why task 3 req 1 point 0 field 1\nstart inst 1 adds 2\n"),
        (GATHERED_REDUCTIONS, b"", ["3", "1", "0", "1"], Status::Yes, b"why task 3 req 1 point 0 field 1\nstart inst 1 adds 1\n"),
        // There is no such read: no such task, requirement, point or field, or one that does not read.
        (WRITE_THEN_READ, b"", ["1", "1", "0", "1"], Status::Refused, b"no read task 1 req 1 point 0 field 1\n"),
        (TWO_REDUCTIONS, b"", ["1", "1", "0", "1"], Status::Refused, b"no read task 1 req 1 point 0 field 1\n"),
        (STALE_COPY, b"", ["9", "1", "0", "1"], Status::Refused, b"no read task 9 req 1 point 0 field 1\n"),
        (STALE_COPY, b"", ["0", "0", "0", "0"], Status::Refused, b"no read task 0 req 0 point 0 field 0\n"),
        (STALE_COPY, b"", ["3", "2", "0", "1"], Status::Refused, b"no read task 3 req 2 point 0 field 1\n"),
        (STALE_COPY, b"", ["3", "1", "4", "1"], Status::Refused, b"no read task 3 req 1 point 4 field 1\n"),
        (STALE_COPY, b"", ["3", "1", "0", "2"], Status::Refused, b"no read task 3 req 1 point 0 field 2\n"),
        (STALE_COPY, b"", ["4294967295", "4294967295", "18446744073709551615", "4294967295"], Status::Refused, b"no read task 4294967295 req 4294967295 point 18446744073709551615 field 4294967295\n"),
        (STALE_COPY, b"", ["3", "1", "4294967296", "1"], Status::Refused, b"no read task 3 req 1 point 4294967296 field 1\n"),
        // A fault, a cycle or a race comes first, whatever is asked.
        (MISSING_WAIT, b"", ["2", "1", "0", "1"], Status::Refused, b"race 1 2 inst 1 point 0 field 1\n"),
        (MISSING_WAIT, b"", ["9", "1", "0", "1"], Status::Refused, b"race 1 2 inst 1 point 0 field 1\n"),
        (WAITS_IN_A_CYCLE, b"", ["2", "1", "0", "1"], Status::Refused, b"cycle 1 2\n"),
        (TWO_TASKS, b"", ["2", "1", "0", "1"], Status::Fault, b"fault 6 unmapped\n"),
        (TWO_TASKS, b"10 run 2 2 7", ["2", "1", "0", "1"], Status::Fault, b"fault 10 undefined-event\n"),
        (b"", b"", ["2", "1", "0", "1"], Status::Fault, b"fault 1 header\n"),
        (b"legion-spy 1\nend 0\n", b"", ["2", "1", "0", "1"], Status::Refused, b"no read task 2 req 1 point 0 field 1\n"),
    ];
    for (log, edits, read, status, report) in rows {
        let log = edited(alloc, log, edits)?;
        let (ended, said) = answer_why(alloc, read, &log)?;
        assert_eq!(rt; said.as_slice(), report);
        assert!(rt; ended == status);
    }
    Ok(())
}
