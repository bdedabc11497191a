//! Ids that ascend or do not, and lists of few or many numbers.

use std::test::Fail;
use worked_answers::{Status, answer_edited};

/// Three tasks in a chain of waits, with ids and events that ascend but do not follow one another.
const GAPS: &[u8] = b"legion-spy 1
ispace 1 0
fields 1 1,2
tree 1 1 1
inst 4 1 1 1,2 plain
task 3
req 3 1 1 1 wd ex
map 3 1 1 4
task 7
req 7 1 1 1 rw ex
map 7 1 1 4
task 20
req 20 1 1 1 ro ex
map 20 1 1 4
run 3 2 -
run 7 9 2
run 20 21 9
end 16
";

#[test]
#[rattlefmt::skip]
fn ids_in_any_order(rt: HostRuntime) -> Result<(), Fail> {
    let alloc = rt.alloc();
    let rows: [(&[u8], Status, &[u8]); 13] = [
        (b"", Status::Yes, b"accepted tasks 3 operations 3 reads 2\n"),
        (b"12 task 5\n13 req 5 1 1 1 ro ex\n14 map 5 1 1 4\n17 run 5 21 9", Status::Yes, b"accepted tasks 3 operations 3 reads 2\n"),
        (b"12 task 3", Status::Fault, b"fault 12 repeated-id\n"),
        // The last one repeats an id once they ascend no more.
        (b"9 task 2\n10 req 2 1 1 1 rw ex\n11 map 2 1 1 4\n12 task 2\n16 run 2 9 2", Status::Fault, b"fault 12 repeated-id\n"),
        (b"13 req 19 1 1 1 ro ex", Status::Fault, b"fault 13 unknown-id\n"),
        (b"15 run 3 30 -\n16 run 7 9 30", Status::Yes, b"accepted tasks 3 operations 3 reads 2\n"),
        (b"17 run 20 9 2", Status::Fault, b"fault 17 repeated-event\n"),
        (b"17 run 20 21 8", Status::Fault, b"fault 17 undefined-event\n"),
        // A requirement comes after those of later tasks.
        (b"14 map 20 1 1 4\n14 req 3 1 1 2 wd ex\n14 map 3 2 2 4\n18 end 18", Status::Yes, b"accepted tasks 3 operations 3 reads 2\n"),
        (b"14 map 20 1 1 4\n14 req 3 1 1 2 wd ex\n14 map 3 3 2 4\n18 end 18", Status::Fault, b"fault 16 unknown-id\n"),
        (b"5 inst 4 1 1 1,2 plain\n5 inst 2 1 1 1,2 plain\n14 map 20 1 1 2\n18 end 17", Status::Refused, b"differ task 20 req 1 point 0 field 1 got raw want out:7\n"),
        // Five events are waited on, and the last of them counts.
        (b"16 merge 30 -\n16 merge 31 -\n16 merge 32 -\n16 merge 33 -\n16 run 7 9 2\n17 run 20 21 30,31,32,33,9\n18 end 20", Status::Yes, b"accepted tasks 3 operations 3 reads 2\n"),
        (b"16 merge 30 -\n16 merge 31 -\n16 merge 32 -\n16 merge 33 -\n16 run 7 9 2\n17 run 20 21 30,31,32,33,2\n18 end 20", Status::Refused, b"race 9 21 inst 4 point 0 field 1\n"),
    ];
    for (edits, status, report) in rows {
        let (ended, said) = answer_edited(alloc, "check", GAPS, edits)?;
        assert_eq!(rt; said.as_slice(), report);
        assert!(rt; ended == status);
    }
    Ok(())
}
