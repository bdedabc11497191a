//! Logs whose fields are told apart by few lists, so that a narrow log is looked at first.

use std::test::Fail;
use worked_answers::{Status, answer, edited};

/// A task writes eight fields, which no list tells apart, and a task whose run waits for it reads them.
const EIGHT_FIELDS: &[u8] = b"legion-spy 1
ispace 1 0-3
fields 1 1,2,3,4,5,6,7,8
tree 1 1 1
task 1
req 1 1 1 1,2,3,4,5,6,7,8 wd ex
task 2
req 2 1 1 1,2,3,4,5,6,7,8 ro ex
inst 1 1 1 1,2,3,4,5,6,7,8 plain
map 1 1 1,2,3,4,5,6,7,8 1
map 2 1 1,2,3,4,5,6,7,8 1
run 1 1 -
run 2 2 1
end 12
";

#[rattlefmt::skip]
#[test]
fn logs_with_alike_fields(rt: HostRuntime) -> Result<(), Fail> {
    let alloc = rt.alloc();
    let rows: [(&[u8], Status, &[u8]); 12] = [
        // All fields are alike, and the first of them is shown.
        (b"", Status::Yes, b"accepted tasks 2 operations 2 reads 32\n"),
        (b"13 run 2 2 -", Status::Refused, b"race 1 2 inst 1 point 0 field 1\n"),
        (b"12 run 1 1 2", Status::Refused, b"cycle 1 2\n"),
        (b"6 req 1 1 1 1,2,3,4,5,6,7,8 ro ex", Status::Refused, b"differ task 1 req 1 point 0 field 1 got raw want init\n"),
        // A requirement tells the first four from the others.
        (b"8 req 2 1 1 5,6,7,8 ro ex\n11 map 2 1 5,6,7,8 1", Status::Yes, b"accepted tasks 2 operations 2 reads 16\n"),
        (b"8 req 2 1 1 5,6,7,8 ro ex\n11 map 2 1 5,6,7,8 1\n13 run 2 2 -", Status::Refused, b"race 1 2 inst 1 point 0 field 5\n"),
        (b"6 req 1 1 1 1,2,4,6 wd ex\n10 map 1 1 1,2,4,6 1", Status::Refused, b"differ task 2 req 1 point 0 field 3 got raw want init\n"),
        // Instances and maps tell fields apart: four of them, and one alone that is mapped elsewhere.
        (b"9 inst 1 1 1 1,2,3,4 plain\n9 inst 2 1 1 5,6,7,8 plain\n10 map 1 1 1,2,3,4 1\n10 map 1 1 5,6,7,8 2\n11 map 2 1 1,2,3,4 1\n11 map 2 1 5,6,7,8 2\n14 end 15", Status::Yes, b"accepted tasks 2 operations 2 reads 32\n"),
        (b"9 inst 1 1 1 1,2,3,4,5,6,7,8 plain\n9 inst 2 1 1 6 home\n11 map 2 1 1,2,3,4,5,7,8 1\n11 map 2 1 6 2\n14 end 14", Status::Refused, b"differ task 2 req 1 point 0 field 6 got init want out:1\n"),
        // So does an operation on data, which empties two fields once more.
        (b"13 put 1 1 3,7 5 2 1\n13 run 2 3 2\n14 end 13", Status::Refused, b"differ task 2 req 1 point 0 field 3 got const:5 want out:1\n"),
        // What a map or a field space lacks is a fault as ever.
        (b"3 fields 1 1,2,3,4,5,6,7", Status::Fault, b"fault 6 fields\n"),
        (b"11 map 2 1 1,2,3,4,5,6,7 1", Status::Fault, b"fault 8 unmapped\n"),
    ];
    for (edits, status, report) in rows {
        let log = edited(alloc, EIGHT_FIELDS, edits)?;
        let (ended, said) = answer(alloc, "check", &log)?;
        assert_eq!(rt; said.as_slice(), report);
        assert!(rt; ended == status);
    }
    Ok(())
}
