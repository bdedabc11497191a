//! Logs in which tasks change parts of one instance, or read parts of it.

use std::test::Fail;
use worked_answers::{Status, answer_edited};

/// Two tasks whose runs wait for nothing write the halves of an instance, and a third reads all of it.
const HALVES: &[u8] = b"legion-spy 1
ispace 1 0-9
ispace 2 0-4
ispace 3 5-9
ispace 4 4
part 1 1 aliased
sub 1 0 2
sub 1 1 3
sub 1 2 4
fields 1 1
tree 1 1 1
inst 1 1 1 1 plain
task 1
req 1 1 2 1 wd ex
map 1 1 1 1
run 1 1 -
task 2
req 2 1 3 1 wd ex
map 2 1 1 1
run 2 2 -
task 3
req 3 1 1 1 ro ex
map 3 1 1 1
run 3 3 1,2
end 23
";

#[rattlefmt::skip]
#[test]
fn logs_with_halos(rt: HostRuntime) -> Result<(), Fail> {
    let alloc = rt.alloc();
    let rows: [(&[u8], Status, &[u8]); 11] = [
        // At no point do the two write both.
        (b"", Status::Yes, b"accepted tasks 3 operations 3 reads 10\n"),
        (b"18 req 2 1 4 1 wd ex", Status::Refused, b"race 1 2 inst 1 point 4 field 1\n"),
        (b"24 run 3 3 1", Status::Refused, b"race 2 3 inst 1 point 5 field 1\n"),
        (b"24 run 3 3 2", Status::Refused, b"race 1 3 inst 1 point 0 field 1\n"),
        // Where the second waits for the first, whatever conflicts in the field is ordered.
        (b"20 run 2 2 1", Status::Yes, b"accepted tasks 3 operations 3 reads 10\n"),
        (b"18 req 2 1 4 1 wd ex\n20 run 2 2 1\n22 req 3 1 2 1 ro ex", Status::Yes, b"accepted tasks 3 operations 3 reads 5\n"),
        // What nobody reads is not judged.
        (b"22 req 3 1 1 1 wd ex", Status::Yes, b"accepted tasks 3 operations 3 reads 0\n"),
        (b"22 req 3 1 4 1 ro ex\n24 run 3 3 1", Status::Yes, b"accepted tasks 3 operations 3 reads 1\n"),
        // What one reads is, if others read less.
        (b"18 req 2 1 4 1 ro ex\n20 run 2 2 1", Status::Refused, b"differ task 3 req 1 point 5 field 1 got raw want init\n"),
        (b"12 inst 1 1 1 1 plain\n12 inst 2 1 1 1 plain\n22 req 3 1 4 1 ro ex\n23 map 3 1 1 2\n25 end 24", Status::Refused, b"differ task 3 req 1 point 4 field 1 got raw want out:1\n"),
        (b"12 inst 1 1 1 1 plain\n12 inst 2 1 1 1 plain\n23 map 3 1 1 2\n25 end 24", Status::Refused, b"differ task 3 req 1 point 0 field 1 got raw want out:1\n"),
    ];
    for (edits, status, report) in rows {
        let (ended, said) = answer_edited(alloc, "check", HALVES, edits)?;
        assert_eq!(rt; said.as_slice(), report);
        assert!(rt; ended == status);
    }
    Ok(())
}
