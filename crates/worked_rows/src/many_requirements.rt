//! A task of ten requirements, which interfere with one another or do not.

use std::test::Fail;
use worked_answers::{Status, answer_edited};

/// A task reads and writes ten fields, by a requirement each.
const TEN_REQUIREMENTS: &[u8] = b"legion-spy 1
ispace 1 0-1
fields 1 1,2,3,4,5,6,7,8,9,10
tree 1 1 1
inst 1 1 1 1,2,3,4,5,6,7,8,9,10 home
task 1
req 1 1 1 1 rw ex
req 1 1 1 2 rw ex
req 1 1 1 3 rw ex
req 1 1 1 4 rw ex
req 1 1 1 5 rw ex
req 1 1 1 6 rw ex
req 1 1 1 7 rw ex
req 1 1 1 8 rw ex
req 1 1 1 9 rw ex
req 1 1 1 10 rw ex
map 1 1 1 1
map 1 2 2 1
map 1 3 3 1
map 1 4 4 1
map 1 5 5 1
map 1 6 6 1
map 1 7 7 1
map 1 8 8 1
map 1 9 9 1
map 1 10 10 1
run 1 1 -
end 26
";

#[rattlefmt::skip]
#[test]
fn tasks_of_many_requirements(rt: HostRuntime) -> Result<(), Fail> {
    let alloc = rt.alloc();
    let rows: [(&[u8], Status, &[u8]); 9] = [
        (b"", Status::Yes, b"accepted tasks 1 operations 1 reads 20\n"),
        // A later requirement is held against each of the first four, and against those after them.
        (b"8 req 1 1 1 1 rw ex", Status::Fault, b"fault 8 self-interference\n"),
        (b"16 req 1 1 1 1 rw ex", Status::Fault, b"fault 16 self-interference\n"),
        (b"16 req 1 1 1 4 ro ex", Status::Fault, b"fault 16 self-interference\n"),
        (b"16 req 1 1 1 5 ro ex", Status::Fault, b"fault 16 self-interference\n"),
        (b"16 req 1 1 1 9 rw ex", Status::Fault, b"fault 16 self-interference\n"),
        (b"16 req 1 1 1 10 rw ex\n16 req 1 1 1 10 ro ex\n28 end 27", Status::Fault, b"fault 17 self-interference\n"),
        // Two that read agree, whichever they are.
        (b"7 req 1 1 1 1 ro ex\n16 req 1 1 1 1 ro ex\n26 map 1 10 1 1", Status::Yes, b"accepted tasks 1 operations 1 reads 20\n"),
        (b"15 req 1 1 1 9 ro ex\n16 req 1 1 1 9 ro ex\n26 map 1 10 9 1", Status::Yes, b"accepted tasks 1 operations 1 reads 20\n"),
    ];
    for (edits, status, report) in rows {
        let (ended, said) = answer_edited(alloc, "check", TEN_REQUIREMENTS, edits)?;
        assert_eq!(rt; said.as_slice(), report);
        assert!(rt; ended == status);
    }
    Ok(())
}
