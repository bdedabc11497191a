//! Lines of a stencil log, worked out by hand from what a stencil log is.

use log_gen::stencil;
use spy_grammar::{good, write_record};
use std::test::Fail;

/// Lines of the log of two pieces, counted from 0, with their numbers.
const LINES: [(usize, &[u8]); 10] = [
    (8, b"ispace 4 0-10\n"),
    (16, b"inst 1 1 4 1,2 plain\n"),
    (19, b"put 1 4 1 0 1 -\n"),
    (26, b"run 2 3 1\n"),
    (45, b"copy 1 2 6 1 7 5,4\n"),
    (46, b"copy 2 1 7 1 8 6,3\n"),
    (52, b"run 6 9 5,8\n"),
    (64, b"run 8 11 9,7\n"),
    (280, b"copy 2 1 7 1 62 60,57\n"),
    (281, b"end 280\n"),
];

#[test]
fn the_log_of_two_pieces_has_these_lines(rt: HostRuntime) -> Result<(), Fail> {
    let alloc = rt.alloc();
    let Ok(records) = stencil(alloc, 2) else {
        return Err("no memory".into());
    };
    for (k, text) in LINES {
        match records.get(k) {
            Some(rec) if good(rec) => {
                let line = write_record(alloc, rec).ok().ok_or("no memory")?;
                assert_eq!(rt; line.as_slice(), text);
            }
            _ => return Err("no line of a record".into()),
        }
    }
    Ok(())
}
