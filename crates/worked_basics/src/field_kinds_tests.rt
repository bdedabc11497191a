//! The first fields of logs, to which these can be cut.

use field_kinds::{cut_records, first_fields};
use log_reading::input_in;
use std::test::Fail;

/// Logs, each with its first fields, or with none where it is not cut.
const LOGS: [(&[u8], &[u64]); 7] = [
    // No list tells the eight apart.
    (
        b"fields 1 1,2,3,4,5,6,7,8\nreq 1 1 1 1,2,3,4,5,6,7,8 rw ex\n",
        &[1],
    ),
    // A map and an operation do.
    (
        b"fields 1 1,2,3,4,5,6,7,8\ninst 1 1 1 1,2,3,4,5,6,7,8 plain\nmap 1 1 5,6,7,8 1\nput 1 1 2,6 0 1 -\n",
        &[1, 2, 5, 6],
    ),
    // Field spaces may share fields.
    (
        b"fields 1 1,2,3,4\nfields 2 3,4,5,6,7,8\ncopy 1 2 1 3,4 1 -\n",
        &[1, 3],
    ),
    // Seven fields are too few, and five kinds of eight too many.
    (b"fields 1 1,2,3,4,5,6,7\nreq 1 1 1 1 rw ex\n", &[]),
    (
        b"fields 1 1,2,3,4,5,6,7,8\nfill 1 1 1 1 0\nfill 2 1 1 2 0\nreset 1 1 3 1 -\nfold 1 2 1 4 2 -\n",
        &[],
    ),
    // A field that is not declared, and one that is declared later.
    (b"fields 1 1,2,3,4,5,6,7,8\nreq 1 1 1 9 ro ex\n", &[]),
    (b"req 1 1 1 8 ro ex\nfields 1 1,2,3,4,5,6,7,8\n", &[1, 8]),
];

#[test]
fn first_fields_of_logs(rt: HostRuntime) -> Result<(), Fail> {
    let alloc = rt.alloc();
    for (bytes, want) in LOGS {
        let Ok(input) = input_in(alloc, bytes.to_vec(alloc)?) else {
            return Err("records that are not read".into());
        };
        match first_fields(alloc, &input.records)? {
            Some(firsts) => {
                assert_eq!(rt; firsts.as_slice(), want);
                assert!(rt; cut_records(alloc, &input.records, &firsts)?.is_some());
            }
            None => assert!(rt; want.is_empty()),
        }
    }
    Ok(())
}
