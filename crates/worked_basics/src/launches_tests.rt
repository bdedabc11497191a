//! What a launch log writes, and the faults of launches.

use launches::{ExpandEnd, expand};
use log_reading::launch_input_in;
use spy_grammar::{Code, write_record};
use std::alloc::Global;
use std::test::Fail;

/// The log that a launch log stands for, or the line and the code of its fault.
fn expanded(alloc: Global, text: &[u8]) -> Result<Result<Vec<u8>, (u32, Code)>, Fail> {
    let input = launch_input_in(alloc, text.to_vec(alloc)?)
        .ok()
        .ok_or("a line that spells no record")?;
    match expand(alloc, input.records, input.lines) {
        Ok(records) => {
            let mut written = Vec::new(alloc);
            for rec in &records {
                let line = write_record(alloc, rec).ok().ok_or("no memory")?;
                written.extend_from_slice(&line)?;
            }
            Ok(Ok(written))
        }
        Err(ExpandEnd::Fault { line, code }) => Ok(Err((line, code))),
        Err(ExpandEnd::Memory) => Err("no memory".into()),
    }
}

#[test]
fn launches_are_expanded(rt: HostRuntime) -> Result<(), Fail> {
    let alloc = rt.alloc();
    let text =
        b"legion-spy 1\nispace 1 0-3\npart 1 1 aliased\nispace 2 0-1\nsub 1 0 2\nlaunch 1 0\nlreq 1 1 1 1 wd ex\nend 6\n";
    let written = expanded(alloc, text)?.ok().ok_or("a fault")?;
    assert_eq!(rt;
        written.as_slice(),
        b"legion-spy 1\nispace 1 0-3\npart 1 1 aliased\nispace 2 0-1\nsub 1 0 2\ntask 1\nreq 1 1 2 1 wd ex\nend 6\n".as_slice()
    );
    Ok(())
}

/// What some records show, these records, how many there are with the four before them, and the line of the first interference.
type Row = (&'static str, &'static str, u32, Option<u32>);

/// Launches whose tasks use the same points of one space.
const INTERFERENCES: [Row; 12] = [
    (
        "a task of a later launch, and an lreq after it",
        "req 2 1 1 1 rw ex\nlaunch 1 0,1\nlreq 1 1 1 1 ro ex\n",
        7,
        Some(8),
    ),
    (
        "two before their launch",
        "req 1 1 1 1 rw ex\nreq 2 1 1 1 rw ex\nlaunch 1 0,1\n",
        7,
        None,
    ),
    (
        "two before their launch, and one after it",
        "req 1 1 1 1 rw ex\nreq 2 1 1 1 rw ex\nlaunch 1 0,1\nreq 1 1 1 2 rw ex\nreq 1 1 1 1 ro ex\n",
        9,
        Some(10),
    ),
    (
        "a space that comes late",
        "launch 1 0,1\nreq 1 1 2 1 rw ex\nispace 2 3-4\nreq 2 1 1 1 ro ex\n",
        8,
        Some(9),
    ),
    (
        "two before their space",
        "launch 1 0,1\nreq 1 1 2 1 rw ex\nreq 2 1 2 1 rw ex\nispace 2 3-4\n",
        8,
        None,
    ),
    (
        "two before their space, and one after it",
        "launch 1 0,1\nreq 1 1 2 1 rw ex\nreq 2 1 2 1 rw ex\nispace 2 3-4\nreq 2 1 2 2 rw ex\nreq 1 1 2 2 rw ex\n",
        10,
        Some(11),
    ),
    (
        "two launches of which one has two that clash",
        "launch 1 0,1\nlaunch 3 0,1\nreq 1 1 1 1 rw ex\nreq 3 1 1 1 rw ex\nreq 2 1 1 2 rw ex\nreq 4 1 1 1 ro ex\n",
        10,
        Some(11),
    ),
    (
        "launches that share a task",
        "launch 1 0,1\nlaunch 2 0,1\nreq 1 1 1 1 rw ex\nreq 3 1 1 1 rw ex\nreq 2 1 1 1 ro ex\n",
        9,
        Some(10),
    ),
    (
        "fields apart",
        "launch 1 0,1\nreq 1 1 1 1,3 rw ex\nreq 2 1 1 2,4 rw ex\n",
        7,
        None,
    ),
    (
        "trees apart",
        "launch 1 0,1\nreq 1 1 1 1 rw ex\nreq 2 2 1 1 rw ex\n",
        7,
        None,
    ),
    (
        "reductions with one operator",
        "launch 1 0,1\nlreq 1 1 1 1 red:7 ex\n",
        6,
        None,
    ),
    (
        "reductions with two operators",
        "launch 1 0,1\nlreq 1 1 1 1 red:7 ex\nreq 2 1 1 1,2 red:8 at\n",
        7,
        Some(8),
    ),
];

#[test]
fn first_interferences_are_found(rt: HostRuntime) -> Result<(), Fail> {
    let alloc = rt.alloc();
    for (what, records, count, line) in INTERFERENCES {
        let text = format!(in alloc;
            "legion-spy 1\nispace 1 0-9\npart 1 1 aliased\nsub 1 0 1\nsub 1 1 1\n{records}end {count}\n"
        )?;
        let found = expanded(alloc, text.as_bytes())?.err();
        let wanted = line.map(|line| (line, Code::LaunchInterference));
        assert!(rt; found == wanted, "at {what}");
    }
    Ok(())
}
