//! The text of a log, and the log that it declares.

use bumpalo::Bump;
use log_decl::{Log, declare};
use log_reading::input_in;
use point_set::RectSet;
use std::alloc::Global;
use std::test::Fail;

/// Space 1 is cut into 2 and 3, which are disjoint, and 4 meets both. Trees 1 and 2 share space 1.
const REGION: &[u8] =
    b"ispace 1 0-9\nispace 2 0-4\nispace 3 5-9\nispace 4 4-6\nispace 5 -\npart 1 1 disjoint\nsub 1 0 2\nsub 1 1 3\npart 2 1 aliased\nsub 2 0 4\nsub 2 1 5\nfields 1 1,2\ntree 1 1 1\ntree 2 1 1\nredop 1\nredop 2\n";

/// A log of these records: after them, a run of each of so many tasks, 1 and so on; before them, the spaces and trees that all logs have here.
pub fn framed(alloc: Global, records: &[u8], tasks: u32) -> Result<Vec<u8>, Fail> {
    let mut text = b"legion-spy 1\n".to_vec(alloc)?;
    text.extend_from_slice(REGION)?;
    text.extend_from_slice(records)?;
    for task in 0..tasks {
        let id = task.saturating_add(1);
        text.extend_from_slice(format!(in alloc; "run {id} {id} -\n")?.as_bytes())?;
    }
    let count = text
        .iter()
        .filter(|b| **b == b'\n')
        .count()
        .saturating_sub(1);
    text.extend_from_slice(format!(in alloc; "end {count}\n")?.as_bytes())?;
    Ok(text)
}

/// The log of such records.
pub fn log_of<'a>(
    alloc: Global,
    bump: &'a Bump,
    records: &[u8],
    tasks: u32,
) -> Result<Log<'a, RectSet<'a>>, Fail> {
    let text = framed(alloc, records, tasks)?;
    let Ok(input) = input_in(alloc, text) else {
        return Err("a text that spells no records".into());
    };
    match declare::<RectSet<'a>>(alloc, bump, &input.records, input.lines) {
        Ok(log) => Ok(log),
        Err(_) => Err("a log with a fault".into()),
    }
}
