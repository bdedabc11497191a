//! The values that a log wants.

use crate::framed_logs::log_of;
use crate::values::{Written, value_of};
use bumpalo::Bump;
use semantics::Place;
use serial_exec::Versions;
use std::alloc::Global;
use std::process::Abort;
use std::test::Fail;
use value_terms::Base;

/// An item by its position, a tree, a point and a field, and the value that the item wants there.
type Row<'r> = (usize, (u32, u64, u32), Written<'r>);

/// Reductions by two operators, two of them of one task, and a fill before a task that reads.
const RECORDS: &[u8] =
    b"task 1\nreq 1 1 1 1 rw ex\ntask 2\nreq 2 1 1 1 red:1 ex\nreq 2 1 2 1 red:1 ex\ntask 3\nreq 3 1 1 1 red:2 ex\nfill 5 1 2 1 7\ntask 4\nreq 4 1 1 1 ro ex\n";

const ROWS: [Row<'static>; 5] = [
    (0, (1, 0, 1), (Base::Init, &[])),
    (2, (1, 0, 1), (Base::Out(1), &[(1, 2, 1), (1, 2, 2)])),
    (4, (1, 0, 1), (Base::Const(7), &[])),
    (4, (1, 5, 1), (Base::Out(1), &[(1, 2, 1), (2, 3, 1)])),
    // No item covers this.
    (4, (2, 0, 1), (Base::Init, &[])),
];

/// Asks for the value of a row.
fn ask_row(rt: &impl Abort, alloc: Global, versions: &Versions, row: &Row<'_>) -> Result<(), Fail> {
    let (item, (tree, point, field), written) = row;
    if *item >= versions.len() {
        return Err("a row of no item".into());
    }
    let place = Place {
        tree: *tree,
        point: *point,
        field: *field,
    };
    let value = value_of(alloc, written)?;
    let Ok(wanted) = versions.want(alloc, *item, &place) else {
        return Err("no memory".into());
    };
    assert!(rt; wanted.same(&value), "item {item}, point {point}");
    Ok(())
}

#[test]
fn wanted_values(rt: HostRuntime) -> Result<(), Fail> {
    let alloc = rt.alloc();
    let bump = Bump::new(alloc);
    let log = log_of(alloc, &bump, RECORDS, 4)?;
    let (all, listed) = (
        Versions::build(alloc, &log),
        Versions::build_on(alloc, &log, &[0, 5]),
    );
    log.let_go();
    let (Ok(all), Ok(listed)) = (all, listed) else {
        return Err("no memory".into());
    };
    for row in &ROWS {
        ask_row(&rt, alloc, &all, row)?;
        ask_row(&rt, alloc, &listed, row)?;
    }
    Ok(())
}
