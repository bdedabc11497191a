//! The first points of a log, one of each kind.

use crate::framed_logs::log_of;
use bumpalo::Bump;
use log_decl::Log;
use point_kinds::FirstPoints;
use region_tree::ArenaSet;
use std::alloc::Global;
use std::test::Fail;
use value_terms::Memory;

/// What lies on both sides of point 22 is of one kind, and so is point 30.
#[test]
fn first_points_of_a_log(rt: HostRuntime) -> Result<(), Fail> {
    let alloc = rt.alloc();
    let bump = Bump::new(alloc);
    let log = log_of(alloc, &bump, b"ispace 6 20-25,30\nispace 7 22\n", 0)?;
    let found = FirstPoints::of(alloc, &log);
    log.let_go();
    let firsts = found.ok().ok_or("no memory")?;
    assert_eq!(rt; firsts.as_slice(), [0u64, 4, 5, 7, 20, 22].as_slice());
    Ok(())
}

/// The first points of a log that are read.
fn firsts_read<'a, P: ArenaSet<'a>>(
    alloc: Global,
    log: &Log<'a, P>,
) -> Result<FirstPoints, Memory> {
    let firsts = FirstPoints::of(alloc, log)?;
    firsts.read_in(alloc, log)
}

/// A task reads space 4 and updates space 5, which is empty, and only writes space 2.
#[test]
fn first_points_that_are_read(rt: HostRuntime) -> Result<(), Fail> {
    let alloc = rt.alloc();
    let bump = Bump::new(alloc);
    let records =
        b"ispace 6 20-25,30\ntask 1\nreq 1 1 4 1 ro ex\nreq 1 1 5 1 rw ex\nreq 1 1 2 2 wd ex\n";
    let log = log_of(alloc, &bump, records, 1)?;
    let found = firsts_read(alloc, &log);
    log.let_go();
    let read = found.ok().ok_or("no memory")?;
    assert_eq!(rt; read.as_slice(), [4u64, 5].as_slice());
    Ok(())
}
