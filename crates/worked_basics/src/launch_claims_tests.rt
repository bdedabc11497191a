//! The first records at which claims of launches clash, found by hand.

use launch_claims::{Claim, LaunchTasks, Requirement, first_clash, first_interference};
use point_set::{PointSet, Rect, RectSet, RunSet};
use privilege::Priv;
use std::alloc::Global;
use std::test::Fail;

/// A claim: its record, its task, its privilege, and the first and the last point.
type Row = (u32, u32, Priv, u64, u64);

/// Claims on one field, and the first record at which they clash.
const CASES: [(&str, &[Row], Option<u32>); 16] = [
    ("none", &[], None),
    (
        "readers",
        &[(1, 1, Priv::Ro, 0, 9), (2, 2, Priv::Ro, 5, 9)],
        None,
    ),
    (
        "one task twice",
        &[(1, 1, Priv::Rw, 0, 9), (2, 1, Priv::Ro, 5, 9)],
        None,
    ),
    (
        "writers side by side",
        &[(1, 1, Priv::Rw, 5, 9), (2, 2, Priv::Rw, 0, 4)],
        None,
    ),
    (
        "writers of one point",
        &[(1, 1, Priv::Rw, 4, 9), (2, 2, Priv::Rw, 0, 4)],
        Some(2),
    ),
    (
        "two that discard what was there",
        &[(1, 1, Priv::Wd, 4, 4), (2, 2, Priv::Wd, 4, 4)],
        Some(2),
    ),
    (
        "a writer below many readers",
        &[
            (1, 1, Priv::Ro, 0, 9),
            (1, 2, Priv::Ro, 1, 8),
            (1, 3, Priv::Ro, 2, 7),
            (4, 4, Priv::Rw, 9, 9),
        ],
        Some(4),
    ),
    (
        "reductions with one operator",
        &[(1, 1, Priv::Red(7), 0, 9), (2, 2, Priv::Red(7), 0, 9)],
        None,
    ),
    (
        "reductions with two operators",
        &[(1, 1, Priv::Red(7), 0, 9), (2, 2, Priv::Red(8), 9, 9)],
        Some(2),
    ),
    (
        "a reduction and a reader",
        &[(1, 1, Priv::Red(7), 0, 9), (2, 2, Priv::Ro, 9, 9)],
        Some(2),
    ),
    (
        "a long run over short ones",
        &[
            (1, 1, Priv::Rw, 0, 99),
            (2, 1, Priv::Ro, 10, 10),
            (3, 1, Priv::Wd, 20, 20),
            (4, 1, Priv::Ro, 30, 40),
            (5, 2, Priv::Ro, 99, 200),
        ],
        Some(5),
    ),
    (
        "a task that reads and writes, and one that reads",
        &[
            (1, 1, Priv::Ro, 0, 9),
            (2, 1, Priv::Rw, 2, 5),
            (3, 2, Priv::Ro, 5, 9),
        ],
        Some(3),
    ),
    (
        "a task that writes where only the others' reading is over",
        &[
            (1, 1, Priv::Ro, 0, 9),
            (2, 2, Priv::Ro, 1, 3),
            (3, 1, Priv::Rw, 4, 5),
        ],
        None,
    ),
    (
        "a run that another has behind it",
        &[
            (1, 1, Priv::Ro, 0, 9),
            (2, 2, Priv::Ro, 1, 6),
            (3, 3, Priv::Ro, 2, 4),
            (4, 1, Priv::Rw, 6, 6),
        ],
        Some(4),
    ),
    (
        "the least of the records that clash",
        &[
            (1, 1, Priv::Rw, 50, 59),
            (2, 2, Priv::Rw, 0, 9),
            (3, 3, Priv::Rw, 55, 55),
            (4, 4, Priv::Rw, 5, 5),
            (4, 5, Priv::Rw, 5, 5),
        ],
        Some(3),
    ),
    (
        "a record that clashes with itself",
        &[
            (u32::MAX, 1, Priv::Rw, 0, u64::MAX),
            (u32::MAX, 2, Priv::Rw, u64::MAX, u64::MAX),
        ],
        Some(u32::MAX),
    ),
];

/// The claim of a row, on this field of a tree.
fn claim_of(row: &Row, tree: u32, field: u32) -> Claim {
    let (record, task, access, first, last) = *row;
    Claim {
        tree,
        field,
        first,
        last,
        task,
        access,
        record,
    }
}

/// The first record at which some claims clash.
fn told(alloc: Global, claims: &[Claim]) -> Result<Option<u32>, Fail> {
    match first_clash(alloc, claims) {
        Ok(first) => Ok(first),
        Err(_) => Err("no memory".into()),
    }
}

#[test]
fn first_records_are_found(rt: HostRuntime) -> Result<(), Fail> {
    for (what, rows, first) in CASES {
        let mut claims = Vec::new(rt.alloc());
        for row in rows {
            claims.push(claim_of(row, 1, 1))?;
        }
        assert_eq!(rt; told(rt.alloc(), claims.as_slice())?, first, "{what}");
    }
    Ok(())
}

#[test]
fn places_are_apart(rt: HostRuntime) -> Result<(), Fail> {
    let rows = [(1, 1, Priv::Rw, 0, 9), (2, 2, Priv::Rw, 5, 7)];
    for (tree, field, first) in [(1, 1, Some(2)), (2, 1, None), (1, 2, None)] {
        let claims = [claim_of(&rows[0], 1, 1), claim_of(&rows[1], tree, field)];
        assert_eq!(rt; told(rt.alloc(), claims.as_slice())?, first);
    }
    Ok(())
}

/// A requirement of one launch: its points, its task, the record that asks for it, and the one that declares its points.
fn requirement<P: PointSet + Copy>(
    set: P,
    task: u32,
    record: u32,
    declared: u32,
) -> Requirement<'static, P> {
    Requirement {
        task,
        tree: 1,
        set,
        fields: &[2],
        access: Priv::Rw,
        record,
        declared,
    }
}

/// A launch of tasks 4 and 5.
fn launch() -> LaunchTasks {
    LaunchTasks {
        base: 4,
        end: 6,
        number: 3,
    }
}

#[test]
fn first_interferences_are_told(rt: HostRuntime) -> Result<(), Fail> {
    let set = RunSet::over(&[(0, 3), (8, 9)]).ok_or("runs in order")?;
    for (one, other, first) in [
        (
            requirement(set, 4, 5, 1),
            requirement(set, 5, 7, 1),
            Some(7),
        ),
        (
            requirement(set, 4, 2, 1),
            requirement(set, 5, 7, 1),
            Some(7),
        ),
        (requirement(set, 4, 2, 1), requirement(set, 5, 1, 0), None),
        (
            requirement(set, 4, 5, 6),
            requirement(set, 5, 7, 1),
            Some(7),
        ),
        (requirement(set, 4, 5, 8), requirement(set, 5, 7, 1), None),
        (requirement(set, 4, 5, 1), requirement(set, 4, 7, 1), None),
        (requirement(set, 4, 5, 1), requirement(set, 6, 7, 1), None),
    ] {
        match first_interference(rt.alloc(), [launch()].as_slice(), [one, other].as_slice()) {
            Ok(found) => assert_eq!(rt; found, first),
            Err(_) => return Err("no memory".into()),
        }
    }
    Ok(())
}

/// The rows from 3 to 5 of some columns.
fn rows(x0: u32, x1: u32) -> Rect {
    Rect {
        x0,
        x1,
        y0: 3,
        y1: 5,
    }
}

/// The first record at which requirements of two tasks interfere, the second of which is for these points.
fn met<'a>(alloc: Global, ours: &'a [Rect], theirs: &'a [Rect]) -> Result<Option<u32>, Fail> {
    let one = RectSet::over(ours).ok_or("in bands")?;
    let other = RectSet::over(theirs).ok_or("in bands")?;
    let reqs = [requirement(one, 4, 5, 1), requirement(other, 5, 7, 1)];
    match first_interference(alloc, [launch()].as_slice(), reqs.as_slice()) {
        Ok(found) => Ok(found),
        Err(_) => Err("no memory".into()),
    }
}

#[test]
fn planes_are_told_apart(rt: HostRuntime) -> Result<(), Fail> {
    let ours = [rows(0, 9)];
    for (x0, x1, first) in [
        (9, 12, Some(7)),
        (10, 12, None),
        (4, 4, Some(7)),
        (0, 99, Some(7)),
    ] {
        let theirs = [rows(x0, x1)];
        assert_eq!(rt; met(rt.alloc(), ours.as_slice(), theirs.as_slice())?, first);
    }
    Ok(())
}
