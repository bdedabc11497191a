//! The atoms of the spaces of a log.

use crate::framed_logs::log_of;
use atoms::Atoms;
use bumpalo::Bump;
use point_set::Rect;
use std::test::Fail;

/// The first row of each atom, and the last: of spaces that overlap, of runs with a hole, and of one space within another. All are in the first column.
const ROWS: [(u32, u32); 8] = [
    (0, 3),
    (4, 4),
    (5, 6),
    (7, 9),
    (20, 21),
    (22, 22),
    (23, 25),
    (30, 30),
];

#[test]
fn atoms_of_a_log(rt: HostRuntime) -> Result<(), Fail> {
    let alloc = rt.alloc();
    let bump = Bump::new(alloc);
    let log = log_of(alloc, &bump, b"ispace 6 20-25,30\nispace 7 22\n", 0)?;
    let built = Atoms::build(alloc, log.rects());
    log.let_go();
    let atoms = built.ok().ok_or("no memory")?;
    assert_eq!(rt; atoms.len(), ROWS.len());
    for (k, (low, high)) in ROWS.iter().enumerate() {
        let rect = Rect {
            x0: 0,
            x1: 0,
            y0: *low,
            y1: *high,
        };
        assert_eq!(rt; atoms.rect(k), Some(rect));
        assert_eq!(rt; atoms.firsts().get(k), Some(&u64::from(*low)));
        assert_eq!(rt; atoms.atom_of(u64::from(*high)), Some(k));
    }
    assert_eq!(rt; atoms.rect(ROWS.len()), None);
    assert_eq!(rt; atoms.atom_of(26), None);
    Ok(())
}
