//! Sets kept as lists, as runs and as rectangles, against each other, and large ones.

use crate::planes::{plane, rect};
use point_set::{PointList, PointSet, RectSet, RunSet, SetOfRuns, points_in};
use std::alloc::Global;
use std::process::Abort;
use std::test::Fail;

/// A set of small numbers, from the bits of a number: its points, and its runs, those of odd numbers cut after each point.
fn drawn(alloc: Global, bits: u64) -> Result<(Vec<u64>, Vec<(u64, u64)>), Fail> {
    let mut points = Vec::new(alloc);
    let mut runs: Vec<(u64, u64)> = Vec::new(alloc);
    for p in 0..16u64 {
        if bits >> p & 1 == 1 {
            points.push(p)?;
            match runs.pop() {
                Some((first, last)) if bits % 2 == 0 && last.checked_add(1) == Some(p) => runs.push(
                    (first, p),
                )?,
                Some(run) => {
                    runs.push(run)?;
                    runs.push((p, p))?;
                }
                None => runs.push((p, p))?,
            }
        }
    }
    Ok((points, runs))
}

/// Asks two sets of two implementations the same, about some numbers.
fn ask_both<P: PointSet, Q: PointSet>(
    rt: &impl Abort,
    numbers: &[u64],
    (a, b): (&P, &P),
    (c, d): (&Q, &Q),
) {
    assert!(rt; a.count() == c.count() && a.first() == c.first() && a.last() == c.last());
    for p in numbers {
        assert_eq!(rt; a.has(*p), c.has(*p));
        assert_eq!(rt; a.next_from(*p), c.next_from(*p));
        assert_eq!(rt; a.gap_from(*p), c.gap_from(*p));
    }
    let mut points = points_in(c);
    for p in points_in(a) {
        assert_eq!(rt; points.next(), Some(p));
    }
    assert!(rt; points.next().is_none());
    assert_eq!(rt; a.first_common(b), c.first_common(d));
    assert_eq!(rt; a.meets(b), c.meets(d));
    assert_eq!(rt; a.outside(b), c.outside(d));
    assert_eq!(rt; a.within(b), c.within(d));
}

#[test]
fn lists_and_runs_answer_the_same(rt: HostRuntime) -> Result<(), Fail> {
    let mut numbers = Vec::new(rt.alloc());
    for p in 0..18u64 {
        numbers.push(p)?;
    }
    let mut bits = 1u64;
    for _ in 0..400 {
        let (points, runs) = drawn(rt.alloc(), bits)?;
        bits = bits.wrapping_mul(48271) % 65537;
        let (more_points, more_runs) = drawn(rt.alloc(), bits)?;
        ask_both(
            &rt,
            &numbers,
            (
                &PointList::over(&points).ok_or("points ascend")?,
                &PointList::over(&more_points).ok_or("points ascend")?,
            ),
            (
                &RunSet::over(&runs).ok_or("runs in order")?,
                &RunSet::over(&more_runs).ok_or("runs in order")?,
            ),
        );
    }
    Ok(())
}

#[test]
fn lists_and_rectangles_answer_the_same(rt: HostRuntime) -> Result<(), Fail> {
    let mut numbers = Vec::new(rt.alloc());
    for x in 0..5u64 {
        for y in 0..5u64 {
            numbers.push((x << 32) + y)?;
        }
        numbers.push((x << 32) + u64::from(u32::MAX))?;
    }
    numbers.push(u64::MAX)?;
    let mut bits = 1u64;
    for _ in 0..600 {
        let (points, rects) = plane(rt.alloc(), bits)?;
        bits = bits.wrapping_mul(48271) % 65537;
        let (more_points, more_rects) = plane(rt.alloc(), bits)?;
        ask_both(
            &rt,
            &numbers,
            (
                &PointList::over(&points).ok_or("points ascend")?,
                &PointList::over(&more_points).ok_or("points ascend")?,
            ),
            (
                &RectSet::over(&rects).ok_or("rectangles in bands")?,
                &RectSet::over(&more_rects).ok_or("rectangles in bands")?,
            ),
        );
    }
    Ok(())
}

#[test]
fn rectangles_stand_in_bands(rt: HostRuntime) -> Result<(), Fail> {
    let top = u32::MAX;
    for (one, other, are) in [
        (rect(0, 3, 0, 0), rect(0, 3, 1, 1), true),
        (rect(0, 3, 0, 0), rect(4, 4, 0, 0), true),
        (rect(0, 3, 0, 1), rect(0, 3, 1, 2), false),
        (rect(0, 3, 0, 0), rect(2, 5, 1, 1), false),
        (rect(0, 3, 0, 0), rect(0, 2, 1, 1), false),
        (rect(1, 0, 0, 0), rect(2, 2, 0, 0), false),
        (rect(0, 0, 0, 0), rect(2, 2, 1, 0), false),
        (rect(0, 0, 0, top), rect(top, top, top, top), true),
    ] {
        assert_eq!(rt; RectSet::over(&[one, other]).is_some(), are);
    }
    assert!(rt; RectSet::over(&[]).ok_or("no rectangle")?.first().is_none());
    Ok(())
}

#[test]
fn a_plane_of_all_points_is_quick(rt: HostRuntime) -> Result<(), Fail> {
    let top = u32::MAX;
    let all = [rect(0, top, 0, top)];
    let all = RectSet::over(&all).ok_or("one rectangle")?;
    assert!(rt; all.count() == 1 << 64 && all.last() == Some(u64::MAX));
    assert!(rt; all.gap_from(0).is_none() && all.within(&all));
    let but_the_last = [rect(0, top - 1, 0, top), rect(top, top, 0, top - 1)];
    let but_the_last = RectSet::over(&but_the_last).ok_or("two bands")?;
    assert_eq!(rt; but_the_last.gap_from(0), Some(u64::MAX));
    assert_eq!(rt; all.outside(&but_the_last), Some(u64::MAX));
    assert!(rt; but_the_last.within(&all) && all.first_common(&but_the_last) == Some(0));
    Ok(())
}

/// The numbers `first`, `first + step` and so on, 1,048,576 of them.
fn many(alloc: Global, first: u32, step: u32) -> Result<Vec<u64>, Fail> {
    let mut points = Vec::new(alloc);
    for k in 0..1 << 20 {
        points.push(k * u64::from(step) + u64::from(first))?;
    }
    Ok(points)
}

#[test]
fn a_million_points_are_quick(rt: HostRuntime) -> Result<(), Fail> {
    let count = 1 << 20;
    let evens = many(rt.alloc(), 0, 2)?;
    let odds = many(rt.alloc(), 1, 2)?;
    let all = many(rt.alloc(), 0, 1)?;
    let even = PointList::over(&evens).ok_or("evens ascend")?;
    let odd = PointList::over(&odds).ok_or("odds ascend")?;
    let whole = PointList::over(&all).ok_or("all ascend")?;
    for k in 0..1 << 16 {
        let p = 15 * k;
        assert_eq!(rt; even.has(p), p % 2 == 0);
        assert_eq!(rt; odd.next_from(p), Some(p | 1));
    }
    assert!(rt; !even.meets(&odd) && even.within(&even));
    assert_eq!(rt; even.outside(&whole), Some(count));
    assert_eq!(rt; whole.first_common(&odd), Some(1));
    assert_eq!(rt; even.run_count(), 1 << 20);
    assert_eq!(rt;
        even.run((1 << 20) - 1),
        Some((2 * count - 2, 2 * count - 2))
    );
    assert_eq!(rt; whole.run(0), Some((0, count - 1)));
    Ok(())
}
