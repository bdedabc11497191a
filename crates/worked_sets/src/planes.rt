//! Sets of points of four columns and four rows, drawn from the bits of a number.

use bumpalo::Bump;
use point_set::{Rect, RectSet, RunSet};
use region_tree::{ArenaRects, ArenaSet};
use std::alloc::{AllocError, Global};

/// A rectangle by its columns and its rows.
pub fn rect(x0: u32, x1: u32, y0: u32, y1: u32) -> Rect {
    Rect { x0, x1, y0, y1 }
}

/// The rows that a column has in a plane of four by four, a bit for each.
fn rows_of(bits: u64, x: u32) -> u64 {
    match x {
        0 => bits & 15,
        1 => bits >> 4 & 15,
        2 => bits >> 8 & 15,
        _ => bits >> 12 & 15,
    }
}

/// The last of the columns from `x` on that have the same rows, where columns are joined.
fn band_end(bits: u64, x: u32) -> u32 {
    let mut last = x;
    for z in 0..4u32 {
        if bits % 2 == 0 && last.checked_add(1) == Some(z) && rows_of(bits, z) == rows_of(bits, x) {
            last = z;
        }
    }
    last
}

/// Adds the rectangles of some columns that have the same rows, joined where columns are.
fn push_band(rects: &mut Vec<Rect>, bits: u64, x0: u32, x1: u32) -> Result<(), AllocError> {
    let rows = rows_of(bits, x0);
    for y in 0..4u32 {
        if rows >> y & 1 == 1 {
            let one = Rect {
                x0,
                x1,
                y0: y,
                y1: y,
            };
            match rects.pop() {
                Some(rect) if bits % 2 == 0 && rect.x0 == x0 && rect.y1.checked_add(1) == Some(y) =>
                    { rects.push(Rect { y1: y, ..rect })? }
                Some(rect) => {
                    rects.push(rect)?;
                    rects.push(one)?;
                }
                None => rects.push(one)?,
            }
        }
    }
    Ok(())
}

/// A set of points of four columns and rows, from the bits of a number: the points, and rectangles, those of even numbers as large as bands allow.
pub fn plane(alloc: Global, bits: u64) -> Result<(Vec<u64>, Vec<Rect>), AllocError> {
    let mut points = Vec::new(alloc);
    let mut rects = Vec::new(alloc);
    for x in 0..4u32 {
        let joined = x > 0 && bits % 2 == 0 && rows_of(bits, x) == rows_of(bits, x - 1);
        if !joined {
            push_band(&mut rects, bits, x, band_end(bits, x))?;
        }
        for y in 0..4u64 {
            if rows_of(bits, x) >> y & 1 == 1 {
                points.push((u64::from(x) << 32) + y)?;
            }
        }
    }
    Ok((points, rects))
}

/// Points in order, as runs.
pub fn runs_of(alloc: Global, points: &[u64]) -> Result<Vec<(u64, u64)>, AllocError> {
    let mut runs: Vec<(u64, u64)> = Vec::new(alloc);
    for p in points {
        match runs.pop() {
            Some((first, last)) if last.checked_add(1) == Some(*p) => runs.push((first, *p))?,
            Some(run) => {
                runs.push(run)?;
                runs.push((*p, *p))?;
            }
            None => runs.push((*p, *p))?,
        }
    }
    Ok(runs)
}

/// The points of a plane as a set of any kind, made from runs.
pub fn drawn_set<'a, P: ArenaSet<'a>>(alloc: Global, arena: &'a Bump, bits: u64) -> Option<P> {
    let (points, _) = plane(alloc, bits).ok()?;
    let runs = runs_of(alloc, &points).ok()?;
    if RunSet::over(&runs).is_none() {
        return None;
    }
    P::place(arena, &runs).ok()
}

/// The points of a plane as rectangles, of even numbers as large as bands allow.
pub fn drawn_rects<'a>(alloc: Global, arena: &'a Bump, bits: u64) -> Option<RectSet<'a>> {
    let (_, rects) = plane(alloc, bits).ok()?;
    if RectSet::over(&rects).is_none() {
        return None;
    }
    RectSet::place_rects(arena, &rects).ok()
}
