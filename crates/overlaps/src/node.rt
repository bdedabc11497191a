//! The rectangles in some columns, by ascending first rows.

ghost use Rattle.std.specs.Prelude.{◌≤◌, ◌≡◌, ◌++◌, ◌∷◌, [], cond, filter, IfOk, OnOk};
ghost use Rattle.std.specs.List.{AllByRecursion};
ghost use Rattle.overlaps.specs.Meeting.{HasAllIn, IsIn, clash_from, clash_point, clashes, column_with, ends_with, goes_left, goes_right, no_ends, spans};

use crate::point::Point;
use point_set::Rect;
use std::alloc::{AllocError, Global};

/// The row above all rectangles so far, the first column of one that ends there, and the row above all of them that have all columns.
#[derive(Clone, Copy)]
pub(crate) struct Ends {
    pub any: u64,
    pub column: u32,
    pub spanning: u64,
}

/// The columns from one to another.
#[derive(Clone, Copy)]
pub(crate) struct Columns {
    pub lo: u32,
    pub hi: u32,
}

/// Those of some columns that lie between the first and the last one with a rectangle.
pub(crate) fn narrowed(rects: &[Rect], lo: u32, hi: u32) -> Columns
    requires range { lo ≤ hi }
    requires inside { AllByRecursion (IsIn lo hi) rects.now }
    ensures range { result.lo ≤ result.hi }
    ensures within { (lo ≤ result.lo) × (result.hi ≤ hi) }
    ensures inside { AllByRecursion (IsIn result.lo result.hi) rects.now }
    ensures all { AllByRecursion (HasAllIn lo hi result) rects.now }
{
    let mut least = hi;
    let mut greatest = lo;
    for rect in rects {
        least = least.min(rect.x0);
        greatest = greatest.max(rect.x1);
    }
    let first = least.max(lo);
    Columns {
        lo: first,
        hi: greatest.min(hi).max(first),
    }
}

/// Whether a rectangle has all of some columns.
fn spans(rect: Rect, lo: u32, hi: u32) -> bool
    ensures { result ≡ spans lo hi rect }
{
    rect.x0 <= lo && hi <= rect.x1
}

/// Whether a rectangle begins below the end of an earlier one, where one of the two has all columns.
fn clashes(ends: Ends, rect: Rect, lo: u32, hi: u32) -> bool
    ensures { result ≡ clashes lo hi ends rect }
{
    if spans(rect, lo, hi) {
        u64::from(rect.y0) < ends.any
    } else {
        u64::from(rect.y0) < ends.spanning
    }
}

/// A point that a rectangle which clashes shares with an earlier one.
fn clash_point(ends: Ends, rect: Rect, lo: u32, hi: u32) -> Point
    ensures { result ≡ clash_point lo hi ends rect }
{
    let column = if spans(rect, lo, hi) {
        ends.column
    } else {
        rect.x0
    };
    Point {
        x: column.max(lo),
        y: rect.y0,
    }
}

/// The first column of a rectangle that ends highest, with one rectangle more.
fn column_with(ends: Ends, rect: Rect) -> u32
    ensures { result ≡ column_with ends rect }
{
    if ends.any < u64::from(rect.y1) + 1 {
        rect.x0
    } else {
        ends.column
    }
}

/// The ends with one rectangle more.
fn ends_with(ends: Ends, rect: Rect, lo: u32, hi: u32) -> Ends
    ensures { result ≡ ends_with lo hi ends rect }
{
    let column = column_with(ends, rect);
    let end = u64::from(rect.y1) + 1;
    if spans(rect, lo, hi) {
        Ends {
            any: ends.any.max(end),
            column,
            spanning: ends.spanning.max(end),
        }
    } else {
        Ends {
            any: ends.any.max(end),
            column,
            spanning: ends.spanning,
        }
    }
}

/// A point that a rectangle which has all columns shares with another, by one pass.
pub(crate) fn first_clash(rects: &[Rect], lo: u32, hi: u32) -> Option<Point>
    ensures { result ≡ clash_from lo hi no_ends rects.now }
{
    let mut ends = Ends {
        any: 0,
        column: 0,
        spanning: 0,
    };
    for rect in rects {
        if clashes(ends, *rect, lo, hi) {
            return Some(clash_point(ends, *rect, lo, hi));
        }
        ends = ends_with(ends, *rect, lo, hi);
    }
    None
}

/// Whether a rectangle goes to the left half.
fn goes_left(rect: Rect, lo: u32, hi: u32, middle: u32) -> bool
    ensures { result ≡ goes_left lo hi middle rect }
{
    !spans(rect, lo, hi) && rect.x0 <= middle
}

/// Whether a rectangle goes to the right half.
fn goes_right(rect: Rect, lo: u32, hi: u32, middle: u32) -> bool
    ensures { result ≡ goes_right lo hi middle rect }
{
    !spans(rect, lo, hi) && middle < rect.x1
}

/// Adds a rectangle, if it is to be added.
fn push_if(rects: &mut Vec<Rect>, rect: Rect, wanted: bool) -> Result<(), AllocError>
    ensures { OnOk result (rects.new.items ≡ rects.old.items ++ cond wanted (rect ∷ []) []) }
{
    if wanted {
        rects.push(rect)?;
    }
    Ok(())
}

/// The rectangles of the left half.
pub(crate) fn left_half(
    alloc: Global,
    rects: &[Rect],
    lo: u32,
    hi: u32,
    middle: u32,
) -> Result<Vec<Rect>, AllocError>
    ensures { IfOk result (λ half. half.items ≡ filter (goes_left lo hi middle) rects.now) }
{
    let mut half = Vec::new(alloc);
    for rect in rects {
        push_if(&mut half, *rect, goes_left(*rect, lo, hi, middle))?;
    }
    Ok(half)
}

/// The rectangles of the right half.
pub(crate) fn right_half(
    alloc: Global,
    rects: &[Rect],
    lo: u32,
    hi: u32,
    middle: u32,
) -> Result<Vec<Rect>, AllocError>
    ensures { IfOk result (λ half. half.items ≡ filter (goes_right lo hi middle) rects.now) }
{
    let mut half = Vec::new(alloc);
    for rect in rects {
        push_if(&mut half, *rect, goes_right(*rect, lo, hi, middle))?;
    }
    Ok(half)
}

/// The rectangles that have all of some columns.
pub(crate) fn spanning(
    alloc: Global,
    rects: &[Rect],
    lo: u32,
    hi: u32,
) -> Result<Vec<Rect>, AllocError>
    ensures { IfOk result (λ wide. wide.items ≡ filter (spans lo hi) rects.now) }
{
    let mut wide = Vec::new(alloc);
    for rect in rects {
        push_if(&mut wide, *rect, spans(*rect, lo, hi))?;
    }
    Ok(wide)
}
