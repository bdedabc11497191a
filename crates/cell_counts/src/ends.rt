//! Cuts that are kept in no order.

ghost use Rattle.std.specs.Prelude.{◌≡◌, ◌+◌, ◌∷◌, ◌++◌, OnOk};
ghost use Rattle.grid.specs.Cuts.{cuts, span_count, x_ends, y_ends};

use memory::Memory;
use point_set::Rect;
use std::collections::HashSet;

/// Adds the first of some numbers and the one that follows the last.
fn add_ends(ends: &mut HashSet<u64>, first: u32, last: u32) -> Result<(), Memory>
    ensures { OnOk result (cuts ends.new.keys ≡ cuts (first ∷ (last + 1) ∷ ends.old.keys)) }
{
    ends.insert(u64::from(last) + 1)?;
    ends.insert(u64::from(first))?;
    Ok(())
}

/// Adds the columns at which rectangles begin, and those that follow their last ones. Where a rectangle has the columns of the one before it, nothing is looked up.
pub(crate) fn add_columns(ends: &mut HashSet<u64>, rects: &[Rect]) -> Result<(), Memory>
    ensures { OnOk result (cuts ends.new.keys ≡ cuts (ends.old.keys ++ x_ends rects.now)) }
{
    for k in 0..rects.len() {
        let rect = rects[k];
        if k == 0 || rects[k - 1].x0 != rect.x0 || rects[k - 1].x1 != rect.x1 {
            add_ends(ends, rect.x0, rect.x1)?;
        }
    }
    Ok(())
}

/// Adds the rows at which rectangles begin, and those that follow their last ones. Where a rectangle has the rows of the one before it, nothing is looked up.
pub(crate) fn add_rows(ends: &mut HashSet<u64>, rects: &[Rect]) -> Result<(), Memory>
    ensures { OnOk result (cuts ends.new.keys ≡ cuts (ends.old.keys ++ y_ends rects.now)) }
{
    for k in 0..rects.len() {
        let rect = rects[k];
        if k == 0 || rects[k - 1].y0 != rect.y0 || rects[k - 1].y1 != rect.y1 {
            add_ends(ends, rect.y0, rect.y1)?;
        }
    }
    Ok(())
}

/// How many columns, or rows, lie between the cuts.
pub(crate) fn spans(ends: &HashSet<u64>) -> usize
    ensures { result ≡ span_count (cuts ends.now.keys) }
{
    ends.len().saturating_sub(1)
}
