ghost use Rattle.std.specs.Prelude.{◌≡◌, ◌≤◌, ◌^◌, ◌++◌, IfOk, OnOk};
ghost use Rattle.point_set.specs.Rects.{AreRects};
ghost use Rattle.plane_gaps.specs.Gaps.{LeaveFree, box_of, end_boxes, next_boxes};

use point_set::Rect;
use std::alloc::{AllocError, Global};

/// One more than the greatest column, and than the greatest row.
const END: u64 = 4_294_967_296;

/// How far the plane was gone through: all columns before `x0`, and the rows before `y` of the columns from `x0` on and before `x1`.
#[derive(Clone, Copy)]
pub(crate) struct Edge {
    pub x0: u64,
    pub x1: u64,
    pub y: u64,
}

/// Adds the columns from `x0` on and before `x1`, in the rows from `y0` on and before `y1`, if there are some.
fn push_box(gaps: &mut Vec<Rect>, x0: u64, x1: u64, y0: u64, y1: u64) -> Result<(), AllocError>
    requires fits { (x1 ≤ 2 ^ 32) × (y1 ≤ 2 ^ 32) }
    ensures { OnOk result (gaps.new.items ≡ gaps.old.items ++ box_of x0 x1 y0 y1) }
{
    if x0 < x1 && y0 < y1 {
        gaps.push(Rect {
            x0: x0 as u32,
            x1: (x1 - 1) as u32,
            y0: y0 as u32,
            y1: (y1 - 1) as u32,
        })?;
    }
    Ok(())
}

/// Adds what lies before a rectangle and was not gone through.
fn push_before(gaps: &mut Vec<Rect>, edge: Edge, rect: Rect) -> Result<(), AllocError>
    requires { (edge.x1 ≤ 2 ^ 32) × (edge.y ≤ 2 ^ 32) }
    ensures { OnOk result (gaps.new.items ≡ gaps.old.items ++ next_boxes edge rect) }
{
    let (x0, x1) = (u64::from(rect.x0), u64::from(rect.x1) + 1);
    let y0 = u64::from(rect.y0);
    if x0 < edge.x1 {
        return push_box(gaps, x0, x1, edge.y, y0);
    }
    push_box(gaps, edge.x0, edge.x1, edge.y, END)?;
    push_box(gaps, edge.x1, x0, 0, END)?;
    push_box(gaps, x0, x1, 0, y0)
}

/// Adds all that was not gone through.
fn push_rest(gaps: &mut Vec<Rect>, edge: Edge) -> Result<(), AllocError>
    requires { (edge.x1 ≤ 2 ^ 32) × (edge.y ≤ 2 ^ 32) }
    ensures { OnOk result (gaps.new.items ≡ gaps.old.items ++ end_boxes edge) }
{
    push_box(gaps, edge.x0, edge.x1, edge.y, END)?;
    push_box(gaps, edge.x1, END, 0, END)
}

/// Rectangles of just the points of the plane that the rectangles of a set have not.
pub fn gaps_of(alloc: Global, rects: &[Rect]) -> Result<Vec<Rect>, AllocError>
    requires { AreRects rects.now }
    ensures { IfOk result (λ gaps. LeaveFree rects.now gaps.items) }
{
    let mut gaps = Vec::new(alloc);
    let mut edge = Edge { x0: 0, x1: 0, y: 0 };
    for rect in rects {
        push_before(&mut gaps, edge, *rect)?;
        edge = Edge {
            x0: u64::from(rect.x0),
            x1: u64::from(rect.x1) + 1,
            y: u64::from(rect.y1) + 1,
        };
    }
    push_rest(&mut gaps, edge)?;
    Ok(gaps)
}
