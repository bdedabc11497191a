//! Rectangles that go on from one another, joined.

ghost use Rattle.std.specs.Prelude.{◌≡◌, ◌<◌, ◌≤◌, ◌↔◌, [], ◌∷◌, length, IfNone, IfSome, IsTrue};
ghost use Rattle.arena_sets.specs.Joined.{GoesOn, StandFor};

use point_set::Rect;

/// Whether the next rectangle has the same columns, and begins in the row after the last one of the first.
fn goes_on(rect: &Rect, next: &Rect) -> bool
    ensures { IsTrue result ↔ GoesOn rect.now next.now }
{
    rect.x0 == next.x0 && rect.x1 == next.x1 && rect.y1 < next.y0 && next.y0 - rect.y1 == 1
}

/// The first rectangle, with those after it that go on from one another joined to it, and the rectangles after these.
pub(crate) fn first_joined(rects: &[Rect]) -> Option<(Rect, &[Rect])>
    ensures none { IfNone result (rects.now ≡ []) }
    ensures stand { IfSome result (λ cut. StandFor rects.now (cut.0 ∷ cut.1.now)) }
    ensures shorter { IfSome result (λ cut. length cut.1.now < length rects.now) }
{
    let (first, mut rest) = rects.split_first()?;
    let mut joined = *first;
    while let Some((next, behind)) = rest.split_first()
        && goes_on(&joined, next)
    {
        joined.y1 = next.y1;
        rest = behind;
    }
    Some((joined, rest))
}

/// How many rectangles are left where those that go on from one another are joined.
pub(crate) fn joined_count(rects: &[Rect]) -> usize
    ensures { result ≤ length rects.now }
{
    let mut count = 0;
    let mut rest = rects;
    while let Some((_, behind)) = first_joined(rest) {
        count += 1;
        rest = behind;
    }
    count
}
