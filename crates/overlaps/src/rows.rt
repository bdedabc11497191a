//! Rectangles of two lists that share a row, where both lists stand by ascending first rows.

ghost use Rattle.std.specs.Prelude.{◌≡◌, AllPairs, MatchOption};
ghost use Rattle.overlaps.specs.Meeting.{IsNoHigher};
ghost use Rattle.overlaps.specs.Rows.{AreTall, BeginsIn, IsPast, IsReached, NoneBeginsIn, RowsApart, ShareRow, place_with};

use point_set::Rect;

/// How many rectangles begin up to some row, the row above all of these, and the place of one that ends there.
#[derive(Clone, Copy)]
pub(crate) struct Reached {
    pub count: usize,
    pub end: u64,
    pub place: usize,
}

/// The place of a rectangle that ends highest, where the next one ends at this row.
fn place_with(reached: Reached, end: u64) -> usize
    ensures { result ≡ place_with reached end }
{
    if reached.end < end {
        reached.count
    } else {
        reached.place
    }
}

/// What begins up to a row, from what begins up to an earlier one.
fn reach(rects: &[Rect], before: Reached, row: u32) -> Reached
    requires order { AllPairs IsNoHigher rects.now }
    requires before { IsReached rects.now before row }
    ensures reached { IsReached rects.now result row }
    ensures past { IsPast rects.now result.count row }
{
    let mut reached = before;
    while reached.count < rects.len() && rects[reached.count].y0 <= row {
        let end = u64::from(rects[reached.count].y1) + 1;
        reached = Reached {
            count: reached.count + 1,
            end: reached.end.max(end),
            place: place_with(reached, end),
        };
    }
    reached
}

/// One of the first rectangles, and one of the second that begins in a row of it, by one pass over both.
fn first_begun(rects: &[Rect], others: &[Rect]) -> Option<(Rect, Rect)>
    requires order { AllPairs IsNoHigher rects.now }
    requires others { AllPairs IsNoHigher others.now }
    ensures { MatchOption result (NoneBeginsIn rects.now others.now) (λ met. BeginsIn rects.now others.now met.0 met.1) }
{
    let mut reached = Reached {
        count: 0,
        end: 0,
        place: 0,
    };
    for other in others {
        reached = reach(rects, reached, other.y0);
        if u64::from(other.y0) < reached.end {
            return Some((rects[reached.place], *other));
        }
    }
    None
}

/// A rectangle of the one list, and one of the other that shares a row with it.
pub(crate) fn shared_row(ours: &[Rect], theirs: &[Rect]) -> Option<(Rect, Rect)>
    requires ours { AllPairs IsNoHigher ours.now }
    requires theirs { AllPairs IsNoHigher theirs.now }
    requires tall { AreTall ours.now × AreTall theirs.now }
    ensures { MatchOption result (RowsApart ours.now theirs.now) (λ met. ShareRow ours.now theirs.now met.0 met.1) }
{
    if let Some(met) = first_begun(ours, theirs) {
        return Some(met);
    }
    match first_begun(theirs, ours) {
        Some((their, our)) => Some((our, their)),
        None => None,
    }
}
