//! The kinds of points, by number.

ghost use Rattle.std.specs.Prelude.{◌<◌, ◌^◌, All, IfNone, IfOk, IfSome, map};
ghost use Rattle.std.specs.List.Sorted.{IsStrictlyIncreasing};
ghost use Rattle.log_tables.specs.Views.{space_seen};
ghost use Rattle.point_kinds.specs.Kinds.{AreKinds, shares};

use crate::places::list_places;
use log_tables::Space;
use partings::part;
use point_set::PointSet;
use std::alloc::{AllocError, Global};

/// For each of some points the number of its kind, and a number that is above all of these.
#[derive(Drop)]
pub(crate) struct Kinds {
    pub(crate) numbers: Vec<usize>,
    pub(crate) end: usize,
}

/// The kinds of points that ascend, which are parted by one space after the other; or none where the spaces have more of them together than `most`.
pub(crate) fn kinds_of<P: PointSet>(
    alloc: Global,
    spaces: &[Space<P>],
    points: &[u64],
    most: usize,
) -> Result<Option<Kinds>, AllocError>
    requires ascend { IsStrictlyIncreasing points.now }
    requires room { most < 2 ^ 63 }
    ensures kinds { IfOk result (λ r. IfSome r (λ k. AreKinds (map (space_seen P.points) spaces.now)
        points.now k.numbers.items)) }
    ensures below { IfOk result (λ r. IfSome r (λ k. All (λ n. n < k.end) k.numbers.items)) }
    ensures none { IfOk result (λ r. IfNone r (most < shares (map (space_seen P.points) spaces.now) points.now)) }
{
    let mut numbers = vec![in alloc; 0usize; points.len()]?;
    let mut places = Vec::new(alloc);
    let mut end = 1;
    for space in spaces {
        list_places(&mut places, &space.set, points)?;
        if places.len() > most + 1 - end {
            return Ok(None);
        }
        part(alloc, &mut numbers, &places, end)?;
        end += places.len();
    }
    Ok(Some(Kinds { numbers, end }))
}
