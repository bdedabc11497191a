//! For each place the changes of its value, noted point by point.

ghost use Rattle.std.specs.Prelude.{◌≡◌, ◌∷◌, [], OnOk};
ghost use Rattle.std.specs.List.Sorted.{IsStrictlyIncreasing};
ghost use Rattle.serial_exec.specs.Changes.{Adds, covered};
ghost use Rattle.serial_exec.specs.Histories.{listed};

use crate::change::Change;
use crate::place_lists::PlaceLists;
use point_set::{PointSet, points_in};
use semantics::Place;
use std::alloc::AllocError;

/// One change more at a point and these fields.
fn note_at_point(
    histories: &mut PlaceLists<Change>,
    tree: u32,
    point: u64,
    fields: &[u32],
    change: Change,
) -> Result<(), AllocError>
    requires { IsStrictlyIncreasing fields.now }
    ensures { OnOk result (Adds change (covered tree (point ∷ []) fields.now)
        (listed histories.old) (listed histories.new)) }
{
    for field in fields {
        let place = Place {
            tree,
            point,
            field: *field,
        };
        histories.push(place, change)?;
    }
    Ok(())
}

/// One change more at these fields of the points of a set.
pub(crate) fn note_all<P: PointSet>(
    histories: &mut PlaceLists<Change>,
    set: &P,
    tree: u32,
    fields: &[u32],
    change: Change,
) -> Result<(), AllocError>
    requires { IsStrictlyIncreasing fields.now }
    ensures { OnOk result (Adds change (covered tree (P.points set.now) fields.now)
        (listed histories.old) (listed histories.new)) }
{
    for point in points_in(set) {
        note_at_point(histories, tree, point, fields, change)?;
    }
    Ok(())
}
