//! Which of some first points are read.

ghost use Rattle.std.specs.Prelude.{◌≡◌, ℕ, ◌<◌, true, false, All, Contains, IfOk, IfSome, get_or, length, map};
ghost use Rattle.std.specs.List.Sorted.{IsStrictlyIncreasing};
ghost use Rattle.vocabulary.specs.Prelude.{may_read};
ghost use Rattle.log_tables.specs.Views.{space_seen};
ghost use Rattle.point_laws.specs.Alike.{AreFirsts, AreReadFirsts};
ghost use Rattle.point_kinds.specs.Marks.{AreMarked, AreSpacesRead, MarksMore};

use crate::first::MOST_SHARES;
use crate::places::list_places;
use id_maps::IdSet;
use log_tables::Space;
use logs::Log;
use point_set::PointSet;
use privilege::Priv;
use semantics::Req;
use std::alloc::{AllocError, Global};

/// Whether a task with this privilege sees what it finds.
fn reads(access: Priv) -> bool
    ensures { result ≡ may_read access }
{
    matches!(access, Priv::Ro | Priv::Rw)
}

/// The spaces of the requirements that read.
fn spaces_read(alloc: Global, reqs: &[Req]) -> Result<IdSet, AllocError>
    ensures { IfOk result (AreSpacesRead reqs.now) }
{
    let mut ids = IdSet::new(alloc);
    for req in reqs {
        if !reads(req.access) {
            continue;
        }
        ids.insert(req.space)?;
    }
    Ok(ids)
}

/// Marks what stands at some places.
fn mark(marks: &mut Vec<bool>, places: &[usize])
    requires { All (λ place. place < length marks.old.items) places.now }
    ensures { MarksMore places.now marks.old.items marks.new.items }
{
    for place in places {
        marks[*place] = true;
    }
}

/// Marks of points that ascend: of each that is in a space with one of these ids. There are none where such spaces have more of the points together than `most`.
fn marks_in<P: PointSet>(
    alloc: Global,
    spaces: &[Space<P>],
    ids: &IdSet,
    points: &[u64],
    most: usize,
) -> Result<Option<Vec<bool>>, AllocError>
    requires { IsStrictlyIncreasing points.now }
    ensures { IfOk result (λ r. IfSome r (λ marks.
        AreMarked (map (space_seen P.points) spaces.now) ids.now points.now marks.items)) }
{
    let mut marks = vec![in alloc; false; points.len()]?;
    let mut places = Vec::new(alloc);
    let mut left = most;
    for space in spaces {
        if !ids.contains(space.id) {
            continue;
        }
        list_places(&mut places, &space.set, points)?;
        if places.len() > left {
            return Ok(None);
        }
        left -= places.len();
        mark(&mut marks, &places);
    }
    Ok(Some(marks))
}

/// The marked ones of some points that ascend.
fn points_marked(alloc: Global, points: &[u64], marks: &[bool]) -> Result<Vec<u64>, AllocError>
    requires ascend { IsStrictlyIncreasing points.now }
    requires each { length marks.now ≡ length points.now }
    ensures ascend { IfOk result (λ some. IsStrictlyIncreasing some.items) }
    ensures marked { IfOk result (λ some. (k : ℕ) → k < length points.now → get_or marks.now k false ≡ true
        → Contains some.items (get_or points.now k 0)) }
{
    let mut some = Vec::new(alloc);
    for k in 0..points.len() {
        if !marks[k] {
            continue;
        }
        some.push(points[k])?;
    }
    Ok(some)
}

/// Those of the first points of a log that some requirement reads. Where the spaces that are read have more of them together than `MOST_SHARES`, all are given.
pub(crate) fn points_read<'a, P: PointSet + Copy>(
    alloc: Global,
    log: &Log<'a, P>,
    points: &[u64],
) -> Result<Vec<u64>, AllocError>
    requires firsts { AreFirsts log.now points.now }
    requires ascend { IsStrictlyIncreasing points.now }
    ensures firsts { IfOk result (λ some. AreReadFirsts log.now some.items) }
    ensures ascend { IfOk result (λ some. IsStrictlyIncreasing some.items) }
{
    let ids = spaces_read(alloc, log.reqs())?;
    match marks_in(alloc, log.tables().spaces(), &ids, points, MOST_SHARES)? {
        Some(marks) => {
            let some = points_marked(alloc, points, marks.as_slice())?;
            Ok(some)
        }
        None => {
            let all = Vec::from_slice(alloc, points)?;
            Ok(all)
        }
    }
}
