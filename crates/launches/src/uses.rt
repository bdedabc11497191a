//! The requirements that written records state, with the points of their spaces, and the launches, as interference is judged of them.

ghost use Rattle.std.specs.Prelude.{◌≡◌, ◌+◌, ◌++◌, ◌^◌, ◌≤◌, ◌==◌, [], All, find, length, map, IfOk, OnOk};
ghost use Rattle.std.specs.List.{cons_option, filter_map, zip};
ghost use Rattle.std.specs.Option.{option_map};
ghost use Rattle.point_set.specs.Rects.{AreRects, rect_points};
ghost use Rattle.vocabulary.specs.Prelude.{Good};
ghost use Rattle.launches.specs.Steps.{HasTaskIds, launch_seen};
ghost use Rattle.launches.specs.Uses.{asked_by, space_by_record, space_seen, tasks_by, use_seen};

use crate::launched::Launched;
use arena_sets::ArenaRects;
use bumpalo::Bump;
use launch_claims::{LaunchTasks, Requirement};
use log_tables::{ById, KeyBy, Rows, priv_of, rects_of, strips_of};
use memory::Memory;
use point_set::{PointSet, Rect};
use spy_grammar::Record;
use std::alloc::Global;

/// A declared space: its points, and the line of the record that declares it.
#[derive(Clone, Copy)]
pub(crate) struct Space<P: PointSet + Copy> {
    pub(crate) id: u32,
    pub(crate) set: P,
    pub(crate) line: u32,
}

impl<P: PointSet + Copy> KeyBy<Space<P>> for ById {
    type K = u32;

    ghost key_of = { λ s. s.id };

    fn key(row: &Space<P>) -> u32 {
        row.id
    }
}

/// The space of these rectangles. Its set is placed in the arena.
fn space_of_rects<'b, P: ArenaRects<'b>>(
    bump: &'b Bump,
    id: u32,
    rects: &[Rect],
    line: u32,
) -> Result<Space<P>, Memory>
    requires { AreRects rects.now }
    ensures { IfOk result (λ space. space_seen P.points space
        ≡ record { id = id; points = rect_points rects.now; line = line }) }
{
    let set = P::place_rects(bump, rects)?;
    Ok(Space { id, set, line })
}

/// The space that a record declares, if it declares one.
#[tactic(auto, using(semantics::proofs::lemmas::InOrder::points_of_strips))]
fn space_in<'b, P: ArenaRects<'b>>(
    alloc: Global,
    bump: &'b Bump,
    rec: &Record,
    line: u32,
) -> Result<Option<Space<P>>, Memory>
    requires { Good rec.now }
    ensures { IfOk result (λ space. option_map (space_seen P.points) space ≡ space_by_record (line, rec.now)) }
{
    match rec {
        Record::Ispace { id, set } => {
            let rects = strips_of(alloc, set.as_slice())?;
            Ok(Some(space_of_rects(bump, *id, rects.as_slice(), line)?))
        }
        Record::Plane { id, rects } => {
            let rects = rects_of(alloc, rects.as_slice())?;
            Ok(Some(space_of_rects(bump, *id, rects.as_slice(), line)?))
        }
        _ => Ok(None),
    }
}

/// Adds the space that a record declares, if it declares one.
fn push_space<'b, P: ArenaRects<'b>>(
    alloc: Global,
    bump: &'b Bump,
    spaces: &mut Rows<ById, Space<P>>,
    rec: &Record,
    line: u32,
) -> Result<(), Memory>
    requires { Good rec.now }
    ensures { OnOk result (map (space_seen P.points) spaces.new
        ≡ map (space_seen P.points) spaces.old ++ cons_option (space_by_record (line, rec.now)) []) }
{
    if let Some(space) = space_in(alloc, bump, rec, line)? {
        spaces.push(space)?;
    }
    Ok(())
}

/// The spaces that the first written records declare, as many as there are lines: line `i` is that of record `i`.
pub(crate) fn spaces_in<'b, P: ArenaRects<'b>>(
    alloc: Global,
    bump: &'b Bump,
    written: &[Record],
    lines: &[u32],
) -> Result<Rows<ById, Space<P>>, Memory>
    requires good { All Good written.now }
    requires lines { length lines.now ≤ length written.now }
    ensures { IfOk result (λ spaces. map (space_seen P.points) spaces
        ≡ filter_map space_by_record (zip lines.now written.now)) }
{
    let mut spaces = Rows::new(alloc);
    for i in 0..lines.len() {
        push_space(alloc, bump, &mut spaces, &written[i], lines[i])?;
    }
    Ok(spaces)
}

/// The first space with this id.
fn space_of<P: PointSet + Copy>(spaces: &Rows<ById, Space<P>>, id: u32) -> Option<Space<P>>
    ensures { result ≡ find (λ s. s.id == id) spaces.now }
{
    spaces.get(id).copied()
}

/// The requirement that a record states, if it states one on a declared space.
fn requirement_in<'w, P: PointSet + Copy>(
    spaces: &Rows<ById, Space<P>>,
    rec: &'w Record,
    line: u32,
) -> Option<Requirement<'w, P>>
    ensures { option_map (use_seen P.points) result ≡ asked_by (map (space_seen P.points) spaces.now) (line, rec.now) }
{
    match rec {
        Record::Req {
            task,
            tree,
            space,
            fields,
            access,
            ..
        } => {
            let Some(space) = space_of(spaces, *space) else {
                return None;
            };
            Some(Requirement {
                task: *task,
                tree: *tree,
                set: space.set,
                fields: fields.as_slice(),
                access: priv_of(*access),
                record: line,
                declared: space.line,
            })
        }
        _ => None,
    }
}

/// Adds the requirement that a record states, if it states one on a declared space.
fn push_requirement<'w, P: PointSet + Copy>(
    reqs: &mut Vec<Requirement<'w, P>>,
    spaces: &Rows<ById, Space<P>>,
    rec: &'w Record,
    line: u32,
) -> Result<(), Memory>
    ensures { OnOk result (map (use_seen P.points) reqs.new.items ≡ map (use_seen P.points) reqs.old.items
        ++ cons_option (asked_by (map (space_seen P.points) spaces.now) (line, rec.now)) []) }
{
    if let Some(req) = requirement_in(spaces, rec, line) {
        reqs.push(req)?;
    }
    Ok(())
}

/// The requirements that these records state on declared spaces.
pub(crate) fn requirements_in<'w, P: PointSet + Copy>(
    alloc: Global,
    spaces: &Rows<ById, Space<P>>,
    written: &'w [Record],
    lines: &[u32],
) -> Result<Vec<Requirement<'w, P>>, Memory>
    requires { length lines.now ≤ length written.now }
    ensures { IfOk result (λ reqs. map (use_seen P.points) reqs.items
        ≡ filter_map (asked_by (map (space_seen P.points) spaces.now)) (zip lines.now written.now)) }
{
    let mut reqs = Vec::new(alloc);
    for i in 0..lines.len() {
        push_requirement(&mut reqs, spaces, &written[i], lines[i])?;
    }
    Ok(reqs)
}

/// The tasks of a launch on a line.
fn tasks_of(launch: &Launched, line: u32) -> LaunchTasks
    requires { HasTaskIds launch.now }
    ensures { result ≡ tasks_by (line, launch_seen launch.now) }
{
    LaunchTasks {
        base: launch.base,
        end: u64::from(launch.base) + launch.colours.len() as u64,
        number: line,
    }
}

/// The tasks of the first launches, as many as there are lines: line `i` is that of launch `i`.
pub(crate) fn launch_tasks(
    alloc: Global,
    launches: &[Launched],
    lines: &[u32],
) -> Result<Vec<LaunchTasks>, Memory>
    requires fit { All HasTaskIds launches.now }
    requires lines { length lines.now ≤ length launches.now }
    ensures { IfOk result (λ tasks. tasks.items ≡ map tasks_by (zip lines.now (map launch_seen launches.now))) }
{
    let mut tasks = Vec::new(alloc);
    for i in 0..lines.len() {
        tasks.push(tasks_of(&launches[i], lines[i]))?;
    }
    Ok(tasks)
}
