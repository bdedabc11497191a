//! Whether each child asks for no more than its group licenses.

ghost use Rattle.std.specs.Prelude.{◌≡◌, ◌<◌, [], All, get_or, length, IfOk};
ghost use Rattle.std.specs.Option.{option_map_or};
ghost use Rattle.semantics.specs.Nesting.{first_given, shown_unlicensed};
ghost use Rattle.licences.specs.Claims.{AreOfSpaces, first_refused};
ghost use Rattle.nested.specs.Rows.{AreNamed, own_rows_by, rows_in, shown_as, shown_group, shown_member};

use crate::own::own_rows;
use crate::row::Row;
use crate::rows::row_at;
use licences::{Claim, first_refused};
use log_tables::LogTables;
use nest_rules::Groups;
use point_set::PointSet;
use semantics::{Child, Group, GroupMember, Unlicensed};
use std::alloc::{AllocError, Global};

/// What is shown of a child that asks for more than these allow.
fn refused_child<P: PointSet + Copy>(
    child: Child,
    all: &[Claim<'_, P>],
    own: &[Claim<'_, P>],
) -> Option<Unlicensed>
    requires { All (AreOfSpaces all.now) own.now }
    ensures { result ≡ shown_as child (first_refused all.now own.now) }
{
    match first_refused(all, own) {
        Some((req, place)) => Some(Unlicensed { child, req, place }),
        None => None,
    }
}

/// The same, where the group of the child may have no row.
fn refused_by<P: PointSet + Copy>(
    child: Child,
    all: Option<&Row<'_, P>>,
    own: &[Claim<'_, P>],
) -> Option<Unlicensed>
    requires { All (AreOfSpaces (option_map_or (λ r. r.now) all [])) own.now }
    ensures { result ≡ shown_as child (first_refused (option_map_or (λ r. r.now) all.entry []) own.now) }
{
    match all {
        Some(row) => refused_child(child, row.as_slice(), own),
        // Where there is no row, nothing is allowed.
        None => refused_child(child, &own[..0], own),
    }
}

/// What is shown of a group that has privileges which the group above it does not license.
fn refused_group<P: PointSet + Copy>(
    tables: &LogTables<P>,
    groups: &Groups,
    rows: &[Row<'_, P>],
    group: Group,
) -> Option<Unlicensed>
    requires rows { rows.now ≡ rows_in tables.now groups.now }
    requires named { AreNamed groups.now }
    ensures { result ≡ shown_group tables.now groups.now group }
{
    if group.parent == 0 {
        return None;
    }
    let child = Child {
        leaf: false,
        id: group.id,
        group: group.parent,
    };
    let all = row_at(rows, groups, group.parent);
    let found = row_at(rows, groups, group.id);
    let Some(own) = found else {
        return None;
    };
    refused_by(child, all, own.as_slice())
}

/// What is shown of the first of some groups that has privileges which the group above it does not license.
fn refused_groups<P: PointSet + Copy>(
    tables: &LogTables<P>,
    groups: &Groups,
    rows: &[Row<'_, P>],
    all: &[Group],
) -> Option<Unlicensed>
    requires rows { rows.now ≡ rows_in tables.now groups.now }
    requires named { AreNamed groups.now }
    ensures { result ≡ first_given (shown_group tables.now groups.now) all.now }
{
    for group in all {
        let shown = refused_group(tables, groups, rows, *group);
        if shown.is_some() {
            return shown;
        }
    }
    None
}

/// The row at a place.
fn row_of_place<'r, 'a, P: PointSet + Copy>(rows: &'r [Row<'a, P>], place: usize) -> &'r Row<'a, P>
    requires { place < length rows.now }
    ensures { result.now ≡ get_or rows.now place [] }
{
    &rows[place]
}

/// What is shown of a task that asks for more than its group licenses.
fn refused_member<P: PointSet + Copy>(
    tables: &LogTables<P>,
    groups: &Groups,
    rows: &[Row<'_, P>],
    tasks: &[Row<'_, P>],
    member: GroupMember,
) -> Option<Unlicensed>
    requires rows { rows.now ≡ rows_in tables.now groups.now }
    requires named { AreNamed groups.now }
    requires tasks { tasks.now ≡ own_rows_by tables.now tables.now.reqs }
    ensures { result ≡ shown_member tables.now groups.now member }
{
    let own = row_of_place(tasks, tables.place(member.task));
    let child = Child {
        leaf: true,
        id: member.task,
        group: member.group,
    };
    let all = row_at(rows, groups, member.group);
    refused_by(child, all, own.as_slice())
}

/// What is shown of the first of some tasks that asks for more than its group licenses.
fn refused_members<P: PointSet + Copy>(
    tables: &LogTables<P>,
    groups: &Groups,
    rows: &[Row<'_, P>],
    tasks: &[Row<'_, P>],
    all: &[GroupMember],
) -> Option<Unlicensed>
    requires rows { rows.now ≡ rows_in tables.now groups.now }
    requires named { AreNamed groups.now }
    requires tasks { tasks.now ≡ own_rows_by tables.now tables.now.reqs }
    ensures { result ≡ first_given (shown_member tables.now groups.now) all.now }
{
    for member in all {
        let shown = refused_member(tables, groups, rows, tasks, *member);
        if shown.is_some() {
            return shown;
        }
    }
    None
}

/// What is shown of the first child that asks for more than its group licenses.
#[tactic(auto, using(crate::proofs::Showing::all_children))]
pub(crate) fn unlicensed<P: PointSet + Copy>(
    alloc: Global,
    tables: &LogTables<P>,
    groups: &Groups,
    rows: &[Row<'_, P>],
) -> Result<Option<Unlicensed>, AllocError>
    requires rows { rows.now ≡ rows_in tables.now groups.now }
    requires named { AreNamed groups.now }
    ensures { IfOk result (λ shown. shown ≡ shown_unlicensed tables.now groups.now) }
{
    let shown = refused_groups(tables, groups, rows, groups.groups());
    if shown.is_some() {
        return Ok(shown);
    }
    let tasks = own_rows(alloc, tables)?;
    let shown = refused_members(tables, groups, rows, &tasks, groups.members());
    Ok(shown)
}
