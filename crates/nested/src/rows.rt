//! What each group may do.

ghost use Rattle.std.specs.Prelude.{◌≡◌, ◌==◌, [], All, filter, map, slice_get, IfOk};
ghost use Rattle.std.specs.Option.{option_copied, option_map_or};
ghost use Rattle.std.specs.List.Sorted.{IsStrictlyIncreasing};
ghost use Rattle.vocabulary.specs.Prelude.{Tables};
ghost use Rattle.semantics.specs.Nesting.{as_req};
ghost use Rattle.nested.specs.Rows.{AreNamed, claim_of, row_among, row_in, rows_in};

use crate::row::Row;
use bumpalo::Bump;
use licences::{Claim, NumberedReq};
use log_tables::LogTables;
use nest_rules::Groups;
use point_set::PointSet;
use semantics::{Group, GroupReq};
use std::alloc::{AllocError, Global};

/// A privilege, with its fields in the arena.
fn privilege_claim<'a, P: PointSet + Copy>(
    bump: &'a Bump,
    tables: &LogTables<P>,
    privilege: &GroupReq,
) -> Result<Claim<'a, P>, AllocError>
    requires { IsStrictlyIncreasing privilege.now.fields }
    ensures { IfOk result (λ claim. claim ≡ claim_of tables.now (as_req privilege.now)) }
{
    let fields = bump.try_alloc_slice_copy(privilege.fields.as_slice())?;
    let set = tables.set(privilege.space).copied();
    let asked = NumberedReq {
        number: privilege.number,
        tree: privilege.tree,
        space: privilege.space,
        fields,
        access: privilege.access,
    };
    Ok(Claim::new(&asked, set))
}

/// The privileges of one group.
fn row_of<'a, P: PointSet + Copy>(
    alloc: Global,
    bump: &'a Bump,
    tables: &LogTables<P>,
    privileges: &[GroupReq],
    group: u32,
) -> Result<Row<'a, P>, AllocError>
    requires { All (λ q. IsStrictlyIncreasing q.fields) privileges.now }
    ensures { IfOk result (λ row. row
        ≡ map (λ q. claim_of tables.now (as_req q)) (filter (λ q. q.group == group) privileges.now)) }
{
    let mut row = Row::new(alloc);
    for privilege in privileges {
        if privilege.group == group {
            row.push(privilege_claim(bump, tables, privilege)?)?;
        }
    }
    Ok(row)
}

/// The privileges of each of some groups.
fn rows_among<'a, P: PointSet + Copy>(
    alloc: Global,
    bump: &'a Bump,
    tables: &LogTables<P>,
    privileges: &[GroupReq],
    groups: &[Group],
) -> Result<Vec<Row<'a, P>>, AllocError>
    requires { All (λ q. IsStrictlyIncreasing q.fields) privileges.now }
    ensures { IfOk result (λ rows. rows.items ≡ map (row_among tables.now privileges.now) groups.now) }
{
    let mut rows = Vec::new(alloc);
    for group in groups {
        rows.push(row_of(alloc, bump, tables, privileges, group.id)?)?;
    }
    Ok(rows)
}

/// The privileges of each group.
pub(crate) fn rows_of<'a, P: PointSet + Copy>(
    alloc: Global,
    bump: &'a Bump,
    tables: &LogTables<P>,
    groups: &Groups,
) -> Result<Vec<Row<'a, P>>, AllocError>
    ensures { IfOk result (λ rows. rows.items ≡ rows_in tables.now groups.now) }
{
    rows_among(alloc, bump, tables, groups.privileges(), groups.groups())
}

/// The row, or the group, at a place.
pub(crate) fn row_in_place<T>(rows: &[T], place: usize) -> Option<&T>
    ensures { option_copied result ≡ slice_get rows.now place }
{
    rows.get(place)
}

/// The privileges of the group with this id, if there is such a group.
#[tactic(auto, using(crate::proofs::Gathering::row_found, crate::proofs::Gathering::row_none))]
pub(crate) fn row_at<'r, 'a, P: PointSet + Copy>(
    rows: &'r [Row<'a, P>],
    groups: &Groups,
    id: u32,
) -> Option<&'r Row<'a, P>>
    ensures { (t : Tables) → rows.now ≡ rows_in t groups.now → AreNamed groups.now
        → option_map_or (λ r. r.now) result [] ≡ row_in t groups.now id }
{
    let Some(place) = groups.place(id) else {
        return None;
    };
    row_in_place(rows, place)
}
