//! Requirements of one task that share a place.

ghost use Rattle.std.specs.Prelude.{◌≡◌, ◌<◌, ◌≤◌, ◌-◌, ◌^◌, List, Option, length, false, option_map, IfOk};
ghost use Rattle.std.specs.List.{list_any};
ghost use Rattle.std.specs.List.Sorted.{IsStrictlyIncreasing};
ghost use Rattle.point_set.specs.declared.rect.Rect.{Rect};
ghost use Rattle.grid.specs.Cuts.{grid_of};
ghost use Rattle.vocabulary.specs.Prelude.{agree, Record, points_in, meets, reqs_before};
ghost use Rattle.semantics.specs.declared.limits.TheConstants.{MOST_ACCESSES};
ghost use Rattle.semantics.specs.Rules.{interferes_with_own};
ghost use Rattle.log_tables.specs.Views.{Ascends};
ghost use Rattle.log_rules.specs.Own.{claim_points, clashes_among, clashes_with, clashes_asked, few_clash, clashes_row};
ghost use Rattle.log_rules.specs.Tallied.{AreKept, IfKept, IfTally};

use crate::claims::{FEW, ItemReq};
use crate::fields::meets;
use crate::named::Named;
use crate::tally::{Tally, claims_many};
use log_tables::{LogTables, priv_of};
use memory::Memory;
use point_set::PointSet;
use privilege::agree;
use semantics::Req;
use spy_grammar::Record;
use std::alloc::Global;

/// Whether a requirement is of the item, and shares a place with what is asked for, where the two privileges do not agree.
fn clashes_with<P: PointSet>(
    tables: &LogTables<P>,
    tally: &Tally,
    req: &Req,
    asked: &ItemReq<'_>,
) -> bool
    requires req { IsStrictlyIncreasing req.now.fields }
    requires fields { IsStrictlyIncreasing asked.now.fields.now }
    ensures { IfKept tables.now tally.now (result
        ≡ clashes_with tables.now asked.now.item asked.now.tree (points_in tables.now asked.now.space)
        asked.now.fields.now asked.now.access req.now) }
{
    req.item == asked.item
        && req.tree == asked.tree
        && !agree(req.access, asked.access)
        && meets(req.fields.as_slice(), asked.fields)
        && tally.pairs.meet(tables, req.space, asked.space)
}

/// Whether one of the first so many requirements of the item clashes so, requirement by requirement.
fn clashes_among<P: PointSet>(
    tables: &LogTables<P>,
    tally: &Tally,
    most: u32,
    asked: &ItemReq<'_>,
) -> bool
    requires { IsStrictlyIncreasing asked.now.fields.now }
    ensures { IfKept tables.now tally.now (result ≡ clashes_among tables.now asked.now most) }
{
    for before in 0..most {
        let Some(req) = tables.req(asked.item, before + 1) else {
            return false;
        };
        if clashes_with(tables, tally, req, asked) {
            return true;
        }
    }
    false
}

/// Whether some requirement of the item clashes so, requirement by requirement.
fn clashes_by_req<P: PointSet>(tables: &LogTables<P>, tally: &Tally, asked: &ItemReq<'_>) -> bool
    requires { IsStrictlyIncreasing asked.now.fields.now }
    ensures { IfKept tables.now tally.now (result ≡ clashes_asked tables.now asked.now) }
{
    clashes_among(tables, tally, u32::MAX, asked)
}

/// Whether one of the first few requirements of the item clashes so.
fn few_clash<P: PointSet>(tables: &LogTables<P>, tally: &Tally, asked: &ItemReq<'_>) -> bool
    requires { IsStrictlyIncreasing asked.now.fields.now }
    ensures { IfKept tables.now tally.now (result ≡ few_clash tables.now asked.now.item asked.now.tree
        asked.now.space asked.now.fields.now asked.now.access) }
{
    clashes_among(tables, tally, FEW as u32, asked)
}

/// Whether a privilege clashes with what is claimed at these fields of a space.
fn clashes_with_claims<P: PointSet>(
    alloc: Global,
    tables: &LogTables<P>,
    tally: &Tally,
    asked: &ItemReq<'_>,
) -> Result<bool, Memory>
    ensures { IfOk result (λ clashes. (all : Option (List Rect))
        → tally.now.places.grid ≡ option_map grid_of all → clashes
        ≡ list_any (clashes_row tally.now.claims asked.now.item asked.now.tree asked.now.fields.now asked.now.access)
        (claim_points all (points_in tables.now asked.now.space))) }
{
    let points = tally.places.points_in(alloc, tables, asked.space)?;
    Ok(tally.claims.clashes_any(points.as_slice(), asked))
}

/// Whether some requirement of the item clashes so: one of the first few, or a later one, whose places are claimed.
fn clashes_by_place<P: PointSet>(
    alloc: Global,
    tables: &LogTables<P>,
    tally: &Tally,
    asked: &ItemReq<'_>,
) -> Result<bool, Memory>
    requires { IsStrictlyIncreasing asked.now.fields.now }
    ensures { IfOk result (λ clashes. (all : Option (List Rect)) → AreKept all tables.now tally.now
        → tally.now.claimed ≤ MOST_ACCESSES → clashes ≡ clashes_asked tables.now asked.now) }
{
    if few_clash(tables, tally, asked) {
        return Ok(true);
    }
    clashes_with_claims(alloc, tables, tally, asked)
}

/// Whether some requirement of the item clashes so. The places are not gone through where the item has few requirements, or where they may be too many.
fn clashes_own<P: PointSet>(
    alloc: Global,
    named: &Named<'_, P>,
    tally: &Tally,
    asked: &ItemReq<'_>,
) -> Result<bool, Memory>
    requires before { named.now.before ≡ reqs_before named.now.tables.now.reqs asked.now.item }
    requires ascend { IsStrictlyIncreasing asked.now.fields.now }
    ensures { IfOk result (λ clashes. (all : Option (List Rect)) → AreKept all named.now.tables.now tally.now
        → clashes ≡ clashes_asked named.now.tables.now asked.now) }
{
    let tables = named.tables;
    if named.before <= FEW {
        Ok(clashes_among(tables, tally, named.before as u32, asked))
    } else if claims_many(tally, named) {
        Ok(clashes_by_req(tables, tally, asked))
    } else {
        clashes_by_place(alloc, tables, tally, asked)
    }
}

/// Whether a record is a requirement that shares a place with an earlier one of its task, where the two privileges do not agree.
///
/// It is held against the first few of its task, and against the places that the others claim: in a log of the second version those at points where cells of the grid of the whole log begin. Where the requirements ask for too many places, it is held against each earlier one of its task instead.
pub fn interferes_with_own<P: PointSet>(
    alloc: Global,
    named: &Named<'_, P>,
    tally: &Tally,
) -> Result<bool, Memory>
    requires { Ascends named.now.rec.now }
    ensures { IfOk result (λ interferes. IfTally named.now.tables.now tally.now
        (λ earlier. interferes ≡ interferes_with_own named.now.tables.now named.now.rec.now)) }
{
    match named.rec {
        Record::Req {
            tree,
            space,
            fields,
            access,
            ..
        } => clashes_own(
            alloc,
            named,
            tally,
            &ItemReq {
                item: named.item,
                tree: *tree,
                space: *space,
                fields: fields.as_slice(),
                access: priv_of(*access),
            },
        ),
        _ => Ok(false),
    }
}
