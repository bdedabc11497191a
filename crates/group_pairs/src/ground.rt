//! The spaces that groups name, with the table of those that share points.

ghost use Rattle.std.specs.Prelude.{◌≡◌, map, IfOk};
ghost use Rattle.group_pairs.specs.Outlines.{looked_up, table_in};
ghost use Rattle.group_pairs.specs.Sites.{near_row, site_place};

use crate::marks::Marks;
use crate::side::Side;
use crate::sites::{Sites, places_of, sites_of, table_of};
use licences::Claim;
use memory::Memory;
use point_set::PointSet;
use region_tree::Forest;
use std::alloc::{AllocError, Global};
use std::marker::Model;

/// The sites of the spaces that groups name, and which of them share points. Contracts see what is declared of regions, and the sites.
#[derive(Drop)]
pub(crate) struct Ground<'f, 'd, P: PointSet> {
    forest: &'f Forest<'d, P>,
    sites: Sites,
    table: Vec<Marks>,
}

impl<'f, 'd, P: PointSet> Model for Ground<'f, 'd, P> {
    ghost use Rattle.std.specs.Prelude.{◌≡◌};
    ghost use Rattle.group_pairs.specs.Outlines.{Grounded};
    ghost use Rattle.group_pairs.specs.Sites.{shared_table};

    ghost Value = { Grounded };

    ghost view = { λ g. record { regions = g.forest.now; sites = g.sites } };

    ghost invariant = { λ g. g.table.items ≡ shared_table g.forest.now g.sites };
}

/// Which rows of a table have a mark at one of some places.
fn near_rows(alloc: Global, table: &[Marks], places: &[Option<usize>]) -> Result<Marks, AllocError>
    ensures { IfOk result (λ near. near ≡ near_row table.now places.now) }
{
    let mut near = Marks::new(alloc);
    for row in table {
        near.push(row.has_one(places))?;
    }
    Ok(near)
}

/// Whether two sites share points, by a table.
fn look_up(table: &[Marks], ours: Option<usize>, theirs: Option<usize>) -> Option<bool>
    ensures { result ≡ looked_up table.now ours theirs }
{
    let Some(ours) = ours else {
        return None;
    };
    if theirs.is_none() {
        return None;
    }
    match table.get(ours) {
        Some(row) => Some(row.has(theirs)),
        None => None,
    }
}

impl<'f, 'd, P: PointSet + Copy> Ground<'f, 'd, P> {
    /// The ground of some groups.
    pub(crate) fn of(
        alloc: Global,
        forest: &'f Forest<'d, P>,
        sides: &[Side<'_, '_, P>],
    ) -> Result<Ground<'f, 'd, P>, Memory>
        ensures { IfOk result (λ g. g.regions ≡ forest.now) }
    {
        let sites = sites_of(alloc, forest, sides)?;
        let table = table_of(alloc, forest, sites.as_slice())?;
        Ok(Ground {
            forest,
            sites,
            table,
        })
    }

    /// The places of the sites of some claims' spaces.
    pub(crate) fn places(
        &self,
        alloc: Global,
        claims: &[Claim<'_, P>],
    ) -> Result<Vec<Option<usize>>, AllocError>
        ensures { IfOk result (λ places. places.items ≡ map (site_place self.now.sites) claims.now) }
    {
        places_of(alloc, &self.sites, claims)
    }

    /// Which sites share points with one at these places.
    pub(crate) fn near(&self, alloc: Global, places: &[Option<usize>]) -> Result<Marks, AllocError>
        ensures { IfOk result (λ near. near ≡ near_row (table_in self.now) places.now) }
    {
        near_rows(alloc, &self.table, places)
    }

    /// Whether two sites share points, where there are both.
    pub(crate) fn share(&self, ours: Option<usize>, theirs: Option<usize>) -> Option<bool>
        ensures { result ≡ looked_up (table_in self.now) ours theirs }
    {
        look_up(&self.table, ours, theirs)
    }
}
