//! The spaces that groups name, and which of them share points.

ghost use Rattle.std.specs.Prelude.{◌≡◌, All, map, IfOk, OnOk};
ghost use Rattle.log_tables.specs.Regions.{space_points};
ghost use Rattle.vocabulary.specs.Prelude.{meets};
ghost use Rattle.group_pairs.specs.Sites.{IsSite, shared_row, shared_table, sharing, site_place};

use crate::marks::Marks;
use crate::side::Side;
use licences::Claim;
use log_tables::{BySpace, KeyBy, Rows};
use memory::Memory;
use point_set::PointSet;
use region_tree::{Forest, Path};
use std::alloc::{AllocError, Global};

/// How many sites there are at most. Sets are asked where a space is past the last.
const MOST_SITES: usize = 2_048;

/// A space that groups name, with its path, if it is declared.
#[derive(Drop)]
pub(crate) struct Site {
    pub(crate) space: u32,
    pub(crate) path: Option<Path>,
}

impl KeyBy<Site> for BySpace {
    type K = u32;

    ghost key_of = { λ s. s.space };

    fn key(row: &Site) -> u32 {
        row.space
    }
}

/// The sites, by their spaces.
pub(crate) type Sites = Rows<BySpace, Site>;

/// The site of a space.
fn site_of<P: PointSet>(alloc: Global, forest: &Forest<'_, P>, space: u32) -> Result<Site, Memory>
    ensures { IfOk result (IsSite forest.now) }
{
    let path = forest.path_of(alloc, space)?;
    Ok(Site { space, path })
}

/// Whether the spaces of two sites share a point. Below two colours of one disjoint partition no point is looked at.
fn share_points<P: PointSet>(forest: &Forest<'_, P>, a: &Site, b: &Site) -> bool
    requires a { IsSite forest.now a.now }
    requires b { IsSite forest.now b.now }
    ensures { result ≡ sharing forest.now a.now b.now }
{
    let Some(ours) = &a.path else {
        return false;
    };
    let Some(theirs) = &b.path else {
        return false;
    };
    forest.alias(ours, theirs).is_some()
}

/// Which of some sites share points with a site.
fn row_of<P: PointSet>(
    alloc: Global,
    forest: &Forest<'_, P>,
    sites: &[Site],
    site: &Site,
) -> Result<Marks, AllocError>
    requires site { IsSite forest.now site.now }
    requires sites { All (IsSite forest.now) sites.now }
    ensures { IfOk result (λ row. row ≡ shared_row forest.now sites.now site.now) }
{
    let mut row = Marks::new(alloc);
    for other in sites {
        row.push(share_points(forest, site, other))?;
    }
    Ok(row)
}

/// Which of some sites share points with which.
pub(crate) fn table_of<P: PointSet>(
    alloc: Global,
    forest: &Forest<'_, P>,
    sites: &[Site],
) -> Result<Vec<Marks>, AllocError>
    requires { All (IsSite forest.now) sites.now }
    ensures { IfOk result (λ table. table.items ≡ shared_table forest.now sites.now) }
{
    let mut table = Vec::new(alloc);
    for site in sites {
        table.push(row_of(alloc, forest, sites, site)?)?;
    }
    Ok(table)
}

/// Notes the site of a space, if it is new and there are not too many.
fn note_site<P: PointSet>(
    alloc: Global,
    forest: &Forest<'_, P>,
    sites: &mut Sites,
    space: u32,
) -> Result<(), Memory>
    requires { All (IsSite forest.now) sites.old }
    ensures { OnOk result (All (IsSite forest.now) sites.new) }
{
    if sites.len() < MOST_SITES && !sites.has(space) {
        let site = site_of(alloc, forest, space)?;
        sites.push(site)?;
    }
    Ok(())
}

/// Notes the sites of the spaces of some claims.
fn note_sites<P: PointSet + Copy>(
    alloc: Global,
    forest: &Forest<'_, P>,
    sites: &mut Sites,
    claims: &[Claim<'_, P>],
) -> Result<(), Memory>
    requires { All (IsSite forest.now) sites.old }
    ensures { OnOk result (All (IsSite forest.now) sites.new) }
{
    for claim in claims {
        note_site(alloc, forest, sites, claim.space())?;
    }
    Ok(())
}

/// The sites of the spaces that some groups name, as many as there may be.
pub(crate) fn sites_of<P: PointSet + Copy>(
    alloc: Global,
    forest: &Forest<'_, P>,
    sides: &[Side<'_, '_, P>],
) -> Result<Sites, Memory>
    ensures { IfOk result (All (IsSite forest.now)) }
{
    let mut sites = Rows::new(alloc);
    for side in sides {
        note_sites(alloc, forest, &mut sites, side.claims())?;
    }
    Ok(sites)
}

/// The places of the sites of some claims' spaces.
pub(crate) fn places_of<P: PointSet + Copy>(
    alloc: Global,
    sites: &Sites,
    claims: &[Claim<'_, P>],
) -> Result<Vec<Option<usize>>, AllocError>
    ensures { IfOk result (λ places. places.items ≡ map (site_place sites.now) claims.now) }
{
    let mut places = Vec::new(alloc);
    for claim in claims {
        places.push(sites.place(claim.space()))?;
    }
    Ok(places)
}
