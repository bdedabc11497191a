//! What requirements claim in a launch.

ghost use Rattle.std.specs.Prelude.{◌≡◌, ◌↔◌, ◌++◌, All, map, max, IfOk, IsTrue, OnOk};
ghost use Rattle.arena_sets.specs.Pieces.{AreRectsOf};
ghost use Rattle.launch_claims.specs.Blocks.{AreBlocks, block_of};
ghost use Rattle.std.specs.List.{flat_map};
ghost use Rattle.launch_claims.specs.Claiming.{AreClaims, AreInFirstColumn, claim_on, claims_by, rows_of, time_of};

use crate::block::Block;
use crate::claim::Claim;
use crate::requirement::{LaunchTasks, Requirement};
use arena_sets::SetOfRects;
use memory::Memory;
use point_set::{PointSet, Rect};
use std::alloc::Global;

/// Whether a set lies in the first column.
fn is_in_first_column<P: PointSet>(set: &P) -> bool
    ensures { IsTrue result ↔ AreInFirstColumn (P.points set.now) }
{
    match set.last() {
        Some(last) => last < 4_294_967_296,
        None => true,
    }
}

/// Whether the set of each requirement lies in the first column, so that what it claims is runs of points.
pub(crate) fn are_in_first_column<P: PointSet + Copy>(reqs: &[Requirement<'_, P>]) -> bool
    ensures { IsTrue result ↔ All (λ r. AreInFirstColumn (P.points r.set)) reqs.now }
{
    reqs.iter().all(|req| is_in_first_column(&req.set))
}

/// The first number at which a requirement, its points and a launch are all known.
fn time_of<P: PointSet + Copy>(launch: &LaunchTasks, req: &Requirement<'_, P>) -> u32
    ensures { result ≡ time_of launch.now req.now }
{
    launch.number.max(req.record.max(req.declared))
}

/// What a requirement claims of a field, but for the points.
fn claim_on<P: PointSet + Copy>(launch: &LaunchTasks, req: &Requirement<'_, P>, field: u32) -> Claim
    ensures { result ≡ claim_on launch.now req.now field }
{
    Claim {
        tree: req.tree,
        field,
        first: 0,
        last: 0,
        task: req.task,
        access: req.access,
        record: time_of(launch, req),
    }
}

/// The same claim on the rows of a rectangle.
fn rows_of(claim: &Claim, rect: Rect) -> Claim
    ensures { result ≡ rows_of claim.now rect }
{
    Claim {
        first: u64::from(rect.y0),
        last: u64::from(rect.y1),
        ..*claim
    }
}

/// Adds the same claim on the rows of each of some rectangles.
fn push_rows(claims: &mut Vec<Claim>, claim: &Claim, rects: &[Rect]) -> Result<(), Memory>
    ensures { OnOk result (claims.new.items ≡ claims.old.items ++ map (rows_of claim.now) rects.now) }
{
    for rect in rects {
        claims.push(rows_of(claim, *rect))?;
    }
    Ok(())
}

/// Adds what a requirement claims in a launch, whose points are those of rectangles in the first column.
fn push_claims<P: PointSet + Copy>(
    claims: &mut Vec<Claim>,
    launch: &LaunchTasks,
    req: &Requirement<'_, P>,
    rects: &[Rect],
) -> Result<(), Memory>
    ensures { OnOk result (claims.new.items ≡ claims.old.items ++ claims_by launch.now req.now rects.now) }
{
    for field in req.fields {
        push_rows(claims, &claim_on(launch, req, *field), rects)?;
    }
    Ok(())
}

/// The rectangles of a set.
fn rects_of<P: SetOfRects>(alloc: Global, set: &P) -> Result<Vec<Rect>, Memory>
    ensures { IfOk result (λ rects. AreRectsOf (P.points set.now) rects.items) }
{
    let mut rects = Vec::new(alloc);
    set.push_rects(&mut rects)?;
    Ok(rects)
}

/// What requirements claim in a launch, where each set lies in the first column.
pub(crate) fn claims_of<P: SetOfRects + Copy>(
    alloc: Global,
    launch: &LaunchTasks,
    reqs: &[Requirement<'_, P>],
) -> Result<Vec<Claim>, Memory>
    requires { All (λ r. AreInFirstColumn (P.points r.set)) reqs.now }
    ensures { IfOk result (λ claims. AreClaims P.points launch.now reqs.now claims.items) }
{
    let mut claims = Vec::new(alloc);
    for req in reqs {
        let rects = rects_of(alloc, &req.set)?;
        push_claims(&mut claims, launch, req, rects.as_slice())?;
    }
    Ok(claims)
}

/// A rectangle of points as a block with the claim of its rows.
fn block_of(claim: &Claim, rect: Rect) -> Block
    ensures { result ≡ block_of claim.now rect }
{
    Block {
        claim: rows_of(claim, rect),
        x0: rect.x0,
        x1: rect.x1,
    }
}

/// Adds the blocks of some rectangles, with the same claim.
fn push_rects(blocks: &mut Vec<Block>, claim: &Claim, rects: &[Rect]) -> Result<(), Memory>
    ensures { OnOk result (blocks.new.items ≡ blocks.old.items ++ map (block_of claim.now) rects.now) }
{
    for rect in rects {
        blocks.push(block_of(claim, *rect))?;
    }
    Ok(())
}

/// Adds the blocks of a requirement in a launch, whose points are those of rectangles.
fn push_blocks<P: PointSet + Copy>(
    blocks: &mut Vec<Block>,
    launch: &LaunchTasks,
    req: &Requirement<'_, P>,
    rects: &[Rect],
) -> Result<(), Memory>
    ensures { OnOk result (blocks.new.items ≡ blocks.old.items
        ++ flat_map (λ field. map (block_of (claim_on launch.now req.now field)) rects.now) req.now.fields.now) }
{
    for field in req.fields {
        push_rects(blocks, &claim_on(launch, req, *field), rects)?;
    }
    Ok(())
}

/// What requirements claim in a launch, as blocks.
pub(crate) fn blocks_of<P: SetOfRects + Copy>(
    alloc: Global,
    launch: &LaunchTasks,
    reqs: &[Requirement<'_, P>],
) -> Result<Vec<Block>, Memory>
    ensures { IfOk result (λ blocks. AreBlocks P.points launch.now reqs.now blocks.items) }
{
    let mut blocks = Vec::new(alloc);
    for req in reqs {
        let rects = rects_of(alloc, &req.set)?;
        push_blocks(&mut blocks, launch, req, rects.as_slice())?;
    }
    Ok(blocks)
}
