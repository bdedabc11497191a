//! The few blocks of which it is enough to know, to tell what clashes with later ones.

ghost use Rattle.std.specs.Prelude.{◌≡◌, ◌≢◌, ◌↔◌, ◌⊎◌, ◌++◌, ◌∷◌, [], false, Contains, List, IfOk, IsTrue, OnOk};
ghost use Rattle.std.specs.List.{Any};
ghost use Rattle.launch_claims.specs.declared.block.Block.{Block};
ghost use Rattle.launch_claims.specs.Claims.{clashes, share_field};
ghost use Rattle.launch_claims.specs.Blocks.{ComeBefore, IsNeedless, RowsClash, StandFor, covers};

use crate::block::Block;
use crate::claim::{Claim, share_field};
use memory::Memory;
use privilege::agree;
use std::alloc::Global;

/// Whether two claims clash.
fn clashes(one: &Claim, other: &Claim) -> bool
    ensures { result ≡ clashes one.now other.now }
{
    share_field(one, other)
        && (one.first.max(other.first) <= one.last.min(other.last)
            && (one.task != other.task && !agree(one.access, other.access)))
}

/// Whether the rows of one of some blocks clash with those of a block.
pub(crate) fn rows_clash(kept: &[Block], block: &Block) -> bool
    ensures { IsTrue result ↔ RowsClash kept.now block.now }
{
    kept.iter().any(|other| clashes(&other.claim, &block.claim))
}

/// Whether a claim stands in for another, but for its task: it reaches as far, and no privilege agrees with its own but that of the other.
fn covers(claim: &Claim, other: &Claim) -> bool
    ensures { result ≡ covers claim.now other.now }
{
    share_field(claim, other)
        && (other.last <= claim.last
            && (agree(claim.access, other.access) || !agree(claim.access, claim.access)))
}

/// Whether a block of another task than this one has a claim that stands in for that of a block.
fn is_covered_by_other(kept: &[Block], block: &Block, task: u32) -> bool
    ensures { IsTrue result ↔ Any (λ e. IsTrue (covers e.claim block.now.claim) × (e.claim.task ≢ task)) kept.now }
{
    kept.iter().any(|other| covers(&other.claim, &block.claim) && other.claim.task != task)
}

/// Whether whatever clashes with a block clashes with one of these too.
fn is_needless(kept: &[Block], block: &Block) -> bool
    ensures { IsTrue result ↔ IsNeedless kept.now block.now }
{
    kept.iter().any(|other| {
        covers(&other.claim, &block.claim)
            && (other.claim.task == block.claim.task
                || is_covered_by_other(kept, block, other.claim.task))
    })
}

/// Whether a block is of another field than a later one, or needless.
fn is_idle(kept: &[Block], block: &Block, later: &Block) -> bool
    ensures { IsTrue result → (share_field block.now.claim later.now.claim ≡ false) ⊎ IsNeedless kept.now block.now }
{
    !share_field(&block.claim, &later.claim) || is_needless(kept, block)
}

/// Adds those of the blocks of the field of a block that are not needless.
fn keep_others(more: &mut Vec<Block>, kept: &[Block], block: &Block) -> Result<(), Memory>
    ensures { (seen : List Block) → StandFor (more.old.items ++ kept.now) seen
        → ComeBefore kept.now block.now → Contains seen block.now → OnOk result (StandFor more.new.items seen) }
{
    for other in kept {
        if !is_idle(more.as_slice(), other, block) {
            more.push(*other)?;
        }
    }
    Ok(())
}

/// The kept blocks with one more that stands behind them, without those that are needless with it. Few are kept: of the claims on the last field whose privileges are alike, a few that reach furthest.
pub(crate) fn keep(alloc: Global, kept: Vec<Block>, block: &Block) -> Result<Vec<Block>, Memory>
    ensures { IfOk result (λ more. (seen : List Block) → StandFor kept.items seen → ComeBefore seen block.now
        → StandFor more.items (seen ++ block.now ∷ [])) }
{
    if is_needless(kept.as_slice(), block) {
        return Ok(kept);
    }
    let mut more = Vec::new(alloc);
    more.push(*block)?;
    keep_others(&mut more, kept.as_slice(), block)?;
    Ok(more)
}
