//! What the items of a log ask for, requirement by requirement.

ghost use Rattle.std.specs.Prelude.{◌≡◌, ◌<◌, ℕ, Contains, length, false, true, IfNone, IfOk, IfSome, OnOk};
ghost use Rattle.std.specs.List.Sorted.{IsNonDecreasingBy, IsPermutation};
ghost use Rattle.vocabulary.specs.Prelude.{Req, uses_of};
ghost use Rattle.semantics.specs.Shown.{is_task_at};
ghost use Rattle.serial_scan.specs.Claims.{AreAllClaims, ClaimOf, HasClaim, Keeps};

use earliest_uses::SerialUse;
use logs::Log;
use point_set::PointSet;
use privilege::{Coherence, Priv};
use semantics::{ItemBody, Req};
use std::alloc::{AllocError, Global};

/// A requirement of a task, or what a fill asks for, with the position of the item in program order.
#[derive(Clone, Copy)]
pub(crate) struct Claim<'l> {
    pub(crate) item: usize,
    pub(crate) tree: u32,
    pub(crate) space: u32,
    pub(crate) fields: &'l [u32],
    pub(crate) one: SerialUse,
}

/// Adds a requirement, if its item is there.
#[tactic(auto, using(crate::proofs::Claiming::kept_more, crate::proofs::Claiming::claim_more))]
fn push_req<'l, 'a, P: PointSet + Copy>(
    claims: &mut Vec<Claim<'l>>,
    log: &Log<'a, P>,
    req: &'l Req,
) -> Result<(), AllocError>
    ensures kept { OnOk result (Keeps claims.old.items claims.new.items) }
    ensures added { OnOk result (req.now.item < length log.now.items
        → HasClaim log.now claims.new.items req.now.item req.now) }
{
    if req.item < log.items().len() {
        claims.push(Claim {
            item: req.item,
            tree: req.tree,
            space: req.space,
            fields: req.fields.as_slice(),
            one: SerialUse {
                position: log.serial_place(req.item),
                access: req.access,
                coherence: req.coherence,
            },
        })?;
    }
    Ok(())
}

/// What an item asks for by itself: a fill to write, and a task nothing.
fn own_claim<'l, 'a, P: PointSet + Copy>(log: &'l Log<'a, P>, item: usize) -> Option<Claim<'l>>
    requires { item < length log.now.items }
    ensures none { IfNone result (is_task_at log.now item ≡ true) }
    ensures some { IfSome result (λ c. (r : Req) → Contains (uses_of log.now item) r → ClaimOf log.now item r c) }
{
    let entry = log.items().get(item)?;
    match &entry.body {
        ItemBody::Fill {
            tree,
            space,
            fields,
            ..
        } => Some(Claim {
            item,
            tree: *tree,
            space: *space,
            fields: fields.as_slice(),
            one: SerialUse {
                position: log.serial_place(item),
                access: Priv::Wd,
                coherence: Coherence::Exclusive,
            },
        }),
        ItemBody::Task => None,
    }
}

/// Adds what an item asks for by itself.
#[tactic(auto, using(crate::proofs::Claiming::kept_more))]
fn push_own<'l, 'a, P: PointSet + Copy>(
    claims: &mut Vec<Claim<'l>>,
    log: &'l Log<'a, P>,
    item: usize,
) -> Result<(), AllocError>
    requires { item < length log.now.items }
    ensures kept { OnOk result (Keeps claims.old.items claims.new.items) }
    ensures added { OnOk result (is_task_at log.now item ≡ false → (r : Req) → Contains (uses_of log.now item) r
        → HasClaim log.now claims.new.items item r) }
{
    if let Some(claim) = own_claim(log, item) {
        claims.push(claim)?;
    }
    Ok(())
}

/// Adds all requirements.
fn push_reqs<'l, 'a, P: PointSet + Copy>(
    claims: &mut Vec<Claim<'l>>,
    log: &'l Log<'a, P>,
) -> Result<(), AllocError>
    ensures kept { OnOk result (Keeps claims.old.items claims.new.items) }
    ensures added { OnOk result ((r : Req) → Contains log.now.reqs r → r.item < length log.now.items
        → HasClaim log.now claims.new.items r.item r) }
{
    for req in log.reqs() {
        push_req(claims, log, req)?;
    }
    Ok(())
}

/// Adds what all items ask for by themselves.
fn push_fills<'l, 'a, P: PointSet + Copy>(
    claims: &mut Vec<Claim<'l>>,
    log: &'l Log<'a, P>,
) -> Result<(), AllocError>
    ensures kept { OnOk result (Keeps claims.old.items claims.new.items) }
    ensures added { OnOk result ((item : ℕ) → item < length log.now.items → is_task_at log.now item ≡ false
        → (r : Req) → Contains (uses_of log.now item) r → HasClaim log.now claims.new.items item r) }
{
    for item in 0..log.items().len() {
        push_own(claims, log, item)?;
    }
    Ok(())
}

/// Puts claims in the order of their items.
fn sort(claims: &mut Vec<Claim<'_>>)
    ensures claims { IsPermutation claims.old.items claims.new.items }
    ensures order { IsNonDecreasingBy (λ c. c.item) claims.new.items }
{
    claims.sort_unstable_by_key(|claim| claim.item);
}

/// What all items ask for, item by item.
pub(crate) fn claims_of<'l, 'a, P: PointSet + Copy>(
    alloc: Global,
    log: &'l Log<'a, P>,
) -> Result<Vec<Claim<'l>>, AllocError>
    ensures all { IfOk result (λ claims. AreAllClaims log.now claims.items) }
    ensures order { IfOk result (λ claims. IsNonDecreasingBy (λ c. c.item) claims.items) }
{
    let mut claims = Vec::with_capacity(alloc, log.reqs().len())?;
    push_reqs(&mut claims, log)?;
    push_fills(&mut claims, log)?;
    sort(&mut claims);
    Ok(claims)
}
