//! The nodes that may be taken next.

ghost use Rattle.std.specs.Prelude.{◌≡◌, ℕ, ◌+◌, ◌≤◌, ◌<◌, ◌==◌, ◌&&◌, ◌||◌, if◌then◌else◌, not, IfOk, OnOk, IfNone, IfSome, true, false, ◌↔◌, slice_index, length};
ghost use Rattle.std.specs.BTreeSet.{contains};
ghost use Rattle.std.specs.Ordering.{nat_cmp};
ghost use Rattle.event_graph.specs.WaitCounts.{times};

use std::alloc::{AllocError, Global};
use std::collections::BTreeSet;

/// The nodes that wait on nothing.
pub(crate) fn first_ready(alloc: Global, pending: &[usize]) -> Result<BTreeSet<usize>, AllocError>
    ensures { IfOk result (λ ready. (q : ℕ) → (contains nat_cmp ready q ≡ true)
        ↔ ((q < length pending.now) × (slice_index pending.now q ≡ 0))) }
{
    let mut ready = BTreeSet::new(alloc);
    for (i, left) in pending.iter().enumerate() {
        if *left == 0 {
            ready.insert(i)?;
        }
    }
    Ok(ready)
}

/// Takes the least node out of the queue.
pub(crate) fn next_ready(ready: &mut BTreeSet<usize>) -> Option<usize>
    ensures none { IfNone result ((q : ℕ) → contains nat_cmp ready.old q ≡ false) }
    ensures member { IfSome result (λ k. contains nat_cmp ready.old k ≡ true) }
    ensures least { IfSome result (λ k. (q : ℕ) → q < k → contains nat_cmp ready.old q ≡ false) }
    ensures rest { IfSome result (λ k. (q : ℕ)
        → contains nat_cmp ready.new q ≡ (contains nat_cmp ready.old q && not (k == q))) }
{
    ready.pop_first()
}

/// Takes one wait off a node, and makes it ready if it has none left.
fn take_wait(
    pending: &mut Vec<usize>,
    ready: &mut BTreeSet<usize>,
    s: usize,
) -> Result<(), AllocError>
    requires { 0 < slice_index pending.old.items s }
    ensures counts { OnOk result ((q : ℕ)
        → slice_index pending.new.items q + (if s == q then 1 else 0) ≡ slice_index pending.old.items q) }
    ensures queue { OnOk result ((q : ℕ) → contains nat_cmp ready.new q
        ≡ (contains nat_cmp ready.old q || ((s == q) && (slice_index pending.new.items q == 0)))) }
{
    pending[s] -= 1;
    if pending[s] == 0 {
        ready.insert(s)?;
    }
    Ok(())
}

/// Takes one wait off each of these nodes, and makes ready those that have none left.
pub(crate) fn release(
    pending: &mut Vec<usize>,
    ready: &mut BTreeSet<usize>,
    waiting: &[usize],
) -> Result<(), AllocError>
    requires { (s : ℕ) → times s waiting.now ≤ slice_index pending.old.items s }
    ensures counts { OnOk result ((s : ℕ)
        → slice_index pending.new.items s + times s waiting.now ≡ slice_index pending.old.items s) }
    ensures queue { OnOk result ((s : ℕ) → contains nat_cmp ready.new s ≡ (contains nat_cmp ready.old s
        || (not (slice_index pending.old.items s == 0) && (slice_index pending.new.items s == 0)))) }
{
    for s in waiting {
        take_wait(pending, ready, *s)?;
    }
    Ok(())
}
