//! The rounds in which the nodes are taken.

ghost use Rattle.std.specs.Prelude.{ℕ, ◌≡◌, IfOk, length, slice_index};
ghost use Rattle.semantics.specs.ReplayOrder.{replay_order, waits_at};
ghost use Rattle.event_graph.specs.WaitCounts.{AreWaiters};

use crate::graph::Graph;
use crate::queue::{first_ready, next_ready, release};
use number_lists::NumberLists;
use std::alloc::{AllocError, Global};

/// How many events each node waits on.
fn wait_counts(alloc: Global, graph: &Graph) -> Result<Vec<usize>, AllocError>
    ensures each { IfOk result (λ v. length v.items ≡ length graph.now) }
    ensures counts { IfOk result (λ v. (k : ℕ) → slice_index v.items k ≡ length (waits_at graph.now k)) }
{
    let mut counts = Vec::with_capacity(alloc, graph.len())?;
    for k in 0..graph.len() {
        counts.push(graph.sources(k).len())?;
    }
    Ok(counts)
}

/// The replay order, as far as it goes.
pub(crate) fn order_by(
    alloc: Global,
    graph: &Graph,
    waiters: &NumberLists,
) -> Result<Vec<usize>, AllocError>
    requires { AreWaiters graph.now waiters.now }
    ensures { IfOk result (λ v. v.items ≡ replay_order graph.now) }
{
    let mut pending = wait_counts(alloc, graph)?;
    let mut ready = first_ready(alloc, pending.as_slice())?;
    let mut order = Vec::new(alloc);
    for _round in 0..graph.len() {
        let Some(k) = next_ready(&mut ready) else {
            break;
        };
        order.push(k)?;
        release(&mut pending, &mut ready, waiters.list(k))?;
    }
    Ok(order)
}
