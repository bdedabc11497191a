//! For each node the nodes that wait on it.

ghost use Rattle.std.specs.Prelude.{◌<◌, length, All, IfOk, OnOk};
ghost use Rattle.event_graph.specs.WaitCounts.{times, AddsWaits, AreWaiters};

use crate::graph::Graph;
use number_lists::NumberLists;
use std::alloc::{AllocError, Global};

/// Writes down what node `k` waits on.
fn add_waits(waiters: &mut NumberLists, k: usize, sources: &[u32]) -> Result<(), AllocError>
    requires { All (λ p. p < length waiters.old) sources.now }
    ensures { OnOk result (AddsWaits waiters.old waiters.new k (λ q. times q sources.now)) }
{
    for p in sources {
        waiters.push(*p as usize, k)?;
    }
    Ok(())
}

/// For each node the nodes that wait on it.
pub(crate) fn waiters_of(alloc: Global, graph: &Graph) -> Result<NumberLists, AllocError>
    ensures { IfOk result (λ waiters. AreWaiters graph.now waiters) }
{
    let mut waiters = NumberLists::empty(alloc, graph.len())?;
    for k in 0..graph.len() {
        add_waits(&mut waiters, k, graph.sources(k))?;
    }
    Ok(waiters)
}
