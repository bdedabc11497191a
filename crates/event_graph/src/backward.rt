//! Whether nodes wait on earlier ones alone.

ghost use Rattle.std.specs.Prelude.{◌≡◌, ◌<◌, All, true, IfOk};
ghost use Rattle.std.specs.List.{range_with_len};
ghost use Rattle.event_graph.specs.EventPlaces.{WaitBack};

use crate::graph::Graph;
use std::alloc::{AllocError, Global};

/// Whether all numbers are below one.
fn are_below(k: usize, numbers: &[u32]) -> bool
    ensures { result ≡ true → All (λ p. p < k) numbers.now }
{
    for p in numbers {
        if *p as usize >= k {
            return false;
        }
    }
    true
}

/// Whether each node waits on earlier ones alone.
pub(crate) fn wait_back(graph: &Graph) -> bool
    ensures { result ≡ true → WaitBack graph.now }
{
    for k in 0..graph.len() {
        if !are_below(k, graph.sources(k)) {
            return false;
        }
    }
    true
}

/// The positions of so many nodes.
pub(crate) fn positions(alloc: Global, count: usize) -> Result<Vec<usize>, AllocError>
    ensures { IfOk result (λ v. v.items ≡ range_with_len 0 count) }
{
    let mut positions = Vec::with_capacity(alloc, count)?;
    for k in 0..count {
        positions.push(k)?;
    }
    Ok(positions)
}
