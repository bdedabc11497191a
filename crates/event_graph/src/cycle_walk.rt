//! The walk over the nodes that are never taken, and the cycle that it ends in.

ghost use Rattle.std.specs.Prelude.{◌≡◌, ◌==◌, ℕ, ◌+◌, ◌<◌, ◌≤◌, true, false, not, length, reverse, unwrap_or, position, [], All, IfOk, IfSome};
ghost use Rattle.std.specs.List.{slice_index_or, list_any};
ghost use Rattle.semantics.specs.ReplayOrder.{stuck_wait, walk, up_to, from_least, least_among, begun_at, replay_order};
ghost use Rattle.event_graph.specs.Marked.{AreMarked};

use crate::graph::Graph;
use crate::marks::{is_marked, mark, no_marks};
use std::alloc::{AllocError, Global};

/// The least of some numbers that is not marked, or else how many marks there are.
fn least_unmarked(marks: &[bool], numbers: &[u32]) -> usize
    requires { All (λ p. p < length marks.now) numbers.now }
    ensures within { result ≤ length marks.now }
    ensures found { result < length marks.now → (slice_index_or marks.now result false ≡ false)
        × (list_any (λ p. p == result) numbers.now ≡ true) }
    ensures least { (j : ℕ) → j < result → slice_index_or marks.now j false ≡ false
        → list_any (λ p. p == j) numbers.now ≡ false }
{
    let mut best = marks.len();
    for p in numbers {
        let p = *p as usize;
        if !marks[p] && p < best {
            best = p;
        }
    }
    best
}

/// The numbers of a list, the last first, up to and with this one.
fn back_to(alloc: Global, trail: &[usize], at: usize) -> Result<Vec<usize>, AllocError>
    ensures { IfOk result (λ v. v.items ≡ up_to at (reverse trail.now)) }
{
    let mut round = Vec::new(alloc);
    for i in (0..trail.len()).rev() {
        round.push(trail[i])?;
        if trail[i] == at {
            return Ok(round);
        }
    }
    Ok(round)
}

/// The first place of a number.
fn position_of(round: &[usize], k: usize) -> Option<usize>
    ensures place { result ≡ position (λ n. n == k) round.now }
    ensures within { IfSome result (λ at. at < length round.now) }
{
    round.iter().position(|n| *n == k)
}

/// The place of a number, or 0.
fn place_in(round: &[usize], k: usize) -> usize
    ensures place { result ≡ unwrap_or (position (λ n. n == k) round.now) 0 }
    ensures within { result ≤ length round.now }
{
    match position_of(round, k) {
        Some(at) => at,
        None => 0,
    }
}

/// The same round, begun at a number.
fn begun_at(alloc: Global, round: &[usize], k: usize) -> Result<Vec<usize>, AllocError>
    ensures { IfOk result (λ v. v.items ≡ begun_at k round.now) }
{
    let at = place_in(round, k);
    let mut turned = Vec::new(alloc);
    turned.extend_from_slice(&round[at..])?;
    turned.extend_from_slice(&round[..at])?;
    Ok(turned)
}

/// The same round, begun at its least number.
pub(crate) fn from_its_least(alloc: Global, round: &[usize]) -> Result<Vec<usize>, AllocError>
    ensures { IfOk result (λ v. v.items ≡ from_least round.now) }
{
    match round {
        [] => Ok(Vec::new(alloc)),
        [first, rest @ ..] => begun_at(alloc, round, least_of(*first, rest)),
    }
}

/// The least of a number and some more.
fn least_of(first: usize, rest: &[usize]) -> usize
    ensures { result ≡ least_among first rest.now }
{
    let mut least = first;
    for n in rest {
        least = least.min(*n);
    }
    least
}

/// The first stuck node that a node waits on, or else the node.
fn next_stuck(graph: &Graph, taken: &[bool], k: usize) -> usize
    requires node { k < length graph.now }
    requires taken { AreMarked taken.now (length graph.now) (replay_order graph.now) }
    ensures next { result ≡ unwrap_or (stuck_wait graph.now k) k }
    ensures within { result < length graph.now }
{
    let best = least_unmarked(taken, graph.sources(k));
    if best < taken.len() { best } else { k }
}

/// The walk from a stuck node, until it comes to a node again: the nodes from there on, the latest first.
pub(crate) fn walk_from(
    alloc: Global,
    graph: &Graph,
    taken: &[bool],
    start: usize,
) -> Result<Vec<usize>, AllocError>
    requires start { start < length graph.now }
    requires taken { AreMarked taken.now (length graph.now) (replay_order graph.now) }
    ensures { IfOk result (λ v. v.items ≡ walk graph.now (length graph.now + 1) [] start) }
{
    let mut trail = Vec::new(alloc);
    let mut seen = no_marks(alloc, graph.len())?;
    let mut at = start;
    for _round in 0..graph.len() + 1 {
        if is_marked(seen.as_slice(), at) {
            let round = back_to(alloc, trail.as_slice(), at)?;
            return Ok(round);
        }
        mark(&mut seen, at);
        trail.push(at)?;
        at = next_stuck(graph, taken, at);
    }
    Ok(Vec::new(alloc))
}
