//! Short chains of waits, by which a node is before another. To find one takes no marks.

ghost use Rattle.std.specs.Prelude.{◌≡◌, true, All, IfSome};
ghost use Rattle.vocabulary.specs.Prelude.{Before, WaitsOn};

use event_graph::Graph;

/// How many waits of a node are looked at.
const WAITS_LOOKED_AT: usize = 32;

/// The node on which a node waits in a place of its list, if there is one and so many steps are left that it may be looked at.
#[tactic(auto, using(reach_marks::proofs::lemmas::Chains::waited))]
fn wait_at(graph: &Graph, node: usize, k: usize, steps: &mut usize) -> Option<usize>
    ensures { IfSome result (λ on. WaitsOn graph.now node on) }
{
    *steps = steps.checked_sub(1)?;
    graph.wait_at(node, k)
}

/// Whether a node is found among those on which another waits.
fn waits_on(graph: &Graph, node: usize, on: usize, steps: &mut usize) -> bool
    ensures { result ≡ true → WaitsOn graph.now node on }
{
    for k in 0..WAITS_LOOKED_AT {
        let Some(found) = wait_at(graph, node, k, steps) else {
            return false;
        };
        if found == on {
            return true;
        }
    }
    false
}

/// Whether a chain of one wait or of two is found from a node to another.
#[tactic(auto, using(reach_marks::proofs::lemmas::Chains::one_wait, reach_marks::proofs::lemmas::Chains::two_waits))]
fn leads_in_two(graph: &Graph, a: usize, b: usize, steps: &mut usize) -> bool
    ensures { result ≡ true → Before graph.now a b }
{
    if waits_on(graph, b, a, steps) {
        return true;
    }
    for k in 0..WAITS_LOOKED_AT {
        let Some(between) = wait_at(graph, b, k, steps) else {
            return false;
        };
        if waits_on(graph, between, a, steps) {
            return true;
        }
    }
    false
}

/// Whether a chain of one wait, of two or of three is found from a node to another.
#[tactic(auto, using(reach_marks::proofs::lemmas::Chains::one_more))]
fn leads_to(graph: &Graph, a: usize, b: usize, steps: &mut usize) -> bool
    ensures { result ≡ true → Before graph.now a b }
{
    if leads_in_two(graph, a, b, steps) {
        return true;
    }
    for k in 0..WAITS_LOOKED_AT {
        let Some(between) = wait_at(graph, b, k, steps) else {
            return false;
        };
        if leads_in_two(graph, a, between, steps) {
            return true;
        }
    }
    false
}

/// Whether such a chain is found from each node of a group to a node. Each wait that is looked at takes a step of those that are left; where none is left, none is found.
pub(crate) fn all_lead_to(graph: &Graph, group: &[usize], b: usize, steps: &mut usize) -> bool
    ensures { result ≡ true → All (λ a. Before graph.now a b) group.now }
{
    for a in group {
        if !leads_to(graph, *a, b, steps) {
            return false;
        }
    }
    true
}
