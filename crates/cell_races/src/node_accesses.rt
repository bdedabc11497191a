//! The nodes that access a cell.

ghost use Rattle.std.specs.Prelude.{◌≡◌, ◌<◌, All, IfOk, OnOk, length, map, true};
ghost use Rattle.cell_races.specs.NodeAccesses.{node_access_of, node_accesses_of, with_access};

use crate::access::NodeAccess;
use crate::cell_accesses::CellAccess;
use event_graph::Graph;
use std::alloc::AllocError;

/// The node at the place of an access, and what it does.
pub(crate) fn node_access_of(order: &[usize], cell_access: &CellAccess) -> NodeAccess
    requires { cell_access.now.place < length order.now }
    ensures { result ≡ node_access_of order.now cell_access.now }
{
    NodeAccess {
        node: order[cell_access.place],
        access: cell_access.access,
    }
}

/// Two accesses by one node, as one.
fn with_access(node_access: NodeAccess, next: NodeAccess) -> NodeAccess
    ensures { result ≡ with_access node_access next }
{
    NodeAccess {
        node: node_access.node,
        access: node_access.access.joined(next.access),
    }
}

/// Makes the list that of the nodes of what is done at one cell, each with all that it does there as one access.
pub(crate) fn list_node_accesses(
    node_accesses: &mut Vec<NodeAccess>,
    order: &[usize],
    cell_accesses: &[CellAccess],
) -> Result<(), AllocError>
    requires { All (λ x. x.place < length order.now) cell_accesses.now }
    ensures { OnOk result (node_accesses.new.items ≡ node_accesses_of order.now cell_accesses.now) }
{
    node_accesses.clear();
    let Some((first, rest)) = cell_accesses.split_first() else {
        return Ok(());
    };
    let mut last = node_access_of(order, first);
    for cell_access in rest {
        let next = node_access_of(order, cell_access);
        if last.node == next.node {
            last = with_access(last, next);
        } else {
            node_accesses.push(last)?;
            last = next;
        }
    }
    node_accesses.push(last)?;
    Ok(())
}

/// Makes the list that of the nodes of what is done at a cell, access by access. Whether all of them are nodes of the graph.
pub(crate) fn list_access_by_access(
    node_accesses: &mut Vec<NodeAccess>,
    graph: &Graph,
    order: &[usize],
    cell_accesses: &[CellAccess],
) -> Result<bool, AllocError>
    ensures list { IfOk result (λ all. all ≡ true
        → node_accesses.new.items ≡ map (node_access_of order.now) cell_accesses.now) }
    ensures nodes { IfOk result (λ all. all ≡ true
        → All (λ a. a.node < length graph.now) node_accesses.new.items) }
{
    node_accesses.clear();
    for cell_access in cell_accesses {
        if cell_access.place >= order.len() {
            return Ok(false);
        }
        let node_access = node_access_of(order, cell_access);
        if node_access.node >= graph.len() {
            return Ok(false);
        }
        node_accesses.push(node_access)?;
    }
    Ok(true)
}
