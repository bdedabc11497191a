//! The nodes that a graph is built of.

ghost use Rattle.std.specs.Prelude.{◌≡◌, IfOk};
ghost use Rattle.vocabulary.specs.Prelude.{graph_of};

use semantics::LogNode;
use spy_words::{ListOf, Nums};
use std::alloc::{AllocError, Global};
use std::marker::Model;

/// Events in order.
pub type EventList = ListOf<u32>;

/// A node of the recorded run, as far as order goes: its completion event, and the events that it waits on.
#[derive(Drop)]
pub struct NodeIn {
    pub done: u32,
    pub waits: Nums,
}

impl Model for NodeIn {
    ghost use Rattle.vocabulary.specs.Prelude.{Node};

    ghost Value = { Node };

    ghost view = { λ n. record { done = n.done; waits = n.waits } };
}

/// A node as its graph is built: its waits stay where they are.
#[derive(Drop)]
pub(crate) struct NodeRef<'a> {
    pub(crate) done: u32,
    pub(crate) waits: &'a [u32],
}

impl<'a> Model for NodeRef<'a> {
    ghost use Rattle.vocabulary.specs.Prelude.{Node};

    ghost Value = { Node };

    ghost view = { λ n. record { done = n.done; waits = n.waits.now } };
}

/// These nodes, where they are.
pub(crate) fn refs_of<'a>(
    alloc: Global,
    nodes: &'a [NodeIn],
) -> Result<Vec<NodeRef<'a>>, AllocError>
    ensures { IfOk result (λ refs. refs.items ≡ nodes.now) }
{
    let mut refs = Vec::with_capacity(alloc, nodes.len())?;
    for node in nodes {
        refs.push(NodeRef {
            done: node.done,
            waits: node.waits.as_slice(),
        })?;
    }
    Ok(refs)
}

/// The nodes of a log, where they are.
pub(crate) fn refs_in<'a>(
    alloc: Global,
    nodes: &'a [LogNode],
) -> Result<Vec<NodeRef<'a>>, AllocError>
    ensures { IfOk result (λ refs. refs.items ≡ graph_of nodes.now) }
{
    let mut refs = Vec::with_capacity(alloc, nodes.len())?;
    for node in nodes {
        let waits = node.waits.as_slice();
        refs.push(NodeRef {
            done: node.done,
            waits,
        })?;
    }
    Ok(refs)
}
