//! Going back along steps.

ghost use Rattle.std.specs.Prelude.{◌≡◌, ◌<◌, ◌^◌, IfOk, length, position};
ghost use Rattle.semantics.specs.Links.{is_asked, kind_of};
ghost use Rattle.semantics.specs.Shown.{event_of};
ghost use Rattle.provenance.specs.Tracing.{links_behind};

use crate::flows::{Flow, flow_of};
use crate::taking::Taken;
use logs::Log;
use point_set::PointSet;
use semantics::{Ask, Cell, Link, LinkKind, Move};
use std::alloc::{AllocError, Global};

/// The event of a node, and 0 where there is none.
fn event_of<P: PointSet + Copy>(log: &Log<'_, P>, node: usize) -> u32
    ensures { result ≡ event_of log.now node }
{
    match log.nodes().get(node) {
        Some(node) => node.done,
        None => 0,
    }
}

/// How a move puts something into a cell.
fn kind_of(step: &Move) -> LinkKind
    ensures { result ≡ kind_of step.now }
{
    match *step {
        Move::Write { .. } => LinkKind::Write,
        Move::Put { .. } => LinkKind::Put,
        _ => LinkKind::Copy,
    }
}

/// The link of a step that put something into a cell.
fn link_by<P: PointSet + Copy>(log: &Log<'_, P>, taken: &Taken, inst: u32, adds: u32) -> Link
    ensures { result ≡ record { kind = kind_of taken.now.step; done = event_of log.now taken.now.node; inst = inst; adds = adds } }
{
    Link {
        kind: kind_of(&taken.step),
        done: event_of(log, taken.node),
        inst,
        adds,
    }
}

/// The links behind a cell, after steps of which the latest stands first.
pub(crate) fn walk<P: PointSet + Copy>(
    alloc: Global,
    log: &Log<'_, P>,
    earlier: &[Taken],
    cell: Cell,
) -> Result<Vec<Link>, AllocError>
    requires few { length earlier.now < 2 ^ 32 }
    ensures { IfOk result (λ v. v.items ≡ links_behind log.now earlier.now cell) }
{
    let mut links = Vec::new(alloc);
    let mut at = cell;
    let mut adds = 0;
    for taken in earlier {
        match flow_of(&taken.step, at) {
            Flow::Leaves => {}
            Flow::Adds => adds += 1,
            Flow::Puts => {
                links.push(link_by(log, taken, at.inst, adds))?;
                return Ok(links);
            }
            Flow::Takes { from } => {
                links.push(link_by(log, taken, at.inst, adds))?;
                at = from;
                adds = 0;
            }
        }
    }
    links.push(Link {
        kind: LinkKind::Start,
        done: 0,
        inst: at.inst,
        adds,
    })?;
    Ok(links)
}

/// Whether a move is the read that is asked for.
fn is_asked(ask: &Ask, step: &Move) -> bool
    ensures { result ≡ is_asked ask.now step.now }
{
    match *step {
        Move::Read { task, req, cell } => {
            task == ask.task && req == ask.req && cell.point == ask.point && cell.field == ask.field
        }
        _ => false,
    }
}

/// The place of the read that is asked for, or `None` where none of the steps is.
pub(crate) fn place_asked(ask: &Ask, taken: &[Taken]) -> Option<usize>
    ensures { result ≡ position (λ x. is_asked ask.now x.step) taken.now }
{
    taken.iter().position(|x| is_asked(ask, &x.step))
}
