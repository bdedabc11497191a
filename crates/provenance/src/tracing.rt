//! The links of a read.

ghost use Rattle.std.specs.Prelude.{◌≡◌, ◌↔◌, ◌∷◌, [], ◌<◌, ◌^◌, Contains, IfOk, IsErrOf, None, filter, length, map, reverse};
ghost use Rattle.vocabulary.specs.Prelude.{Link, graph_of, IsRaceFree, replay_steps};
ghost use Rattle.semantics.specs.declared.links.LinkKind.TheVariants as kinds;
ghost use Rattle.semantics.specs.Faults.{unmapped_fault};
ghost use Rattle.semantics.specs.Links.{AreLinksOf, EndsInOrigin, IsNoRead, TellValue};
ghost use Rattle.event_graph.specs.Orders.{IsOrderOf};
ghost use Rattle.point_laws.specs.Alike.{is_at};
ghost use Rattle.provenance.specs.declared.ends.TraceEnd.{TraceEnd};
ghost use Rattle.provenance.specs.Listing.{at_field, step_of};

use crate::ends::TraceEnd;
use crate::taking::{Taken, taken_of};
use crate::walking::{place_asked, walk};
use cut_logs::CutLog;
use event_graph::Order;
use logs::Log;
use region_tree::ArenaSet;
use semantics::{Ask, Link, Move};
use std::alloc::{AllocError, Global};

/// The steps at a point and a field in replay order, the latest first.
fn taken_back<'a, P: ArenaSet<'a>>(
    alloc: Global,
    log: &Log<'a, P>,
    order: &Order,
    point: u64,
    field: u32,
) -> Result<Vec<Taken>, AllocError>
    requires order { IsOrderOf (graph_of log.now.nodes) order.now }
    ensures steps { IfOk result (λ v. map step_of v.items
        ≡ reverse (filter (at_field field) (filter (is_at (point ∷ [])) (replay_steps log.now)))) }
    ensures few { IfOk result (λ v. length v.items < 2 ^ 32) }
{
    log.is_declared();
    let points = [point];
    let cut = CutLog::at(log, &points);
    let mut taken = taken_of(alloc, &cut, order.as_slice(), field)?;
    taken.reverse();
    Ok(taken)
}

/// Where what a task reads came from: the links of a read, the latest first, found by going back from it along the steps at its point and field. Where the log has no such read, there are none.
pub fn trace<'a, P: ArenaSet<'a>>(
    alloc: Global,
    log: &Log<'a, P>,
    order: &Order,
    ask: &Ask,
) -> Result<Vec<Link>, TraceEnd>
    requires mapped { unmapped_fault log.now ≡ None }
    requires order { IsOrderOf (graph_of log.now.nodes) order.now }
    requires free { IsRaceFree log.now }
    ensures links { IfOk result (λ v. AreLinksOf log.now ask.now v.items) }
    ensures value { IfOk result (λ v. TellValue log.now ask.now v.items) }
    ensures ends { IfOk result (λ v. EndsInOrigin v.items) }
    ensures starts { IfOk result (λ v. (l : Link) → Contains v.items l → (l.done ≡ 0) ↔ (l.kind ≡ kinds.Start)) }
    ensures read { IfOk result (λ v. IsNoRead log.now ask.now → ⊥) }
    ensures none { IsErrOf result TraceEnd.NoRead → IsNoRead log.now ask.now }
{
    log.is_declared();
    let taken = taken_back(alloc, log, order, ask.point, ask.field)?;
    let place = match place_asked(ask, taken.as_slice()) {
        Some(place) => place,
        None => return Err(TraceEnd::NoRead),
    };
    let cell = match taken[place].step {
        Move::Read { cell, .. } => cell,
        _ => unreachable!(),
    };
    let links = walk(alloc, log, &taken[place + 1..], cell)?;
    Ok(links)
}
