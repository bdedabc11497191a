//! The links of a read, as a report shows them.

ghost use Rattle.std.specs.Prelude.{◌≡◌, ◌↔◌, Contains, None, IfOk, map};
ghost use Rattle.findings.specs.declared.finding.Finding.TheVariants as findings;
ghost use Rattle.findings.specs.Texts as texts;
ghost use Rattle.vocabulary.specs.Prelude.{Link, graph_of, IsRaceFree};
ghost use Rattle.semantics.specs.declared.links.LinkKind.TheVariants as kinds;
ghost use Rattle.semantics.specs.Faults.{unmapped_fault};
ghost use Rattle.semantics.specs.Links.{AreLinksOf, EndsInOrigin};
ghost use Rattle.event_graph.specs.Orders.{IsOrderOf};
ghost use Rattle.outcomes.specs.Outcome.{WhyFinds, ask_shown, kind_shown, link_shown};

use crate::reports::{no_read_found, why_found};
use event_graph::Order;
use findings::{Finding, WhyKind, WhyLink, WhyList};
use logs::Log;
use memory::Memory;
use provenance::{TraceEnd, trace};
use region_tree::ArenaSet;
use semantics::{Ask, Link, LinkKind};
use std::alloc::Global;

/// How a value came into a cell, as a report shows it.
fn kind_shown(kind: LinkKind) -> WhyKind
    ensures { result ≡ kind_shown kind }
{
    match kind {
        LinkKind::Write => WhyKind::Write,
        LinkKind::Put => WhyKind::Put,
        LinkKind::Copy => WhyKind::Copy,
        LinkKind::Start => WhyKind::Start,
    }
}

/// A link, as a report shows it.
fn link_shown(link: &Link) -> WhyLink
    ensures { result ≡ link_shown link.now }
{
    WhyLink {
        kind: kind_shown(link.kind),
        done: link.done,
        inst: link.inst,
        adds: link.adds,
    }
}

/// Links, likewise.
fn links_shown(alloc: Global, links: &[Link]) -> Result<WhyList, Memory>
    ensures { IfOk result (λ list. list ≡ map link_shown links.now) }
{
    let mut list = Vec::with_capacity(alloc, links.len())?;
    for link in links {
        list.push(link_shown(link))?;
    }
    Ok(WhyList::from_vec(list))
}

/// The links of a read, each a copy but the last.
fn links_found(alloc: Global, ask: &Ask, links: &[Link]) -> Result<Finding, Memory>
    requires ends { EndsInOrigin links.now }
    requires starts { (l : Link) → Contains links.now l → (l.done ≡ 0) ↔ (l.kind ≡ kinds.Start) }
    ensures finding { IfOk result (λ f. f ≡ findings.Why (ask_shown ask.now) (map link_shown links.now)) }
    ensures text { IfOk result texts.Good }
{
    let list = links_shown(alloc, links)?;
    Ok(why_found(*ask, list))
}

/// What `why` finds in a log without a cycle and a race: the links of the read that is asked for, or that there is none.
pub fn read_finding<'a, P: ArenaSet<'a>>(
    alloc: Global,
    log: &Log<'a, P>,
    order: &Order,
    ask: &Ask,
) -> Result<Finding, Memory>
    requires mapped { unmapped_fault log.now ≡ None }
    requires order { IsOrderOf (graph_of log.now.nodes) order.now }
    requires free { IsRaceFree log.now }
    ensures found { IfOk result (WhyFinds log.now ask.now) }
    ensures text { IfOk result texts.Good }
{
    match trace(alloc, log, order, ask) {
        Ok(links) => links_found(alloc, ask, &links),
        Err(TraceEnd::NoRead) => Ok(no_read_found(*ask)),
        Err(TraceEnd::Memory) => Err(Memory),
    }
}
