//! The pairs of items of a log that interfere.

ghost use Rattle.std.specs.Prelude.{◌≡◌, ◌<◌, length, IfOk};
ghost use Rattle.findings.specs.Texts as texts;
ghost use Rattle.semantics.specs.declared.command.Command.TheVariants.{Deps};
ghost use Rattle.outcomes.specs.Outcome.{DepsFinds, dependences};
ghost use Rattle.log_findings.specs.Findings.{IsFoundOf};
ghost use Rattle.log_findings.specs.Listing.{dependence_of};

use crate::items::{ids_by_serial, item_count};
use crate::reports::{deps_found, fault_found};
use crate::serial::serial_fault;
use findings::{Dep, DepList, Finding, count_before};
use interference::{Pair, pairs};
use logs::Log;
use memory::Memory;
use privilege::Kind;
use region_tree::ArenaSet;
use std::alloc::Global;

/// The dependence of a pair.
pub(crate) fn dep_of<'a, P: ArenaSet<'a>>(log: &Log<'a, P>, pair: Pair) -> Dep
    requires a { pair.a < length log.now.items }
    requires b { pair.b < length log.now.items }
    ensures { result ≡ dependence_of log.now pair }
{
    let (a, b) = ids_by_serial(log, pair.a, pair.b);
    Dep {
        before: pair.kind == Kind::Before,
        a,
        b,
        tree: pair.place.tree,
        point: pair.place.point,
        field: pair.place.field,
    }
}

/// The dependences of a log, in program order.
fn deps_of<'a, P: ArenaSet<'a>>(alloc: Global, log: &Log<'a, P>) -> Result<Vec<Dep>, Memory>
    ensures { IfOk result (λ list. list.items ≡ dependences log.now) }
{
    let uses = log.uses(alloc)?;
    let asked = log.asked(&uses);
    let mut list = Vec::new(alloc);
    for pair in pairs(&asked) {
        let one = dep_of(log, pair);
        list.push(one)?;
    }
    Ok(list)
}

/// What `deps` finds in a log whose serial order has no fault.
fn dependences_found<'a, P: ArenaSet<'a>>(
    alloc: Global,
    log: &Log<'a, P>,
) -> Result<Finding, Memory>
    ensures found { IfOk result (DepsFinds log.now) }
    ensures text { IfOk result texts.Good }
{
    let list = deps_of(alloc, log)?;
    let before = count_before(&list);
    let turn = list.len() as u64 - before;
    Ok(deps_found(DepList::from_vec(list), item_count(log), before, turn))
}

/// What `deps` finds in a log.
pub fn deps_finding<'a, P: ArenaSet<'a>>(alloc: Global, log: &Log<'a, P>) -> Result<Finding, Memory>
    ensures found { IfOk result (IsFoundOf Deps log.now) }
    ensures text { IfOk result texts.Good }
{
    match serial_fault(alloc, log) {
        Some(fault) => Ok(fault_found(fault.line, fault.code)),
        None => dependences_found(alloc, log),
    }
}
