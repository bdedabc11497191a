//! What is asked of a log's items and nodes for a report.

ghost use Rattle.std.specs.Prelude.{◌≡◌, ◌<◌, ◌^◌, length, count_by};
ghost use Rattle.semantics.specs.Rules as rules;
ghost use Rattle.semantics.specs.SerialOrder.{by_serial};
ghost use Rattle.vocabulary.specs.Prelude.{id_of};
ghost use Rattle.semantics.specs.Counts as counts;
ghost use Rattle.semantics.specs.Shown.{event_of};

use logs::Log;
use region_tree::ArenaSet;
use semantics::{Item, ItemBody, LogNode, Op};

/// How many items a log has.
#[tactic(auto, using(crate::proofs::lemmas::Ends::few_declared_items))]
pub(crate) fn item_count<'a, P: ArenaSet<'a>>(log: &Log<'a, P>) -> u32
    ensures { result ≡ length log.now.items }
{
    log.is_declared();
    log.items().len() as u32
}

/// Whether an item is a task.
fn is_task(item: &Item) -> bool
    ensures { result ≡ rules.is_task item.now.body }
{
    match item.body {
        ItemBody::Task => true,
        _ => false,
    }
}

/// How many of some items are tasks.
fn count_tasks(items: &[Item]) -> u32
    requires { length items.now < 2 ^ 32 }
    ensures { result ≡ count_by (λ i. rules.is_task i.body) items.now }
{
    items.iter().filter(|item| is_task(*item)).count() as u32
}

/// How many tasks a log has.
pub fn task_count<'a, P: ArenaSet<'a>>(log: &Log<'a, P>) -> u32
    ensures { result ≡ counts.task_count log.now }
{
    log.is_declared();
    count_tasks(log.items())
}

/// Whether a node is an operation: no merge.
fn is_operation(node: &LogNode) -> bool
    ensures { result ≡ counts.is_operation node.now.op }
{
    match node.op {
        Op::Merge => false,
        _ => true,
    }
}

/// How many of some nodes are operations.
fn count_operations(nodes: &[LogNode]) -> u32
    requires { length nodes.now < 2 ^ 32 }
    ensures { result ≡ count_by (λ n. counts.is_operation n.op) nodes.now }
{
    nodes.iter().filter(|node| is_operation(*node)).count() as u32
}

/// How many operations a log has.
pub fn operation_count<'a, P: ArenaSet<'a>>(log: &Log<'a, P>) -> u32
    ensures { result ≡ counts.operation_count log.now }
{
    log.is_declared();
    count_operations(log.nodes())
}

/// The id of an item.
fn id_at<'a, P: ArenaSet<'a>>(log: &Log<'a, P>, item: usize) -> u32
    requires { item < length log.now.items }
    ensures { result ≡ id_of log.now item }
{
    log.items()[item].id
}

/// The ids of two items, the one that is earlier in serial order first.
pub(crate) fn ids_by_serial<'a, P: ArenaSet<'a>>(log: &Log<'a, P>, a: usize, b: usize) -> (u32, u32)
    requires a { a < length log.now.items }
    requires b { b < length log.now.items }
    ensures first { result.0 ≡ id_of log.now (by_serial log.now (a, b)).0 }
    ensures second { result.1 ≡ id_of log.now (by_serial log.now (a, b)).1 }
{
    if log.serial_place(b) < log.serial_place(a) {
        (id_at(log, b), id_at(log, a))
    } else {
        (id_at(log, a), id_at(log, b))
    }
}

/// The event of a node, and 0 where there is none.
pub fn event_at<'a, P: ArenaSet<'a>>(log: &Log<'a, P>, node: usize) -> u32
    ensures { result ≡ event_of log.now node }
{
    match log.nodes().get(node) {
        Some(node) => node.done,
        None => 0,
    }
}
