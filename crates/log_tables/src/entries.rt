//! The entries of the tables, and their keys.

ghost use Rattle.std.specs.Prelude.{◌≡◌, ◌+◌, ◌-◌, ◌*◌, ◌^◌, min, unwrap_or};
ghost use Rattle.std.proofs.lemmas.Bool.{eqb-true};
ghost use Rattle.log_tables.specs.Alike.{alike_options, alike_pairs};
ghost use Rattle.std.specs.List.Sorted.{IsStrictlyIncreasing};
ghost use Rattle.log_tables.specs.Regions.{step_of};
ghost use Rattle.log_tables.specs.Runs.{item_run, task_named};

use crate::keys::{Key, KeyBy};
use semantics::{FieldSpace, Inst, Item, ItemBody, LogNode, Op, Part, Req, Sub, Tree};
use spy_words::Nums;

/// An index space and its points.
#[derive(Drop)]
pub struct Space<P> {
    pub id: u32,
    pub set: P,
}

/// One step down: from a space to the subspace that a partition of it has under a colour.
#[derive(Clone, Copy, Default, PartialEq, Eq, Hash)]
pub struct Step {
    pub part: u32,
    pub colour: u32,
}

/// The position of an item, and the number of one of its requirements.
#[derive(Clone, Copy, PartialEq, Eq, Hash)]
pub struct ReqKey {
    pub item: usize,
    pub number: u32,
}

impl Key for u32 {
    ghost number_of = { λ n. n };

    ghost alike = { λ a b. eqb-true a b };

    fn number(&self) -> usize {
        *self as usize
    }
}

/// The partition counts before the colour.
impl Key for Step {
    ghost number_of = { λ s. s.part * 2 ^ 32 + s.colour };

    ghost alike = { λ a b same. alike_pairs (λ p c. p * 2 ^ 32 + c) a.part b.part a.colour b.colour same };

    fn number(&self) -> usize {
        ((self.part as usize) << 32) + self.colour as usize
    }
}

/// The item counts before the number of the requirement.
impl Key for ReqKey {
    ghost number_of = { λ r. min (min (r.item * 2 ^ 32) (2 ^ 64 - 1) + r.number) (2 ^ 64 - 1) };

    ghost alike = { λ a b same. alike_pairs (λ i n. min (min (i * 2 ^ 32) (2 ^ 64 - 1) + n) (2 ^ 64 - 1)) a.item b.item a.number b.number same };

    fn number(&self) -> usize {
        self.item
            .saturating_mul(1 << 32)
            .saturating_add(self.number as usize)
    }
}

impl Key for Option<usize> {
    ghost number_of = { λ o. unwrap_or o 0 };

    ghost alike = { alike_options };

    fn number(&self) -> usize {
        self.unwrap_or(0)
    }
}

impl Key for Option<u32> {
    ghost number_of = { λ o. unwrap_or o 0 };

    ghost alike = { alike_options };

    fn number(&self) -> usize {
        self.unwrap_or(0) as usize
    }
}

/// By the id of what is declared.
pub struct ById;

/// By the space that a partition cuts, that a subspace is, or that a tree spans.
pub struct BySpace;

/// By the partition and the colour of a subspace.
pub struct ByStep;

/// By the item of a requirement, and its number there.
pub struct ByNumber;

/// By the id of a task alone.
pub struct ByTask;

/// By the item that a node runs.
pub struct ByRun;

impl KeyBy<u32> for ById {
    type K = u32;

    ghost key_of = { λ n. n };

    fn key(row: &u32) -> u32 {
        *row
    }
}

impl<P> KeyBy<Space<P>> for ById {
    type K = u32;

    ghost key_of = { λ s. s.id };

    fn key(row: &Space<P>) -> u32 {
        row.id
    }
}

impl KeyBy<Part> for ById {
    type K = u32;

    ghost key_of = { λ p. p.id };

    fn key(row: &Part) -> u32 {
        row.id
    }
}

impl KeyBy<FieldSpace> for ById {
    type K = u32;

    ghost key_of = { λ f. f.id };

    fn key(row: &FieldSpace) -> u32 {
        row.id
    }
}

impl KeyBy<Tree> for ById {
    type K = u32;

    ghost key_of = { λ r. r.id };

    fn key(row: &Tree) -> u32 {
        row.id
    }
}

impl KeyBy<Item> for ById {
    type K = u32;

    ghost key_of = { λ i. i.id };

    fn key(row: &Item) -> u32 {
        row.id
    }
}

impl KeyBy<Inst> for ById {
    type K = u32;

    ghost key_of = { λ i. i.id };

    fn key(row: &Inst) -> u32 {
        row.id
    }
}

impl KeyBy<LogNode> for ById {
    type K = u32;

    ghost key_of = { λ n. n.done };

    fn key(row: &LogNode) -> u32 {
        row.done
    }
}

impl KeyBy<Sub> for ByStep {
    type K = Step;

    ghost key_of = { step_of };

    fn key(row: &Sub) -> Step {
        Step {
            part: row.part,
            colour: row.colour,
        }
    }
}

impl KeyBy<Req> for ByNumber {
    type K = ReqKey;

    ghost key_of = { λ r. record { item = r.item; number = r.number } };

    fn key(row: &Req) -> ReqKey {
        ReqKey {
            item: row.item,
            number: row.number,
        }
    }
}

impl KeyBy<Part> for BySpace {
    type K = u32;

    ghost key_of = { λ p. p.space };

    fn key(row: &Part) -> u32 {
        row.space
    }
}

impl KeyBy<Sub> for BySpace {
    type K = u32;

    ghost key_of = { λ s. s.space };

    fn key(row: &Sub) -> u32 {
        row.space
    }
}

impl KeyBy<Tree> for BySpace {
    type K = u32;

    ghost key_of = { λ r. r.space };

    fn key(row: &Tree) -> u32 {
        row.space
    }
}

/// The item that an operation runs, if it runs one.
fn run_item(op: &Op) -> Option<usize>
    ensures { result ≡ item_run op.now }
{
    match op {
        Op::Run { item } => Some(*item),
        _ => None,
    }
}

impl KeyBy<LogNode> for ByRun {
    type K = Option<usize>;

    ghost key_of = { λ n. item_run n.op };

    fn key(row: &LogNode) -> Option<usize> {
        run_item(&row.op)
    }
}

/// The id of an item that is a task.
fn task_id(item: &Item) -> Option<u32>
    ensures { result ≡ task_named item.now }
{
    match &item.body {
        ItemBody::Task => Some(item.id),
        _ => None,
    }
}

impl KeyBy<Item> for ByTask {
    type K = Option<u32>;

    ghost key_of = { task_named };

    fn key(row: &Item) -> Option<u32> {
        task_id(row)
    }
}
