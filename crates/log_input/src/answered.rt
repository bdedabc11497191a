//! What the kept later records of a log answer.

ghost use Rattle.std.specs.Prelude.{◌≡◌, ◌==◌, ◌||◌, [], ℕ, false, OnOk, is_some};
ghost use Rattle.std.specs.Option.{option_map_or};
ghost use Rattle.id_maps.specs.Sets.{has_id};
ghost use Rattle.semantics.specs.Rules.{items_listed};
ghost use Rattle.log_input.specs.Answered.{AddsAnswer, IsAnsweredBy, answers_more, done_of, is_open, leaves_out, task_run};

use crate::asked::AskedIds;
use id_maps::IdSet;
use spy_grammar::Record;
use std::alloc::{AllocError, Global};

/// What some records answer: which events they complete, which tasks they run, whether one lists items, and whether one declares an item that is not listed.
#[derive(Drop)]
pub(crate) struct Answered {
    pub(crate) events: IdSet,
    pub(crate) tasks: IdSet,
    pub(crate) lists: bool,
    pub(crate) leaves_out: bool,
}

/// The completion event of a record.
fn done_of(rec: &Record) -> Option<u32>
    ensures { result ≡ done_of rec.now }
{
    match rec {
        Record::Run { done, .. }
        | Record::Copy { done, .. }
        | Record::Put { done, .. }
        | Record::Reset { done, .. }
        | Record::Fold { done, .. }
        | Record::Merge { done, .. } => Some(*done),
        _ => None,
    }
}

/// The task that a record runs.
fn task_run(rec: &Record) -> Option<u32>
    ensures { result ≡ task_run rec.now }
{
    match rec {
        Record::Run { task, .. } => Some(*task),
        _ => None,
    }
}

/// Whether a record lists items in serial order.
fn lists_items(rec: &Record) -> bool
    ensures { result ≡ is_some (items_listed rec.now) }
{
    match rec {
        Record::Serial { .. } => true,
        _ => false,
    }
}

/// Whether a record declares an item that is not listed.
fn leaves_out(asked: &AskedIds, rec: &Record) -> bool
    ensures { result ≡ leaves_out asked.now rec.now }
{
    match rec {
        Record::Task { id } | Record::Fill { id, .. } => !asked.listed.contains(*id),
        _ => false,
    }
}

/// Whether an id is asked for and not answered.
fn is_open(asked: &IdSet, answered: &IdSet, id: Option<u32>) -> bool
    ensures { result ≡ is_open (has_id asked.now) (has_id answered.now) id }
{
    match id {
        Some(id) => asked.contains(id) && !answered.contains(id),
        None => false,
    }
}

/// Puts an id into a set, if there is one.
fn put(set: &mut IdSet, id: Option<u32>) -> Result<(), AllocError>
    ensures { OnOk result ((n : ℕ) → has_id set.new n ≡ (has_id set.old n || option_map_or (λ i. i == n) id false)) }
{
    if let Some(id) = id {
        set.insert(id)?;
    }
    Ok(())
}

impl Answered {
    /// Nothing is answered.
    pub(crate) fn new(alloc: Global) -> Answered
        ensures events { (n : ℕ) → has_id result.events n ≡ false }
        ensures tasks { (n : ℕ) → has_id result.tasks n ≡ false }
        ensures lists { result.lists ≡ false }
        ensures leaves_out { result.leaves_out ≡ false }
    {
        Answered {
            events: IdSet::new(alloc),
            tasks: IdSet::new(alloc),
            lists: false,
            leaves_out: false,
        }
    }

    /// With what one record more answers.
    pub(crate) fn add(&mut self, asked: &AskedIds, rec: &Record) -> Result<(), AllocError>
        ensures { OnOk result (AddsAnswer asked.now self.old self.new rec.now) }
    {
        put(&mut self.events, done_of(rec))?;
        put(&mut self.tasks, task_run(rec))?;
        self.lists = self.lists || lists_items(rec);
        self.leaves_out = self.leaves_out || leaves_out(asked, rec);
        Ok(())
    }

    /// Whether a record answers something that is asked and not answered yet.
    pub(crate) fn lacks(&self, asked: &AskedIds, rec: &Record) -> bool
        ensures { result ≡ answers_more asked.now self.now rec.now }
    {
        is_open(&asked.events, &self.events, done_of(rec))
            || is_open(&asked.tasks, &self.tasks, task_run(rec))
            || (lists_items(rec) && !self.lists)
            || (leaves_out(asked, rec) && !self.leaves_out)
    }
}
