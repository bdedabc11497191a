//! What some rules ask of a log as a whole.

ghost use Rattle.std.specs.Prelude.{◌≡◌, ◌==◌, ◌||◌, ℕ, true, false, IfOk, OnOk};
ghost use Rattle.id_maps.specs.Sets.{has_id};
ghost use Rattle.std.specs.List.{list_any, list_all};
ghost use Rattle.std.specs.Option.{is_some, option_map_or};
ghost use Rattle.log_rules.specs.Gathered.{AreCompleted, AreRun, done_of, waits_of, task_run, list_count};
ghost use Rattle.vocabulary.specs.Prelude.{records_of};
ghost use Rattle.semantics.specs.Rules.{has_no_run, waits_for_none, runs_task, completes, items_listed};

use id_maps::IdSet;
use semantics::MOST_RECORDS;
use spy_grammar::{Lined, Record};
use std::alloc::{AllocError, Global};
use std::marker::Model;

/// A log as a whole, which contracts see as its records.
///
/// The rules ask about the records up to the first of which there are too many. So the events that these wait on, and the tasks that they declare, are gathered, and with them which of those events are completed, and which of those tasks are run, by any record. Whatever else is asked is searched for.
#[derive(Drop)]
pub struct WholeLog<'l> {
    log: &'l [Lined],
    awaited: IdSet,
    completed: IdSet,
    declared: IdSet,
    run: IdSet,
    lists: usize,
}

impl<'l> Model for WholeLog<'l> {
    ghost use Rattle.std.specs.Prelude.{List, nat_eq};
    ghost use Rattle.id_maps.specs.Sets.{has_id};
    ghost use Rattle.vocabulary.specs.Prelude.{Record, records_of};
    ghost use Rattle.log_rules.specs.Gathered.{IsGathered};

    ghost Value = { List Record };

    ghost view = { λ w. records_of w.log.now };

    ghost invariant = { λ w. IsGathered (records_of w.log.now)
        (has_id w.awaited) (has_id w.completed) (has_id w.declared) (has_id w.run) w.lists };
}

/// The completion event of a record.
pub(crate) fn done_of(rec: &Record) -> Option<u32>
    ensures { result ≡ done_of rec.now }
{
    match rec {
        Record::Run { done, .. }
        | Record::Copy { done, .. }
        | Record::Put { done, .. }
        | Record::Reset { done, .. }
        | Record::Fold { done, .. }
        | Record::Merge { done, .. } => Some(*done),
        _ => None,
    }
}

/// The events that a record waits on.
fn waits_of(rec: &Record) -> &[u32]
    ensures { result.now ≡ waits_of rec.now }
{
    match rec {
        Record::Run { waits, .. }
        | Record::Copy { waits, .. }
        | Record::Put { waits, .. }
        | Record::Reset { waits, .. }
        | Record::Fold { waits, .. }
        | Record::Merge { waits, .. } => waits.as_slice(),
        _ => &[],
    }
}

/// The task that a record runs.
fn task_run(rec: &Record) -> Option<u32>
    ensures { result ≡ task_run rec.now }
{
    match rec {
        Record::Run { task, .. } => Some(*task),
        _ => None,
    }
}

/// Whether a record lists items in serial order.
fn lists_items(rec: &Record) -> bool
    ensures { result ≡ is_some (items_listed rec.now) }
{
    match rec {
        Record::Serial { .. } => true,
        _ => false,
    }
}

/// The records up to the first of which there are too many.
fn judged(log: &[Lined]) -> &[Lined] {
    &log[..log.len().min(MOST_RECORDS + 1)]
}

/// Puts more ids into a set.
fn put_all(set: &mut IdSet, ids: &[u32]) -> Result<(), AllocError> {
    for id in ids {
        set.insert(*id)?;
    }
    Ok(())
}

/// The events that some records wait on.
fn awaited(alloc: Global, log: &[Lined]) -> Result<IdSet, AllocError> {
    let mut events = IdSet::new(alloc);
    for l in log {
        put_all(&mut events, waits_of(&l.rec))?;
    }
    Ok(events)
}

/// The tasks that some records declare.
fn declared(alloc: Global, log: &[Lined]) -> Result<IdSet, AllocError> {
    let mut tasks = IdSet::new(alloc);
    for l in log {
        if let Record::Task { id } = &l.rec {
            tasks.insert(*id)?;
        }
    }
    Ok(tasks)
}

/// Puts an id into a set, if it is in another.
fn put_asked(set: &mut IdSet, asked: &IdSet, id: Option<u32>) -> Result<(), AllocError>
    ensures { OnOk result ((n : ℕ) → has_id asked.now n ≡ true
        → has_id set.new n ≡ (has_id set.old n || option_map_or (λ i. i == n) id false)) }
{
    if let Some(id) = id {
        if asked.contains(id) {
            set.insert(id)?;
        }
    }
    Ok(())
}

/// Those of some events that the records of a log complete.
fn completed(alloc: Global, log: &[Lined], events: &IdSet) -> Result<IdSet, AllocError>
    ensures { IfOk result (λ done. AreCompleted (records_of log.now) (has_id events.now) (has_id done)) }
{
    let mut done = IdSet::new(alloc);
    for l in log {
        put_asked(&mut done, events, done_of(&l.rec))?;
    }
    Ok(done)
}

/// Those of some tasks that the records of a log run.
fn tasks_run(alloc: Global, log: &[Lined], tasks: &IdSet) -> Result<IdSet, AllocError>
    ensures { IfOk result (λ run. AreRun (records_of log.now) (has_id tasks.now) (has_id run)) }
{
    let mut run = IdSet::new(alloc);
    for l in log {
        put_asked(&mut run, tasks, task_run(&l.rec))?;
    }
    Ok(run)
}

/// Whether a record completes an event.
fn completes(rec: &Record, event: u32) -> bool
    ensures { result ≡ completes event rec.now }
{
    match done_of(rec) {
        Some(done) => done == event,
        None => false,
    }
}

/// Whether some record completes an event.
fn is_done(log: &[Lined], event: u32) -> bool
    ensures { result ≡ list_any (completes event) (records_of log.now) }
{
    for l in log {
        if completes(&l.rec, event) {
            return true;
        }
    }
    false
}

/// Whether a record runs a task.
fn runs_task(rec: &Record, task: u32) -> bool
    ensures { result ≡ runs_task task rec.now }
{
    match rec {
        Record::Run { task: other, .. } => *other == task,
        _ => false,
    }
}

/// Whether some record runs a task.
fn is_run(log: &[Lined], task: u32) -> bool
    ensures { result ≡ list_any (runs_task task) (records_of log.now) }
{
    for l in log {
        if runs_task(&l.rec, task) {
            return true;
        }
    }
    false
}

/// How many records of a log list items in serial order.
fn list_count(log: &[Lined]) -> usize
    ensures { result ≡ list_count (records_of log.now) }
{
    let mut count = 0;
    for l in log {
        if lists_items(&l.rec) {
            count += 1;
        }
    }
    count
}

impl<'l> WholeLog<'l> {
    /// A log as a whole.
    pub fn new(alloc: Global, log: &'l [Lined]) -> Result<WholeLog<'l>, AllocError>
        ensures { IfOk result (λ whole. whole ≡ records_of log.now) }
    {
        let awaited = awaited(alloc, judged(log))?;
        let completed = completed(alloc, log, &awaited)?;
        let declared = declared(alloc, judged(log))?;
        let run = tasks_run(alloc, log, &declared)?;
        let lists = list_count(log);
        Ok(WholeLog {
            log,
            awaited,
            completed,
            declared,
            run,
            lists,
        })
    }

    /// The records, with the numbers of their lines.
    pub(crate) fn log(&self) -> &[Lined]
        ensures { records_of result.now ≡ self.now }
    {
        self.log
    }

    /// How many records list items in serial order.
    pub(crate) fn lists(&self) -> usize
        ensures { result ≡ list_count self.now }
    {
        self.lists
    }

    /// Whether a record runs a task.
    fn runs(&self, task: u32) -> bool
        ensures { result ≡ list_any (runs_task task) self.now }
    {
        if self.declared.contains(task) {
            return self.run.contains(task);
        }
        is_run(self.log, task)
    }

    /// Whether a record completes an event.
    fn completes(&self, event: u32) -> bool
        ensures { result ≡ list_any (completes event) self.now }
    {
        if self.awaited.contains(event) {
            return self.completed.contains(event);
        }
        is_done(self.log, event)
    }

    /// Whether each of some events is completed by a record.
    fn completes_all(&self, events: &[u32]) -> bool
        ensures { result ≡ list_all (λ event. list_any (completes event) self.now) events.now }
    {
        events.iter().all(|event| self.completes(*event))
    }
}

/// Whether a record declares a task that no record of the log runs.
pub fn has_no_run(whole: &WholeLog, rec: &Record) -> bool
    ensures { result ≡ has_no_run whole.now rec.now }
{
    match rec {
        Record::Task { id } => !whole.runs(*id),
        _ => false,
    }
}

/// Whether a record waits on an event that no record of the log completes.
pub fn waits_for_none(whole: &WholeLog, rec: &Record) -> bool
    ensures { result ≡ waits_for_none whole.now rec.now }
{
    !whole.completes_all(waits_of(rec))
}
