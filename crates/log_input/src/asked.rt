//! What the first records of a log ask of the log as a whole.

ghost use Rattle.std.specs.Prelude.{◌≡◌, ◌||◌, ℕ, false, IfOk, OnOk};
ghost use Rattle.id_maps.specs.Sets.{has_id};
ghost use Rattle.vocabulary.specs.Prelude.{is_in, records_of};
ghost use Rattle.log_input.specs.AskedIds.{AsksMore, IsAskedBy, waits_of};

use id_maps::IdSet;
use spy_grammar::{Lined, Record};
use std::alloc::{AllocError, Global};

/// What some records ask of the log as a whole: whether these events are completed, and these tasks run, and whether these items are all that there are.
#[derive(Drop)]
pub(crate) struct AskedIds {
    pub(crate) events: IdSet,
    pub(crate) tasks: IdSet,
    pub(crate) listed: IdSet,
}

/// The events that a record waits on.
fn waits_of(rec: &Record) -> &[u32]
    ensures { result.now ≡ waits_of rec.now }
{
    match rec {
        Record::Run { waits, .. }
        | Record::Copy { waits, .. }
        | Record::Put { waits, .. }
        | Record::Reset { waits, .. }
        | Record::Fold { waits, .. }
        | Record::Merge { waits, .. } => waits.as_slice(),
        _ => &[],
    }
}

/// Puts more ids into a set.
fn put_all(set: &mut IdSet, ids: &[u32]) -> Result<(), AllocError>
    ensures { OnOk result ((n : ℕ) → has_id set.new n ≡ (has_id set.old n || is_in ids.now n)) }
{
    for id in ids {
        set.insert(*id)?;
    }
    Ok(())
}

impl AskedIds {
    /// Nothing is asked.
    fn new(alloc: Global) -> AskedIds
        ensures events { (n : ℕ) → has_id result.events n ≡ false }
        ensures tasks { (n : ℕ) → has_id result.tasks n ≡ false }
        ensures listed { (n : ℕ) → has_id result.listed n ≡ false }
    {
        AskedIds {
            events: IdSet::new(alloc),
            tasks: IdSet::new(alloc),
            listed: IdSet::new(alloc),
        }
    }

    /// With what one record more asks.
    fn add(&mut self, rec: &Record) -> Result<(), AllocError>
        ensures { OnOk result (AsksMore self.old self.new rec.now) }
    {
        match rec {
            Record::Task { id } => {
                self.tasks.insert(*id)?;
            }
            Record::Serial { items } => put_all(&mut self.listed, items.as_slice())?,
            _ => put_all(&mut self.events, waits_of(rec))?,
        }
        Ok(())
    }

    /// What some records ask.
    pub(crate) fn by(alloc: Global, log: &[Lined]) -> Result<AskedIds, AllocError>
        ensures { IfOk result (IsAskedBy (records_of log.now)) }
    {
        let mut asked = AskedIds::new(alloc);
        for l in log {
            asked.add(&l.rec)?;
        }
        Ok(asked)
    }
}
