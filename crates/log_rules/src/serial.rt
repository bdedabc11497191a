//! The serial order that a log lists.

ghost use Rattle.std.specs.Prelude.{◌≡◌, ◌+◌, ◌==◌, nat_eq, IfOk, OnOk};
ghost use Rattle.id_maps.specs.Sets.{has_id};
ghost use Rattle.std.specs.List.{list_any, list_all};
ghost use Rattle.vocabulary.specs.Prelude.{records_of};
ghost use Rattle.semantics.specs.Rules.{is_bad_serial};
ghost use Rattle.log_rules.specs.Tallied.{IfTally};
ghost use Rattle.log_rules.specs.Listing.{AddsAll, TellsRepeat, is_listed, lists_badly};

use crate::tally::Tally;
use crate::whole_log::WholeLog;
use id_maps::IdSet;
use log_tables::LogTables;
use point_set::PointSet;
use spy_grammar::{Lined, Record};
use std::alloc::{AllocError, Global};

/// The numbers of a list as a set, or `None` where one of them stands there twice.
fn distinct(alloc: Global, ids: &[u32]) -> Result<Option<IdSet>, AllocError>
    ensures { IfOk result (TellsRepeat ids.now) }
{
    let mut seen = IdSet::new(alloc);
    for id in ids {
        if !seen.insert(*id)? {
            return Ok(None);
        }
    }
    Ok(Some(seen))
}

/// Notes more numbers.
pub(crate) fn note_all(set: &mut IdSet, ids: &[u32]) -> Result<(), AllocError>
    ensures { OnOk result (AddsAll (has_id set.old) (has_id set.new) ids.now) }
{
    for id in ids {
        set.insert(*id)?;
    }
    Ok(())
}

/// Whether some number is in a set.
fn finds_any(set: &IdSet, ids: &[u32]) -> bool
    ensures { result ≡ list_any (has_id set.now) ids.now }
{
    ids.iter().any(|id| set.contains(*id))
}

/// Whether the item that a record declares, if it declares one, is in one of two sets.
fn is_listed(rec: &Record, listed: &IdSet, here: &IdSet) -> bool
    ensures { result ≡ is_listed (has_id listed.now) (has_id here.now) rec.now }
{
    match rec {
        Record::Task { id } | Record::Fill { id, .. } => listed.contains(*id) || here.contains(*id),
        _ => true,
    }
}

/// Whether each item of a log is in one of two sets.
fn are_listed(log: &[Lined], listed: &IdSet, here: &IdSet) -> bool
    ensures { result ≡ list_all (is_listed (has_id listed.now) (has_id here.now))
        (records_of log.now) }
{
    for l in log {
        if !is_listed(&l.rec, listed, here) {
            return false;
        }
    }
    true
}

/// Whether one number is the next after another.
fn is_next(number: usize, before: usize) -> bool
    ensures { result ≡ (number == before + 1) }
{
    before < number && number - before == 1
}

/// Whether a record lists items badly after so many records that list the items of a set.
fn lists_badly(
    alloc: Global,
    whole: &WholeLog,
    before: usize,
    listed: &IdSet,
    ids: &[u32],
) -> Result<bool, AllocError>
    ensures { IfOk result (λ bad. bad ≡ lists_badly whole.now before (has_id listed.now) ids.now) }
{
    let here = match distinct(alloc, ids)? {
        Some(here) => here,
        None => return Ok(true),
    };
    Ok(
        finds_any(listed, ids)
            || (is_next(whole.lists(), before) && !are_listed(whole.log(), listed, &here)),
    )
}

/// Whether a record lists an item that is listed already, or is the last to list items and leaves one out.
pub fn is_bad_serial<P: PointSet>(
    alloc: Global,
    whole: &WholeLog,
    tables: &LogTables<P>,
    tally: &Tally,
    rec: &Record,
) -> Result<bool, AllocError>
    ensures { IfTally tables.now tally.now (λ earlier.
        IfOk result (λ bad. bad ≡ is_bad_serial whole.now tables.now rec.now)) }
{
    match rec {
        Record::Serial { items } => {
            let before = tables.serials().len();
            let bad = lists_badly(alloc, whole, before, &tally.listed, items.as_slice())?;
            Ok(bad)
        }
        _ => Ok(false),
    }
}
