//! Events that earlier records complete, and tasks that they run.

ghost use Rattle.std.specs.Prelude.{◌≡◌};
ghost use Rattle.semantics.specs.Rules.{is_run_again, repeats_event};

use crate::named::Named;
use crate::whole_log::done_of;
use log_tables::LogTables;
use point_set::PointSet;
use spy_grammar::Record;

/// Whether a record runs a task that is run already.
pub fn is_run_again<P: PointSet>(named: &Named<'_, P>) -> bool
    ensures { result ≡ is_run_again named.now.tables.now named.now.rec.now }
{
    match named.rec {
        Record::Run { .. } => named.tables.is_run(named.item),
        _ => false,
    }
}

/// Whether a record completes an event that an earlier record completes.
pub fn repeats_event<P: PointSet>(tables: &LogTables<P>, rec: &Record) -> bool
    ensures { result ≡ repeats_event tables.now rec.now }
{
    match done_of(rec) {
        Some(event) => tables.is_done(event),
        None => false,
    }
}
