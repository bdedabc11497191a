//! Logs of records that the program makes itself, checked.

ghost use Rattle.std.specs.Prelude.{◌≡◌, ◌≤◌, All, length, IfOk};
ghost use Rattle.vocabulary.specs.Prelude.{Good, lined, records_of, AreLines};
ghost use Rattle.semantics.specs.declared.limits.TheConstants.{MOST_BYTES};
ghost use Rattle.spy_cli.specs.Answers.{IsChecked};

use crate::report::{Report, report_of};
use memory::Memory;
use semantics::Command;
use spy_grammar::{Lined, Record};
use std::alloc::Global;
use verdict::find;

/// Records, each on a line of its own from line 1 on.
fn numbered(alloc: Global, records: Vec<Record>) -> Result<Vec<Lined>, Memory>
    requires { length records.items ≤ MOST_BYTES }
    ensures { IfOk result (λ log. log.items ≡ lined records.items) }
{
    let mut log = Vec::new(alloc);
    let mut line = 1;
    for rec in records {
        log.push(Lined { line, rec })?;
        line += 1;
    }
    Ok(log)
}

/// The log of some records, each on a line of its own.
pub(crate) fn log_of(alloc: Global, records: Vec<Record>) -> Result<Vec<Lined>, Memory>
    requires good { All Good records.items }
    requires few { length records.items ≤ MOST_BYTES }
    ensures log { IfOk result (λ log. log.items ≡ lined records.items) }
    ensures records { IfOk result (λ log. records_of log.items ≡ records.items) }
    ensures count { IfOk result (λ log. length log.items ≡ length records.items) }
    ensures good { IfOk result (λ log. All (λ l. Good l.rec) log.items) }
    ensures lines { IfOk result (λ log. AreLines (length log.items) log.items) }
{
    let log = numbered(alloc, records)?;
    Ok(log)
}

/// The report of `check` on the log of some records.
pub(crate) fn checked_report(alloc: Global, records: Vec<Record>) -> Result<Report, Memory>
    requires good { All Good records.items }
    requires few { length records.items ≤ MOST_BYTES }
    ensures { IfOk result (λ r. IsChecked records.items r.status r.text.items) }
{
    let log = log_of(alloc, records)?;
    let lines = log.len() as u32;
    let finding = find(alloc, Command::Check, &log, lines)?;
    report_of(alloc, &finding)
}
