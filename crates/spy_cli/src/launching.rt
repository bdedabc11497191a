//! Launch logs, written out or checked.

ghost use Rattle.std.specs.Prelude.{◌≡◌, ◌≤◌, ℕ, All, Err, length, IfOk};
ghost use Rattle.vocabulary.specs.Prelude.{Code, Good, GoodLaunch, text_of};
ghost use Rattle.semantics.specs.Launches.{AreLaunchLines};
ghost use Rattle.log_reading.specs.Spelled.{SpellsLaunch};
ghost use Rattle.spy_cli.specs.declared.status.Status.TheVariants as statuses;
ghost use Rattle.findings.specs.declared.finding.Finding.TheVariants as findings;
ghost use Rattle.outcomes.specs.LaunchOutcome.{IsLaunchFault, StandsFor};
ghost use Rattle.semantics.specs.declared.limits.TheConstants.{MOST_BYTES};
ghost use Rattle.spy_cli.specs.Answers.{IsExpandAnswer, IsLaunchedAnswer};

use crate::checking::{checked_report, log_of};
use crate::printing::printed_text;
use crate::report::{Report, fault_report};
use crate::status::Status;
use launches::{ExpandEnd, expand};
use log_reading::{Input, SpellEnd, launch_input_in};
use memory::Memory;
use spy_grammar::{LLined, Record};
use std::alloc::Global;

/// The records of a launch log, or the fault of its bytes and lines.
fn launch_log(alloc: Global, bytes: Vec<u8>) -> Result<Input<LLined>, ExpandEnd>
    ensures spelled { IfOk result (λ i. SpellsLaunch bytes.items i.lines i.records.items) }
    ensures good { IfOk result (λ i. All (λ l. GoodLaunch l.rec) i.records.items) }
    ensures lines { IfOk result (λ i. AreLaunchLines i.lines i.records.items) }
    ensures fault { (line : ℕ) (code : Code) → result ≡ Err (ExpandEnd.Fault line code)
        → IsLaunchFault bytes.items (findings.Fault line code) }
{
    match launch_input_in(alloc, bytes) {
        Ok(input) => Ok(input),
        Err(SpellEnd::Fault { line, code }) => Err(ExpandEnd::Fault { line, code }),
        Err(SpellEnd::Memory) => Err(ExpandEnd::Memory),
    }
}

/// The records of the log that an input stands for, or the fault that is shown.
fn expanded(alloc: Global, bytes: Vec<u8>) -> Result<Vec<Record>, ExpandEnd>
    ensures stands { IfOk result (λ rs. StandsFor bytes.items rs.items) }
    ensures good { IfOk result (λ rs. All Good rs.items) }
    ensures few { IfOk result (λ rs. length rs.items ≤ MOST_BYTES) }
    ensures fault { (line : ℕ) (code : Code) → result ≡ Err (ExpandEnd.Fault line code)
        → IsLaunchFault bytes.items (findings.Fault line code) }
{
    let input = launch_log(alloc, bytes)?;
    expand(alloc, input.records, input.lines)
}

/// Records, each on a line of its own, as a report.
fn records_report(alloc: Global, records: Vec<Record>) -> Result<Report, Memory>
    requires good { All Good records.items }
    requires few { length records.items ≤ MOST_BYTES }
    ensures status { IfOk result (λ r. r.status ≡ statuses.Yes) }
    ensures text { IfOk result (λ r. r.text.items ≡ text_of records.items) }
{
    let log = log_of(alloc, records)?;
    Ok(Report {
        status: Status::Yes,
        text: printed_text(alloc, &log)?,
    })
}

/// The report of `expand` on an input.
pub(crate) fn expanded_report(alloc: Global, bytes: Vec<u8>) -> Result<Report, Memory>
    ensures { IfOk result (λ r. IsExpandAnswer bytes.items r.status r.text.items) }
{
    match expanded(alloc, bytes) {
        Ok(records) => records_report(alloc, records),
        Err(ExpandEnd::Fault { line, code }) => fault_report(alloc, line, code),
        Err(ExpandEnd::Memory) => Err(Memory),
    }
}

/// The report of `launched` on an input.
pub(crate) fn launched_report(alloc: Global, bytes: Vec<u8>) -> Result<Report, Memory>
    ensures { IfOk result (λ r. IsLaunchedAnswer bytes.items r.status r.text.items) }
{
    match expanded(alloc, bytes) {
        Ok(records) => checked_report(alloc, records),
        Err(ExpandEnd::Fault { line, code }) => fault_report(alloc, line, code),
        Err(ExpandEnd::Memory) => Err(Memory),
    }
}
