//! From the records of a launch log to the log that it stands for.

ghost use Rattle.std.specs.Prelude.{◌≡◌, ℕ, All, Err, IfOk, OnOk, None, Some, map};
ghost use Rattle.std.specs.List.Sorted.{IsStrictlyIncreasing};
ghost use Rattle.vocabulary.specs.Prelude.{Code, GoodLaunch, Good, Fault};
ghost use Rattle.semantics.specs.Faults.{at_line};
ghost use Rattle.semantics.specs.Launches.{AreLaunchLines, launch_fault, launches_fault, not_expanded, written_log};

use crate::expand_end::ExpandEnd;
use crate::interference::{first_fault, first_interference};
use crate::walk::{Walked, walk};
use log_frame::frame_fault;
use memory::Memory;
use semantics::Fault;
use spy_grammar::{LLined, Record};
use std::alloc::Global;

/// What the records of a launch log write, or the fault of the first that breaks a rule on launches.
fn written(alloc: Global, records: Vec<LLined>) -> Result<Result<Vec<Record>, Fault>, Memory>
    requires good { All (λ l. GoodLaunch l.rec) records.items }
    requires lines { IsStrictlyIncreasing (map (λ l. l.line) records.items) }
    ensures written { IfOk result (λ r. IfOk r (λ w. w.items ≡ written_log records.items)) }
    ensures good { IfOk result (λ r. IfOk r (λ w. All Good w.items)) }
    ensures faultless { IfOk result (λ r. OnOk r (launches_fault not_expanded records.items ≡ None)) }
    ensures fault { IfOk result (λ r. (f : Fault) → r ≡ Err f → launches_fault not_expanded records.items ≡ Some f) }
{
    let Walked {
        launches,
        writing,
        lines,
        fault,
    } = walk(alloc, records)?;
    let interference = first_interference(alloc, launches.as_slice(), writing.as_slice(), &lines)?;
    match first_fault(interference, fault) {
        Some(fault) => Ok(Err(fault)),
        None => Ok(Ok(writing.into_records())),
    }
}

/// What a launch log writes, or its fault: of its frame, and else of the first record that breaks a rule on launches.
fn found(
    alloc: Global,
    records: Vec<LLined>,
    lines: u32,
) -> Result<Result<Vec<Record>, Fault>, Memory>
    requires good { All (λ l. GoodLaunch l.rec) records.items }
    requires lines { AreLaunchLines lines records.items }
    ensures written { IfOk result (λ r. IfOk r (λ w. w.items ≡ written_log records.items)) }
    ensures good { IfOk result (λ r. IfOk r (λ w. All Good w.items)) }
    ensures faultless { IfOk result (λ r. OnOk r (launch_fault lines records.items ≡ None)) }
    ensures fault { IfOk result (λ r. (f : Fault) → r ≡ Err f → launch_fault lines records.items ≡ Some f) }
{
    if let Some(fault) = frame_fault(records.as_slice(), lines) {
        return Ok(Err(fault));
    }
    written(alloc, records)
}

/// The log that a launch log stands for, or the fault that is shown of it. `lines` is the number of lines.
///
/// Each record has a spelling, and the lines on which the records stand ascend. That memory ran out is the only other answer.
pub fn expand(alloc: Global, records: Vec<LLined>, lines: u32) -> Result<Vec<Record>, ExpandEnd>
    requires good { All (λ l. GoodLaunch l.rec) records.items }
    requires lines { AreLaunchLines lines records.items }
    ensures written { IfOk result (λ w. w.items ≡ written_log records.items) }
    ensures good { IfOk result (λ w. All Good w.items) }
    ensures faultless { OnOk result (launch_fault lines records.items ≡ None) }
    ensures fault { (line : ℕ) (code : Code) → result ≡ Err (ExpandEnd.Fault line code)
        → launch_fault lines records.items ≡ Some (at_line code line) }
{
    let outcome = found(alloc, records, lines)?;
    match outcome {
        Ok(records) => Ok(records),
        Err(fault) => Err(ExpandEnd::Fault {
            line: fault.line,
            code: fault.code,
        }),
    }
}
