//! What a command finds in an input.

ghost use Rattle.std.specs.Prelude.{ℕ, List, IfOk};
ghost use Rattle.findings.specs.Texts as texts;
ghost use Rattle.outcomes.specs.Outcome.{IsOutcome};
ghost use Rattle.log_input.specs.Inputs.{IsInput};
ghost use Rattle.spy_cli.specs.Answers.{IsJudged};

use crate::crowded::input_fault;
use crate::report::{Report, report_of};
use findings::Finding;
use log_input::{LogInput, log_input};
use log_reading::SpellEnd;
use memory::Memory;
use semantics::Command;
use std::alloc::Global;
use verdict::find;

/// What a command finds in an input that is read.
fn finding_in(alloc: Global, command: Command, input: &LogInput) -> Result<Finding, Memory>
    requires { (bytes : List ℕ) × IsInput bytes input.now }
    ensures outcome { IfOk result (λ finding. (bytes : List ℕ) → IsInput bytes input.now
        → IsOutcome command bytes finding) }
    ensures text { IfOk result texts.Good }
{
    match input {
        LogInput::Whole(input) => find(alloc, command, &input.records, input.lines),
        LogInput::Crowded(input) => {
            let fault = input_fault(alloc, input)?;
            Ok(Finding::Fault {
                line: fault.line,
                code: fault.code,
            })
        }
    }
}

/// What a command finds in an input: the fault of its bytes and lines, or what it finds in its records.
fn finding_on(alloc: Global, command: Command, bytes: Vec<u8>) -> Result<Finding, Memory>
    ensures outcome { IfOk result (IsOutcome command bytes.items) }
    ensures text { IfOk result texts.Good }
{
    match log_input(alloc, bytes) {
        Ok(input) => finding_in(alloc, command, &input),
        Err(SpellEnd::Fault { line, code }) => Ok(Finding::Fault { line, code }),
        Err(SpellEnd::Memory) => Err(Memory),
    }
}

/// The report of what a command finds in an input.
pub(crate) fn judged_report(
    alloc: Global,
    command: Command,
    bytes: Vec<u8>,
) -> Result<Report, Memory>
    ensures { IfOk result (λ r. IsJudged command bytes.items r.status r.text.items) }
{
    let finding = finding_on(alloc, command, bytes)?;
    report_of(alloc, &finding)
}
