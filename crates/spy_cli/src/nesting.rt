//! What `nested` finds in an input.

ghost use Rattle.std.specs.Prelude.{IfOk};
ghost use Rattle.findings.specs.Texts as texts;
ghost use Rattle.outcomes.specs.NestedOutcome.{IsNestedOutcome};
ghost use Rattle.spy_cli.specs.Answers.{IsNestJudged};

use crate::report::{Report, report_of};
use findings::Finding;
use log_reading::{SpellEnd, nested_input_in};
use memory::Memory;
use nested::find;
use std::alloc::Global;

/// What is found in an input: the fault of its bytes and lines, or what is found in its records.
fn nested_finding_on(alloc: Global, bytes: Vec<u8>) -> Result<Finding, Memory>
    ensures outcome { IfOk result (IsNestedOutcome bytes.items) }
    ensures text { IfOk result texts.Good }
{
    match nested_input_in(alloc, bytes) {
        Ok(input) => {
            let finding = find(alloc, input.records, input.lines)?;
            Ok(finding)
        }
        Err(SpellEnd::Fault { line, code }) => Ok(Finding::Fault { line, code }),
        Err(SpellEnd::Memory) => Err(Memory),
    }
}

/// The report of `nested` on an input.
pub(crate) fn nested_report(alloc: Global, bytes: Vec<u8>) -> Result<Report, Memory>
    ensures { IfOk result (λ r. IsNestJudged bytes.items r.status r.text.items) }
{
    let finding = nested_finding_on(alloc, bytes)?;
    report_of(alloc, &finding)
}
