//! Records, written out, and the report of `print`.

ghost use Rattle.std.specs.Prelude.{◌≡◌, ◌≤◌, ◌^◌, length, IfOk};
ghost use Rattle.std.specs.List.{AllByRecursion};
ghost use Rattle.vocabulary.specs.Prelude.{Good, records_of, text_of};
ghost use Rattle.spy_cli.specs.Answers.{IsPrintAnswer};

use crate::report::{Report, fault_report};
use crate::status::Status;
use log_reading::{SpellEnd, kept_text};
use memory::Memory;
use spy_grammar::{Lined, with_line};
use std::alloc::Global;

/// The records, each on a line of its own.
pub(crate) fn printed_text(alloc: Global, records: &[Lined]) -> Result<Vec<u8>, Memory>
    requires { AllByRecursion Good (records_of records.now) }
    ensures { IfOk result (λ text. text.items ≡ text_of (records_of records.now)) }
{
    let mut text = Vec::new(alloc);
    for lined in records {
        text = with_line(text, &lined.rec)?;
    }
    Ok(text)
}

/// The report of `print` on an input: the lines of its records, handed on as they stand there.
pub(crate) fn printed_report(alloc: Global, bytes: Vec<u8>) -> Result<Report, Memory>
    ensures { IfOk result (λ r. IsPrintAnswer bytes.items r.status r.text.items) }
{
    match kept_text(alloc, bytes) {
        Ok(text) => Ok(Report {
            status: Status::Yes,
            text,
        }),
        Err(SpellEnd::Fault { line, code }) => fault_report(alloc, line, code),
        Err(SpellEnd::Memory) => Err(Memory),
    }
}
