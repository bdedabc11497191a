//! Reports: a status and a text.

ghost use Rattle.std.specs.Prelude.{◌≡◌, IfOk};
ghost use Rattle.findings.specs.declared.finding.Finding.TheVariants as findings;
ghost use Rattle.findings.specs.Texts as reports;
ghost use Rattle.spy_cli.specs.Answers as answers;

use crate::status::Status;
use findings::{Finding, text};
use memory::Memory;
use spy_grammar::Code;
use std::alloc::Global;

/// What is answered: how the call ends if its text is written, and that text.
#[derive(Drop)]
pub(crate) struct Report {
    pub(crate) status: Status,
    pub(crate) text: Vec<u8>,
}

/// The status with which a finding is answered.
fn status_of(finding: &Finding) -> Status
    ensures { result ≡ answers.status_of finding.now }
{
    match finding {
        Finding::Accepted { .. }
        | Finding::Ordered { .. }
        | Finding::Deps { .. }
        | Finding::Spare { .. }
        | Finding::Nested { .. }
        | Finding::Why { .. } => Status::Yes,
        Finding::Cycle { .. }
        | Finding::Race { .. }
        | Finding::Unordered { .. }
        | Finding::Differ { .. }
        | Finding::NoRead { .. }
        | Finding::Unlicensed { .. } => Status::Refused,
        Finding::Fault { .. } => Status::Fault,
        Finding::Usage => Status::Usage,
        Finding::CannotRead => Status::ReadFault,
    }
}

/// The report of a finding.
pub(crate) fn report_of(alloc: Global, finding: &Finding) -> Result<Report, Memory>
    requires { reports.Good finding.now }
    ensures { IfOk result (λ r. answers.Tells finding.now r.status r.text.items) }
{
    let text = text(alloc, finding)?;
    Ok(Report {
        status: status_of(finding),
        text,
    })
}

/// The report of a fault.
pub(crate) fn fault_report(alloc: Global, line: u32, code: Code) -> Result<Report, Memory>
    ensures { IfOk result (λ r. answers.Tells (findings.Fault line code) r.status r.text.items) }
{
    report_of(alloc, &Finding::Fault { line, code })
}
