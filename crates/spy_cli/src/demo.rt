//! The stencil log, made and checked.

ghost use Rattle.std.specs.Prelude.{◌≤◌, IfOk};
ghost use Rattle.log_gen.specs.Stencil.{stencil};
ghost use Rattle.spy_cli.specs.Answers.{IsChecked};

use crate::checking::checked_report;
use crate::report::Report;
use log_gen::stencil;
use memory::Memory;
use std::alloc::Global;

/// The report of `check` on the stencil log of so many pieces.
pub(crate) fn demo_report(alloc: Global, size: u32) -> Result<Report, Memory>
    requires some { 1 ≤ size }
    requires few { size ≤ 500 }
    ensures { IfOk result (λ r. IsChecked (stencil size) r.status r.text.items) }
{
    let records = stencil(alloc, size)?;
    checked_report(alloc, records)
}
