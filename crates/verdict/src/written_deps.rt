//! What `deps` finds in the records of a log, written as it is found.

ghost use Rattle.std.specs.Prelude.{◌≡◌, ◌≤◌, ℕ, All, Err, OnOk, IsErrOf};
ghost use Rattle.std.specs.Io.KnownBytes.{Appends};
ghost use Rattle.spy_io.specs.Causes.{Grows, Rose};
ghost use Rattle.findings.specs.declared.finding.Finding.TheVariants as findings;
ghost use Rattle.findings.specs.Texts.{report_text};
ghost use Rattle.vocabulary.specs.Prelude.{AreLines, Code, Good, tables_of};
ghost use Rattle.semantics.specs.declared.command.Command.TheVariants.{Deps};
ghost use Rattle.outcomes.specs.Outcome.{IsFound};
ghost use Rattle.log_findings.specs.Findings.{deps_shown};

use bumpalo::Bump;
use log_decl::{DeclEnd, declare};
use log_findings::DepsEnd;
use memory::Memory;
use point_set::RectSet;
use spy_grammar::Lined;
use spy_io::Sink;
use std::alloc::Global;

/// Writes what `deps` finds in the records of a log, which has so many lines, as it is found: in memory stand the log and some 64 KiB more, whatever is listed. All memory is taken before the first byte is written. Where the log has a fault, nothing is written.
pub fn write_deps<K: Sink>(
    alloc: Global,
    records: &Vec<Lined>,
    lines: u32,
    sink: &mut K,
) -> Result<(), DepsEnd>
    requires good { All (λ l. Good l.rec) records.now.items }
    requires lines { AreLines lines records.now.items }

    // The text of what is found is written, or a part of it that is not all.
    ensures written { OnOk result (IsFound Deps lines records.now.items (deps_shown (tables_of records.now.items))
        × Appends (K.held sink.old) (K.held sink.new) (report_text (deps_shown (tables_of records.now.items)))) }
    ensures part { IsErrOf result DepsEnd.WriteFault
        → IsFound Deps lines records.now.items (deps_shown (tables_of records.now.items))
        × Grows (K.held sink.old) (K.held sink.new) (report_text (deps_shown (tables_of records.now.items))) }

    // A fault is found, or memory runs out, before the sink is called.
    ensures fault { (line : ℕ) (code : Code) → result ≡ Err (DepsEnd.Fault line code)
        → IsFound Deps lines records.now.items (findings.Fault line code) }
    ensures unwritten { (line : ℕ) (code : Code) → result ≡ Err (DepsEnd.Fault line code) → sink.new ≡ sink.old }
    ensures memory { IsErrOf result DepsEnd.Memory → sink.new ≡ sink.old }

    // The sink failed where the answer says so, and nowhere else, and no call follows one that failed.
    ensures no_fault { OnOk result (K.faults sink.new ≡ K.faults sink.old) }
    ensures rose { IsErrOf result DepsEnd.WriteFault → Rose (K.faults sink.old) (K.faults sink.new) }
    ensures once { K.ended sink.old ≡ 0 → K.ended sink.new ≤ 1 }
{
    let bump = Bump::new(alloc);
    match declare::<RectSet<'_>>(alloc, &bump, records, lines) {
        Ok(log) => {
            let end = log_findings::write_deps(alloc, &log, sink);
            log.let_go();
            end
        }
        Err(DeclEnd::Fault { line, code }) => Err(DepsEnd::Fault { line, code }),
        Err(DeclEnd::Memory) => Err(DepsEnd::Memory),
    }
}
