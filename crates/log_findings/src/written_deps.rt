//! What `deps` finds, written as it is found.

ghost use Rattle.std.specs.Prelude.{◌≡◌, ◌≢◌, ◌+◌, ◌<◌, ◌≤◌, ◌^◌, ◌++◌, [], ℕ, List, Ok, Err, map, length, OnOk, OnErr, IsErrOf};
ghost use Rattle.std.specs.Io.KnownBytes.{Appends};
ghost use Rattle.spy_io.specs.Causes.{Grows, HasCause, Rose};
ghost use Rattle.buffered_writes.specs.Sending.{IsSent};
ghost use Rattle.vocabulary.specs.Prelude.{Code};
ghost use Rattle.findings.specs.declared.finding.Finding.TheVariants as findings;
ghost use Rattle.findings.specs.Texts.{dep_line, lines_text, report_text};
ghost use Rattle.semantics.specs.declared.command.Command.TheVariants.{Deps};
ghost use Rattle.outcomes.specs.Outcome.{before_count, dependences};
ghost use Rattle.item_uses.specs.Usages.{usages};
ghost use Rattle.log_findings.specs.Findings.{IsFoundOf, deps_shown};

use crate::dep_writer::DepWriter;
use crate::dependences::dep_of;
use crate::items::item_count;
use crate::serial::serial_fault;
use buffered_writes::{Sink, WriteFault};
use interference::pairs;
use logs::{Log, LogUses};
use memory::Memory;
use region_tree::ArenaSet;
use spy_grammar::Code;
use std::alloc::Global;

/// Why what `deps` finds was not written whole.
#[derive(Clone, Copy, PartialEq, Eq)]
pub enum DepsEnd {
    /// The log has a fault. Nothing was written.
    Fault { line: u32, code: Code },
    /// The sink failed. It has got a part of the text that is not all.
    WriteFault,
    /// Memory ran out. Nothing was written.
    Memory,
}

impl From<Memory> for DepsEnd {
    ghost use Rattle.std.specs.Prelude.{◌≡◌};
    ghost use Rattle.log_findings.specs.declared.written_deps.DepsEnd.TheVariants.{Memory};

    ghost from_gives = { λ _ e. e ≡ Memory };

    fn from(_: Memory) -> DepsEnd {
        DepsEnd::Memory
    }
}

impl From<WriteFault> for DepsEnd {
    ghost use Rattle.std.specs.Prelude.{◌≡◌};
    ghost use Rattle.log_findings.specs.declared.written_deps.DepsEnd.TheVariants.{WriteFault};

    ghost from_gives = { λ _ e. e ≡ WriteFault };

    fn from(_: WriteFault) -> DepsEnd {
        DepsEnd::WriteFault
    }
}

/// Puts the lines of all pairs of items that interfere, in program order.
fn put_pairs<'a, P: ArenaSet<'a>, K: Sink>(
    writer: &mut DepWriter,
    log: &Log<'a, P>,
    uses: &LogUses<'a, P>,
    sink: &mut K,
) -> Result<(), WriteFault>
    requires few { length log.now.items < 2 ^ 32 }
    requires uses { uses.now ≡ usages log.now }
    requires out { writer.old.out ≡ [] }
    requires before { writer.old.before ≡ 0 }
    requires turn { writer.old.turn ≡ 0 }
    ensures sent { OnOk result (IsSent (K.held sink.old) (K.held sink.new)
        (lines_text (map dep_line (dependences log.now))) writer.new.out) }
    ensures before { OnOk result (writer.new.before ≡ before_count (dependences log.now)) }
    ensures all { OnOk result (writer.new.before + writer.new.turn ≡ length (dependences log.now)) }
    ensures part { OnErr result ((more : List ℕ) → Grows (K.held sink.old) (K.held sink.new)
        (lines_text (map dep_line (dependences log.now)) ++ more)) }
    ensures cause { HasCause (K.faults sink.old) (K.faults sink.new) result }
    ensures not_ended { OnOk result (K.ended sink.old ≡ 0 → K.ended sink.new ≡ 0) }
    ensures once { K.ended sink.old ≡ 0 → K.ended sink.new ≤ 1 }
{
    let asked = log.asked(uses);
    for pair in pairs(&asked) {
        let dep = dep_of(log, pair);
        writer.put(sink, dep)?;
    }
    Ok(())
}

/// Writes what `deps` finds in a log whose serial order has no fault.
fn write_found<'a, P: ArenaSet<'a>, K: Sink>(
    mut writer: DepWriter,
    log: &Log<'a, P>,
    uses: &LogUses<'a, P>,
    sink: &mut K,
) -> Result<(), WriteFault>
    requires uses { uses.now ≡ usages log.now }
    requires out { writer.out ≡ [] }
    requires before { writer.before ≡ 0 }
    requires turn { writer.turn ≡ 0 }
    ensures all { OnOk result (Appends (K.held sink.old) (K.held sink.new) (report_text (deps_shown log.now))) }
    ensures part { OnErr result (Grows (K.held sink.old) (K.held sink.new) (report_text (deps_shown log.now))) }
    ensures cause { HasCause (K.faults sink.old) (K.faults sink.new) result }
    ensures once { K.ended sink.old ≡ 0 → K.ended sink.new ≤ 1 }
{
    log.is_declared();
    put_pairs(&mut writer, log, uses, sink)?;
    writer.end(sink, item_count(log))?;
    Ok(())
}

/// Writes what `deps` finds in a log, line by line as it is found: in memory stand the log and some 64 KiB more, whatever is listed. All memory is taken before the first byte is written.
pub fn write_deps<'a, P: ArenaSet<'a>, K: Sink>(
    alloc: Global,
    log: &Log<'a, P>,
    sink: &mut K,
) -> Result<(), DepsEnd>
    // The text of what is found is written, or a part of it that is not all.
    ensures written { OnOk result (IsFoundOf Deps log.now (deps_shown log.now)
        × Appends (K.held sink.old) (K.held sink.new) (report_text (deps_shown log.now))) }
    ensures part { IsErrOf result DepsEnd.WriteFault → IsFoundOf Deps log.now (deps_shown log.now)
        × Grows (K.held sink.old) (K.held sink.new) (report_text (deps_shown log.now)) }

    // A fault is found, or memory runs out, before the sink is called.
    ensures fault { (line : ℕ) (code : Code) → result ≡ Err (DepsEnd.Fault line code)
        → IsFoundOf Deps log.now (findings.Fault line code) }
    ensures unwritten { (line : ℕ) (code : Code) → result ≡ Err (DepsEnd.Fault line code) → sink.new ≡ sink.old }
    ensures memory { IsErrOf result DepsEnd.Memory → sink.new ≡ sink.old }

    // The sink failed where the answer says so, and nowhere else, and no call follows one that failed.
    ensures no_fault { OnOk result (K.faults sink.new ≡ K.faults sink.old) }
    ensures rose { IsErrOf result DepsEnd.WriteFault → Rose (K.faults sink.old) (K.faults sink.new) }
    ensures once { K.ended sink.old ≡ 0 → K.ended sink.new ≤ 1 }
{
    if let Some(fault) = serial_fault(alloc, log) {
        return Err(DepsEnd::Fault {
            line: fault.line,
            code: fault.code,
        });
    }
    let uses = log.uses(alloc)?;
    let writer = DepWriter::new(alloc)?;
    write_found(writer, log, &uses, sink)?;
    Ok(())
}
