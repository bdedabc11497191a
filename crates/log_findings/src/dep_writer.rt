//! The lines of the report of `deps`, on their way to a sink.

ghost use Rattle.std.specs.Prelude.{◌≡◌, ◌+◌, ◌-◌, ◌<◌, ◌≤◌, ◌^◌, ◌++◌, ◌∷◌, [], if◌then◌else◌, IfOk, OnOk, OnErr};
ghost use Rattle.std.specs.Io.KnownBytes.{Appends};
ghost use Rattle.spy_io.specs.Causes.{Grows, HasCause};
ghost use Rattle.buffered_writes.specs.Sending.{IsSent};
ghost use Rattle.findings.specs.declared.finding.Finding.TheVariants as findings;
ghost use Rattle.findings.specs.Texts.{dep_line, line_text, own_line};

use buffered_writes::{Buffered, Sink, WriteFault};
use dep_lines::DepLines;
use findings::Dep;
use memory::Memory;
use std::alloc::Global;

/// How many bytes are kept back before they are written.
const KEPT: usize = 65536;

/// The lines, what is kept back of them, and how many were of each kind.
#[derive(Drop)]
pub(crate) struct DepWriter {
    lines: DepLines,
    pub(crate) out: Buffered,
    pub(crate) before: u64,
    pub(crate) turn: u64,
}

/// One line more is counted.
#[inline]
fn count(writer: &mut DepWriter, before: bool)
    requires { writer.old.before + writer.old.turn < 2 ^ 64 - 1 }
    ensures lines { writer.new.lines ≡ writer.old.lines }
    ensures out { writer.new.out ≡ writer.old.out }
    ensures before { writer.new.before ≡ writer.old.before + (if before then 1 else 0) }
    ensures all { writer.new.before + writer.new.turn ≡ writer.old.before + writer.old.turn + 1 }
{
    if before {
        writer.before += 1;
    } else {
        writer.turn += 1;
    }
}

impl DepWriter {
    /// No line was put. The memory for all of them is taken here, and no other call takes any.
    pub(crate) fn new(alloc: Global) -> Result<DepWriter, Memory>
        ensures out { IfOk result (λ w. w.out ≡ []) }
        ensures before { IfOk result (λ w. w.before ≡ 0) }
        ensures turn { IfOk result (λ w. w.turn ≡ 0) }
    {
        let lines = DepLines::new(alloc)?;
        let out = Buffered::with_room(alloc, KEPT)?;
        Ok(DepWriter {
            lines,
            out,
            before: 0,
            turn: 0,
        })
    }

    /// Puts the line of a pair of items, and counts it.
    #[inline]
    pub(crate) fn put<K: Sink>(&mut self, sink: &mut K, dep: Dep) -> Result<(), WriteFault>
        requires { self.old.before + self.old.turn < 2 ^ 64 - 1 }
        ensures sent { OnOk result (IsSent (K.held sink.old) (K.held sink.new)
            (self.old.out ++ (line_text (dep_line dep) ++ 10 ∷ [])) self.new.out) }
        ensures part { OnErr result (Grows (K.held sink.old) (K.held sink.new)
            (self.old.out ++ (line_text (dep_line dep) ++ 10 ∷ []))) }
        ensures before { OnOk result (self.new.before ≡ self.old.before + (if dep.before then 1 else 0)) }
        ensures all { OnOk result (self.new.before + self.new.turn ≡ self.old.before + self.old.turn + 1) }
        ensures cause { HasCause (K.faults sink.old) (K.faults sink.new) result }
        ensures not_ended { OnOk result (K.ended sink.old ≡ 0 → K.ended sink.new ≡ 0) }
        ensures once { K.ended sink.old ≡ 0 → K.ended sink.new ≤ 1 }
    {
        count(self, dep.before);
        self.lines.spell(dep);
        self.out.put(sink, self.lines.as_slice())?;
        Ok(())
    }

    /// Puts the report's own line, and writes all that is kept back.
    #[tactic(auto, using(buffered_writes::proofs::lemmas::Sent::sent_all, buffered_writes::proofs::lemmas::Sent::part_kept))]
    pub(crate) fn end<K: Sink>(&mut self, sink: &mut K, items: u32) -> Result<(), WriteFault>
        ensures all { OnOk result (Appends (K.held sink.old) (K.held sink.new)
            (self.old.out ++ (line_text (own_line (findings.Deps [] items self.old.before self.old.turn)) ++ 10 ∷ []))) }
        ensures part { OnErr result (Grows (K.held sink.old) (K.held sink.new)
            (self.old.out ++ (line_text (own_line (findings.Deps [] items self.old.before self.old.turn)) ++ 10 ∷ []))) }
        ensures cause { HasCause (K.faults sink.old) (K.faults sink.new) result }
        ensures once { K.ended sink.old ≡ 0 → K.ended sink.new ≤ 1 }
    {
        self.lines.spell_counts(items, self.before, self.turn);
        self.out.put(sink, self.lines.as_slice())?;
        self.out.flush(sink)?;
        Ok(())
    }
}
