//! The later records of a crowded log.

ghost use Rattle.std.specs.Prelude.{◌≡◌, ◌+◌, ◌<◌, ◌≤◌, ◌^◌, ◌∷◌, [], ◌++◌, All, List, None, Some, length, IfOk, OnOk};
ghost use Rattle.vocabulary.specs.Prelude.{Good, Lined};
ghost use Rattle.semantics.specs.TextFaults.{lines_fault};
ghost use Rattle.log_reading.specs.Spelled.{EndsBy, with_said};
ghost use Rattle.log_input.specs.Crowding.{IsCrowding};
ghost use Rattle.log_input.specs.Lines.{IsGoodIf, IsReadOn};

use crate::crowding::Crowding;
use log_reading::{SpellEnd, said_on};
use spy_grammar::Lined;
use spy_lines::KeptLines;
use std::alloc::Global;

/// Reads what a line says.
fn read_said(crowding: &mut Crowding, said: Option<Lined>) -> Result<(), SpellEnd>
    requires { crowding.old.frame.count < 2 ^ 32 }
    ensures crowding { OnOk result ((first later : List Lined) → IsCrowding first later crowding.old
        → IsCrowding first (with_said later said) crowding.new) }
    ensures good { OnOk result (IsGoodIf said → All (λ k. Good k.rec) crowding.old.kept.items
        → All (λ k. Good k.rec) crowding.new.kept.items) }
    ensures few { OnOk result (length crowding.new.kept.items ≤ length crowding.old.kept.items + 1) }
    ensures count { OnOk result (crowding.new.frame.count ≤ crowding.old.frame.count + 1) }
    ensures memory { EndsBy (λ line code. ⊥) result }
{
    if let Some(said) = said {
        crowding.read(said)?;
    }
    Ok(())
}

/// Reads the lines that are left, which are numbered from `number`. The answer is the number after them.
pub(crate) fn later_records(
    alloc: Global,
    crowding: &mut Crowding,
    lines: &mut KeptLines,
    number: u32,
) -> Result<u32, SpellEnd>
    requires few { number + length lines.old.rest ≤ 2 ^ 26 + 1 }
    requires count { crowding.old.frame.count + length lines.old.rest ≤ 2 ^ 31 }
    requires good { All (λ k. Good k.rec) crowding.old.kept.items }
    ensures read { OnOk result ((first : List Lined) → IsCrowding first [] crowding.old
        → IsReadOn first number lines.old.rest crowding.new) }
    ensures good { OnOk result (All (λ k. Good k.rec) crowding.new.kept.items) }
    ensures few { OnOk result (length crowding.new.kept.items ≤ length crowding.old.kept.items + length lines.old.rest) }
    ensures clean { OnOk result (lines_fault number lines.old.rest ≡ None) }
    ensures next { IfOk result (λ next. next ≡ number + length lines.old.rest) }
    ensures fault { EndsBy (λ line code. lines_fault number lines.old.rest ≡ Some (record { line = line; code = code })) result }
{
    let mut next = number;
    while let Some(text) = lines.line() {
        let said = said_on::<Lined>(alloc, next, text)?;
        read_said(crowding, said)?;
        lines.pass();
        next += 1;
    }
    Ok(next)
}
