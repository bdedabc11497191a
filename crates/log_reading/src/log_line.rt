//! Lines of logs of any kind, read.

ghost use Rattle.std.specs.Prelude.{◌≡◌, ℕ, List, None, Option, Result, refl, IfOk, OnOk};
ghost use Rattle.spy_words.specs.declared.fault.LineFault.{LineFault as Faulty};
ghost use Rattle.spy_grammar.specs.Launches.{launch_line_at, launch_spelling};
ghost use Rattle.spy_grammar.specs.Nested.{GoodNested, nested_line_at, nested_spelling};
ghost use Rattle.vocabulary.specs.Prelude.{Good, GoodLaunch, line_at, on_line, spelling};
ghost use Rattle.semantics.specs.Launches.{on_launch_line};
ghost use Rattle.semantics.specs.Nesting.{on_nested_line};
ghost use Rattle.semantics.specs.TextFaults.{line_fault};
ghost use Rattle.log_reading.specs.Spelled.{EndsBy, HasFaultOfLine, SaysBy};

use crate::reading::{SpellEnd, end_of};
use spy_grammar::{
    LLined, LRecord, Lined, NLined, NRecord, Record, read_launch_line, read_line, read_nested_line,
};
use std::alloc::Global;

/// A record on a line of a log of some kind.
pub trait LogLine: Drop {
    /// What a line says.
    type Rec;

    /// How a line is read, which records have a spelling, and what it is.
    ghost read: { List ℕ → Result (Option Self.Rec) Faulty };

    ghost good: { Self.Rec → Type 0 };

    ghost spelled: { Self.Rec → List ℕ };

    /// A record on the line of a number, and what these two were.
    ghost on: { ℕ → Self.Rec → Self };

    ghost line_of: { Self → ℕ };

    ghost rec_of: { Self → Self.Rec };

    /// What a line of this number says, unless it is passed over.
    fn read_on(alloc: Global, line: u32, text: &[u8]) -> Result<Option<Self>, SpellEnd>
        ensures said { IfOk result (SaysBy good spelled on line text.now) }
        ensures clean { OnOk result (line_fault line (read text.now) ≡ None) }
        ensures fault { EndsBy (HasFaultOfLine read line text.now) result };

    ghost line_is: { (n : ℕ) (r : Self.Rec) → line_of (on n r) ≡ n };

    ghost rec_is: { (n : ℕ) (r : Self.Rec) → rec_of (on n r) ≡ r };
}

impl LogLine for Lined {
    type Rec = Record;

    ghost read = { line_at };

    ghost good = { Good };

    ghost spelled = { spelling };

    ghost on = { on_line };

    ghost line_of = { λ l. l.line };

    ghost rec_of = { λ l. l.rec };

    fn read_on(alloc: Global, line: u32, text: &[u8]) -> Result<Option<Lined>, SpellEnd> {
        match read_line(alloc, text) {
            Ok(Some(rec)) => Ok(Some(Lined { line, rec })),
            Ok(None) => Ok(None),
            Err(fault) => Err(end_of(line, fault)),
        }
    }

    ghost line_is = { λ n r. refl };

    ghost rec_is = { λ n r. refl };
}

impl LogLine for LLined {
    type Rec = LRecord;

    ghost read = { launch_line_at };

    ghost good = { GoodLaunch };

    ghost spelled = { launch_spelling };

    ghost on = { on_launch_line };

    ghost line_of = { λ l. l.line };

    ghost rec_of = { λ l. l.rec };

    fn read_on(alloc: Global, line: u32, text: &[u8]) -> Result<Option<LLined>, SpellEnd> {
        match read_launch_line(alloc, text) {
            Ok(Some(rec)) => Ok(Some(LLined { line, rec })),
            Ok(None) => Ok(None),
            Err(fault) => Err(end_of(line, fault)),
        }
    }

    ghost line_is = { λ n r. refl };

    ghost rec_is = { λ n r. refl };
}

impl LogLine for NLined {
    type Rec = NRecord;

    ghost read = { nested_line_at };

    ghost good = { GoodNested };

    ghost spelled = { nested_spelling };

    ghost on = { on_nested_line };

    ghost line_of = { λ l. l.line };

    ghost rec_of = { λ l. l.rec };

    fn read_on(alloc: Global, line: u32, text: &[u8]) -> Result<Option<NLined>, SpellEnd> {
        match read_nested_line(alloc, text) {
            Ok(Some(rec)) => Ok(Some(NLined { line, rec })),
            Ok(None) => Ok(None),
            Err(fault) => Err(end_of(line, fault)),
        }
    }

    ghost line_is = { λ n r. refl };

    ghost rec_is = { λ n r. refl };
}
