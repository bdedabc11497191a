//! Logs that are cut to their first fields.

ghost use Rattle.std.specs.Prelude.{ℕ, All, IfSome};
ghost use Rattle.vocabulary.specs.Prelude.{AreLines, Good, tables_of};
ghost use Rattle.verdict.specs.Narrow.{IsCutToFirsts, IsNarrow};

use bumpalo::Bump;
use field_kinds::{cut_records, first_fields};
use log_decl::declare;
use logs::Log;
use region_tree::ArenaRects;
use spy_grammar::Lined;
use std::alloc::Global;

/// The records of a log, on so many lines, and the arena in which the sets of its spaces lie.
#[derive(Clone, Copy)]
pub(crate) struct Source<'a, 'r> {
    pub(crate) bump: &'a Bump,
    pub(crate) records: &'r Vec<Lined>,
    pub(crate) lines: u32,
}

/// The records of a log with its first fields alone. Nothing where that is not worth it, or memory runs out.
fn first_field_records(alloc: Global, records: &[Lined]) -> Option<Vec<Lined>>
    ensures cut { IfSome result (λ cut. IsCutToFirsts records.now cut.items) }
    ensures good { All (λ l. Good l.rec) records.now → IfSome result (λ cut. All (λ l. Good l.rec) cut.items) }
    ensures lines { (lines : ℕ) → AreLines lines records.now → IfSome result (λ cut. AreLines lines cut.items) }
{
    let Ok(Some(firsts)) = first_fields(alloc, records) else {
        return None;
    };
    match cut_records(alloc, records, &firsts) {
        Ok(cut) => cut,
        Err(_) => None,
    }
}

/// The log that is cut to its first fields, which passes only where the log does. There is none where it is not worth it, or memory runs out: then the log itself is gone over. A cut log keeps the rules that its log keeps. No clause says so, and where it broke one there would be none either.
pub(crate) fn narrowed<'a, P: ArenaRects<'a>>(
    alloc: Global,
    source: &Source<'a, '_>,
) -> Option<Log<'a, P>>
    requires good { All (λ l. Good l.rec) source.now.records.now.items }
    requires lines { AreLines source.now.lines source.now.records.now.items }
    ensures { IfSome result (λ log. IsNarrow (tables_of source.now.records.now.items) log) }
{
    let cut = first_field_records(alloc, source.records)?;
    match declare(alloc, source.bump, &cut, source.lines) {
        Ok(log) => Some(log),
        Err(_) => None,
    }
}
