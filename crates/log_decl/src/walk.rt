//! The walk over the records of a log, up to the first that breaks a rule. The two rules of the forest are left out: the forest judges all subspaces at once.

ghost use Rattle.std.specs.Prelude.{◌≡◌, ◌<◌, ◌-◌, ◌^◌, All, None, length, IfOk};
ghost use Rattle.semantics.specs.Faults.{header_fault};
ghost use Rattle.log_tables.specs.Views.{Ascends};
ghost use Rattle.vocabulary.specs.Prelude.{records_of, no_tables};
ghost use Rattle.log_decl.specs.Walk.{HasWalked};

use crate::broken::{AtRecord, first_broken};
use crate::sizes::{cells_with, is_plane_log, whole_grid};
use bumpalo::Bump;
use cell_counts::GridSize;
use log_rules::{Named, Tally, WholeLog};
use log_tables::LogTables;
use region_tree::{ArenaRects, Memory};
use spy_grammar::{Code, Lined};
use std::alloc::Global;

/// How many records come before the first that breaks a rule, and the rule that it breaks.
#[derive(Clone, Copy)]
pub(crate) struct Walked {
    pub(crate) kept: usize,
    pub(crate) code: Option<Code>,
}

/// Adds the records up to the first that breaks a rule to tables in which nothing is declared. The first of them is the header, and no other is one. (How many lines there are says where a fault is, and not whether there is one.)
pub(crate) fn walk<'a, P: ArenaRects<'a>>(
    tables: &mut LogTables<P>,
    alloc: Global,
    bump: &'a Bump,
    whole: &WholeLog,
    records: &[Lined],
) -> Result<Walked, Memory>
    requires none { tables.old ≡ no_tables }
    requires whole { whole.now ≡ records_of records.now }
    requires ascends { All (λ l. Ascends l.rec) records.now }
    requires few { length records.now < 2 ^ 32 - 1 }
    requires header { header_fault 0 records.now ≡ None }
    ensures { IfOk result (λ w. HasWalked records.now w.kept tables.new w.code) }
{
    let grid = whole_grid(alloc, records)?;
    let mut tally = Tally::new(alloc, grid);
    let is_plane = is_plane_log(records);
    let mut size = GridSize::new(alloc);
    let mut kept = 0;
    for l in records {
        let cells = cells_with(alloc, is_plane, &mut size, &l.rec)?;
        let named = Named::of(&*tables, &l.rec);
        tally.remember(&named)?;
        let at = AtRecord {
            whole: &*whole,
            named: &named,
            tally: &tally,
            cells,
            earlier: &records[..kept],
        };
        let code = first_broken(alloc, &at)?;
        if code.is_some() {
            return Ok(Walked { kept, code });
        }
        tally.add(alloc, &named)?;
        tables.add(alloc, bump, l.line, &l.rec)?;
        kept += 1;
    }
    Ok(Walked { kept, code: None })
}
