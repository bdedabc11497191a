//! The walk over the records of a nested log that are not plain, up to the first that breaks a rule on groups.

ghost use Rattle.std.specs.Prelude.{◌≡◌, All, None, fold, IfOk};
ghost use Rattle.spy_grammar.specs.Nested.{GoodNested};
ghost use Rattle.semantics.specs.Nesting.{no_nesting, with_nested};
ghost use Rattle.nest_rules.specs.Pending.{AreFew, pending_fault, with_pending};

use crate::groups::Groups;
use crate::pending::Pending;
use crate::rules::broken;
use log_tables::LogTables;
use point_set::PointSet;
use semantics::Fault;
use std::alloc::AllocError;

/// Adds what is nested, up to the first record that breaks a rule on groups, and the fault of that one. The tables are those of the whole log.
pub fn walk<P: PointSet>(
    groups: &mut Groups,
    tables: &LogTables<P>,
    nested: Vec<Pending>,
) -> Result<Option<Fault>, AllocError>
    requires none { groups.old ≡ no_nesting }
    requires good { All (λ p. GoodNested p.rec) nested.items }
    ensures fault { IfOk result (λ fault. fault ≡ pending_fault tables.now no_nesting nested.items) }
    ensures few { IfOk result (λ fault. AreFew groups.new) }
    ensures nesting { IfOk result (λ fault. fault ≡ None → groups.new ≡ fold with_pending no_nesting nested.items) }
{
    for p in nested {
        if let Some(code) = broken(tables, &*groups, &p) {
            return Ok(Some(Fault { line: p.line, code }));
        }
        groups.add(p.rec)?;
    }
    Ok(None)
}
