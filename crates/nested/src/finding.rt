//! The groups of a nested log with their privileges, or why it is refused.

ghost use Rattle.std.specs.Prelude.{◌≡◌, All, Err, Some, None, fold, IfOk, OnOk};
ghost use Rattle.vocabulary.specs.Prelude.{Fault};
ghost use Rattle.spy_grammar.specs.Nested.{GoodNested};
ghost use Rattle.semantics.specs.declared.groups.Unlicensed.{Unlicensed};
ghost use Rattle.semantics.specs.Nesting.{no_nesting, shown_unlicensed};
ghost use Rattle.nest_rules.specs.Pending.{AreFew, pending_fault, with_pending};
ghost use Rattle.nested.specs.Rows.{AreNamed, rows_in};

use crate::children::unlicensed;
use crate::row::Row;
use crate::rows::rows_of;
use bumpalo::Bump;
use log_tables::LogTables;
use nest_rules::{Groups, Pending, walk};
use point_set::PointSet;
use semantics::{Fault, Unlicensed};
use std::alloc::{AllocError, Global};

/// The groups, and for each its privileges.
#[derive(Drop)]
pub(crate) struct Found<'a, P: PointSet + Copy> {
    pub(crate) groups: Groups,
    pub(crate) rows: Vec<Row<'a, P>>,
}

/// The groups, or the fault of the first record that breaks a rule on groups.
pub(crate) fn judged<P: PointSet>(
    alloc: Global,
    tables: &LogTables<P>,
    nested: Vec<Pending>,
) -> Result<Result<Groups, Fault>, AllocError>
    requires { All (λ p. GoodNested p.rec) nested.items }
    ensures nesting { IfOk result (λ r. IfOk r (λ g. g ≡ fold with_pending no_nesting nested.items)) }
    ensures few { IfOk result (λ r. IfOk r AreFew) }
    ensures faultless { IfOk result (λ r. OnOk r (pending_fault tables.now no_nesting nested.items ≡ None)) }
    ensures fault { IfOk result (λ r. (f : Fault) → r ≡ Err f
        → pending_fault tables.now no_nesting nested.items ≡ Some f) }
{
    let mut groups = Groups::new(alloc);
    match walk(&mut groups, tables, nested)? {
        Some(fault) => Ok(Err(fault)),
        None => Ok(Ok(groups)),
    }
}

/// The groups with their privileges, or what is shown of the first child that asks for more than its group licenses.
pub(crate) fn licensed<'a, P: PointSet + Copy>(
    alloc: Global,
    bump: &'a Bump,
    tables: &LogTables<P>,
    groups: Groups,
) -> Result<Result<Found<'a, P>, Unlicensed>, AllocError>
    requires { AreNamed groups }
    ensures groups { IfOk result (λ r. IfOk r (λ f. f.groups ≡ groups)) }
    ensures rows { IfOk result (λ r. IfOk r (λ f. f.rows.items ≡ rows_in tables.now groups)) }
    ensures licensed { IfOk result (λ r. OnOk r (shown_unlicensed tables.now groups ≡ None)) }
    ensures shown { IfOk result (λ r. (u : Unlicensed) → r ≡ Err u
        → shown_unlicensed tables.now groups ≡ Some u) }
{
    let rows = rows_of(alloc, bump, tables, &groups)?;
    match unlicensed(alloc, tables, &groups, rows.as_slice())? {
        Some(shown) => Ok(Err(shown)),
        None => Ok(Ok(Found { groups, rows })),
    }
}
