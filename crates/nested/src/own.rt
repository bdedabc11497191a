//! What tasks ask for.

ghost use Rattle.std.specs.Prelude.{◌≡◌, [], map, IfOk, OnOk};
ghost use Rattle.std.specs.List.{range_with_len};
ghost use Rattle.std.specs.List.Sorted.{IsStrictlyIncreasing};
ghost use Rattle.nested.specs.Rows.{claim_of, own_rows_by, with_own};

use crate::row::Row;
use licences::{Claim, NumberedReq};
use log_tables::LogTables;
use point_set::PointSet;
use semantics::Req;
use std::alloc::{AllocError, Global};

/// A requirement of a task.
fn req_claim<'l, P: PointSet + Copy>(tables: &LogTables<P>, req: &'l Req) -> Claim<'l, P>
    requires { IsStrictlyIncreasing req.now.fields }
    ensures { result ≡ claim_of tables.now req.now }
{
    let set = tables.set(req.space).copied();
    let asked = NumberedReq {
        number: req.number,
        tree: req.tree,
        space: req.space,
        fields: req.fields.as_slice(),
        access: req.access,
    };
    Claim::new(&asked, set)
}

/// So many rows without a claim.
fn empty_rows<'l, P: PointSet + Copy>(
    alloc: Global,
    count: usize,
) -> Result<Vec<Row<'l, P>>, AllocError>
    ensures { IfOk result (λ rows. rows.items ≡ map (λ i. []) (range_with_len 0 count)) }
{
    let mut rows = Vec::new(alloc);
    for _ in 0..count {
        rows.push(Row::new(alloc))?;
    }
    Ok(rows)
}

/// One requirement more, in the row of its item.
fn add_own<'l, P: PointSet + Copy>(
    tables: &LogTables<P>,
    rows: &mut Vec<Row<'l, P>>,
    req: &'l Req,
) -> Result<(), AllocError>
    requires { IsStrictlyIncreasing req.now.fields }
    ensures { OnOk result (rows.new.items
        ≡ with_own rows.old.items req.now.item (claim_of tables.now req.now)) }
{
    if req.item < rows.len() {
        let claim = req_claim(tables, req);
        rows[req.item].push(claim)?;
    }
    Ok(())
}

/// The requirements of each item, and, past the last, a row for what is unknown.
pub(crate) fn own_rows<'l, P: PointSet + Copy>(
    alloc: Global,
    tables: &'l LogTables<P>,
) -> Result<Vec<Row<'l, P>>, AllocError>
    ensures { IfOk result (λ rows. rows.items ≡ own_rows_by tables.now tables.now.reqs) }
{
    let mut rows = empty_rows(alloc, tables.items().len() + 1)?;
    for req in tables.reqs() {
        add_own(tables, &mut rows, req)?;
    }
    Ok(rows)
}
