//! What the instances and the records of a log ask for, in cells of its grid.

ghost use Rattle.std.specs.Prelude.{◌≡◌, sum_by};
ghost use Rattle.vocabulary.specs.Prelude.{records_of};
ghost use Rattle.semantics.specs.Rules.{accesses, cells_of, cost_of};
ghost use Rattle.log_limits.specs.Corners.{IfCounted};
ghost use Rattle.log_limits.specs.Sums.{cut};

use crate::corners::Corners;
use crate::records::asked;
use crate::sums::raised;
use semantics::Inst;
use spy_grammar::{Lined, Nums, Record};

/// How many cells of a space and fields there are together.
fn cost_of(corners: &Corners, space: u32, fields: &Nums) -> u128
    ensures { IfCounted corners.now (λ t. result ≡ cut (cost_of t space fields.now)) }
{
    corners.at(space).saturating_mul(fields.len() as u128)
}

/// How many cells of the grid and fields the instances have together, as far as it fits.
pub fn cell_total(corners: &Corners, insts: &[Inst]) -> u128
    ensures { IfCounted corners.now (λ t. insts.now ≡ t.insts → result ≡ cut (cells_of t)) }
{
    let mut total = 0u128;
    for inst in insts {
        total = raised(total, cost_of(corners, inst.space, &inst.fields));
    }
    total
}

/// How many cells of the grid and fields a record asks for together.
fn access_count(corners: &Corners, rec: &Record) -> u128
    ensures { IfCounted corners.now (λ t. result ≡ cut (accesses t rec.now)) }
{
    match asked(rec) {
        Some((space, fields)) => cost_of(corners, space, fields),
        None => 0,
    }
}

/// How many cells of the grid and fields some records ask for together, as far as it fits.
pub fn access_total(corners: &Corners, records: &[Lined]) -> u128
    ensures { IfCounted corners.now (λ t. result ≡ cut (sum_by (accesses t) (records_of records.now))) }
{
    let mut total = 0u128;
    for l in records {
        total = raised(total, access_count(corners, &l.rec));
    }
    total
}
