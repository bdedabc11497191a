//! The stencil log.

ghost use Rattle.std.specs.Prelude.{◌≡◌, ◌≤◌, ◌*◌, ◌-◌, ◌++◌, length, IfOk, OnOk};
ghost use Rattle.std.specs.List.{AllByRecursion};
ghost use Rattle.spy_grammar.specs.Spelling.{Good};
ghost use Rattle.log_gen.specs.Stencil as stencils;

use crate::pieces::{
    push_boundaries, push_fill, push_halos, push_head, push_instances, push_pieces, push_puts,
    push_tree,
};
use crate::runs::push_steps;
use spy_grammar::{Memory, Record};
use std::alloc::{AllocError, Global};

/// Adds the spaces.
fn push_spaces(alloc: Global, records: &mut Vec<Record>, n: u32) -> Result<(), AllocError>
    requires some { 1 ≤ n }
    requires few { n ≤ 500 }
    ensures { OnOk result (records.new.items ≡ records.old.items ++ stencils.spaces n) }
{
    push_head(alloc, records, n)?;
    push_pieces(alloc, records, n)?;
    push_halos(alloc, records, n)?;
    push_boundaries(alloc, records, n)?;
    Ok(())
}

/// Adds the instances, and what fills them.
fn push_filled_instances(alloc: Global, records: &mut Vec<Record>, n: u32) -> Result<(), AllocError>
    requires few { n ≤ 500 }
    ensures { OnOk result (records.new.items ≡ records.old.items ++ stencils.instances n) }
{
    push_tree(alloc, records)?;
    push_instances(alloc, records, n)?;
    push_fill(alloc, records)?;
    push_puts(alloc, records, n)?;
    Ok(())
}

/// Adds the log.
#[tactic(auto, unfolding(crate::specs::Stencil::stencil))]
fn push_log(alloc: Global, records: &mut Vec<Record>, n: u32) -> Result<(), AllocError>
    requires some { 1 ≤ n }
    requires few { n ≤ 500 }
    ensures { OnOk result (records.new.items ≡ records.old.items ++ stencils.stencil n) }
{
    push_spaces(alloc, records, n)?;
    push_filled_instances(alloc, records, n)?;
    push_steps(alloc, records, n)?;
    records.push(Record::End { n: 148 * n - 16 })?;
    Ok(())
}

/// The stencil log of `n` pieces. Record `k`, counted from 0, is meant to stand on line `k + 1`.
#[tactic(auto, using(crate::proofs::lemmas::Spelled::log_good, crate::proofs::Counted::log_length))]
pub fn stencil(alloc: Global, n: u32) -> Result<Vec<Record>, Memory>
    requires some { 1 ≤ n }
    requires few { n ≤ 500 }
    ensures exact { IfOk result (λ rs. rs.items ≡ stencils.stencil n) }
    ensures good { IfOk result (λ rs. AllByRecursion Good rs.items) }
    ensures count { IfOk result (λ rs. length rs.items ≡ 148 * n - 14) }
{
    let mut records = Vec::new(alloc);
    push_log(alloc, &mut records, n)?;
    Ok(records)
}
