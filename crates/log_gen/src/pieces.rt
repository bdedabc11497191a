//! What is declared of pieces, and the operations that fill their instances.

ghost use Rattle.std.specs.Prelude.{◌≡◌, ◌≤◌, ◌<◌, ◌+◌, ◌-◌, ◌++◌, ◌∷◌, [], IfOk, OnOk};
ghost use Rattle.log_gen.specs.Stencil as stencils;

use spy_grammar::{InstKind, Nums, Record, Set};
use std::alloc::{AllocError, Global};

/// Numbers of a record.
pub fn numbers(alloc: Global, list: &[u32]) -> Result<Nums, AllocError>
    ensures { IfOk result (λ r. r ≡ list.now) }
{
    Nums::from_slice(alloc, list)
}

/// The points from a first to a last one.
fn run(alloc: Global, first: u64, last: u64) -> Result<Set, AllocError>
    ensures { IfOk result (λ r. r ≡ (first, last) ∷ []) }
{
    Ok(Set::from_pairs([(first, last)].to_vec(alloc)?))
}

/// Adds all points, and the two partitions of them.
pub fn push_head(alloc: Global, records: &mut Vec<Record>, n: u32) -> Result<(), AllocError>
    requires some { 1 ≤ n }
    ensures { OnOk result (records.new.items ≡ records.old.items ++ stencils.head n) }
{
    records.push(Record::Header { version: 1 })?;
    let set = run(alloc, 0, 10 * u64::from(n) - 1)?;
    records.push(Record::Ispace { id: 1, set })?;
    records.push(Record::Part {
        id: 1,
        space: 1,
        disjoint: true,
    })?;
    records.push(Record::Part {
        id: 2,
        space: 1,
        disjoint: false,
    })?;
    Ok(())
}

/// Adds a piece.
fn push_piece(alloc: Global, records: &mut Vec<Record>, i: u32) -> Result<(), AllocError>
    requires { i < 500 }
    ensures { OnOk result (records.new.items ≡ records.old.items ++ stencils.piece_space i) }
{
    let first = 10 * u64::from(i);
    let set = run(alloc, first, first + 9)?;
    records.push(Record::Ispace { id: 2 + i, set })?;
    records.push(Record::Sub {
        part: 1,
        colour: i,
        space: 2 + i,
    })?;
    Ok(())
}

/// Adds the pieces.
pub fn push_pieces(alloc: Global, records: &mut Vec<Record>, n: u32) -> Result<(), AllocError>
    requires few { n ≤ 500 }
    ensures { OnOk result (records.new.items ≡ records.old.items ++ stencils.for_each n stencils.piece_space) }
{
    for i in 0..n {
        push_piece(alloc, records, i)?;
    }
    Ok(())
}

/// Adds a piece with a point of each neighbour.
fn push_halo(alloc: Global, records: &mut Vec<Record>, n: u32, i: u32) -> Result<(), AllocError>
    requires few { n ≤ 500 }
    requires piece { i < n }
    ensures { OnOk result (records.new.items ≡ records.old.items ++ stencils.halo_space n i) }
{
    let first = 10 * u64::from(i);
    let last = 10 * u64::from(n) - 1;
    let set = run(alloc, first.saturating_sub(1), last.min(first + 10))?;
    records.push(Record::Ispace { id: 2 + n + i, set })?;
    records.push(Record::Sub {
        part: 2,
        colour: i,
        space: 2 + n + i,
    })?;
    Ok(())
}

/// Adds the pieces, each with a point of each neighbour.
pub fn push_halos(alloc: Global, records: &mut Vec<Record>, n: u32) -> Result<(), AllocError>
    requires few { n ≤ 500 }
    ensures { OnOk result (records.new.items
        ≡ records.old.items ++ stencils.for_each n (stencils.halo_space n)) }
{
    for i in 0..n {
        push_halo(alloc, records, n, i)?;
    }
    Ok(())
}

/// Adds the two points at a boundary.
fn push_boundary(alloc: Global, records: &mut Vec<Record>, n: u32, j: u32) -> Result<(), AllocError>
    requires few { n ≤ 500 }
    requires boundary { j < n }
    ensures { OnOk result (records.new.items ≡ records.old.items ++ stencils.boundary_spaces n j) }
{
    let first = 10 * u64::from(j);
    let before = run(alloc, first + 9, first + 9)?;
    records.push(Record::Ispace {
        id: 2 + 2 * n + 2 * j,
        set: before,
    })?;
    let after = run(alloc, first + 10, first + 10)?;
    records.push(Record::Ispace {
        id: 3 + 2 * n + 2 * j,
        set: after,
    })?;
    Ok(())
}

/// Adds the points at the boundaries.
pub fn push_boundaries(alloc: Global, records: &mut Vec<Record>, n: u32) -> Result<(), AllocError>
    requires some { 1 ≤ n }
    requires few { n ≤ 500 }
    ensures { OnOk result (records.new.items
        ≡ records.old.items ++ stencils.for_each (n - 1) (stencils.boundary_spaces n)) }
{
    for j in 0..n - 1 {
        push_boundary(alloc, records, n, j)?;
    }
    Ok(())
}

/// Adds two fields, and the tree.
pub fn push_tree(alloc: Global, records: &mut Vec<Record>) -> Result<(), AllocError>
    ensures { OnOk result (records.new.items ≡ records.old.items ++ stencils.tree) }
{
    let fields = numbers(alloc, &[1, 2])?;
    records.push(Record::Fields { id: 1, fields })?;
    records.push(Record::Tree {
        id: 1,
        space: 1,
        fspace: 1,
    })?;
    Ok(())
}

/// Adds the instance of a piece.
fn push_instance(alloc: Global, records: &mut Vec<Record>, n: u32, i: u32) -> Result<(), AllocError>
    requires few { n ≤ 500 }
    requires piece { i < n }
    ensures { OnOk result (records.new.items ≡ records.old.items ++ stencils.instance n i) }
{
    let fields = numbers(alloc, &[1, 2])?;
    records.push(Record::Inst {
        id: i + 1,
        tree: 1,
        space: 2 + n + i,
        fields,
        kind: InstKind::Plain,
    })?;
    Ok(())
}

/// Adds the instances.
pub fn push_instances(alloc: Global, records: &mut Vec<Record>, n: u32) -> Result<(), AllocError>
    requires few { n ≤ 500 }
    ensures { OnOk result (records.new.items ≡ records.old.items ++ stencils.for_each n (stencils.instance n)) }
{
    for i in 0..n {
        push_instance(alloc, records, n, i)?;
    }
    Ok(())
}

/// Adds the fill.
pub fn push_fill(alloc: Global, records: &mut Vec<Record>) -> Result<(), AllocError>
    ensures { OnOk result (records.new.items ≡ records.old.items ++ stencils.fill) }
{
    let fields = numbers(alloc, &[1])?;
    records.push(Record::Fill {
        id: 1,
        tree: 1,
        space: 1,
        fields,
        n: 0,
    })?;
    Ok(())
}

/// Adds the put that fills the instance of a piece.
fn push_put(alloc: Global, records: &mut Vec<Record>, n: u32, i: u32) -> Result<(), AllocError>
    requires few { n ≤ 500 }
    requires piece { i < n }
    ensures { OnOk result (records.new.items ≡ records.old.items ++ stencils.put n i) }
{
    let fields = numbers(alloc, &[1])?;
    let waits = numbers(alloc, &[])?;
    records.push(Record::Put {
        inst: i + 1,
        space: 2 + n + i,
        fields,
        n: 0,
        done: i + 1,
        waits,
    })?;
    Ok(())
}

/// Adds the puts.
pub fn push_puts(alloc: Global, records: &mut Vec<Record>, n: u32) -> Result<(), AllocError>
    requires few { n ≤ 500 }
    ensures { OnOk result (records.new.items ≡ records.old.items ++ stencils.for_each n (stencils.put n)) }
{
    for i in 0..n {
        push_put(alloc, records, n, i)?;
    }
    Ok(())
}
