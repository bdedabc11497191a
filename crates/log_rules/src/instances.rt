//! Instances: of which tree and kind they are, and what they cover.

ghost use Rattle.std.specs.Prelude.{◌≡◌, [], not, IfSome};
ghost use Rattle.std.specs.List.{list_any};
ghost use Rattle.std.specs.List.Sorted.{IsStrictlyIncreasing};
ghost use Rattle.std.specs.Option.{option_copied, option_map};
ghost use Rattle.log_rules.specs.Tallied.{IfKept, IfTally};
ghost use Rattle.log_rules.specs.Instances.{fits_inst, is_any_mapped, is_inst_of, is_lacking, is_mapped, is_reducing, root_points};
ghost use Rattle.vocabulary.specs.Prelude.{Tables, points_in, is_within};
ghost use Rattle.semantics.specs.Rules.{is_of_wrong_tree, is_of_wrong_kind, is_not_covered, is_mapped_again, is_reduction, fits};

use crate::fields::is_within;
use crate::named::Named;
use crate::space_pairs::is_vacant;
use crate::tally::Tally;
use log_tables::LogTables;
use point_set::PointSet;
use privilege::Priv;
use semantics::{Inst, Req, Tree};
use spy_grammar::{InstKind, Nums, Record};

/// The tree of an instance, if it is declared.
fn tree_of_inst(inst: Option<&Inst>) -> Option<u32>
    ensures { result ≡ option_map (λ i. i.tree) (option_copied inst.entry) }
{
    match inst {
        Some(inst) => Some(inst.tree),
        None => None,
    }
}

/// The tree of a requirement, if there is one.
fn tree_of_req(req: Option<&Req>) -> Option<u32>
    ensures { result ≡ option_map (λ r. r.tree) (option_copied req.entry) }
{
    match req {
        Some(req) => Some(req.tree),
        None => None,
    }
}

/// Whether an instance is of this tree.
fn is_of_tree(inst: Option<&Inst>, tree: Option<u32>) -> bool
    ensures { result ≡ is_inst_of tree (option_copied inst.entry) }
{
    match (inst, tree) {
        (Some(inst), Some(tree)) => inst.tree == tree,
        _ => false,
    }
}

/// Whether an instance is of another tree than its requirement, or two instances are of different trees.
pub fn is_of_wrong_tree<P: PointSet>(named: &Named<'_, P>) -> bool
    ensures { result ≡ is_of_wrong_tree named.now.tables.now named.now.rec.now }
{
    match named.rec {
        Record::Map { .. } => !is_of_tree(named.inst, tree_of_req(named.req)),
        Record::Copy { .. } | Record::Fold { .. } => {
            !is_of_tree(named.target, tree_of_inst(named.inst))
        }
        _ => false,
    }
}

fn is_reduction(kind: InstKind) -> bool
    ensures { result ≡ is_reduction kind }
{
    match kind {
        InstKind::Red(_) => true,
        _ => false,
    }
}

/// Whether this is a reduction instance.
fn reduces_in(inst: Option<&Inst>) -> bool
    ensures { result ≡ is_reducing (option_copied inst.entry) }
{
    match inst {
        Some(inst) => is_reduction(inst.kind),
        None => false,
    }
}

/// Whether a requirement with this privilege may be mapped to an instance of this kind.
fn fits(access: Priv, kind: InstKind) -> bool
    ensures { result ≡ fits access kind }
{
    match access {
        Priv::Red(op) => match kind {
            InstKind::Red(other) => op == other,
            _ => true,
        },
        _ => !is_reduction(kind),
    }
}

/// Whether a requirement may be mapped to this instance.
fn fits_inst(req: Option<&Req>, inst: Option<&Inst>) -> bool
    ensures { result ≡ fits_inst (option_copied req.entry) (option_copied inst.entry) }
{
    match (req, inst) {
        (Some(req), Some(inst)) => fits(req.access, inst.kind),
        _ => false,
    }
}

/// Whether an instance is of a kind that cannot be used so, or a copy has one instance as source and target.
pub fn is_of_wrong_kind<P: PointSet>(named: &Named<'_, P>) -> bool
    ensures { result ≡ is_of_wrong_kind named.now.tables.now named.now.rec.now }
{
    match named.rec {
        Record::Map { .. } => !fits_inst(named.req, named.inst),
        Record::Copy { src, dst, .. } => {
            reduces_in(named.inst) || reduces_in(named.target) || *src == *dst
        }
        Record::Put { .. } => reduces_in(named.inst),
        Record::Reset { .. } => !reduces_in(named.inst),
        Record::Fold { .. } => !reduces_in(named.inst) || reduces_in(named.target),
        _ => false,
    }
}

/// Whether an instance lacks a point of a space, or one of these fields.
fn lacks<P: PointSet>(
    tables: &LogTables<P>,
    tally: &Tally,
    space: u32,
    fields: &Nums,
    inst: Option<&Inst>,
) -> bool
    requires { IfSome inst (λ i. IsStrictlyIncreasing i.now.fields) }
    ensures { IfKept tables.now tally.now (result
        ≡ is_lacking tables.now (points_in tables.now space) fields.now (option_copied inst.entry)) }
{
    match inst {
        Some(inst) => {
            !(tally.pairs.within(tables, space, inst.space)
                && is_within(fields.as_slice(), inst.fields.as_slice()))
        }
        None => true,
    }
}

/// Whether an instance lacks one of these fields.
fn lacks_field(fields: &Nums, inst: Option<&Inst>) -> bool
    requires { IfSome inst (λ i. IsStrictlyIncreasing i.now.fields) }
    ensures { (t : Tables) → result ≡ is_lacking t [] fields.now (option_copied inst.entry) }
{
    match inst {
        Some(inst) => !is_within(fields.as_slice(), inst.fields.as_slice()),
        None => true,
    }
}

/// Whether a space has a point outside the root space of a tree, if it is declared.
fn exceeds_root<P: PointSet>(
    tables: &LogTables<P>,
    tally: &Tally,
    tree: Option<Tree>,
    space: u32,
) -> bool
    ensures { IfKept tables.now tally.now (result
        ≡ not (is_within (points_in tables.now space) (root_points tables.now tree))) }
{
    match tree {
        Some(tree) => !tally.pairs.within(tables, space, tree.space),
        None => !is_vacant(tables, space),
    }
}

/// Whether an instance has a point outside the root space of its tree, or lacks a point or a field of what is done with it.
pub fn is_not_covered<P: PointSet>(named: &Named<'_, P>, tally: &Tally) -> bool
    ensures { IfTally named.now.tables.now tally.now (λ earlier. result
        ≡ is_not_covered named.now.tables.now named.now.rec.now) }
{
    let tables = named.tables;
    let rec = named.rec;
    match rec {
        Record::Inst { space, .. } => exceeds_root(tables, tally, named.tree, *space),
        Record::Map { fields, .. } => match named.req {
            Some(req) => lacks(tables, tally, req.space, fields, named.inst),
            None => lacks_field(fields, named.inst),
        },
        Record::Copy { space, fields, .. } | Record::Fold { space, fields, .. } => {
            lacks(tables, tally, *space, fields, named.inst)
                || lacks(tables, tally, *space, fields, named.target)
        }
        Record::Put { space, fields, .. } | Record::Reset { space, fields, .. } => lacks(
            tables, tally, *space, fields, named.inst,
        ),
        _ => false,
    }
}

/// Whether a field of an item's requirement is mapped.
fn is_mapped<P: PointSet>(tables: &LogTables<P>, item: usize, number: u32, field: u32) -> bool
    ensures { result ≡ is_mapped tables.now item number field }
{
    tables.inst_of(item, number, field).is_some()
}

/// Whether one of some fields of an item's requirement is mapped, field by field.
fn finds_mapped<P: PointSet>(
    tables: &LogTables<P>,
    item: usize,
    number: u32,
    fields: &[u32],
) -> bool
    ensures { result ≡ list_any (is_mapped tables.now item number) fields.now }
{
    fields
        .iter()
        .any(|field| is_mapped(tables, item, number, *field))
}

/// Whether one of some fields of an item's requirement is mapped.
fn is_any_mapped<P: PointSet>(
    tables: &LogTables<P>,
    item: usize,
    number: u32,
    fields: &Nums,
) -> bool
    ensures { result ≡ is_any_mapped tables.now item number fields.now }
{
    finds_mapped(tables, item, number, fields.as_slice())
}

/// Whether a map maps a field that its requirement has mapped already.
pub fn is_mapped_again<P: PointSet>(named: &Named<'_, P>) -> bool
    ensures { result ≡ is_mapped_again named.now.tables.now named.now.rec.now }
{
    match named.rec {
        Record::Map { req, fields, .. } => is_any_mapped(named.tables, named.item, *req, fields),
        _ => false,
    }
}
