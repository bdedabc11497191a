//! What a record names and how much it asks for, looked up once for all rules.

ghost use Rattle.std.specs.Prelude.{◌≡◌, IfSome, Some, false};
ghost use Rattle.std.proofs.Props.{props};
ghost use Rattle.std.specs.List.Sorted.{IsStrictlyIncreasing};
ghost use Rattle.std.specs.Option.{option_copied};
ghost use Rattle.semantics.specs.Rules.{inst_id, is_declared, is_planar, tree_id};
ghost use Rattle.log_limits.specs.Sums.{cut};
ghost use Rattle.log_rules.specs.Counts.{size_asked};
ghost use Rattle.log_rules.specs.Lookups.{before_named, inst_id_in, inst_named, item_named, req_named, target_id_in, target_named, tree_id_in, tree_named};

use crate::counts::accesses_asked;
use log_tables::LogTables;
use point_set::PointSet;
use semantics::{Inst, Req, Tree};
use spy_grammar::Record;

/// A record, the tables of the earlier records, what the record names of these, and how much it asks for. Each is looked up once, however many rules ask for it.
#[derive(Drop)]
pub struct Named<'t, P: PointSet> {
    pub tables: &'t LogTables<P>,
    pub rec: &'t Record,
    /// The tree of a requirement, a fill or an instance.
    pub(crate) tree: Option<Tree>,
    /// The position of the task of a requirement, a map or a run, and the number of items where there is none. 0 of other records.
    pub(crate) item: usize,
    /// How many requirements the task of a requirement has so far. 0 of other records.
    pub(crate) before: usize,
    /// How many accesses the record asks for, in a log of the first version. In one of the second they are counted at its end.
    pub(crate) asked: u128,
    /// The requirement of a map.
    pub(crate) req: Option<&'t Req>,
    /// The instance of a map, a put or a reset, or the source of a copy or a fold.
    pub(crate) inst: Option<&'t Inst>,
    /// The target of a copy or a fold.
    pub(crate) target: Option<&'t Inst>,
    ghost is_tree: { tree ≡ tree_named tables.now rec.now },
    ghost is_item: { item ≡ item_named tables.now rec.now },
    ghost is_before: { before ≡ before_named tables.now rec.now },
    ghost is_asked: { is_planar tables.now ≡ false → asked ≡ cut (size_asked tables.now rec.now) } by { Prim.hlevel props },
    ghost is_req: { option_copied req ≡ req_named tables.now rec.now },
    ghost is_inst: { option_copied inst ≡ inst_named tables.now rec.now },
    ghost is_target: { option_copied target ≡ target_named tables.now rec.now },
    // Fields are looked for among those of a requirement or of an instance by searches.
    ghost req_ascends: { IfSome req (λ r. IsStrictlyIncreasing r.now.fields) } by { Prim.hlevel props },
    ghost inst_ascends: { IfSome inst (λ i. IsStrictlyIncreasing i.now.fields) } by { Prim.hlevel props },
    ghost target_ascends: { IfSome target (λ i. IsStrictlyIncreasing i.now.fields) } by { Prim.hlevel props },
}

/// The tree that a record names.
fn tree_named<P: PointSet>(tables: &LogTables<P>, rec: &Record) -> Option<Tree>
    ensures { result ≡ tree_named tables.now rec.now }
{
    match rec {
        Record::Req { tree, .. } | Record::Fill { tree, .. } | Record::Inst { tree, .. } => {
            tables.tree(*tree)
        }
        _ => None,
    }
}

/// The position of the item that a record names.
fn item_named<P: PointSet>(tables: &LogTables<P>, rec: &Record) -> usize
    ensures { result ≡ item_named tables.now rec.now }
{
    match rec {
        Record::Req { task, .. } | Record::Map { task, .. } | Record::Run { task, .. } => {
            tables.place(*task)
        }
        _ => 0,
    }
}

/// How many requirements the task of a requirement has so far, whose position is this one.
fn before_named<P: PointSet>(tables: &LogTables<P>, rec: &Record, item: usize) -> usize
    requires { item ≡ item_named tables.now rec.now }
    ensures { result ≡ before_named tables.now rec.now }
{
    match rec {
        Record::Req { .. } => tables.req_count(item),
        _ => 0,
    }
}

/// The requirement that a record names, whose item is at this position.
fn req_named<'t, P: PointSet>(
    tables: &'t LogTables<P>,
    rec: &Record,
    item: usize,
) -> Option<&'t Req>
    requires { item ≡ item_named tables.now rec.now }
    ensures req { option_copied result ≡ req_named tables.now rec.now }
    ensures ascend { IfSome result (λ r. IsStrictlyIncreasing r.now.fields) }
{
    match rec {
        Record::Map { req, .. } => tables.req(item, *req),
        _ => None,
    }
}

/// The instance that a record names first.
fn inst_named<'t, P: PointSet>(tables: &'t LogTables<P>, rec: &Record) -> Option<&'t Inst>
    ensures inst { option_copied result ≡ inst_named tables.now rec.now }
    ensures ascend { IfSome result (λ i. IsStrictlyIncreasing i.now.fields) }
{
    match rec {
        Record::Map { inst, .. }
        | Record::Copy { src: inst, .. }
        | Record::Put { inst, .. }
        | Record::Reset { inst, .. }
        | Record::Fold { src: inst, .. } => tables.inst(*inst),
        _ => None,
    }
}

/// The target that a record names.
fn target_named<'t, P: PointSet>(tables: &'t LogTables<P>, rec: &Record) -> Option<&'t Inst>
    ensures target { option_copied result ≡ target_named tables.now rec.now }
    ensures ascend { IfSome result (λ i. IsStrictlyIncreasing i.now.fields) }
{
    match rec {
        Record::Copy { dst, .. } | Record::Fold { dst, .. } => tables.inst(*dst),
        _ => None,
    }
}

impl<'t, P: PointSet> Named<'t, P> {
    /// A record, with what it names of the tables of the earlier records.
    pub fn of(tables: &'t LogTables<P>, rec: &'t Record) -> Named<'t, P>
        ensures tables { result.tables.now ≡ tables.now }
        ensures rec { result.rec.now ≡ rec.now }
    {
        let item = item_named(tables, rec);
        Named {
            tables,
            rec,
            tree: tree_named(tables, rec),
            item,
            before: before_named(tables, rec, item),
            asked: accesses_asked(tables, rec),
            req: req_named(tables, rec, item),
            inst: inst_named(tables, rec),
            target: target_named(tables, rec),
        }
    }
    /// Whether the tree is declared that the record names by this id.
    pub(crate) fn has_tree(&self, id: u32) -> bool
        requires { tree_id_in self.now.rec.now ≡ Some id }
        ensures { result ≡ is_declared self.now.tables.now (tree_id id) }
    {
        self.tree.is_some()
    }

    /// Whether the instance is declared that the record names first, by this id.
    pub(crate) fn has_inst(&self, id: u32) -> bool
        requires { inst_id_in self.now.rec.now ≡ Some id }
        ensures { result ≡ is_declared self.now.tables.now (inst_id id) }
    {
        self.inst.is_some()
    }

    /// Whether the target is declared that the record names by this id.
    pub(crate) fn has_target(&self, id: u32) -> bool
        requires { target_id_in self.now.rec.now ≡ Some id }
        ensures { result ≡ is_declared self.now.tables.now (inst_id id) }
    {
        self.target.is_some()
    }
}
