//! What has an id, and what a record names by one.

ghost use Rattle.std.specs.Prelude.{◌≡◌};
ghost use Rattle.std.specs.List.{list_all};
ghost use Rattle.semantics.specs.Rules.{repeats_id, names_unknown, is_declared, names, lacks_req, reduced_by, held_by, item_id};

use crate::named::Named;
use log_tables::LogTables;
use point_set::PointSet;
use spy_grammar::{InstKind, PrivWord, Record};

/// Whether a record declares an id that is declared already, or a colour that its partition has already.
pub fn repeats_id<P: PointSet>(tables: &LogTables<P>, rec: &Record) -> bool
    ensures { result ≡ repeats_id tables.now rec.now }
{
    match rec {
        Record::Ispace { id, .. } | Record::Plane { id, .. } => tables.has_space(*id),
        Record::Part { id, .. } => tables.has_part(*id),
        Record::Sub { part, colour, .. } => tables.has_colour(*part, *colour),
        Record::Fields { id, .. } => tables.has_field_space(*id),
        Record::Tree { id, .. } => tables.has_tree(*id),
        Record::Redop { id } => tables.has_operator(*id),
        Record::Task { id } | Record::Fill { id, .. } => tables.has_item(*id),
        Record::Inst { id, .. } => tables.has_inst(*id),
        _ => false,
    }
}

/// Whether the operator of a privilege, if it has one, is declared.
fn has_operator_of<P: PointSet>(tables: &LogTables<P>, access: PrivWord) -> bool
    ensures { result ≡ list_all (is_declared tables.now) (reduced_by access) }
{
    match access {
        PrivWord::Red(op) => tables.has_operator(op),
        _ => true,
    }
}

/// Whether the operator of an instance, if it has one, is declared.
fn has_operator_held<P: PointSet>(tables: &LogTables<P>, kind: InstKind) -> bool
    ensures { result ≡ list_all (is_declared tables.now) (held_by kind) }
{
    match kind {
        InstKind::Red(op) => tables.has_operator(op),
        _ => true,
    }
}

fn has_items<P: PointSet>(tables: &LogTables<P>, ids: &[u32]) -> bool
    ensures { result ≡ list_all (λ id. is_declared tables.now (item_id id)) ids.now }
{
    ids.iter().all(|id| tables.has_item(*id))
}

/// Whether all that a record names is declared.
fn knows_names<P: PointSet>(named: &Named<'_, P>) -> bool
    ensures { result ≡ list_all (is_declared named.now.tables.now) (names named.now.rec.now) }
{
    let tables = named.tables;
    let rec = named.rec;
    match rec {
        Record::Part { space, .. } => tables.has_space(*space),
        Record::Sub { part, space, .. } => tables.has_part(*part) && tables.has_space(*space),
        Record::Tree { space, fspace, .. } => tables.has_space(*space)
            && tables.has_field_space(*fspace),
        Record::Req {
            task,
            tree,
            space,
            access,
            ..
        } => {
            tables.has_task(*task)
                && named.has_tree(*tree)
                && tables.has_space(*space)
                && has_operator_of(tables, *access)
        }
        Record::Fill { tree, space, .. } => named.has_tree(*tree) && tables.has_space(*space),
        Record::Serial { items } => has_items(tables, items.as_slice()),
        Record::Inst {
            tree,
            space,
            kind,
            ..
        } => {
            named.has_tree(*tree) && tables.has_space(*space) && has_operator_held(tables, *kind)
        }
        Record::Map { task, inst, .. } => tables.has_task(*task) && named.has_inst(*inst),
        Record::Run { task, .. } => tables.has_task(*task),
        Record::Copy {
            src,
            dst,
            space,
            ..
        }
        | Record::Fold {
            src,
            dst,
            space,
            ..
        } => { named.has_inst(*src) && named.has_target(*dst) && tables.has_space(*space) }
        Record::Put { inst, space, .. } | Record::Reset { inst, space, .. } => {
            named.has_inst(*inst) && tables.has_space(*space)
        }
        _ => true,
    }
}

/// Whether a record names a requirement that its task does not have.
fn lacks_req<P: PointSet>(named: &Named<'_, P>) -> bool
    ensures { result ≡ lacks_req named.now.tables.now named.now.rec.now }
{
    match named.rec {
        Record::Map { .. } => !named.req.is_some(),
        _ => false,
    }
}

/// Whether a record names a thing that is not declared, or a requirement that its task does not have.
pub fn names_unknown<P: PointSet>(named: &Named<'_, P>) -> bool
    ensures { result ≡ names_unknown named.now.tables.now named.now.rec.now }
{
    !knows_names(named) || lacks_req(named)
}
