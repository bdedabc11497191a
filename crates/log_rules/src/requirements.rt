//! Where requirements and fills lie, and which fields a tree or a requirement has.

ghost use Rattle.std.specs.Prelude.{◌≡◌, [], not, IfSome};
ghost use Rattle.std.specs.List.Sorted.{IsStrictlyIncreasing};
ghost use Rattle.std.specs.Option.{option_copied, option_map_or};
ghost use Rattle.vocabulary.specs.Prelude.{fields_in, is_within};
ghost use Rattle.semantics.specs.Rules.{is_not_in_tree, has_wrong_fields, exceeds_tree};

use crate::fields::is_within;
use crate::named::Named;
use crate::spaces::lies_in;
use log_tables::LogTables;
use point_set::PointSet;
use semantics::{Req, Tree};
use spy_grammar::{Nums, Record};

/// Whether the space of a requirement or a fill lies outside its tree.
pub fn is_not_in_tree<P: PointSet>(named: &Named<'_, P>) -> bool
    ensures { result ≡ is_not_in_tree named.now.tables.now named.now.rec.now }
{
    match named.rec {
        Record::Req { space, .. } | Record::Fill { space, .. } => {
            !lies_in(named.tables, named.tree, *space)
        }
        _ => false,
    }
}

/// Whether some field is none of those of a tree, if it is declared.
fn exceeds<P: PointSet>(tables: &LogTables<P>, tree: Option<Tree>, fields: &Nums) -> bool
    ensures { result ≡ not (is_within fields.now
        (option_map_or (λ r. fields_in tables.now r.fspace) tree [])) }
{
    match tree {
        Some(tree) => !is_within(fields.as_slice(), tables.fields(tree.fspace)),
        None => !is_within(fields.as_slice(), &[]),
    }
}

/// Whether some field is none of a tree's.
pub fn exceeds_tree<P: PointSet>(tables: &LogTables<P>, tree: u32, fields: &Nums) -> bool
    ensures { result ≡ exceeds_tree tables.now tree fields.now }
{
    exceeds(tables, tables.tree(tree), fields)
}

/// Whether some field is none of those of a requirement, if there is one.
fn exceeds_req(req: Option<&Req>, fields: &Nums) -> bool
    requires { IfSome req (λ r. IsStrictlyIncreasing r.now.fields) }
    ensures { result ≡ not (is_within fields.now (option_map_or (λ r. r.fields) (option_copied req.entry) [])) }
{
    match req {
        Some(req) => !is_within(fields.as_slice(), req.fields.as_slice()),
        None => !is_within(fields.as_slice(), &[]),
    }
}

/// Whether a record has a field that its tree does not have, or, a map, one that its requirement does not have.
pub fn has_wrong_fields<P: PointSet>(named: &Named<'_, P>) -> bool
    ensures { result ≡ has_wrong_fields named.now.tables.now named.now.rec.now }
{
    let rec = named.rec;
    match rec {
        Record::Req { fields, .. } | Record::Fill { fields, .. } | Record::Inst { fields, .. } => {
            exceeds(named.tables, named.tree, fields)
        }
        Record::Map { fields, .. } => exceeds_req(named.req, fields),
        _ => false,
    }
}
