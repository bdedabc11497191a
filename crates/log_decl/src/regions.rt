//! Whether what a log declares makes a forest, or the line of the first subspace that breaks a rule of it.

ghost use Rattle.std.specs.Prelude.{◌≡◌, ◌<◌, List, [], OnOk, length, slice_get};
ghost use Rattle.vocabulary.specs.Prelude.{Record, tables_of};
ghost use Rattle.log_tables.specs.Regions.{regions_of};
ghost use Rattle.region_tree.specs.Sound.{IsSound};
ghost use Rattle.log_decl.specs.Ends.{IsFaultOf};
ghost use Rattle.log_decl.specs.SubLines.{sub_line, sub_lines};
ghost use Rattle.log_decl.specs.Walk.{Keep, spaces_fault};

use crate::decl_end::DeclEnd;
use log_tables::LogTables;
use region_tree::{Forest, ForestFault, SetOfRects};
use spy_grammar::{Code, Lined, Record};
use std::alloc::Global;

/// The line of a record that declares a subspace.
fn sub_line(l: &Lined) -> Option<u32>
    ensures { result ≡ sub_line l.now.line l.now.rec }
{
    match &l.rec {
        Record::Sub { .. } => Some(l.line),
        _ => None,
    }
}

/// The line that declares a subspace, by its place among the subspaces.
fn sub_line_at(records: &[Lined], sub: usize) -> Option<u32>
    ensures { result ≡ slice_get (sub_lines records.now) sub }
{
    records.iter().filter_map(|l| sub_line(l)).nth(sub)
}

/// The line that declares one of the subspaces, by its place among them.
fn line_of_sub(records: &[Lined], sub: usize) -> u32
    requires { sub < length (sub_lines records.now) }
    ensures { Some result ≡ slice_get (sub_lines records.now) sub }
{
    match sub_line_at(records, sub) {
        Some(line) => line,
        None => unreachable!(),
    }
}

/// Judges the forest that some records declare: the fault of the first of them that breaks a rule of it.
pub(crate) fn judge_forest<P: SetOfRects>(
    alloc: Global,
    tables: &LogTables<P>,
    records: &[Lined],
) -> Result<(), DeclEnd>
    requires tables { tables.now ≡ tables_of records.now }
    requires keep { (log : List Record) × Keep log [] records.now }
    ensures sound { OnOk result (IsSound (regions_of tables.now)) }
    ensures faultless { OnOk result (spaces_fault [] records.now ≡ None) }
    ensures fault { IsFaultOf result (spaces_fault [] records.now) }
{
    match Forest::judge(alloc, tables.regions()) {
        Ok(_) => Ok(()),
        Err(ForestFault::NotWithin { sub, .. }) => Err(DeclEnd::Fault {
            line: line_of_sub(records, sub),
            code: Code::NotWithin,
        }),
        Err(ForestFault::NotDisjoint { sub, .. }) => Err(DeclEnd::Fault {
            line: line_of_sub(records, sub),
            code: Code::NotDisjoint,
        }),
        Err(ForestFault::Memory) => Err(DeclEnd::Memory),
    }
}
