//! The first rule on single records that a record breaks. The two rules of the forest are left out.
//!
//! Each function asks of some kinds of record the rules that look at them, in the order in which they are
//! tried. No other rule is broken by a record of these kinds. `first_broken` picks the function; begin there.

ghost use Rattle.std.specs.Prelude.{◌≡◌, find, IfOk, None, true};
ghost use Rattle.semantics.specs.Faults.{record_rules};
ghost use Rattle.semantics.specs.Rules.{is_end};
ghost use Rattle.log_tables.specs.Views.{Ascends};
ghost use Rattle.log_decl.specs.Walk.{IfAt, IfAtEnd, breaks_other};
ghost use Rattle.log_decl.specs.RulesOf.{first_true, of_ends, of_insts, of_maps, of_names, of_nodes, of_reqs, of_serials, of_spaces, of_subs};

use log_limits::Corners;
use log_rules::{
    Named, Tally, WholeLog, has_many_accesses, has_many_atoms, has_many_cells, has_many_points,
    has_many_reads, has_much_load, has_no_run, has_wrong_fields, interferes_with_own,
    is_bad_serial, is_late, is_late_sub, is_mapped_again, is_no_root, is_not_covered,
    is_not_in_tree, is_of_other_version, is_of_wrong_kind, is_of_wrong_tree, is_run_again,
    is_sub_again, is_too_deep, names_unknown, repeats_event, repeats_id, waits_for_none,
};
use point_set::PointSet;
use region_tree::{Memory, SetOfRects};
use spy_grammar::Code::*;
use spy_grammar::{Code, Lined, Record};
use std::alloc::Global;

/// A record of a log and what it names, with what the rules ask of: the log as a whole, the earlier records, and what these declare and add up to.
#[derive(Clone, Copy)]
pub(crate) struct AtRecord<'w, 'l, P: PointSet> {
    pub(crate) whole: &'w WholeLog<'l>,
    pub(crate) named: &'w Named<'w, P>,
    pub(crate) tally: &'w Tally,
    /// How many cells the grid of the rectangles up to the record has, where the log is of the second version.
    pub(crate) cells: u128,
    pub(crate) earlier: &'w [Lined],
}

/// The first of some rules that is broken.
fn first_true(tests: &[(Code, bool)]) -> Option<Code>
    ensures { result ≡ first_true tests.now }
{
    let mut rest = tests;
    while let [test, more @ ..] = rest {
        if test.1 {
            return Some(test.0);
        }
        rest = more;
    }
    None
}

/// The first rule that the header breaks, or a record that declares a partition, a field space, a tree, an operator or a task.
fn first_of_name<P: PointSet>(at: &AtRecord<'_, '_, P>) -> Option<Code>
    ensures { IfAtEnd at.now None (λ r. result ≡ find (breaks_other r) of_names) }
{
    let named = at.named;
    let tables = named.tables;
    let rec = named.rec;
    first_true(&[
        (TooManyRecords, is_late(at.earlier.len(), rec)),
        (RepeatedId, repeats_id(tables, rec)),
        (UnknownId, names_unknown(named)),
        (NotRoot, is_no_root(tables, rec)),
        (NoRun, has_no_run(at.whole, rec)),
        (
            TooManyAccesses,
            has_many_accesses(named, at.tally, None, at.earlier),
        ),
    ])
}

/// The first rule that a record breaks that declares a space.
fn first_of_space<P: PointSet>(at: &AtRecord<'_, '_, P>) -> Option<Code>
    requires { Ascends at.now.named.now.rec.now }
    ensures { IfAtEnd at.now None (λ r. result ≡ find (breaks_other r) of_spaces) }
{
    let named = at.named;
    let tables = named.tables;
    let rec = named.rec;
    first_true(&[
        (TooManyRecords, is_late(at.earlier.len(), rec)),
        (RepeatedId, repeats_id(tables, rec)),
        (TooManyPoints, has_many_points(tables, at.tally, rec)),
        (TooManyAtoms, has_many_atoms(tables, at.cells, rec)),
        (
            TooManyAccesses,
            has_many_accesses(named, at.tally, None, at.earlier),
        ),
        (Version, is_of_other_version(tables, rec)),
    ])
}

/// The first rule that a record breaks that declares a subspace.
fn first_of_sub<P: PointSet>(at: &AtRecord<'_, '_, P>) -> Option<Code>
    ensures { IfAtEnd at.now None (λ r. result ≡ find (breaks_other r) of_subs) }
{
    let named = at.named;
    let tables = named.tables;
    let rec = named.rec;
    first_true(&[
        (TooManyRecords, is_late(at.earlier.len(), rec)),
        (RepeatedId, repeats_id(tables, rec)),
        (UnknownId, names_unknown(named)),
        (SpaceInTwo, is_sub_again(tables, rec)),
        (LateSub, is_late_sub(tables, rec)),
        (TooDeep, is_too_deep(tables, rec)),
        (
            TooManyAccesses,
            has_many_accesses(named, at.tally, None, at.earlier),
        ),
    ])
}

/// The first rule that a requirement or a fill breaks.
fn first_of_req<P: PointSet>(
    alloc: Global,
    at: &AtRecord<'_, '_, P>,
) -> Result<Option<Code>, Memory>
    requires { Ascends at.now.named.now.rec.now }
    ensures { IfAtEnd at.now None (λ r. IfOk result (λ code. code ≡ find (breaks_other r) of_reqs)) }
{
    let named = at.named;
    let tables = named.tables;
    let rec = named.rec;
    let interferes = interferes_with_own(alloc, named, at.tally)?;
    Ok(first_true(&[
        (TooManyRecords, is_late(at.earlier.len(), rec)),
        (RepeatedId, repeats_id(tables, rec)),
        (UnknownId, names_unknown(named)),
        (NotInTree, is_not_in_tree(named)),
        (Fields, has_wrong_fields(named)),
        (SelfInterference, interferes),
        (
            TooManyAccesses,
            has_many_accesses(named, at.tally, None, at.earlier),
        ),
    ]))
}

/// The first rule that a record breaks that lists items in serial order.
fn first_of_serial<P: PointSet>(
    alloc: Global,
    at: &AtRecord<'_, '_, P>,
) -> Result<Option<Code>, Memory>
    ensures { IfAtEnd at.now None (λ r. IfOk result (λ code. code ≡ find (breaks_other r) of_serials)) }
{
    let named = at.named;
    let tables = named.tables;
    let rec = named.rec;
    let is_bad = is_bad_serial(alloc, at.whole, tables, at.tally, rec)?;
    Ok(first_true(&[
        (TooManyRecords, is_late(at.earlier.len(), rec)),
        (UnknownId, names_unknown(named)),
        (Serial, is_bad),
        (
            TooManyAccesses,
            has_many_accesses(named, at.tally, None, at.earlier),
        ),
    ]))
}

/// The first rule that a record breaks that declares an instance.
fn first_of_inst<P: PointSet>(at: &AtRecord<'_, '_, P>) -> Option<Code>
    ensures { IfAtEnd at.now None (λ r. result ≡ find (breaks_other r) of_insts) }
{
    let named = at.named;
    let tables = named.tables;
    let rec = named.rec;
    first_true(&[
        (TooManyRecords, is_late(at.earlier.len(), rec)),
        (RepeatedId, repeats_id(tables, rec)),
        (UnknownId, names_unknown(named)),
        (Fields, has_wrong_fields(named)),
        (NotCovered, is_not_covered(named, at.tally)),
        (TooManyCells, has_many_cells(tables, at.tally, None, rec)),
        (
            TooManyAccesses,
            has_many_accesses(named, at.tally, None, at.earlier),
        ),
    ])
}

/// The first rule that a map breaks.
fn first_of_map<P: PointSet>(at: &AtRecord<'_, '_, P>) -> Option<Code>
    ensures { IfAtEnd at.now None (λ r. result ≡ find (breaks_other r) of_maps) }
{
    let named = at.named;
    let rec = named.rec;
    first_true(&[
        (TooManyRecords, is_late(at.earlier.len(), rec)),
        (UnknownId, names_unknown(named)),
        (Fields, has_wrong_fields(named)),
        (WrongTree, is_of_wrong_tree(named)),
        (WrongKind, is_of_wrong_kind(named)),
        (NotCovered, is_not_covered(named, at.tally)),
        (MappedTwice, is_mapped_again(named)),
        (
            TooManyAccesses,
            has_many_accesses(named, at.tally, None, at.earlier),
        ),
    ])
}

/// The first rule that a run, an operation on data or a merge breaks.
fn first_of_node<P: PointSet>(at: &AtRecord<'_, '_, P>) -> Option<Code>
    ensures { IfAtEnd at.now None (λ r. result ≡ find (breaks_other r) of_nodes) }
{
    let named = at.named;
    let tables = named.tables;
    let rec = named.rec;
    first_true(&[
        (TooManyRecords, is_late(at.earlier.len(), rec)),
        (UnknownId, names_unknown(named)),
        (WrongTree, is_of_wrong_tree(named)),
        (WrongKind, is_of_wrong_kind(named)),
        (NotCovered, is_not_covered(named, at.tally)),
        (TwoRuns, is_run_again(named)),
        (RepeatedEvent, repeats_event(tables, rec)),
        (UndefinedEvent, waits_for_none(at.whole, rec)),
        (
            TooManyAccesses,
            has_many_accesses(named, at.tally, None, at.earlier),
        ),
    ])
}

/// The first rule that the end of a log breaks, where it is given how many cells begin in each space if the log is of the second version.
fn first_of_end<P: PointSet>(
    alloc: Global,
    at: &AtRecord<'_, '_, P>,
    corners: Option<&Corners>,
) -> Result<Option<Code>, Memory>
    ensures { IfAtEnd at.now corners.entry (λ r. IfOk result (λ code. code ≡ find (breaks_other r) of_ends)) }
{
    let named = at.named;
    let tables = named.tables;
    let rec = named.rec;
    let within = first_true(&[
        (TooManyCells, has_many_cells(tables, at.tally, corners, rec)),
        (
            TooManyAccesses,
            has_many_accesses(named, at.tally, corners, at.earlier),
        ),
    ]);
    if within.is_some() {
        return Ok(within);
    }
    let has_load = has_much_load(alloc, tables, corners, rec)?;
    Ok(first_true(&[
        (TooMuchLoad, has_load),
        (TooManyReads, has_many_reads(tables, rec)),
    ]))
}

/// The first rule that the end of a log breaks. At the end of a log of the second version it is counted how many cells begin in each space.
fn first_at_end<P: SetOfRects>(
    alloc: Global,
    at: &AtRecord<'_, '_, P>,
) -> Result<Option<Code>, Memory>
    requires { is_end at.now.named.now.rec.now ≡ true }
    ensures { IfAt at.now (λ r. IfOk result (λ code. code ≡ find (breaks_other r) of_ends)) }
{
    if at.named.tables.is_planar() {
        let corners = Corners::of(alloc, at.named.tables)?;
        first_of_end(alloc, at, Some(&corners))
    } else {
        first_of_end(alloc, at, None)
    }
}

/// The first rule that a record breaks, but for those of the forest.
pub(crate) fn first_broken<P: SetOfRects>(
    alloc: Global,
    at: &AtRecord<'_, '_, P>,
) -> Result<Option<Code>, Memory>
    requires { Ascends at.now.named.now.rec.now }
    ensures { IfAt at.now (λ r. IfOk result (λ code. code ≡ find (breaks_other r) record_rules)) }
{
    match at.named.rec {
        Record::Header { .. }
        | Record::Part { .. }
        | Record::Fields { .. }
        | Record::Tree { .. }
        | Record::Redop { .. }
        | Record::Task { .. } => Ok(first_of_name(at)),
        Record::Ispace { .. } | Record::Plane { .. } => Ok(first_of_space(at)),
        Record::Sub { .. } => Ok(first_of_sub(at)),
        Record::Req { .. } | Record::Fill { .. } => first_of_req(alloc, at),
        Record::Serial { .. } => first_of_serial(alloc, at),
        Record::Inst { .. } => Ok(first_of_inst(at)),
        Record::Map { .. } => Ok(first_of_map(at)),
        Record::Run { .. }
        | Record::Copy { .. }
        | Record::Put { .. }
        | Record::Reset { .. }
        | Record::Fold { .. }
        | Record::Merge { .. } => Ok(first_of_node(at)),
        Record::End { .. } => first_at_end(alloc, at),
    }
}
