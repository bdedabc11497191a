//! What one record more launches and writes.

ghost use Rattle.std.specs.Prelude.{◌≡◌, ◌+◌, ◌-◌, ◌^◌, ◌<◌, ◌≤◌, ◌==◌, ◌++◌, ◌∷◌, [], false, All, find, is_none, length, map, OnOk, IfSome};
ghost use Rattle.std.specs.List.{list_any};
ghost use Rattle.std.specs.Option.{option_map};
ghost use Rattle.vocabulary.specs.Prelude.{GoodLaunch, Good};
ghost use Rattle.spy_grammar.specs.declared.launches.LRecord.TheVariants as launching;
ghost use Rattle.semantics.specs.Faults.{is_end};
ghost use Rattle.semantics.specs.Launches.{Expanded, colours_of, exceeds_ids, for_tasks, names_no_launch, with_launching, writes};
ghost use Rattle.launches.specs.Steps.{AreGood, HasTaskIds, expanded_as, launch_seen, req_for, space_by};

use crate::launched::Launched;
use crate::tasks::{TaskReqs, push_reqs, push_tasks};
use crate::writing::Writing;
use log_tables::{ById, Rows};
use memory::Memory;
use spy_grammar::{LRecord, Record};
use std::alloc::Global;

/// The first launch with this id.
pub(crate) fn launch_of(launches: &Rows<ById, Launched>, base: u32) -> Option<&Launched>
    requires { All HasTaskIds launches.now }
    ensures first { option_map (λ l. launch_seen l.now) result
        ≡ find (λ l. l.base == base) (map launch_seen launches.now) }
    ensures ids { IfSome result (λ l. base + length l.now.colours ≤ 2 ^ 32) }
{
    launches.get(base)
}

fn is_end(rec: &Record) -> bool
    ensures { result ≡ is_end rec.now }
{
    match rec {
        Record::End { .. } => true,
        _ => false,
    }
}

/// What is written for a record of a log, where so many records are written before it.
#[tactic(auto, using(crate::proofs::Stepping::writes_end, crate::proofs::Stepping::writes_other))]
fn plain_record(rec: Record, before: usize) -> Record
    requires good { Good rec }
    requires few { before < 2 ^ 32 }
    ensures record { (e : Expanded) → length e.written ≡ before → writes e (launching.Plain rec) ≡ result ∷ [] }
    ensures good { Good result }
{
    if is_end(&rec) {
        Record::End {
            n: before.saturating_sub(1) as u32,
        }
    } else {
        rec
    }
}

/// Writes a record of a log.
fn write_plain(writing: &mut Writing, alloc: Global, rec: Record) -> Result<(), Memory>
    requires good { Good rec }
    requires few { length writing.old < 2 ^ 32 }
    ensures { OnOk result ((e : Expanded) → e.written ≡ writing.old
        → writing.new ≡ writing.old ++ writes e (launching.Plain rec)) }
{
    let rec = plain_record(rec, writing.len());
    writing.push(alloc, rec)
}

/// Writes the tasks of a launch, and notes it.
fn write_launch(
    launches: &mut Rows<ById, Launched>,
    writing: &mut Writing,
    alloc: Global,
    launch: Launched,
) -> Result<(), Memory>
    requires id { 1 ≤ launch.base }
    requires ids { HasTaskIds launch }
    ensures step { OnOk result (expanded_as launches.new writing.new
        ≡ with_launching (expanded_as launches.old writing.old) (launching.Launch launch.base launch.colours)) }
    ensures noted { OnOk result (launches.new ≡ launches.old ++ launch ∷ []) }
{
    push_tasks(writing, alloc, launch.base, launch.colours.as_slice())?;
    launches.push(launch)?;
    Ok(())
}

/// Writes the requirements of the tasks of a launch.
fn write_reqs(
    launches: &Rows<ById, Launched>,
    writing: &mut Writing,
    alloc: Global,
    base: u32,
    reqs: &TaskReqs<'_>,
) -> Result<(), Memory>
    requires id { 1 ≤ base }
    requires good { AreGood reqs.now }
    requires fit { All HasTaskIds launches.now }
    requires found { list_any (λ colour. is_none (space_by writing.old reqs.now.part colour))
        (colours_of (expanded_as launches.now writing.old) base) ≡ false }
    ensures { OnOk result (writing.new ≡ writing.old
        ++ for_tasks (req_for writing.old reqs.now) base (colours_of (expanded_as launches.now writing.old) base)) }
{
    match launch_of(launches, base) {
        Some(launch) => push_reqs(writing, alloc, reqs, base, launch.colours.as_slice()),
        None => Ok(()),
    }
}

/// Adds what one record more launches and writes.
pub(crate) fn write(
    launches: &mut Rows<ById, Launched>,
    writing: &mut Writing,
    alloc: Global,
    rec: LRecord,
) -> Result<(), Memory>
    requires good { GoodLaunch rec }
    requires known { names_no_launch (expanded_as launches.old writing.old) rec ≡ false }
    requires ids { exceeds_ids rec ≡ false }
    requires few { length writing.old < 2 ^ 32 }
    requires fit { All HasTaskIds launches.old }
    ensures step { OnOk result (expanded_as launches.new writing.new
        ≡ with_launching (expanded_as launches.old writing.old) rec) }
    ensures fit { OnOk result (All HasTaskIds launches.new) }
{
    match rec {
        LRecord::Plain(rec) => write_plain(writing, alloc, rec),
        LRecord::Launch { base, colours } => {
            let launch = Launched { base, colours };
            write_launch(launches, writing, alloc, launch)
        }
        LRecord::Lreq {
            base,
            tree,
            part,
            fields,
            access,
            atomic,
        } => {
            let reqs = TaskReqs {
                tree,
                part,
                fields: &fields,
                access,
                atomic,
            };
            write_reqs(launches, writing, alloc, base, &reqs)
        }
    }
}
