//! What is written for each task of a launch.

ghost use Rattle.std.specs.Prelude.{◌≡◌, ◌+◌, ◌^◌, ◌≤◌, ◌++◌, false, true, is_none, is_some, length, IfOk, OnOk};
ghost use Rattle.std.specs.List.{list_any};
ghost use Rattle.vocabulary.specs.Prelude.{Good};
ghost use Rattle.spy_grammar.specs.declared.record.Record.TheVariants as records;
ghost use Rattle.semantics.specs.Launches.{for_tasks};
ghost use Rattle.launches.specs.Steps.{AreGood, req_for, space_by};

use crate::writing::Writing;
use memory::Memory;
use spy_grammar::Record;
use spy_words::{Nums, PrivWord};
use std::alloc::{AllocError, Global};

/// The requirement that each task of a launch has on the subspace of its colour.
#[derive(Clone, Copy)]
pub(crate) struct TaskReqs<'r> {
    pub(crate) tree: u32,
    pub(crate) part: u32,
    pub(crate) fields: &'r Nums,
    pub(crate) access: PrivWord,
    pub(crate) atomic: bool,
}

/// The requirement of one task.
#[tactic(auto, using(launch_laws::proofs::lemmas::WrittenLogs::good_req))]
fn req_for(
    writing: &Writing,
    alloc: Global,
    reqs: &TaskReqs<'_>,
    id: u32,
    colour: u32,
) -> Result<Record, Memory>
    requires id { 1 ≤ id }
    requires good { AreGood reqs.now }
    requires found { is_none (space_by writing.now reqs.now.part colour) ≡ false }
    ensures req { IfOk result (λ r. r ≡ req_for writing.now reqs.now id colour) }
    ensures good { IfOk result Good }
{
    let space = match writing.space_under(reqs.part, colour) {
        Some(space) => space,
        None => unreachable!(),
    };
    Ok(Record::Req {
        task: id,
        tree: reqs.tree,
        space,
        fields: Nums::from_slice(alloc, reqs.fields.as_slice())?,
        access: reqs.access,
        atomic: reqs.atomic,
    })
}

/// Whether a partition has no subspace so far under some of these colours.
pub(crate) fn lacks_space(writing: &Writing, part: u32, colours: &[u32]) -> bool
    ensures { result ≡ list_any (λ colour. is_none (space_by writing.now part colour)) colours.now }
{
    colours
        .iter()
        .any(|colour| writing.space_under(part, *colour).is_none())
}

/// Writes the tasks of a launch.
pub(crate) fn push_tasks(
    writing: &mut Writing,
    alloc: Global,
    base: u32,
    colours: &[u32],
) -> Result<(), Memory>
    requires id { 1 ≤ base }
    requires ids { base + length colours.now ≤ 2 ^ 32 }
    ensures { OnOk result (writing.new
        ≡ writing.old ++ for_tasks (λ id colour. records.Task id) base colours.now) }
{
    let mut id = u64::from(base);
    for _colour in colours {
        writing.push(alloc, Record::Task { id: id as u32 })?;
        id += 1;
    }
    Ok(())
}

/// Writes a requirement of each task of a launch.
pub(crate) fn push_reqs(
    writing: &mut Writing,
    alloc: Global,
    reqs: &TaskReqs<'_>,
    base: u32,
    colours: &[u32],
) -> Result<(), Memory>
    requires id { 1 ≤ base }
    requires ids { base + length colours.now ≤ 2 ^ 32 }
    requires good { AreGood reqs.now }
    requires found { list_any (λ colour. is_none (space_by writing.old reqs.now.part colour)) colours.now ≡ false }
    ensures { OnOk result (writing.new
        ≡ writing.old ++ for_tasks (req_for writing.old reqs.now) base colours.now) }
{
    let mut id = u64::from(base);
    for colour in colours {
        let rec = req_for(writing, alloc, reqs, id as u32, *colour)?;
        writing.push(alloc, rec)?;
        id += 1;
    }
    Ok(())
}
