//! What `nested` finds in the records of a nested log.

ghost use Rattle.std.specs.Prelude.{All, IfOk};
ghost use Rattle.findings.specs.Texts as texts;
ghost use Rattle.spy_grammar.specs.Nested.{GoodNested};
ghost use Rattle.semantics.specs.Nesting.{AreNestedLines};
ghost use Rattle.outcomes.specs.NestedOutcome.{NestedFinds};
ghost use Rattle.nested.specs.Nested.{FindsLicensed, FindsUnlicensed};

use crate::building::build;
use crate::nest::Nest;
use crate::nest_end::NestEnd;
use bumpalo::Bump;
use findings::Finding;
use memory::Memory;
use point_set::{PointSet, RectSet};
use semantics::Unlicensed;
use spy_grammar::NLined;
use std::alloc::Global;

/// What is found in a nested log that keeps all rules, and of which no child asks for more than its group licenses.
fn licensed_finding<P: PointSet + Copy>(
    alloc: Global,
    nest: &Nest<'_, P>,
) -> Result<Finding, Memory>
    ensures found { IfOk result (FindsLicensed nest.now.tables nest.now.nesting) }
    ensures text { IfOk result texts.Good }
{
    Ok(Finding::Nested {
        tasks: nest.task_count() as u32,
        groups: nest.group_count() as u32,
        free: nest.free_pairs(alloc)?,
    })
}

/// What is found where a child asks for more than its group licenses.
fn unlicensed_finding(shown: Unlicensed) -> Finding
    ensures found { FindsUnlicensed shown result }
    ensures text { texts.Good result }
{
    Finding::Unlicensed {
        leaf: shown.child.leaf,
        child: shown.child.id,
        req: shown.req,
        group: shown.child.group,
        tree: shown.place.tree,
        point: shown.place.point,
        field: shown.place.field,
    }
}

/// What is found in the records of a nested log, which has so many lines: the fault that is shown, the first child that asks for more than its group licenses, or how many tasks and groups there are, and how many pairs of groups are free of each other.
pub fn find(alloc: Global, records: Vec<NLined>, lines: u32) -> Result<Finding, Memory>
    requires good { All (λ l. GoodNested l.rec) records.items }
    requires lines { AreNestedLines lines records.items }
    ensures found { IfOk result (NestedFinds lines records.items) }
    ensures text { IfOk result texts.Good }
{
    let bump = Bump::new(alloc);
    match build::<RectSet<'_>>(alloc, &bump, records, lines) {
        Ok(nest) => {
            let found = licensed_finding(alloc, &nest);
            nest.let_go();
            found
        }
        Err(NestEnd::Fault { line, code }) => Ok(Finding::Fault { line, code }),
        Err(NestEnd::Unlicensed(shown)) => Ok(unlicensed_finding(shown)),
        Err(NestEnd::Memory) => Err(Memory),
    }
}
