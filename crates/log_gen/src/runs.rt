//! The operations of the steps.

ghost use Rattle.std.specs.Prelude.{◌≡◌, ◌≤◌, ◌<◌, ◌+◌, ◌-◌, ◌++◌, ◌∷◌, [], false, IfOk, OnOk};
ghost use Rattle.spy_grammar.specs.declared.record.Record.TheVariants as rows;
ghost use Rattle.log_gen.specs.Stencil as stencils;

use crate::events::{first_task, left_event, right_event, stencil_event, update_event};
use crate::pieces::numbers;
use crate::waits::{left_waits, right_waits, stencil_waits, update_waits};
use spy_grammar::{PrivWord, Record};
use std::alloc::{AllocError, Global};

/// A requirement of a task on a field of a space.
fn requirement(
    alloc: Global,
    task: u32,
    space: u32,
    field: u32,
    access: PrivWord,
) -> Result<Record, AllocError>
    ensures { IfOk result (λ rec. rec ≡ rows.Req task 1 space (field ∷ []) access false) }
{
    let fields = numbers(alloc, &[field])?;
    Ok(Record::Req {
        task,
        tree: 1,
        space,
        fields,
        access,
        atomic: false,
    })
}

/// The mapping of a requirement of a task, which has one field, to an instance.
fn mapping(alloc: Global, task: u32, req: u32, field: u32, inst: u32) -> Result<Record, AllocError>
    ensures { IfOk result (λ rec. rec ≡ rows.Map task req (field ∷ []) inst) }
{
    let fields = numbers(alloc, &[field])?;
    Ok(Record::Map {
        task,
        req,
        fields,
        inst,
    })
}

/// Adds the stencil task of a step at a piece.
fn push_stencil_run(
    alloc: Global,
    records: &mut Vec<Record>,
    n: u32,
    s: u32,
    i: u32,
) -> Result<(), AllocError>
    requires few { n ≤ 500 }
    requires step { s < 10 }
    requires piece { i < n }
    ensures { OnOk result (records.new.items ≡ records.old.items ++ stencils.stencil_run n s i) }
{
    let task = first_task(n, s) + i;
    records.push(Record::Task { id: task })?;
    records.push(requirement(alloc, task, 2 + n + i, 1, PrivWord::Ro)?)?;
    records.push(requirement(alloc, task, 2 + i, 2, PrivWord::Wd)?)?;
    records.push(mapping(alloc, task, 1, 1, i + 1)?)?;
    records.push(mapping(alloc, task, 2, 2, i + 1)?)?;
    let waits = stencil_waits(alloc, n, s, i)?;
    records.push(Record::Run {
        task,
        done: stencil_event(n, s, i),
        waits,
    })?;
    Ok(())
}

/// Adds the stencil tasks of a step.
fn push_stencil_runs(
    alloc: Global,
    records: &mut Vec<Record>,
    n: u32,
    s: u32,
) -> Result<(), AllocError>
    requires few { n ≤ 500 }
    requires step { s < 10 }
    ensures { OnOk result (records.new.items
        ≡ records.old.items ++ stencils.for_each n (stencils.stencil_run n s)) }
{
    for i in 0..n {
        push_stencil_run(alloc, records, n, s, i)?;
    }
    Ok(())
}

/// Adds the update task of a step at a piece.
fn push_update_run(
    alloc: Global,
    records: &mut Vec<Record>,
    n: u32,
    s: u32,
    i: u32,
) -> Result<(), AllocError>
    requires few { n ≤ 500 }
    requires step { s < 10 }
    requires piece { i < n }
    ensures { OnOk result (records.new.items ≡ records.old.items ++ stencils.update_run n s i) }
{
    let task = first_task(n, s) + n + i;
    records.push(Record::Task { id: task })?;
    records.push(requirement(alloc, task, 2 + i, 2, PrivWord::Ro)?)?;
    records.push(requirement(alloc, task, 2 + i, 1, PrivWord::Rw)?)?;
    records.push(mapping(alloc, task, 1, 2, i + 1)?)?;
    records.push(mapping(alloc, task, 2, 1, i + 1)?)?;
    let waits = update_waits(alloc, n, s, i)?;
    records.push(Record::Run {
        task,
        done: update_event(n, s, i),
        waits,
    })?;
    Ok(())
}

/// Adds the update tasks of a step.
fn push_update_runs(
    alloc: Global,
    records: &mut Vec<Record>,
    n: u32,
    s: u32,
) -> Result<(), AllocError>
    requires few { n ≤ 500 }
    requires step { s < 10 }
    ensures { OnOk result (records.new.items
        ≡ records.old.items ++ stencils.for_each n (stencils.update_run n s)) }
{
    for i in 0..n {
        push_update_run(alloc, records, n, s, i)?;
    }
    Ok(())
}

/// Adds the copy of a step over a boundary to the right.
fn push_right_copy(
    alloc: Global,
    records: &mut Vec<Record>,
    n: u32,
    s: u32,
    j: u32,
) -> Result<(), AllocError>
    requires few { n ≤ 500 }
    requires step { s < 10 }
    requires boundary { j + 1 < n }
    ensures { OnOk result (records.new.items ≡ records.old.items ++ stencils.right_copy n s j) }
{
    let fields = numbers(alloc, &[1])?;
    let waits = right_waits(alloc, n, s, j)?;
    records.push(Record::Copy {
        src: j + 1,
        dst: j + 2,
        space: 2 + 2 * n + 2 * j,
        fields,
        done: right_event(n, s, j),
        waits,
    })?;
    Ok(())
}

/// Adds the copy of a step over a boundary to the left.
fn push_left_copy(
    alloc: Global,
    records: &mut Vec<Record>,
    n: u32,
    s: u32,
    j: u32,
) -> Result<(), AllocError>
    requires few { n ≤ 500 }
    requires step { s < 10 }
    requires boundary { j + 1 < n }
    ensures { OnOk result (records.new.items ≡ records.old.items ++ stencils.left_copy n s j) }
{
    let fields = numbers(alloc, &[1])?;
    let waits = left_waits(alloc, n, s, j)?;
    records.push(Record::Copy {
        src: j + 2,
        dst: j + 1,
        space: 3 + 2 * n + 2 * j,
        fields,
        done: left_event(n, s, j),
        waits,
    })?;
    Ok(())
}

/// Adds the copies of a step over a boundary.
fn push_copies_over(
    alloc: Global,
    records: &mut Vec<Record>,
    n: u32,
    s: u32,
    j: u32,
) -> Result<(), AllocError>
    requires few { n ≤ 500 }
    requires step { s < 10 }
    requires boundary { j + 1 < n }
    ensures { OnOk result (records.new.items ≡ records.old.items ++ stencils.copies n s j) }
{
    push_right_copy(alloc, records, n, s, j)?;
    push_left_copy(alloc, records, n, s, j)?;
    Ok(())
}

/// Adds the copies of a step.
fn push_copies(alloc: Global, records: &mut Vec<Record>, n: u32, s: u32) -> Result<(), AllocError>
    requires some { 1 ≤ n }
    requires few { n ≤ 500 }
    requires step { s < 10 }
    ensures { OnOk result (records.new.items
        ≡ records.old.items ++ stencils.for_each (n - 1) (stencils.copies n s)) }
{
    for j in 0..n - 1 {
        push_copies_over(alloc, records, n, s, j)?;
    }
    Ok(())
}

/// Adds a step.
fn push_step(alloc: Global, records: &mut Vec<Record>, n: u32, s: u32) -> Result<(), AllocError>
    requires some { 1 ≤ n }
    requires few { n ≤ 500 }
    requires step { s < 10 }
    ensures { OnOk result (records.new.items ≡ records.old.items ++ stencils.step n s) }
{
    push_stencil_runs(alloc, records, n, s)?;
    push_update_runs(alloc, records, n, s)?;
    push_copies(alloc, records, n, s)?;
    Ok(())
}

/// How many steps there are.
const STEPS: u32 = 10;

/// Adds the steps.
pub fn push_steps(alloc: Global, records: &mut Vec<Record>, n: u32) -> Result<(), AllocError>
    requires some { 1 ≤ n }
    requires few { n ≤ 500 }
    ensures { OnOk result (records.new.items ≡ records.old.items ++ stencils.for_each 10 (stencils.step n)) }
{
    for s in 0..STEPS {
        push_step(alloc, records, n, s)?;
    }
    Ok(())
}
