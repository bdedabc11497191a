//! What operations wait on.

ghost use Rattle.std.specs.Prelude.{◌≡◌, ◌≤◌, ◌<◌, ◌+◌, ◌++◌, IfOk, OnOk};
ghost use Rattle.log_gen.specs.Waits as waiting;

use crate::events::{left_event, right_event, stencil_event, update_event};
use spy_grammar::Nums;
use std::alloc::{AllocError, Global};

/// Adds the copy of a step into a piece from its left neighbour.
fn push_copy_from_left(waits: &mut Vec<u32>, n: u32, s: u32, i: u32) -> Result<(), AllocError>
    requires few { n ≤ 500 }
    requires step { s < 10 }
    requires piece { i < n }
    ensures { OnOk result (waits.new.items ≡ waits.old.items ++ waiting.copy_from_left n s i) }
{
    if i > 0 {
        waits.push(right_event(n, s, i - 1))?;
    }
    Ok(())
}

/// Adds the copy of a step into a piece from its right neighbour.
fn push_copy_from_right(waits: &mut Vec<u32>, n: u32, s: u32, i: u32) -> Result<(), AllocError>
    requires few { n ≤ 500 }
    requires step { s < 10 }
    requires piece { i < n }
    ensures { OnOk result (waits.new.items ≡ waits.old.items ++ waiting.copy_from_right n s i) }
{
    if i < n - 1 {
        waits.push(left_event(n, s, i))?;
    }
    Ok(())
}

/// Adds the copy of a step out of a piece to its left neighbour.
fn push_copy_to_left(waits: &mut Vec<u32>, n: u32, s: u32, i: u32) -> Result<(), AllocError>
    requires few { n ≤ 500 }
    requires step { s < 10 }
    requires piece { i < n }
    ensures { OnOk result (waits.new.items ≡ waits.old.items ++ waiting.copy_to_left n s i) }
{
    if i > 0 {
        waits.push(left_event(n, s, i - 1))?;
    }
    Ok(())
}

/// Adds the copy of a step out of a piece to its right neighbour.
fn push_copy_to_right(waits: &mut Vec<u32>, n: u32, s: u32, i: u32) -> Result<(), AllocError>
    requires few { n ≤ 500 }
    requires step { s < 10 }
    requires piece { i < n }
    ensures { OnOk result (waits.new.items ≡ waits.old.items ++ waiting.copy_to_right n s i) }
{
    if i < n - 1 {
        waits.push(right_event(n, s, i))?;
    }
    Ok(())
}

/// What the stencil task of a step waits on.
pub fn stencil_waits(alloc: Global, n: u32, s: u32, i: u32) -> Result<Nums, AllocError>
    requires few { n ≤ 500 }
    requires step { s < 10 }
    requires piece { i < n }
    ensures { IfOk result (λ r. r ≡ waiting.stencil_waits n s i) }
{
    let mut waits = Vec::new(alloc);
    if s == 0 {
        waits.push(i + 1)?;
        return Nums::from_slice(alloc, waits.as_slice());
    }
    waits.push(update_event(n, s - 1, i))?;
    push_copy_from_left(&mut waits, n, s - 1, i)?;
    push_copy_from_right(&mut waits, n, s - 1, i)?;
    Nums::from_slice(alloc, waits.as_slice())
}

/// What the update task of a step waits on.
pub fn update_waits(alloc: Global, n: u32, s: u32, i: u32) -> Result<Nums, AllocError>
    requires few { n ≤ 500 }
    requires step { s < 10 }
    requires piece { i < n }
    ensures { IfOk result (λ r. r ≡ waiting.update_waits n s i) }
{
    let mut waits = Vec::new(alloc);
    waits.push(stencil_event(n, s, i))?;
    if s == 0 {
        return Nums::from_slice(alloc, waits.as_slice());
    }
    push_copy_to_left(&mut waits, n, s - 1, i)?;
    push_copy_to_right(&mut waits, n, s - 1, i)?;
    Nums::from_slice(alloc, waits.as_slice())
}

/// What the copy of a step over a boundary to the right waits on.
pub fn right_waits(alloc: Global, n: u32, s: u32, j: u32) -> Result<Nums, AllocError>
    requires few { n ≤ 500 }
    requires step { s < 10 }
    requires boundary { j + 1 < n }
    ensures { IfOk result (λ r. r ≡ waiting.right_waits n s j) }
{
    let waits = [update_event(n, s, j), stencil_event(n, s, j + 1)];
    Nums::from_slice(alloc, waits.as_slice())
}

/// What the copy of a step over a boundary to the left waits on.
pub fn left_waits(alloc: Global, n: u32, s: u32, j: u32) -> Result<Nums, AllocError>
    requires few { n ≤ 500 }
    requires step { s < 10 }
    requires boundary { j + 1 < n }
    ensures { IfOk result (λ r. r ≡ waiting.left_waits n s j) }
{
    let waits = [update_event(n, s, j + 1), stencil_event(n, s, j)];
    Nums::from_slice(alloc, waits.as_slice())
}
