//! The requirements of each item, by their positions.

ghost use Rattle.std.specs.Prelude.{IfOk, OnOk};
ghost use Rattle.serial_exec.specs.OwnReqs.{AreOwn, IsNoted};

use number_lists::NumberLists;
use semantics::Req;
use std::alloc::{AllocError, Global};

/// Adds a position to the list of an item, if it has one.
fn note_own(lists: &mut NumberLists, item: usize, k: usize) -> Result<(), AllocError>
    ensures { OnOk result (IsNoted item k lists.old lists.new) }
{
    if item < lists.len() {
        lists.push(item, k)?;
    }
    Ok(())
}

/// For each of so many items the positions of its requirements.
pub(crate) fn own_reqs(alloc: Global, count: usize, reqs: &[Req]) -> Result<NumberLists, AllocError>
    ensures { IfOk result (λ lists. AreOwn reqs.now reqs.now count lists) }
{
    let mut lists = NumberLists::empty(alloc, count)?;
    for (k, req) in reqs.iter().enumerate() {
        note_own(&mut lists, req.item, k)?;
    }
    Ok(lists)
}
