//! The changes of the items of a log, gathered in serial order.

ghost use Rattle.std.specs.Prelude.{◌≡◌, [], ◌∷◌, ◌++◌, map, length, IfOk, OnOk};
ghost use Rattle.std.specs.List.Sorted.{IsStrictlyIncreasing};
ghost use Rattle.vocabulary.specs.Prelude.{Place, points_in};
ghost use Rattle.semantics.specs.SerialOrder.{serial};
ghost use Rattle.serial_exec.specs.Changes.{Adds, covered, by_task, use_changes, uses_changes, item_changes, items_changes};
ghost use Rattle.serial_exec.specs.Histories.{listed};
ghost use Rattle.serial_exec.specs.OwnReqs.{AreOwn, reqs_at};

use crate::change::{Action, Change, task_action};
use crate::histories::note_all;
use crate::own_reqs::own_reqs;
use crate::place_lists::PlaceLists;
use cut_logs::CutLog;
use number_lists::NumberLists;
use point_set::PointSet;
use semantics::{ItemBody, Req};
use std::alloc::{AllocError, Global};
use value_terms::Base;

/// Some fields of the points of a space in a tree.
#[derive(Clone, Copy)]
struct Region<'r> {
    tree: u32,
    space: u32,
    fields: &'r [u32],
}

/// One change more in a region.
fn note_in_region<P: PointSet + Copy>(
    histories: &mut PlaceLists<Change>,
    log: &CutLog<'_, '_, '_, P>,
    region: &Region<'_>,
    change: Change,
) -> Result<(), AllocError>
    requires { IsStrictlyIncreasing region.now.fields.now }
    ensures { OnOk result (Adds change
        (covered region.now.tree (points_in log.now region.now.space) region.now.fields.now)
        (listed histories.old) (listed histories.new)) }
{
    match log.set(region.space) {
        Some(set) => note_all(histories, &set, region.tree, region.fields, change),
        None => Ok(()),
    }
}

/// What a task does by a requirement.
fn note_req<P: PointSet + Copy>(
    histories: &mut PlaceLists<Change>,
    log: &CutLog<'_, '_, '_, P>,
    position: usize,
    task: u32,
    req: &Req,
) -> Result<(), AllocError>
    requires { IsStrictlyIncreasing req.now.fields }
    ensures { OnOk result ((p : Place) → listed histories.new p ≡ listed histories.old p ++
        use_changes log.now position (by_task task) req.now p) }
{
    match task_action(task, req.number, req.access) {
        Some(action) => {
            let change = Change { position, action };
            let fields = req.fields.as_slice();
            let region = Region {
                tree: req.tree,
                space: req.space,
                fields,
            };
            note_in_region(histories, log, &region, change)
        }
        None => Ok(()),
    }
}

/// What a task does by the requirement at a position.
fn note_req_at<P: PointSet + Copy>(
    histories: &mut PlaceLists<Change>,
    log: &CutLog<'_, '_, '_, P>,
    position: usize,
    task: u32,
    k: usize,
) -> Result<(), AllocError>
    ensures { OnOk result ((p : Place) → listed histories.new p ≡ listed histories.old p ++
        uses_changes log.now position (by_task task)
        (reqs_at log.now.reqs (k ∷ [])) p) }
{
    match log.reqs().get(k) {
        Some(req) => note_req(histories, log, position, task, req),
        None => Ok(()),
    }
}

/// What a task does by the requirements at some positions.
fn note_reqs<P: PointSet + Copy>(
    histories: &mut PlaceLists<Change>,
    log: &CutLog<'_, '_, '_, P>,
    position: usize,
    task: u32,
    own: &[usize],
) -> Result<(), AllocError>
    ensures { OnOk result ((p : Place) → listed histories.new p ≡ listed histories.old p ++
        uses_changes log.now position (by_task task)
        (reqs_at log.now.reqs own.now) p) }
{
    for k in own {
        note_req_at(histories, log, position, task, *k)?;
    }
    Ok(())
}

/// What an item does.
fn note_item<P: PointSet + Copy>(
    histories: &mut PlaceLists<Change>,
    log: &CutLog<'_, '_, '_, P>,
    own: &NumberLists,
    position: usize,
    item: usize,
) -> Result<(), AllocError>
    requires { AreOwn log.now.reqs log.now.reqs (length log.now.items) own.now }
    ensures { OnOk result ((p : Place) → listed histories.new p ≡ listed histories.old p ++
        item_changes log.now position item p) }
{
    log.fill_fields_ascend();
    let Some(found) = log.items().get(item) else {
        return Ok(());
    };
    match &found.body {
        ItemBody::Task => note_reqs(histories, log, position, found.id, own.list(item)),
        ItemBody::Fill {
            tree,
            space,
            fields,
            n,
        } => {
            let change = Change {
                position,
                action: Action::Put(Base::Const(*n)),
            };
            let fields = fields.as_slice();
            let region = Region {
                tree: *tree,
                space: *space,
                fields,
            };
            note_in_region(histories, log, &region, change)
        }
    }
}

/// What the items of a log do, in serial order.
pub(crate) fn histories_of<P: PointSet + Copy>(
    alloc: Global,
    log: &CutLog<'_, '_, '_, P>,
) -> Result<PlaceLists<Change>, AllocError>
    ensures { IfOk result (λ h. (p : Place) → listed h p
        ≡ items_changes log.now 0 (serial log.now) p) }
{
    let own = own_reqs(alloc, log.items().len(), log.reqs())?;
    let mut histories = PlaceLists::new(alloc);
    let order = log.serial();
    for position in 0..order.len() {
        note_item(&mut histories, log, &own, position, order[position])?;
    }
    Ok(histories)
}
