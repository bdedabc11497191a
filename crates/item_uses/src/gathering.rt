//! What the items of a log ask for, gathered from its tables.

ghost use Rattle.std.specs.Prelude.{◌≡◌, ◌<◌, [], false, IfOk, OnOk, length, map, slice_get};
ghost use Rattle.std.specs.List.Sorted.{IsStrictlyIncreasing};
ghost use Rattle.std.specs.Option.{option_map_or};
ghost use Rattle.vocabulary.specs.Prelude.{points_in};
ghost use Rattle.semantics.specs.Rules.{is_task};
ghost use Rattle.log_tables.specs.Ascending.{body_fields};
ghost use Rattle.item_uses.specs.Usages.{usage, usage_of, usages};
ghost use Rattle.item_uses.specs.Gathered.{own_usages, with_usage};

use crate::item::ItemUses;
use crate::usage::{ReqParts, Use};
use bumpalo::Bump;
use log_tables::LogTables;
use point_set::PointSet;
use privilege::{Coherence, Priv};
use semantics::{Item, ItemBody, Req};
use std::alloc::{AllocError, Global};

/// What is asked for, with its fields in the arena.
fn placed_use<'a, P: PointSet + Copy>(
    bump: &'a Bump,
    tables: &LogTables<P>,
    asked: &ReqParts<'_>,
) -> Result<Use<'a, P>, AllocError>
    requires { IsStrictlyIncreasing asked.now.fields.now }
    ensures { IfOk result (λ one. one ≡ usage asked.now.tree asked.now.space
        (points_in tables.now asked.now.space) asked.now.fields.now asked.now.access asked.now.coherence) }
{
    let fields = bump.try_alloc_slice_copy(asked.fields)?;
    let placed = ReqParts { fields, ..*asked };
    Ok(Use::new(&placed, tables.set(asked.space).copied()))
}

/// What an item asks for by itself.
fn own_uses<'a, P: PointSet + Copy>(
    alloc: Global,
    bump: &'a Bump,
    tables: &LogTables<P>,
    item: &Item,
) -> Result<ItemUses<'a, P>, AllocError>
    requires { IsStrictlyIncreasing (body_fields item.now.body) }
    ensures { IfOk result (λ uses. uses ≡ own_usages tables.now item.now) }
{
    let mut uses = ItemUses::new(alloc);
    if let ItemBody::Fill {
        tree,
        space,
        fields,
        ..
    } = &item.body
    {
        let asked = ReqParts {
            tree: *tree,
            space: *space,
            fields: fields.as_slice(),
            access: Priv::Wd,
            coherence: Coherence::Exclusive,
        };
        let one = placed_use(bump, tables, &asked)?;
        uses.push(one)?;
    }
    Ok(uses)
}

/// What each item asks for by itself.
fn own_uses_of_all<'a, P: PointSet + Copy>(
    alloc: Global,
    bump: &'a Bump,
    tables: &LogTables<P>,
) -> Result<Vec<ItemUses<'a, P>>, AllocError>
    ensures { IfOk result (λ items. items.items ≡ map (own_usages tables.now) tables.now.items) }
{
    let mut all = Vec::new(alloc);
    for item in tables.items() {
        all.push(own_uses(alloc, bump, tables, item)?)?;
    }
    Ok(all)
}

/// Whether the item at a position is a task.
pub fn is_task_at(items: &[Item], item: usize) -> bool
    ensures { result ≡ option_map_or (λ i. is_task i.body) (slice_get items.now item) false }
{
    match items.get(item) {
        Some(item) => match item.body {
            ItemBody::Task => true,
            _ => false,
        },
        None => false,
    }
}

/// One requirement of an item more.
fn add_req<'a, P: PointSet + Copy>(
    bump: &'a Bump,
    tables: &LogTables<P>,
    items: &mut Vec<ItemUses<'a, P>>,
    req: &Req,
) -> Result<(), AllocError>
    requires each { length items.old.items ≡ length tables.now.items }
    requires ascend { IsStrictlyIncreasing req.now.fields }
    ensures { OnOk result (items.new.items
        ≡ with_usage tables.now items.old.items req.now.item (usage_of tables.now req.now)) }
{
    if !is_task_at(tables.items(), req.item) {
        return Ok(());
    }
    let asked = ReqParts {
        tree: req.tree,
        space: req.space,
        fields: req.fields.as_slice(),
        access: req.access,
        coherence: req.coherence,
    };
    let one = placed_use(bump, tables, &asked)?;
    items[req.item].push(one)
}

/// All requirements, each of its item.
fn add_reqs<'a, P: PointSet + Copy>(
    bump: &'a Bump,
    tables: &LogTables<P>,
    items: &mut Vec<ItemUses<'a, P>>,
) -> Result<(), AllocError>
    requires { items.old.items ≡ map (own_usages tables.now) tables.now.items }
    ensures { OnOk result (items.new.items ≡ usages tables.now) }
{
    for req in tables.reqs() {
        add_req(bump, tables, items, req)?;
    }
    Ok(())
}

/// What each item of a log asks for, in program order. The fields lie in the arena.
pub fn uses_of_items<'a, P: PointSet + Copy>(
    alloc: Global,
    bump: &'a Bump,
    tables: &LogTables<P>,
) -> Result<Vec<ItemUses<'a, P>>, AllocError>
    ensures { IfOk result (λ items. items.items ≡ usages tables.now) }
{
    let mut items = own_uses_of_all(alloc, bump, tables)?;
    add_reqs(bump, tables, &mut items)?;
    Ok(items)
}
